// What the replay says when it stops: a line of standard output.
use answer::Answer;
use run_stream::input::Broken;
use run_stream::side::Side;
use std::fmt;

// Runs begun, calls of the last of them that agree, and all calls by what they answered.
#[derive(Clone, Copy, Default)]
pub struct Counts {
    pub runs: u64,
    pub frames: u64,
    pub accepted: u64,
    pub refused: u64,
    pub quiet: u64,
}

// A call of the stream: runs, and the frames of a run, count from 0.
#[derive(Clone, Copy)]
pub struct Place {
    pub run: u64,
    pub frame: u64,
}

// What is wrong with a call, or with the stream there.
#[derive(Clone, Copy)]
pub enum Fault {
    Broken,
    // Kept: the answer wanted is a number: (a) the line printed has whatever byte the stream has, an answer's number or not.
    Answer {
        answer: Answer,
        wanted: u8,
    },
    Touched(Side),
    Differs {
        side: Side,
        place: usize,
        bits: u64,
        wanted: u64,
    },
}

// Why the replay stops: the stream ends as it should, or something is wrong.
#[derive(Clone, Copy)]
pub enum Stop {
    End(Counts),
    At(Place, Fault),
}

impl From<Broken> for Fault {
    fn from(_broken: Broken) -> Fault {
        Fault::Broken
    }
}

impl fmt::Display for Fault {
    fn fmt<W: fmt::Write>(&self, f: &mut fmt::Formatter<W>) -> fmt::Result {
        match *self {
            Fault::Broken => f.write_str(
                "the stream breaks off, or has a record that it cannot have",
            ),
            Fault::Answer { answer, wanted } => {
                write!(f, "answer {}, wanted {wanted}", u8::from(answer))
            }
            Fault::Touched(side) => write!(f, "not accepted, and yet it wrote to {side}"),
            Fault::Differs {
                side,
                place,
                bits,
                wanted,
            } => {
                let slot = place / 128;
                let band = place % 128 / 2;
                let part = if place % 2 == 0 { "re" } else { "im" };
                write!(
                    f,
                    "{side} slot {slot} band {band} {part} {bits:016x}, wanted {wanted:016x}"
                )
            }
        }
    }
}

impl fmt::Display for Stop {
    fn fmt<W: fmt::Write>(&self, f: &mut fmt::Formatter<W>) -> fmt::Result {
        match *self {
            Stop::End(counts) => {
                let Counts {
                    runs,
                    accepted,
                    refused,
                    quiet,
                    ..
                } = counts;
                write!(
                    f,
                    "replay: {runs} runs held: {accepted} frames accepted, {refused} refused, {quiet} quiet"
                )
            }
            Stop::At(at, fault) => {
                let Place { run, frame } = at;
                write!(f, "replay: run {run} frame {frame}: {fault}")
            }
        }
    }
}
