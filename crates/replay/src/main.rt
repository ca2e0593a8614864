// Holds the decoder to the Rust, over the stream of runs on standard input (oracle/README.md, "Streams"): every answer, every bit of both outputs of an
// accepted frame, and that any other call leaves both outputs as they were. It says how many calls are so, or which is the first that is not. The decoder is
// the one that C links: its state lies in lent memory.
#![tactic(auto)]

mod sides;
mod text;

use answer::Answer;
use run_stream::head::{Head, Kind};
use run_stream::{head, input};
use sides::Sides;
use std::io::Read;
use text::{Counts, Fault, Place, Stop};

// The bytes of a record's given samples, of 12 each.
const BYTES: usize = 12 * head::INPUT;

impl Counts {
    // The call that is being played.
    fn place(self) -> Place {
        Place {
            run: self.runs.wrapping_sub(1),
            frame: self.frames,
        }
    }

    fn count(&mut self, answer: Answer) {
        self.frames = self.frames.wrapping_add(1);
        match answer {
            Answer::Done => self.accepted = self.accepted.wrapping_add(1),
            Answer::Quiet => self.quiet = self.quiet.wrapping_add(1),
            _ => self.refused = self.refused.wrapping_add(1),
        }
    }
}

// What is carried from record to record, and the memory that is lent to a call and to what is read.
#[derive(Clone, Copy)]
struct Replay {
    counts: Counts,
    memory: [f64; lefasumu::MEMORY],
    line: [u8; head::LINE],
    bytes: [u8; BYTES],
    input: [f64; head::INPUT],
    sides: Sides,
}

impl Replay {
    fn new() -> Replay {
        Replay {
            counts: Counts::default(),
            memory: [0.0; lefasumu::MEMORY],
            line: [0; head::LINE],
            bytes: [0; BYTES],
            input: [0.0; head::INPUT],
            sides: Sides::new(),
        }
    }

    // A run starts from a fresh decoder.
    fn begin(&mut self, asked: usize) {
        self.counts.runs = self.counts.runs.wrapping_add(1);
        self.counts.frames = 0;
        lefasumu::lefasumu_start(&mut self.memory, asked);
    }

    fn play(&mut self, head: Head) -> Answer {
        self.sides.mark();
        let left = &mut self.sides.left[..];
        let right = &mut self.sides.right[..];
        let number = lefasumu::lefasumu_frame(
            &mut self.memory,
            &self.line[..head.line.min(head::LINE)],
            &self.input[..head.input.min(head::INPUT)],
            head.number,
            &mut left[..head.left.min(head::SIDE)],
            &mut right[..head.right.min(head::SIDE)],
        );
        // No call has another number than an answer's.
        Answer::try_from(number).unwrap_or(Answer::Sample)
    }

    // A call with what it hands in, which stands behind its head.
    fn call(&mut self, reader: &mut impl Read, head: Head) -> Result<(), Fault> {
        if !head.fits() {
            return Err(Fault::Broken);
        }
        input::load(
            reader,
            head,
            &mut self.line,
            &mut self.bytes,
            &mut self.input,
        )?;
        let answer = self.play(head);
        self.sides.agree(reader, head, answer, &mut self.bytes)?;
        self.counts.count(answer);
        Ok(())
    }

    // One record of the stream.
    fn step(&mut self, reader: &mut impl Read) -> Result<(), Stop> {
        let place = self.counts.place();
        let Ok(head) = input::next_head(reader, &mut self.bytes) else {
            return Err(Stop::At(place, Fault::Broken));
        };
        match head.kind {
            Ok(Kind::End) => Err(Stop::End(self.counts)),
            Ok(Kind::Run) => {
                self.begin(head.number);
                Ok(())
            }
            Ok(Kind::Call) => self
                .call(reader, head)
                .map_err(|fault| Stop::At(place, fault)),
            Err(_) => Err(Stop::At(place, Fault::Broken)),
        }
    }
}

fn main(rt: HostRuntime) {
    let mut reader = rt.stdin();
    let mut replay = Replay::new();
    // A proved loop has to end: no input uses up these turns.
    for _ in 0..u64::MAX {
        if let Err(stop) = replay.step(&mut reader) {
            let _ = println!(&rt; "{stop}");
            break;
        }
    }
}
