// The stages against the Rust's. The stream has for each accepted frame a head of 48 bytes, the cue line, the samples, and the Rust's numbers after
// analysis, de-correlation, mixing and synthesis. It is said how many frames of each layout hold at each stage, and where the first difference is.
ghost use Rattle.std.specs.Prelude.{◌≤◌};

use super::carried::Carried;
use super::compare::{Fault, Stage};
use super::play::{Call, INPUT, Stages};
use super::stream::{Head, Piece};
use super::{carried, compare, play, stream};
use layout::Layout;
use std::io::Read;
use std::ops::ControlFlow;

// What is carried from frame to frame, and what is counted: the frames of either layout that hold at each stage, all frames that hold, and the runs.
#[derive(Drop)]
struct Replay {
    carried: Carried,
    of_20: [u64; 6],
    of_34: [u64; 6],
    frames: u64,
    runs: u64,
}

// The slots of a frame by its outputs, and its layout by the hybrid stages.
fn slots_of(head: Head) -> usize
    ensures { result ≤ 32 }
{
    (head.output / 128).min(32)
}

fn layout_of(head: Head, slots: usize) -> Layout
    requires { slots ≤ 32 }
{
    if head.hybrid == 142 * slots {
        Layout::Bands20
    } else {
        Layout::Bands34
    }
}

// The stream has as many numbers as they say.
fn lengths_fit(head: Head, layout: Layout, slots: usize) -> bool
    requires { slots ≤ 32 }
{
    head.input == 128 * (slots + 6)
        && head.hybrid == 2 * layout.channels() * slots
        && head.output == 128 * slots
}

impl Replay {
    // The frame after a head. Where the line is of another layout or other slots than the stream's lengths say, the numbers differ.
    fn check(&mut self, rt: &impl Print, reader: &mut impl Read, head: Head) -> Result<(), Fault> {
        let mut line = [0u8; limits::DIGITS];
        if limits::DIGITS < head.line {
            return Err(Fault::Lengths);
        }
        reader.read_exact(&mut line[..head.line])?;
        let slots = slots_of(head);
        let layout = layout_of(head, slots);
        if !lengths_fit(head, layout, slots) {
            return Err(Fault::Lengths);
        }
        let mut input = [0.0; INPUT];
        stream::read_rows(reader, &mut input[..128 * (slots + 6)])?;
        let call = Call {
            line: &line[..head.line],
            edge: head.edge,
            input: &input,
            wanted: None,
        };
        let mut numbers = Stages::none();
        play::play(rt, call, &mut self.carried, &mut numbers).ok_or(Fault::Refused)?;
        let held = match layout {
            Layout::Bands20 => &mut self.of_20,
            Layout::Bands34 => &mut self.of_34,
        };
        compare::all(reader, layout, slots, &numbers, held)
    }

    // A frame. A run starts from a state of its own.
    fn frame(&mut self, rt: &impl Print, reader: &mut impl Read, head: Head) -> ControlFlow<()> {
        if head.starts {
            self.carried.start(head.asked);
            self.runs = self.runs.wrapping_add(1);
        }
        match self.check(rt, reader, head) {
            Ok(()) => {
                self.frames = self.frames.wrapping_add(1);
                ControlFlow::Continue(())
            }
            Err(fault) => {
                let _ = println!(rt; "{head}{fault}");
                ControlFlow::Break(())
            }
        }
    }

    fn next(&mut self, rt: &impl Print, reader: &mut impl Read) -> ControlFlow<()> {
        match stream::next(reader) {
            Piece::Frame(head) => self.frame(rt, reader, head),
            Piece::End => {
                let frames = self.frames;
                let runs = self.runs;
                let _ = println!(rt;
                    "held: {frames} frames in {runs} runs, every channel at each stage and both sides, bit for bit"
                );
                ControlFlow::Break(())
            }
            Piece::Broken(head) => {
                let _ = println!(rt; "{head}: the stream ends before its end is said");
                ControlFlow::Break(())
            }
        }
    }

    // The frames of each layout that hold at each stage.
    fn say_counts(&self, rt: &impl Print) {
        let _ = println!(rt; "frames as the Rust has them");
        for (stage, (of_20, of_34)) in Stage::ALL.iter().zip(self.of_20.iter().zip(&self.of_34)) {
            let _ = println!(rt; "{stage}: {of_20} of 20 bands, {of_34} of 34");
        }
    }
}

// The whole stream.
pub fn all(rt: &impl Print, reader: &mut impl Read) {
    let mut replay = Replay {
        carried: carried::none(),
        of_20: [0; 6],
        of_34: [0; 6],
        frames: 0,
        runs: 0,
    };
    // A proved loop has to end: no input uses up these turns.
    for _ in 0..u64::MAX {
        if replay.next(rt, reader).is_break() {
            break;
        }
    }
    replay.say_counts(rt);
}
