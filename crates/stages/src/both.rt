// A frame through the decoder and, where it is accepted, through the queues: both sides are compared number by number, by their bits.
use super::carried::Carried;
use super::play::{Call, Stages};
use super::{carried, play};

// The decoder's memory and the queues', the last answer, and what was compared so far.
#[derive(Drop)]
pub struct Both {
    memory: [f64; lefasumu::MEMORY],
    carried: Carried,
    pub answer: u32,
    // Accepted frames, numbers that were compared, and those that differ.
    frames: u64,
    compared: u64,
    differing: u64,
}

// Before any start.
pub fn none() -> Both {
    Both {
        memory: [0.0; lefasumu::MEMORY],
        carried: carried::none(),
        answer: 0,
        frames: 0,
        compared: 0,
        differing: 0,
    }
}

// How many numbers differ in a bit; all of them where there are not as many.
fn differing(ours: &[f64], theirs: &[f64]) -> u64 {
    if ours.len() != theirs.len() {
        return theirs.len() as u64;
    }
    let differing = ours
        .iter()
        .zip(theirs)
        .filter(|(ours, theirs)| float_bytes::bits_of(**ours) != float_bytes::bits_of(**theirs))
        .count();
    differing as u64
}

impl Both {
    // Both from fresh, the counts as they were.
    pub fn start(&mut self, asked: usize) {
        self.answer = lefasumu::lefasumu_start(&mut self.memory, asked);
        self.carried.start(asked);
    }

    // The first numbers of a side, with as many as the decoder wrote.
    fn compare(&mut self, side: &[f64; play::SIDE], written: &[f64]) {
        let count = written.len().min(play::SIDE);
        self.compared = self.compared.wrapping_add(written.len() as u64);
        self.differing = self
            .differing
            .wrapping_add(differing(&side[..count], written));
    }

    // The queues' frame after an accepted one of the decoder's.
    fn beside(&mut self, rt: &impl Print, call: Call, left: &[f64], right: &[f64]) {
        let mut stages = Stages::none();
        if play::play(rt, call, &mut self.carried, &mut stages).is_none() {
            // The decoder has read it.
            self.differing = self.differing.wrapping_add(1);
            return;
        }
        self.frames = self.frames.wrapping_add(1);
        self.compare(&stages.left, left);
        self.compare(&stages.right, right);
    }

    // A call.
    pub fn frame(&mut self, rt: &impl Print, call: Call, left: &mut [f64], right: &mut [f64]) {
        self.answer = lefasumu::lefasumu_frame(
            &mut self.memory,
            call.line,
            call.input,
            call.edge,
            left,
            right,
        );
        if self.answer == 0 {
            self.beside(rt, call, left, right);
        }
    }

    // The last line, of all that was compared.
    pub fn conclude(&self, rt: &impl Print) {
        let frames = self.frames;
        let compared = self.compared;
        let _ = print!(rt;
            "queues: {frames} frames, {compared} numbers of left and right compared with the decoder's: "
        );
        let _ = match self.differing {
            0 => println!(rt; "all equal, bit for bit"),
            differing => println!(rt; "{differing} differ"),
        };
    }
}
