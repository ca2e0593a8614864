// Frames: what a run carries from line to line, and what is done for each.
ghost use Rattle.std.specs.Prelude.{◌≤◌};

use crate::report;
use crate::report::Tally;
use answer::Answer;
use programme::files::{Cut, Failed};
use programme::rows;
use std::env::Env;
use std::fs::File;

// The places of the outputs' names among the arguments, behind those of the lines and the samples.
pub const LEFT: usize = 5;

pub const RIGHT: usize = 6;

// The numbers of a side, of 32 slots at most.
const SIDE: usize = 32 * 128;

#[derive(Drop)]
pub struct Streams {
    pub lines: File,
    pub samples: File,
    pub left: File,
    pub right: File,
}

// Why no more is played: a file failed, or the samples ended.
#[derive(Clone, Copy, Debug, PartialEq, Eq)]
pub enum Stop {
    Failed,
    Short,
}

impl From<Failed> for Stop {
    fn from(_failed: Failed) -> Stop {
        Stop::Failed
    }
}

impl From<Cut> for Stop {
    fn from(_cut: Cut) -> Stop {
        Stop::Failed
    }
}

// What is carried from frame to frame, with the memory that the decoder's state lies in.
#[derive(Drop)]
pub struct Run {
    pub streams: Streams,
    asked: usize,
    edge: usize,
    memory: [f64; lefasumu::MEMORY],
    // Its first rows are those that the frame before looked ahead at, so many of them.
    input: [f64; rows::HEARD],
    ahead: usize,
    pub tally: Tally,
    // The rows that the samples had, and those that the lines have needed.
    pub rows: u64,
    pub needed: u64,
    pub outcome: Result<(), Stop>,
}

// Whether an accepted line leaves what is in force: it is empty, or its byte 3 says no envelopes.
fn holds(line: &[u8]) -> bool {
    line.len() < 8 || line[6..8] == [b'0', b'0']
}

impl Run {
    pub fn new(streams: Streams, asked: usize, edge: usize) -> Run {
        let mut memory = [0.0; lefasumu::MEMORY];
        let outcome = match lefasumu::lefasumu_start(&mut memory, asked) {
            0 => Ok(()),
            _ => Err(Stop::Failed),
        };
        Run {
            streams,
            asked,
            edge,
            memory,
            input: [0.0; rows::HEARD],
            ahead: 0,
            tally: Tally::default(),
            rows: 0,
            needed: 0,
            outcome,
        }
    }

    // A frame whose rows are there. A call that is not answered with 0 leaves its outputs as they were, so that silence is written and the outputs keep time.
    fn play_frame(
        &mut self,
        rt: &(impl Env + Print + Eprint),
        line: &[u8],
        slots: usize,
    ) -> Result<(), Failed>
        requires { slots ≤ 32 }
    {
        let mut left = [0.0; SIDE];
        let mut right = [0.0; SIDE];
        let numbers = slots * 128;
        let number = lefasumu::lefasumu_frame(
            &mut self.memory,
            line,
            &self.input[..numbers + 768],
            self.edge,
            &mut left[..numbers],
            &mut right[..numbers],
        );
        // No call has another number than an answer's.
        let answer = Answer::try_from(number).unwrap_or(Answer::Sample);
        report::frame(rt, self.tally.frames, answer);
        self.tally.count(answer, holds(line));
        rows::carry(&mut self.input, slots);
        rows::write(rt, LEFT, &self.streams.left, &left[..numbers])?;
        rows::write(rt, RIGHT, &self.streams.right, &right[..numbers])
    }

    // One cue line, without its newline.
    fn play_line(
        &mut self,
        rt: &(impl Env + Print + Eprint),
        line: &[u8],
        slots: usize,
    ) -> Result<(), Stop>
        requires { slots ≤ 32 }
    {
        let ahead = self.ahead.min(6);
        let rows = rows::fetch(rt, &self.streams.samples, slots, ahead, &mut self.input)?;
        self.rows = self.rows.wrapping_add(rows as u64);
        let there = ahead + rows;
        if there < slots {
            return Err(Stop::Short);
        }
        self.ahead = there - slots;
        self.play_frame(rt, line, slots)?;
        Ok(())
    }

    // The line that has begun is complete: a frame more is counted, and the rows that it needs; and it is played, unless no more is.
    pub fn end_line(&mut self, rt: &(impl Env + Print + Eprint), line: &[u8]) {
        let slots = borders::slots(self.asked);
        self.tally.frames = self.tally.frames.wrapping_add(1);
        self.needed = self.needed.wrapping_add(slots as u64);
        if self.outcome.is_ok() {
            self.outcome = self.play_line(rt, line, slots);
        }
    }
}
