// What the program says.
use answer::Answer;
use programme::{arguments, files};
use std::env::Env;

// Frames so far: how many of them held what was in force, how many were quiet, and how many were refused.
#[derive(Clone, Copy, Default)]
pub struct Tally {
    pub frames: u64,
    pub held: u64,
    pub quiet: u64,
    pub refused: u64,
}

impl Tally {
    // Counts what a frame was answered, of which a line that is accepted may have held what was in force.
    pub fn count(&mut self, answer: Answer, held: bool) {
        match answer {
            Answer::Done => self.held = self.held.wrapping_add(u64::from(held)),
            Answer::Quiet => self.quiet = self.quiet.wrapping_add(1),
            _ => self.refused = self.refused.wrapping_add(1),
        }
    }
}

// A frame that was not played: its number, the answer, and what that means.
pub fn frame(rt: &impl Print, number: u64, answer: Answer) {
    if answer != Answer::Done {
        let _ = println!(rt; "{number} {} {answer}", u8::from(answer));
    }
}

// The last line of a run that went through.
pub fn summary(rt: &impl Print, tally: Tally) {
    let Tally {
        frames,
        held,
        quiet,
        refused,
    } = tally;
    let played = frames.wrapping_sub(quiet.wrapping_add(refused));
    let _ = println!(rt;
        "{frames} frames: {played} played, {held} of them held; {quiet} quiet, {refused} refused"
    );
}

// The file of samples ended within a frame's own rows.
pub fn short(rt: &(impl Env + Eprint), rows: u64, needed: u64) {
    let mut memory = [0u8; arguments::LONGEST];
    let name = files::text_of(arguments::text_at(rt, files::SAMPLES, &mut memory).unwrap_or(b""));
    let _ = eprintln!(rt;
        "lefasumu: {name}: too short: it has {rows} rows, and the lines need {needed}"
    );
}

pub fn misused(rt: &impl Eprint) {
    let _ = eprintln!(rt; "player: wants SLOTS EDGE LINES SAMPLES LEFT RIGHT");
}
