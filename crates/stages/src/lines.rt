// A programme through the decoder and through the queues, side by side.
ghost use Rattle.std.specs.Prelude.{⊤, ◌≤◌};

use super::both;
use super::both::Both;
use super::play::{Call, INPUT, SIDE};
use programme::files::{Failed, HELD, PIECE};
use programme::{arguments, files, rows};
use std::env::Env;
use std::fs::{File, Files};
use text_lines::{Hearer, Line};

// The place of the channel's number among the arguments, which may lack it.
const CHANNEL: usize = 5;

// The files of a programme.
#[derive(Drop)]
struct Streams {
    lines: File,
    samples: File,
}

// What is carried from line to line, beside the files.
#[derive(Drop)]
struct Run {
    asked: usize,
    edge: usize,
    wanted: Option<usize>,
    both: Both,
    // The rows of the next frame that are there, and behind them room for the rest.
    input: [f64; INPUT],
    ahead: usize,
    // The lines so far.
    number: u64,
    // An Err once a file failed or the samples ended: no more is played.
    outcome: Result<(), Failed>,
}

fn complain(rt: &impl Eprint, text: &str) {
    let _ = eprintln!(rt; "lefasumu: {text}");
}

impl Run {
    // A frame whose rows are there.
    fn frame(&mut self, rt: &impl Print, line: &[u8], slots: usize)
        requires { slots ≤ 32 }
    {
        let mut left = [0.0; SIDE];
        let mut right = [0.0; SIDE];
        let number = self.number;
        let _ = println!(rt; "frame {number}");
        let count = 128 * slots;
        let call = Call {
            line,
            edge: self.edge,
            input: &self.input[..count + 768],
            wanted: self.wanted,
        };
        self.both
            .frame(rt, call, &mut left[..count], &mut right[..count]);
        let answer = self.both.answer;
        if answer != 0 {
            let _ = println!(rt; " answer {answer}: nothing moves");
        }
        rows::carry(&mut self.input, slots);
    }

    // One cue line, without its newline.
    fn play_line(
        &mut self,
        rt: &(impl Env + Print + Eprint),
        samples: &File,
        line: &[u8],
    ) -> Result<(), Failed> {
        self.number = self.number.wrapping_add(1);
        let slots = borders::slots(self.asked);
        let ahead = self.ahead.min(6);
        let there = ahead + rows::fetch(rt, samples, slots, ahead, &mut self.input)?;
        if there < slots {
            complain(rt, "the samples are too short for the lines");
            return Err(Failed);
        }
        self.ahead = there - slots;
        self.frame(rt, line, slots);
        Ok(())
    }

    // The line that has begun is complete.
    fn end_line(&mut self, rt: &(impl Env + Print + Eprint), samples: &File, line: &[u8]) {
        if self.outcome.is_ok() {
            self.outcome = self.play_line(rt, samples, line);
        }
    }

    fn play_all(&mut self, rt: &(impl Env + Print + Eprint), streams: &Streams) {
        let mut line = Line::<HELD>::new();
        let mut piece = [0u8; PIECE];
        self.both.start(self.asked);
        // Kept: these turns stand in player/main.rt too: (d) the run that hears the lines there holds their file, which a shared function would have to be lent beside it.
        // A proved loop has to end: no file uses up these turns.
        for _ in 0..u64::MAX {
            let Ok(used) = files::read_some(rt, files::LINES, &streams.lines, &mut piece) else {
                self.outcome = Err(Failed);
                break;
            };
            if used == 0 {
                break;
            }
            let mut player = Player {
                run: self,
                rt,
                samples: &streams.samples,
            };
            line.each(&piece[..used], &mut player);
        }
        if 0 < line.count {
            self.end_line(rt, &streams.samples, line.held());
        }
    }
}

// A run, what it says its frames to, and the samples that it plays.
#[derive(Drop)]
struct Player<'a, R: Env + Print + Eprint> {
    run: &'a mut Run,
    rt: &'a R,
    samples: &'a File,
}

impl<R: Env + Print + Eprint> Hearer for Player<'_, R> {
    ghost hears = { λ before line after. ⊤ };

    fn hear(&mut self, line: &[u8]) {
        self.run.end_line(self.rt, self.samples, line);
    }
}

// ---- the program

fn open<R: Files<File = File> + Env + Eprint>(rt: &R) -> Result<Streams, Failed> {
    let lines = files::open_to_read(rt, files::LINES)?;
    let samples = files::open_to_read(rt, files::SAMPLES)?;
    Ok(Streams { lines, samples })
}

fn play<R: Files<File = File> + Env + Print + Eprint>(
    rt: &R,
    asked: usize,
    edge: usize,
    wanted: Option<usize>,
) {
    let Ok(streams) = open(rt) else {
        return;
    };
    let mut run = Run {
        asked,
        edge,
        wanted,
        both: both::none(),
        input: [0.0; INPUT],
        ahead: 0,
        number: 0,
        outcome: Ok(()),
    };
    run.play_all(rt, &streams);
    if run.outcome.is_ok() {
        run.both.conclude(rt);
    }
}

// The launcher has tried the arguments and says how to write them; here one that says nothing is only refused.
fn misused(rt: &impl Eprint) {
    complain(rt, "stages wants SLOTS EDGE LINES SAMPLES [CHANNEL]");
}

fn play_channel<R: Files<File = File> + Env + Print + Eprint>(rt: &R, asked: usize, edge: usize) {
    match arguments::number_at(rt, CHANNEL) {
        Some(k) if k < 91 => play(rt, asked, edge, Some(k)),
        Some(_) => complain(
            rt,
            "there is no channel above 90, which is the last of 34 bands; that of 20 bands is 70",
        ),
        None => misused(rt),
    }
}

pub fn all<R: Files<File = File> + Env + Print + Eprint>(rt: &R) {
    let numbers = (arguments::number_at(rt, 1), arguments::number_at(rt, 2));
    let (Some(slots), Some(bands)) = numbers else {
        misused(rt);
        return;
    };
    if !(arguments::named(rt, files::LINES) && arguments::named(rt, files::SAMPLES)) {
        misused(rt);
        return;
    }
    match arguments::count(rt) {
        5 => play(rt, slots, bands, None),
        6 => play_channel(rt, slots, bands),
        _ => misused(rt),
    }
}
