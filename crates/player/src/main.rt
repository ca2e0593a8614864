// Plays a programme: a frame for each line of a file of cue lines, from the rows of a file of samples to the rows of two files, left and right.
// It holds one line and one frame at a time, so that its memory does not grow with the programme.
#![tactic(auto)]

mod frames;
mod report;

ghost use Rattle.std.specs.Prelude.{⊤};

use frames::{Run, Stop, Streams};
use programme::files::{Failed, HELD, PIECE};
use programme::{arguments, files};
use std::env::Env;
use std::fs::{File, Files};
use text_lines::{Hearer, Line};

// A run, and what it says its frames to.
#[derive(Drop)]
struct Player<'a, R: Env + Print + Eprint> {
    run: &'a mut Run,
    rt: &'a R,
}

impl<R: Env + Print + Eprint> Hearer for Player<'_, R> {
    ghost hears = { λ before line after. ⊤ };

    fn hear(&mut self, line: &[u8]) {
        self.run.end_line(self.rt, line);
    }
}

// Plays the lines to their end.
fn play(rt: &(impl Env + Print + Eprint), run: &mut Run) {
    let mut line = Line::<HELD>::new();
    let mut piece = [0u8; PIECE];
    // Kept: these turns stand in stages/lines.rt too: (d) the run that hears the lines holds their file, which a shared function would have to be lent beside it.
    // A proved loop has to end: no file uses up these turns.
    for _ in 0..u64::MAX {
        let Ok(used) = files::read_some(rt, files::LINES, &run.streams.lines, &mut piece) else {
            run.outcome = Err(Stop::Failed);
            break;
        };
        if used == 0 {
            break;
        }
        line.each(&piece[..used], &mut Player { run, rt });
    }
    if 0 < line.count {
        run.end_line(rt, line.held());
    }
}

// What failed has been told; the rest is told here. The launcher takes a run without a summary for a failure, since a program has no exit status of its own.
fn conclude(rt: &(impl Env + Print + Eprint), run: &Run) {
    match run.outcome {
        Ok(()) => report::summary(rt, run.tally),
        Err(Stop::Short) => report::short(rt, run.rows, run.needed),
        Err(Stop::Failed) => {}
    }
}

// The outputs are opened last, so that nothing is lost where there is nothing to play.
fn open<R: Files<File = File> + Env + Eprint>(rt: &R) -> Result<Streams, Failed> {
    let lines = files::open_to_read(rt, files::LINES)?;
    let samples = files::open_to_read(rt, files::SAMPLES)?;
    let left = files::open_to_write(rt, frames::LEFT)?;
    let right = files::open_to_write(rt, frames::RIGHT)?;
    Ok(Streams {
        lines,
        samples,
        left,
        right,
    })
}

// Whether each file has a name, and nothing comes after the names.
fn all_named(rt: &impl Env) -> bool {
    [files::LINES, files::SAMPLES, frames::LEFT, frames::RIGHT]
        .iter()
        .all(|place| arguments::named(rt, *place))
        && arguments::count(rt) == 7
}

// The launcher has tried the arguments and says how to write them; here one that says nothing is only refused.
fn main(rt: HostRuntime) {
    let numbers = (arguments::number_at(&rt, 1), arguments::number_at(&rt, 2));
    let (Some(slots), Some(bands)) = numbers else {
        report::misused(&rt);
        return;
    };
    if !all_named(&rt) {
        report::misused(&rt);
        return;
    }
    if let Ok(streams) = open(&rt) {
        let mut run = Run::new(streams, slots, bands);
        play(&rt, &mut run);
        conclude(&rt, &run);
    }
}
