// The samples of a frame of one run: those of a QMF band are drawn alike in both runs where the band is agreed on.
use super::chance;
use super::runs::{Run, Turn};

// Noise, silence, the loudest that is accepted, and faint noise: what numbers up to 2^31 are multiplied with.
fn level(number: u32) -> f64 {
    match number % 4 {
        0 => 1.0 / 2147483648.0,
        1 => 0.0,
        2 => 1.0 / 2048.0,
        _ => 1.0 / 2199023255552.0,
    }
}

// Where the runs do not agree, each is at a level of its own.
fn level_of(band: usize, frame: u32, turn: Turn, agreed: bool) -> f64 {
    if agreed {
        return level(frame);
    }
    let own = match turn {
        Turn::First => 0,
        Turn::Second => 1,
    };
    level((band % 4) as u32 + frame % 4 + own)
}

// QMF rows, re then im.
pub fn fill(input: &mut [f64], run: &Run, frame: u32, seed: u32) {
    let mut x = seed;
    for (at, number) in input.iter_mut().enumerate() {
        let band = at % 128 / 2;
        let agreed = run.columns.has(band);
        let drawn = chance::drawn(x, run.turn, agreed);
        *number = (f64::from(drawn) - 2147483648.0) * level_of(band, frame, run.turn, agreed);
        x = chance::step(x);
    }
}
