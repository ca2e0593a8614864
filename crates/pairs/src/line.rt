// The cue line of a frame of one run: the index of a band is drawn alike in both runs where the band is agreed on.
use super::runs::Run;
use super::scene::{KINDS, Kind, Said};
use super::{chance, scene};
use layout::Layout;
use std::io::{Cursor, Write};

// A line's characters, as far as there is room.
#[derive(Drop)]
pub struct Line(Cursor<[u8; limits::DIGITS]>);

// How many indices a row of a kind has: the lowest bands alone have phases.
fn count_of(layout: Layout, kind: Kind) -> usize {
    match (layout, kind) {
        (Layout::Bands20, Kind::Iid | Kind::Icc) => 20,
        (Layout::Bands20, Kind::Ipd | Kind::Opd) => 11,
        (Layout::Bands34, Kind::Iid | Kind::Icc) => 34,
        (Layout::Bands34, Kind::Ipd | Kind::Opd) => 17,
    }
}

// How many values an index has.
fn values_of(kind: Kind, fine: bool) -> u32 {
    match kind {
        Kind::Iid => if fine { 31 } else { 15 },
        Kind::Icc | Kind::Ipd | Kind::Opd => 8,
    }
}

// Which of the values of an index, from the lowest, is 0.
fn zero_of(kind: Kind, fine: bool) -> u32 {
    match kind {
        Kind::Iid => values_of(kind, fine) / 2,
        Kind::Icc | Kind::Ipd | Kind::Opd => 0,
    }
}

impl Line {
    pub fn characters(&self) -> &[u8] {
        let used = (self.0.position() as usize).min(limits::DIGITS);
        &self.0.get_ref()[..used]
    }

    fn put_byte(&mut self, byte: u8) {
        let _ = write!(self.0, "{byte:02x}");
    }

    // The difference of two values of an index, as a signed byte.
    fn put_delta(&mut self, value: u32, base: u32) {
        self.put_byte(((value % 32) as u8).wrapping_sub((base % 32) as u8));
    }

    // A row by frequency has differences from band to band, so that each band gets the value that is drawn for it. A row by time adds what is drawn to the
    // band's own index before.
    fn put_row(&mut self, run: &Run, kind: Kind, fine: bool, by_time: bool, seed: u32) {
        let values = values_of(kind, fine);
        let mut base = zero_of(kind, fine);
        let mut x = seed;
        self.put_byte(u8::from(by_time));
        for band in 0..count_of(run.layout, kind) {
            let drawn = chance::drawn(x, run.turn, run.bands.has(band));
            let value = chance::below(drawn, values);
            self.put_delta(value, base);
            if !by_time {
                base = value;
            }
            x = chance::step(x);
        }
    }

    // The rows of all kinds, by frequency and by time in turn. In the odd frames the first of a kind goes by time, and starts from a row of the frame before.
    fn put_kinds(&mut self, run: &Run, said: Said, frame: u32, seed: u32) {
        let mut first = seed;
        for kind in KINDS.iter().take(said.kinds) {
            let mut row = first;
            let mut by_time = frame % 2 == 1;
            for _ in 0..said.envelopes {
                self.put_row(run, *kind, said.fine, by_time, row);
                by_time = !by_time;
                row = chance::branch(row, 1);
            }
            first = chance::branch(first, 2);
        }
    }

    // Borders anywhere in the frame and in any order, the same in both runs.
    fn put_borders(&mut self, borders: u8, slots: usize, seed: u32) {
        let mut x = seed;
        for _ in 0..borders {
            self.put_delta(chance::below(x, (slots % 64) as u32), 0);
            x = chance::step(x);
        }
    }

    // The first byte, the modes of 20 or of 34 indices, and the envelopes.
    fn put_head(&mut self, layout: Layout, said: Said) {
        let mode = match layout {
            Layout::Bands20 => 1,
            Layout::Bands34 => 2,
        };
        self.put_byte(said.flags);
        self.put_byte(if said.fine { mode + 3 } else { mode });
        self.put_byte(if said.rb { mode + 3 } else { mode });
        self.put_byte(said.envelopes);
    }
}

pub fn line_of(run: &Run, frame: u32, seed: u32) -> Line {
    let mut line = Line(Cursor::new([0; limits::DIGITS]));
    if let Some(said) = scene::said_in(frame) {
        line.put_head(run.layout, said);
        line.put_borders(said.borders, scene::slots_of(run.pair), seed);
        line.put_kinds(run, said, frame, seed);
    }
    line
}
