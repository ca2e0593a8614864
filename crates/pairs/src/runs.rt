// A pair of runs from fresh decoders.
use super::compare::Compared;
use super::marks::{Agreed, Bands, Columns};
use super::scene::FRAMES;
use super::{chance, compare, line, marks, scene, sound};
use layout::Layout;
use run_stream::side::Side;
use std::fmt;

// The places of all frames of an output.
const PLACES: usize = 24576;

// Which of a pair's two runs.
#[derive(Clone, Copy, Debug, PartialEq, Eq)]
pub enum Turn {
    First,
    Second,
}

// One run of a pair, and the stereo bands and QMF bands that its two runs agree on.
#[derive(Clone, Copy)]
pub struct Run {
    pub layout: Layout,
    pub pair: u32,
    pub turn: Turn,
    pub bands: Bands,
    pub columns: Bands,
}

// The outputs of a run.
#[derive(Clone, Copy)]
struct Sides {
    left: [f64; PLACES],
    right: [f64; PLACES],
}

// How many numbers came out alike, and of both sides, how many QMF bands are left free, and how many of these came out different.
#[derive(Clone, Copy)]
pub struct Counts {
    numbers: u64,
    free: u64,
    different: u64,
}

impl Counts {
    pub const NONE: Counts = Counts {
        numbers: 0,
        free: 0,
        different: 0,
    };

    pub fn plus(self, other: Counts) -> Counts {
        Counts {
            numbers: self.numbers.wrapping_add(other.numbers),
            free: self.free.wrapping_add(other.free),
            different: self.different.wrapping_add(other.different),
        }
    }
}

impl fmt::Display for Counts {
    fn fmt<W: fmt::Write>(&self, f: &mut fmt::Formatter<W>) -> fmt::Result {
        write!(
            f,
            "{} numbers alike, {} of {} other QMF bands different",
            self.numbers, self.different, self.free
        )
    }
}

// How many frames of both runs were accepted; of the QMF bands that are held, how many numbers came out alike, and the side and the place of the first that
// did not; and how many of the free bands differ.
#[derive(Clone, Copy)]
pub struct Pair {
    pub accepted: u64,
    pub first: Option<(Side, usize)>,
    pub counts: Counts,
}

impl Pair {
    pub fn all_accepted(self) -> bool {
        self.accepted == 2 * u64::from(FRAMES)
    }

    // Every frame is accepted, every number that is held is alike, and most of the QMF bands that are left free differ.
    pub fn stands(self) -> bool {
        self.all_accepted() && self.first.is_none() && self.counts.free / 2 < self.counts.different
    }
}

// Whether the frame is accepted.
fn play_frame(
    memory: &mut [f64],
    run: &Run,
    frame: u32,
    left: &mut [f64],
    right: &mut [f64],
) -> bool {
    let seed = chance::branch(chance::branch(1, run.pair), frame);
    let line = line::line_of(run, frame, seed);
    // As many rows as a frame of 32 slots reads.
    let mut input = [0.0; 4864];
    sound::fill(&mut input, run, frame, seed);
    let edge = scene::edge_of(run.pair, frame);
    lefasumu::lefasumu_frame(memory, line.characters(), &input, edge, left, right) == 0
}

// One run, each frame into its 4,096 places of both outputs: how many of its frames are accepted.
fn play_run(run: &Run, sides: &mut Sides) -> u64 {
    let slots = scene::slots_of(run.pair);
    let mut memory = [0.0; lefasumu::MEMORY];
    if lefasumu::lefasumu_start(&mut memory, slots) != 0 {
        return 0;
    }
    let mut accepted = 0u64;
    for frame in 0..FRAMES {
        let from = 4096 * frame as usize;
        let end = from + 128 * slots;
        let left = &mut sides.left[from..end];
        let right = &mut sides.right[from..end];
        if play_frame(&mut memory, run, frame, left, right) {
            accepted = accepted.wrapping_add(1);
        }
    }
    accepted
}

fn pair_of(accepted: u64, held: Bands, left: Compared, right: Compared) -> Pair {
    let free = held.others();
    Pair {
        accepted,
        first: left
            .first
            .map(|at| (Side::Left, at))
            .or(right.first.map(|at| (Side::Right, at))),
        counts: Counts {
            numbers: left.numbers.wrapping_add(right.numbers),
            free: free.len().wrapping_mul(2),
            different: left
                .different
                .common(free)
                .wrapping_add(right.different.common(free)),
        },
    }
}

pub fn play_pair(layout: Layout, pair: u32) -> Pair {
    let bands = Agreed::of(layout, pair as usize).bands(layout);
    let Columns { agreed, held } = marks::columns_of(layout, bands);
    let run = Run {
        layout,
        pair,
        turn: Turn::First,
        bands,
        columns: agreed,
    };
    let mut sides = Sides {
        left: [0.0; PLACES],
        right: [0.0; PLACES],
    };
    let mut others = sides;
    let accepted = play_run(&run, &mut sides).wrapping_add(play_run(
        &Run {
            turn: Turn::Second,
            ..run
        },
        &mut others,
    ));
    let end = 128 * scene::slots_of(pair);
    let lefts = compare::compare(held, &sides.left, &others.left, end);
    let rights = compare::compare(held, &sides.right, &others.right, end);
    pair_of(accepted, held, lefts, rights)
}
