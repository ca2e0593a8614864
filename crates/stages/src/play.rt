// A frame, stage by stage: the hybrid samples, the de-correlated samples and both sides of every channel, slot by slot in rows of 91 complex numbers, then
// the QMF rows of both sides.
ghost use Rattle.std.specs.Prelude.{◌+◌, ◌*◌, ◌<◌, ◌≤◌, length};

use crate::begin::Begun;
use crate::carried::Carried;
use crate::{begin, carried, sheet};
use layout::Layout;
use queue_decorr::QueueDecorr;

// Numbers of a row, of 32 rows, and of 32 QMF rows.
pub const ROW: usize = 182;

pub const ROWS: usize = 32 * ROW;

pub const SIDE: usize = 32 * 128;

// A frame's QMF rows with the six ahead, and the coefficients of 34 bands in 32 slots.
pub const INPUT: usize = 38 * 128;

pub const RUNS: usize = 34 * 256;

// What a call hands in, and the channel whose sheet is wanted.
#[derive(Clone, Copy)]
pub struct Call<'a> {
    pub line: &'a [u8],
    pub edge: usize,
    pub input: &'a [f64],
    pub wanted: Option<usize>,
}

// A frame's numbers at every stage: both sides before synthesis, and after it.
#[derive(Drop)]
pub struct Stages {
    pub samples: [f64; ROWS],
    pub decorrelated: [f64; ROWS],
    pub lefts: [f64; ROWS],
    pub rights: [f64; ROWS],
    pub left: [f64; SIDE],
    pub right: [f64; SIDE],
}

impl Stages {
    // Before the first slot. Its numbers are some 250 KB: whoever wants a frame's lends them, so that none is copied.
    pub fn none() -> Stages {
        Stages {
            samples: [0.0; ROWS],
            decorrelated: [0.0; ROWS],
            lefts: [0.0; ROWS],
            rights: [0.0; ROWS],
            left: [0.0; SIDE],
            right: [0.0; SIDE],
        }
    }

    // Both sides of slot n, from its samples and their de-correlation.
    fn mix(
        &mut self,
        layout: Layout,
        n: usize,
        runs: &[f64],
        samples: &[f64; ROW],
        decorrelated: &[f64; ROW],
    )
        requires { n < 32 }
    {
        let mut left = [0.0; ROW];
        let mut right = [0.0; ROW];
        plain_slots::mix(
            layout,
            n,
            runs,
            samples,
            decorrelated,
            &mut left,
            &mut right,
        );
        let at = ROW * n;
        self.lefts[at..at + ROW].copy_from_slice(&left);
        self.rights[at..at + ROW].copy_from_slice(&right);
        let qmf = 128 * n;
        plain_slots::synthesise(layout, &left, &mut self.left[qmf..qmf + 128]);
        plain_slots::synthesise(layout, &right, &mut self.right[qmf..qmf + 128]);
    }

    // Slot n at every stage, of queues that are ready for it. The lists begin with the slot, so that the queues are handed a frame of one slot.
    fn slot(
        &mut self,
        before: QueueDecorr,
        n: usize,
        split: &[f64],
        input: &[f64],
        runs: &[f64],
    ) -> QueueDecorr
        requires { n < 32 }
    {
        let at = ROW * n;
        let mut samples = [0.0; ROW];
        plain_slots::samples(before.layout, 0, split, input, &mut samples);
        self.samples[at..at + ROW].copy_from_slice(&samples);
        let mut decorrelated = [0.0; ROW];
        let after = queue_decorr::decorrelate(before, 1, split, input, &mut decorrelated);
        self.decorrelated[at..at + ROW].copy_from_slice(&decorrelated);
        self.mix(before.layout, n, runs, &samples, &decorrelated);
        after
    }
}

// The split bands and every slot, as far as the input has rows, each told where a sheet is wanted; the history is used where it lies.
fn through(
    rt: &impl Print,
    begun: Begun,
    call: Call,
    carried: &mut Carried,
    runs: &[f64],
    stages: &mut Stages,
) {
    // A slot's part of the list has room for all channels whichever slot it begins with.
    let mut split = [0.0; 2080];
    ps_hybrid_analysis::analyse(
        carried.queues.layout,
        begun.asked,
        &mut carried.memory[carried::HISTORY..carried::HISTORY_END],
        call.input,
        &mut split,
    );
    for n in 0..begun.slots.min(32).min(call.input.len() / 128) {
        let at = 128 * n;
        carried.queues = stages.slot(carried.queues, n, &split[n..], &call.input[at..], runs);
        sheet::slot(rt, &carried.queues, n, call.wanted, stages);
    }
}

// The numbers of a frame at every stage, to those that are lent. Nothing moves, and there are none, where its line is not read.
pub fn play(rt: &impl Print, call: Call, carried: &mut Carried, stages: &mut Stages) -> Option<()> {
    let mut runs = [0.0; RUNS];
    let begun = begin::begin(rt, call, carried, &mut runs)?;
    through(rt, begun, call, carried, &runs, stages);
    Some(())
}
