// A second de-correlator for the bench (source document 001, §8.6.4.5): every delay is a plain queue, newest first, whose entries all move one place each
// slot, as they do on paper. It gives the de-correlated samples of every channel, 71 or 91, after ducking; the detectors have no delay, and are the
// decoder's own.
#![tactic(auto)]

mod channels;
mod queue;

ghost use Rattle.std.specs.Prelude.{◌≡◌, min};
ghost use Rattle.queue_decorr.specs.State.{fresh_queues, switched_queues, queues_ready, channel_queues};
ghost use Rattle.queue_decorr.specs.Frame.{state_after, out_after};

use channels::Frame;
use layout::Layout;

// What is carried from frame to frame: the layout, whether the last frame had a line, the queues channel after channel, and the transient detectors.
#[derive(Clone, Copy)]
pub struct QueueDecorr {
    pub layout: Layout,
    pub cued: bool,
    pub queues: [f64; 1794],
    pub detectors: [f64; 102],
}

// Every queue silent.
pub fn fresh() -> QueueDecorr
    ensures { result ≡ fresh_queues }
{
    QueueDecorr {
        layout: Layout::Bands20,
        cued: false,
        queues: [0.0; 1794],
        detectors: [0.0; 102],
    }
}

// A change of layout leaves silence.
fn switched(state: QueueDecorr, layout: Layout) -> QueueDecorr
    ensures { result ≡ switched_queues layout state }
{
    if state.layout == layout {
        return state;
    }
    QueueDecorr {
        layout,
        cued: state.cued,
        ..fresh()
    }
}

// The state before a frame: its layout, its spectrum edge, and whether it has a line. The queues are cleared as a change of layout and the frame's own reset
// have it, and the detectors by a change of layout alone.
pub fn ready(state: QueueDecorr, layout: Layout, edge: usize, cued: bool) -> QueueDecorr
    ensures { result ≡ queues_ready layout edge cued state }
{
    let before = switched(state, layout);
    let from = channels::place(layout, ps_state::cleared_place(layout, edge, before.cued));
    let mut queues = before.queues;
    queues[from..].fill(0.0);
    QueueDecorr {
        layout,
        cued,
        queues,
        ..before
    }
}

// The queues of channel k, for a sheet: its 28 numbers, or its two before others. Nothing changes where the layout has no such channel, or there is no room.
pub fn channel_queues(state: QueueDecorr, k: usize, out: &mut [f64])
    ensures { out.new ≡ channel_queues state k out.old }
{
    let width = channels::size(state.layout, k);
    if k < state.layout.channels() && width <= out.len() {
        let at = channels::place(state.layout, k);
        out[..width].copy_from_slice(&state.queues[at..at + width]);
    }
}

// A frame of at most 32 slots from a state that is ready for it. The samples are those of the split bands' channels, a run of 32 slots for each, and the QMF
// rows; the de-correlated samples go to rows of 91 complex numbers, channel by channel re and im, one row for each slot. Nothing changes where a list is too
// short.
pub fn decorrelate(
    state: QueueDecorr,
    slots: usize,
    split: &[f64],
    input: &[f64],
    out: &mut [f64],
) -> QueueDecorr
    ensures state { result ≡ state_after state split.now input.now out.old (min slots 32) }
    ensures out { out.new ≡ out_after state split.now input.now out.old (min slots 32) }
{
    let layout = state.layout;
    let count = slots.min(32);
    if input.len() < 128 * count
        || split.len() < 64 * layout.unsplit_from()
        || out.len() < 182 * count
    {
        return state;
    }
    let mut detectors = state.detectors;
    let mut gains = [0.0; 1088];
    ps_decorr_transient::duck(layout, &mut detectors, split, input, count, &mut gains);
    let mut queues = state.queues;
    let frame = Frame {
        layout,
        slots: count,
        table: ps_decorr_allpass::rotations(layout),
        split,
        input,
        gains: &gains,
    };
    channels::slots(frame, &mut queues, out);
    QueueDecorr {
        queues,
        detectors,
        ..state
    }
}
