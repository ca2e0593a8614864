// The sheet of one channel: for each slot what comes in, each queue once it is shifted, newest first, the detector of its band, and what comes out.
ghost use Rattle.std.specs.Prelude.{◌<◌, ◌≤◌, length};

use crate::decimal::Decimal;
use crate::play::{Call, ROW, Stages};
use layout::{Kind, Layout};
use ps_decorr_transient::Follower;
use queue_decorr::QueueDecorr;

// A queue of complex numbers, the real parts before the imaginary ones.
fn say_queue(rt: &impl Print, name: &str, queue: &[f64]) {
    let _ = print!(rt; "  {name}");
    let (re, im) = queue.split_at(queue.len() / 2);
    for (i, (re, im)) in re.iter().zip(im).enumerate() {
        let comma = if i == 0 { "" } else { "," };
        let _ = print!(rt; "{comma} {} {}", Decimal(*re), Decimal(*im));
    }
    let _ = print!(rt; "\n");
}

// A layout's channel k has 28 numbers, or two.
fn say_queues(rt: &impl Print, kind: Kind, numbers: &[f64; 28]) {
    match kind {
        Kind::AllPass => {
            say_queue(rt, "x", &numbers[0..4]);
            say_queue(rt, "w3", &numbers[4..10]);
            say_queue(rt, "w4", &numbers[10..18]);
            say_queue(rt, "w5", &numbers[18..28]);
        }
        Kind::Long => say_queue(rt, "x14", numbers),
        Kind::Short => say_queue(rt, "x1", &numbers[0..2]),
    }
}

// The power of band b in a slot: of its channels, added in rising order from 0.
fn power(layout: Layout, b: usize, samples: &[f64]) -> f64 {
    let (channels, _) = samples.as_chunks::<2>();
    ps_map::parameter_map(layout)
        .iter()
        .zip(channels)
        .take(layout.channels())
        .filter(|(band, _)| usize::from(**band) == b)
        .map(|(_, [re, im])| *re * *re + *im * *im)
        .fold(0.0, |sum, power| sum + power)
}

fn band_of(layout: Layout, k: usize) -> usize
    requires { k < 91 }
    ensures { result < 34 }
{
    usize::from(ps_map::parameter_map(layout)[k])
}

// The detector of channel k's band after slot n.
fn say_band(rt: &impl Print, state: &QueueDecorr, n: usize, k: usize, stages: &Stages)
    requires { (n < 32) × (k < 91) }
{
    let b = band_of(state.layout, k);
    let at = ROW * n;
    let power = power(state.layout, b, &stages.samples[at..at + ROW]);
    let now = Follower {
        peak: state.detectors[3 * b],
        smooth: state.detectors[3 * b + 1],
        difference: state.detectors[3 * b + 2],
    };
    let factor = ps_decorr_transient::factor(now);
    let _ = println!(rt;
        "  band {b} power {} peak {} smooth {} difference {} factor {}",
        Decimal(power),
        Decimal(now.peak),
        Decimal(now.smooth),
        Decimal(now.difference),
        Decimal(factor)
    );
}

// Slot n of channel k, of a state after it.
fn say_slot(rt: &impl Print, state: &QueueDecorr, n: usize, k: usize, stages: &Stages)
    requires { (n < 32) × (k < 91) }
{
    let at = ROW * n + 2 * k;
    let _ = println!(rt; " slot {n}");
    let _ = println!(rt;
        "  in {} {}",
        Decimal(stages.samples[at]),
        Decimal(stages.samples[at + 1])
    );
    let mut queues = [0.0; 28];
    queue_decorr::channel_queues(*state, k, &mut queues);
    say_queues(rt, state.layout.kind(k), &queues);
    say_band(rt, state, n, k, stages);
    let _ = println!(rt;
        "  out {} {}",
        Decimal(stages.decorrelated[at]),
        Decimal(stages.decorrelated[at + 1])
    );
}

// A slot, where a channel that the layout has is wanted.
pub fn slot(rt: &impl Print, state: &QueueDecorr, n: usize, wanted: Option<usize>, stages: &Stages)
    requires { n < 32 }
{
    if let Some(k) = wanted
        && k < state.layout.channels()
    {
        say_slot(rt, state, n, k, stages);
    }
}

// Whether channel k is cleared before a frame.
fn cleared(state: &QueueDecorr, layout: Layout, edge: usize, k: usize) -> bool {
    state.layout != layout || ps_state::cleared_place(layout, edge, state.cued) <= k
}

// What is said of a channel before a frame.
pub fn resets(rt: &impl Print, state: &QueueDecorr, layout: Layout, call: Call) {
    let Some(k) = call.wanted else {
        return;
    };
    let last = layout.channels() - 1;
    if last < k {
        let _ = println!(rt; " the last channel is {last}");
    } else if cleared(state, layout, call.edge, k) {
        let _ = println!(rt; " reset");
    }
}
