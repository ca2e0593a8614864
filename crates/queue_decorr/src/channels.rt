// The channels of a slot, each on its own queues.
ghost use Rattle.std.specs.Prelude.{◌≡◌, ◌≤◌, length};
ghost use Rattle.layout.specs.Numbers.{channels_of};
ghost use Rattle.standard.specs.Channel.{rotations_of, chain_of, channel_after, channel_output, third_output};
ghost use Rattle.queue_decorr.specs.Queues.{chain_numbers, chain_in, numbers_of, channel_from, size_of, place_of};
ghost use Rattle.queue_decorr.specs.Slots.{Lent, Slotted, SlotLent, SlotDone};

use super::queue;
use complex::Complex;
use layout::{Kind, Layout};
use standard::Chain;

// How many numbers channel k's queues have: of complex numbers 2, 3, 4 and 5, or 14, or one.
pub fn size(layout: Layout, k: usize) -> usize
    ensures { result ≡ size_of layout k }
{
    match layout.kind(k) {
        Kind::AllPass => 28,
        Kind::Long => 28,
        Kind::Short => 2,
    }
}

// Where they stand.
pub fn place(layout: Layout, k: usize) -> usize
    requires { k ≤ channels_of layout }
    ensures { result ≡ place_of layout k }
{
    let deep = k.min(layout.short_delay());
    28 * deep + 2 * (k - deep)
}

// A slot of an all-pass chain: the delay of two slots and its rotation, then the three links.
fn chain(numbers: &mut [f64], constants: Chain, x: Complex) -> Complex
    requires { length numbers.old ≡ 28 }
    ensures answer { result ≡ third_output constants (chain_in numbers.old) }
    ensures numbers { numbers.new ≡ chain_numbers (channel_after constants (chain_in numbers.old) x) }
{
    let u = constants.fractional * queue::delay(&mut numbers[0..4], x);
    let v = queue::link(&mut numbers[4..10], u, constants.first);
    let w = queue::link(&mut numbers[10..18], v, constants.second);
    queue::link(&mut numbers[18..28], w, constants.third)
}

// A slot of channel k.
fn channel(layout: Layout, k: usize, table: &[i64], numbers: &mut [f64], x: Complex) -> Complex
    requires { (table.now ≡ rotations_of layout) × (length numbers.old ≡ size_of layout k) }
    ensures answer { result ≡ channel_output layout k (channel_from layout k numbers.old) }
    ensures numbers { numbers.new ≡ numbers_of layout k (channel_after (chain_of layout k) (channel_from layout k numbers.old) x) }
{
    match layout.kind(k) {
        Kind::AllPass => chain(numbers, ps_decorr_allpass::chain(layout, k, table), x),
        Kind::Long => queue::delay(numbers, x),
        Kind::Short => queue::delay(numbers, x),
    }
}

// What a frame's slots read: its layout and number of slots, the rotations, the samples of the split bands, the QMF rows, and the ducking factors.
#[derive(Clone, Copy)]
pub struct Frame<'a> {
    pub layout: Layout,
    pub slots: usize,
    pub table: &'a [i64],
    pub split: &'a [f64],
    pub input: &'a [f64],
    pub gains: &'a [f64],
}

// A slot of every channel, from the row of its samples into that of its de-correlated samples, by the ducking factors of slot n.
fn slot(frame: Frame, n: usize, samples: &[f64], queues: &mut [f64], row: &mut [f64])
    requires { SlotLent frame.layout n frame.table.now samples.now frame.gains.now queues.old row.old }
    ensures { SlotDone frame.entry.layout n samples.now frame.entry.gains.now queues.old row.old queues.new row.new }
{
    let map = ps_map::parameter_map(frame.layout);
    let mut at = 0;
    for k in 0..frame.layout.channels() {
        let width = size(frame.layout, k);
        let x = Complex {
            re: samples[2 * k],
            im: samples[2 * k + 1],
        };
        let y = channel(frame.layout, k, frame.table, &mut queues[at..at + width], x);
        let b = usize::from(map[k]);
        let d = y.scale(frame.gains[32 * b + n]);
        row[2 * k] = d.re;
        row[2 * k + 1] = d.im;
        at += width;
    }
}

// Slot after slot, each to its row.
pub fn slots(frame: Frame, queues: &mut [f64], out: &mut [f64])
    requires { (frame.table.now ≡ rotations_of frame.layout) × Lent frame.layout frame.split.now frame.input.now frame.gains.now queues.old frame.slots out.old }
    ensures { Slotted frame.entry.layout frame.entry.split.now frame.entry.input.now frame.entry.gains.now queues.old frame.entry.slots out.old queues.new out.new }
{
    let mut samples = [0.0; 182];
    for n in 0..frame.slots {
        let at = 182 * n;
        plain_slots::samples(frame.layout, n, frame.split, frame.input, &mut samples);
        slot(frame, n, &samples, queues, &mut out[at..at + 182]);
    }
}
