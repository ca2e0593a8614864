// The sound of a slot done plainly, channel by channel, for what is compared with the decoder: hybrid samples in a row of re and im, mixed with their
// de-correlation to left and right, and a side's row added together to the slot's QMF bands.
#![tactic(auto)]

ghost use Rattle.std.specs.Prelude.{◌≡◌, Bool, ◌+◌, ◌*◌, ◌<◌, ◌≤◌, length};
ghost use Rattle.complex.specs.Operations.{product, sum};
ghost use Rattle.layout.specs.Numbers.{channels_of, split_of};
ghost use Rattle.planar.specs.Cells.{cell, stored};
ghost use Rattle.ps_map.specs.Bands.{band_of};
ghost use Rattle.standard.specs.Hybrid.{added_to};
ghost use Rattle.standard.specs.Mixing as mixing;
ghost use Rattle.plain_slots.specs.Rows.{samples_after, left_after, right_after, qmf_after};

use complex::Complex;
use layout::Layout;

// Hybrid sample n of every channel: the split bands', which are runs of 32 slots, then the QMF bands of the input's row. Nothing changes where n is above
// 31, or a list is too short.
pub fn samples(layout: Layout, n: usize, split: &[f64], input: &[f64], row: &mut [f64])
    ensures { row.new ≡ samples_after layout n split.now input.now row.old }
{
    let unsplit = layout.unsplit_from();
    let bands = layout.split();
    let channels = layout.channels();
    if 31 < n
        || split.len() < 64 * unsplit
        || input.len() < 128 * n + 128
        || row.len() < 2 * channels
    {
        return;
    }
    for k in 0..unsplit {
        put(row, k, cell(split, 64 * k + n, 32));
    }
    for k in unsplit..channels {
        put(row, k, cell(input, 128 * n + 2 * (k + bands - unsplit), 1));
    }
}

// A complex number whose im stands `apart` places behind its re.
// Kept: `cell`, `put` and `band` are plain ones of the bench, like some of the decoder's: what is compared with the decoder stands apart from its code.
fn cell(xs: &[f64], at: usize, apart: usize) -> Complex
    requires { at + apart < length xs.now }
    ensures { result ≡ cell apart xs.now at }
{
    Complex {
        re: xs[at],
        im: xs[at + apart],
    }
}

// Puts complex number k of a row.
fn put(row: &mut [f64], k: usize, v: Complex)
    requires { 2 * k + 1 < length row.old }
    ensures { row.new ≡ stored 1 row.old (2 * k) v }
{
    row[2 * k] = v.re;
    row[2 * k + 1] = v.im;
}

fn taken(marked: bool, h: Complex) -> Complex
    ensures { result ≡ mixing.taken marked h }
{
    if marked { h.conj() } else { h }
}

// b(k): the stereo band of channel k.
fn band(layout: Layout, k: usize) -> usize
    requires { k < 91 }
    ensures { result ≡ band_of layout k }
{
    usize::from(ps_map::parameter_map(layout)[k])
}

// One side: the two coefficients that stand at `first` and `second`, times the sample and the de-correlated sample.
fn side(marked: bool, runs: &[f64], first: usize, second: usize, s: Complex, d: Complex) -> Complex
    requires { (first + 32 < length runs.now) × (second + 32 < length runs.now) }
    ensures { result ≡ sum (product (mixing.taken marked (cell 32 runs.now first)) s)
        (product (mixing.taken marked (cell 32 runs.now second)) d) }
{
    let a = taken(marked, cell(runs, first, 32));
    let b = taken(marked, cell(runs, second, 32));
    a * s + b * d
}

// Left and right of slot n, of every channel, by the coefficients of each band, four runs of 32 slots. Nothing changes where n is above 31, or a list is too
// short.
pub fn mix(
    layout: Layout,
    n: usize,
    runs: &[f64],
    samples: &[f64],
    decorrelated: &[f64],
    left: &mut [f64],
    right: &mut [f64],
)
    ensures left { left.new ≡ left_after layout n runs.now samples.now decorrelated.now left.old right.old }
    ensures right { right.new ≡ right_after layout n runs.now samples.now decorrelated.now left.old right.old }
{
    let channels = layout.channels();
    let numbers = 2 * channels;
    if 31 < n
        || runs.len() < 256 * layout.bands()
        || samples.len() < numbers
        || decorrelated.len() < numbers
        || left.len() < numbers
        || right.len() < numbers
    {
        return;
    }
    for k in 0..channels {
        let at = 256 * band(layout, k) + n;
        let marked = ps_map::conjugated(layout, k);
        let s = cell(samples, 2 * k, 1);
        let d = cell(decorrelated, 2 * k, 1);
        put(left, k, side(marked, runs, at, at + 128, s, d));
        put(right, k, side(marked, runs, at + 64, at + 192, s, d));
    }
}

// Channels side by side, added in rising order from 0.
fn added(hybrid: &[f64], from: usize, count: usize) -> Complex
    requires { 2 * (from + count) ≤ length hybrid.now }
    ensures { result ≡ added_to (λ k. cell 1 hybrid.now (2 * k)) from count }
{
    let mut sum = Complex { re: 0.0, im: 0.0 };
    for i in 0..count {
        sum = sum + cell(hybrid, 2 * (from + i), 1);
    }
    sum
}

// A side's hybrid samples to the slot's 64 QMF bands. Nothing changes where a list is too short.
pub fn synthesise(layout: Layout, hybrid: &[f64], row: &mut [f64])
    ensures { row.new ≡ qmf_after layout hybrid.now row.old }
{
    if hybrid.len() < 2 * layout.channels() || row.len() < 128 {
        return;
    }
    let split = layout.split();
    let unsplit = layout.unsplit_from();
    for q in 0..split {
        let from = layout.first_channel(q);
        let next = layout.first_channel(q + 1);
        put(row, q, added(hybrid, from, next - from));
    }
    for q in split..64 {
        put(row, q, cell(hybrid, 2 * (q + unsplit - split), 1));
    }
}
