// QMF bands side by side, slot after slot: a slot's coefficients stand still while its bands go by. Private to the crate.
ghost use Rattle.std.specs.Prelude.{false, ◌≡◌, ℕ, ◌*◌, ◌<◌, length, get_or};
ghost use Rattle.std.specs.Float.{nan};
ghost use Rattle.complex.specs.Operations.{scaled};
ghost use Rattle.planar.specs.Cells.{cell};
ghost use Rattle.planar.specs.Frame.{matrix_at};
ghost use Rattle.standard.specs.Mixing.{left_of, right_of};
ghost use Rattle.ps_delay_channels.specs.Spans.{Before, Frame, Banded, mixed_at};

use ps_stereo_slots::RUNS;

// A delay of some slots, of QMF bands from `first` on: its memory is a ring of rows, of which the one at `position` is the oldest.
#[derive(Clone, Copy)]
pub struct Delay {
    pub slots: usize,
    pub first: usize,
    pub bands: usize,
    pub position: usize,
}

// What a frame lends to its spans: its input, the ducking factors, and the coefficients at the borders.
#[derive(Clone, Copy)]
pub struct Lent<'a> {
    pub input: &'a [f64],
    pub gains: &'a [f64],
    pub rows: &'a [f64],
}

// QMF bands from `from` on that share a stereo band and a delay, whose memory is lent.
#[derive(Clone, Copy)]
pub struct Span<'a> {
    pub band: usize,
    pub from: usize,
    pub count: usize,
    pub delay: Delay,
    pub before: &'a [f64],
}

// Slot n of some bands: what comes, what came before by the delay, and its ducking factor.
#[derive(Clone, Copy)]
struct Slot<'a> {
    n: usize,
    factor: f64,
    samples: &'a [f64],
    delayed: &'a [f64],
}

// One slot of `count` bands, into both sides.
fn weigh(runs: &[f64; RUNS], slot: Slot, count: usize, left: &mut [f64], right: &mut [f64])
    requires slot { slot.n < 32 }
    requires samples_len { (length slot.samples.now ≡ 2 * count) × (length slot.delayed.now ≡ 2 * count) × (length left.old ≡ 2 * count) × (length right.old ≡ 2 * count) }
    ensures left { (j : ℕ) → j < count → cell 1 left.new (2 * j)
        ≡ left_of false (matrix_at runs.now slot.entry.n) (cell 1 slot.entry.samples.now (2 * j)) (scaled (cell 1 slot.entry.delayed.now (2 * j)) slot.entry.factor) }
    ensures right { (j : ℕ) → j < count → cell 1 right.new (2 * j)
        ≡ right_of false (matrix_at runs.now slot.entry.n) (cell 1 slot.entry.samples.now (2 * j)) (scaled (cell 1 slot.entry.delayed.now (2 * j)) slot.entry.factor) }
{
    let Slot {
        n,
        factor,
        samples,
        delayed,
    } = slot;
    let a = runs[n];
    let b = runs[n + 32];
    let c = runs[n + 64];
    let d = runs[n + 96];
    let e = runs[n + 128];
    let f = runs[n + 160];
    let g = runs[n + 192];
    let h = runs[n + 224];
    for j in 0..count {
        let x = samples[2 * j];
        let y = samples[2 * j + 1];
        let u = delayed[2 * j] * factor;
        let v = delayed[2 * j + 1] * factor;
        left[2 * j] = (a * x - b * y) + (e * u - f * v);
        left[2 * j + 1] = (a * y + b * x) + (e * v + f * u);
        right[2 * j] = (c * x - d * y) + (g * u - h * v);
        right[2 * j + 1] = (c * y + d * x) + (g * v + h * u);
    }
}

// A span over a frame, whose ducking factors are lent alone: each of its bands beside what came before by its delay, which in the first slots stands in the
// memory's rows, 24 numbers apart.
pub fn bands(
    span: Span,
    slots: usize,
    lent: Lent,
    runs: &[f64; RUNS],
    left: &mut [f64],
    right: &mut [f64],
)
    requires gains_len { length lent.gains.now ≡ 32 }
    requires frame { Frame slots lent.input.now left.old right.old × Before span.delay span.from span.count span.before.now }
    ensures left { Banded span.entry.from span.entry.count slots (mixed_at span.entry.delay span.entry.before.now lent.entry.input.now
        left_of (matrix_at runs.now) (λ n. get_or lent.entry.gains.now n nan)) left.old left.new }
    ensures right { Banded span.entry.from span.entry.count slots (mixed_at span.entry.delay span.entry.before.now lent.entry.input.now
        right_of (matrix_at runs.now) (λ n. get_or lent.entry.gains.now n nan)) right.old right.new }
{
    let Span {
        from,
        count,
        delay,
        ..
    } = span;
    let wide = 2 * count;
    let column = 2 * (from - delay.first);
    for n in 0..slots {
        let at = 128 * n + 2 * from;
        let delayed = if n < delay.slots {
            let then = 24 * ((delay.position + n) % 14) + column;
            &span.before[then..then + wide]
        } else {
            let then = 128 * (n - delay.slots) + 2 * from;
            &lent.input[then..then + wide]
        };
        let slot = Slot {
            n,
            factor: lent.gains[n],
            samples: &lent.input[at..at + wide],
            delayed,
        };
        weigh(
            runs,
            slot,
            count,
            &mut left[at..at + wide],
            &mut right[at..at + wide],
        );
    }
}
