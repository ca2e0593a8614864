// Channels side by side that share a stereo band and a delay, mixed at once. Private to the crate.
ghost use Rattle.std.specs.Prelude.{◌≡◌, ℕ, ◌+◌, ◌*◌, ◌<◌, ◌≤◌, length, get_or};
ghost use Rattle.layout.specs.declared.Kind.TheVariants.{Long, Short};
ghost use Rattle.layout.specs.Numbers.{bands_of, all_pass_of, channels_of, kind_of};
ghost use Rattle.limits.specs.Limits as limits;
ghost use Rattle.planar.specs.Frame.{qmf_band_of};
ghost use Rattle.ps_stereo_slots.specs.Coefficients.{Fractions};
ghost use Rattle.standard.specs.Mixing.{left_of, right_of};
ghost use Rattle.ps_delay_channels.specs.Spans.{long_delay, short_delay, Before, Frame, Banded, side_in, side_from};

use super::rows;
use super::rows::{Delay, Lent, Span};
use layout::{Kind, Layout};
use ps_stereo_slots::{RUNS, Timing};

// What the spans of a delay have in common: the layout, when coefficients change and how far each slot lies on its way, the delay, and its memory.
#[derive(Clone, Copy)]
pub struct Common<'a> {
    pub layout: Layout,
    pub timing: Timing,
    pub fractions: &'a [f64; limits::FRACTIONS],
    pub delay: Delay,
    pub before: &'a [f64],
}

// The delay of channel k, which is no all-pass channel. Its QMF bands are those of either layout: 23 to 34, or 35 to 63.
pub fn delay_at(layout: Layout, k: usize, position: usize) -> Delay
    ensures { (kind_of layout k ≡ Long → result ≡ long_delay position) × (kind_of layout k ≡ Short → result ≡ short_delay) }
{
    match layout.kind(k) {
        Kind::Short => Delay {
            slots: 1,
            first: 35,
            bands: 29,
            position: 0,
        },
        Kind::AllPass | Kind::Long => Delay {
            slots: 14,
            first: 23,
            bands: 12,
            position,
        },
    }
}

// The first channel behind k that is of another stereo band, or `end`.
fn span_end(map: &[u8; 91], k: usize, end: usize) -> usize
    requires { (k < end) × (end ≤ 91) }
    ensures { ((j : ℕ) → k ≤ j → j < result → get_or map.now j 0 ≡ get_or map.now k 0) × ((k < result) × (result ≤ end)) }
{
    let band = map[k];
    for next in k + 1..end {
        if map[next] != band {
            return next;
        }
    }
    end
}

// A span: its band's coefficients slot by slot, and both sides.
fn mix_span(
    span: Span,
    common: Common,
    lent: Lent,
    runs: &mut [f64; RUNS],
    left: &mut [f64],
    right: &mut [f64],
)
    requires fractions { Fractions common.timing.borders common.timing.count common.fractions.now × (span.band < 34) }
    requires band_in_bounds { (32 * span.band + 32 ≤ length lent.gains.now) × (limits.course * span.band + limits.course ≤ length lent.rows.now) }
    requires frame { Frame common.timing.slots lent.input.now left.old right.old × Before span.delay span.from span.count span.before.now }
    ensures left { Banded span.entry.from span.entry.count common.entry.timing.slots (side_in span.entry.delay span.entry.before.now lent.entry.input.now
        common.entry.timing lent.entry.gains.now lent.entry.rows.now left_of span.entry.band) left.old left.new }
    ensures right { Banded span.entry.from span.entry.count common.entry.timing.slots (side_in span.entry.delay span.entry.before.now lent.entry.input.now
        common.entry.timing lent.entry.gains.now lent.entry.rows.now right_of span.entry.band) right.old right.new }
{
    let timing = common.timing;
    let slots = timing.slots;
    let band = span.band;
    ps_stereo_slots::interpolate(
        lent.rows,
        common.fractions,
        timing.borders,
        timing.count,
        band,
        slots,
        runs,
    );
    let at = 32 * band;
    let own = Lent {
        input: lent.input,
        gains: &lent.gains[at..at + 32],
        rows: lent.rows,
    };
    rows::bands(span, slots, own, runs, left, right);
}

// All channels of the delay that `start` is the first channel of, in rising order. The lists that a span fills are lent, so that none is built inside the
// loop.
pub fn each(
    common: Common,
    start: usize,
    lent: Lent,
    runs: &mut [f64; RUNS],
    left: &mut [f64],
    right: &mut [f64],
)
    requires fractions { Fractions common.timing.borders common.timing.count common.fractions.now × Frame common.timing.slots lent.input.now left.old right.old }
    requires layout_in_bounds { (32 * bands_of common.layout ≤ length lent.gains.now) × (limits.course * bands_of common.layout ≤ length lent.rows.now) }
    requires layout_bound { (all_pass_of common.layout ≤ start) × (start + common.delay.bands ≤ channels_of common.layout) × (common.delay.first ≡ qmf_band_of common.layout start)
        × Before common.delay common.delay.first common.delay.bands common.before.now }
    ensures left { Banded common.entry.delay.first common.entry.delay.bands common.entry.timing.slots (side_from common.entry.delay common.entry.before.now lent.entry.input.now
        common.entry.timing lent.entry.gains.now lent.entry.rows.now left_of common.entry.layout) left.old left.new }
    ensures right { Banded common.entry.delay.first common.entry.delay.bands common.entry.timing.slots (side_from common.entry.delay common.entry.before.now lent.entry.input.now
        common.entry.timing lent.entry.gains.now lent.entry.rows.now right_of common.entry.layout) right.old right.new }
{
    let delay = common.delay;
    let map = ps_map::parameter_map(common.layout);
    let end = start + delay.bands;
    let mut k = start;
    // Kept: a turn goes on where its span ends. `chunk_by` cuts the map so, but hands out bands and not the place, which would be counted by hand again.
    while k < end {
        let next = span_end(&map, k, end);
        let span = Span {
            band: usize::from(map[k]),
            from: delay.first + (k - start),
            count: next - k,
            delay,
            before: common.before,
        };
        mix_span(span, common, lent, runs, left, right);
        k = next;
    }
}
