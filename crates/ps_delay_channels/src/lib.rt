// The channels of a frame that are plain delays (source documents 000 to 002): each is a QMF band of the input, mixed with what came 14 slots before, or
// one, straight into its band of left and right. Bands of one stereo band go by together.
#![tactic(auto)]

mod memory;
mod rows;
mod span;

ghost use Rattle.std.specs.Prelude.{◌≡◌, ◌+◌, ◌*◌, ◌≤◌, length};
ghost use Rattle.layout.specs.Numbers.{bands_of, all_pass_of, short_delay_of};
ghost use Rattle.limits.specs.Limits as limits;
ghost use Rattle.planar.specs.Rings.{plain_of};
ghost use Rattle.standard.specs.Mixing.{left_of, right_of};
ghost use Rattle.ps_delay_channels.specs.Channels.{past_then, side_rows, left_after, right_after, plain_after};
ghost use Rattle.ps_delay_channels.specs.Spans.{Frame};

use layout::Layout;
use ps_stereo_slots::Timing;
use rows::Lent;
use span::Common;

// What every channel takes is made once: the fractions, room for a band's coefficients, and where the ring's oldest row stands. Then both delays, and the
// frame's last slots become the memory.
fn frame(
    layout: Layout,
    timing: Timing,
    lent: Lent,
    plain: &mut [f64],
    left: &mut [f64],
    right: &mut [f64],
)
    requires frame { Frame timing.slots lent.input.now left.old right.old × (length plain.old ≡ 394) }
    requires layout_in_bounds { (32 * bands_of layout ≤ length lent.gains.now) × (limits.course * bands_of layout ≤ length lent.rows.now) }
    ensures left { left.new ≡ side_rows layout timing lent.entry.input.now lent.entry.gains.now lent.entry.rows.now plain.old left_of timing.slots left.old }
    ensures right { right.new ≡ side_rows layout timing lent.entry.input.now lent.entry.gains.now lent.entry.rows.now plain.old right_of timing.slots right.old }
    ensures plain { plain.new ≡ plain_of (timing.turn + timing.slots)
        (λ j. past_then layout timing lent.entry.input.now lent.entry.gains.now lent.entry.rows.now plain.old (all_pass_of layout + j) timing.slots)
        (λ j. past_then layout timing lent.entry.input.now lent.entry.gains.now lent.entry.rows.now plain.old (short_delay_of layout + j) timing.slots) }
{
    let mut fractions = [0.0; limits::FRACTIONS];
    let mut runs = [0.0; ps_stereo_slots::RUNS];
    ps_stereo_slots::fractions(timing.borders, timing.count, &mut fractions);
    let position = timing.turn % 14;
    let longs = layout.all_pass();
    let long = Common {
        layout,
        timing,
        fractions: &fractions,
        delay: span::delay_at(layout, longs, position),
        before: &plain[0..336],
    };
    span::each(long, longs, lent, &mut runs, left, right);
    let shorts = layout.short_delay();
    let short = Common {
        layout,
        timing,
        fractions: &fractions,
        delay: span::delay_at(layout, shorts, position),
        before: &plain[336..394],
    };
    span::each(short, shorts, lent, &mut runs, left, right);
    memory::keep_long(lent.input, position, timing.slots, &mut plain[0..336]);
    memory::keep_short(lent.input, timing.slots, &mut plain[336..394]);
}

// The channels above the all-pass ones, of a frame. What they have in common is lent: the input, ducking factors, the
// coefficients at the borders, and the memory of every delay.
pub fn delay_channels(
    layout: Layout,
    timing: Timing,
    input: &[f64],
    gains: &[f64],
    rows: &[f64],
    plain: &mut [f64],
    left: &mut [f64],
    right: &mut [f64],
)
    ensures left { left.new ≡ left_after layout timing input.now gains.now rows.now plain.old left.old right.old }
    ensures right { right.new ≡ right_after layout timing input.now gains.now rows.now plain.old left.old right.old }
    ensures plain { plain.new ≡ plain_after layout timing input.now gains.now rows.now plain.old left.old right.old }
{
    let within = timing.slots.min(32);
    let needed = 128 * within;
    let bands = layout.bands();
    if left.len() != needed
        || right.len() != needed
        || input.len() < needed
        || gains.len() < 32 * bands
        || rows.len() < limits::COURSE * bands
        || plain.len() != 394
    {
        return;
    }
    let cut = Timing {
        slots: within,
        ..timing
    };
    let lent = Lent { input, gains, rows };
    frame(layout, cut, lent, plain, left, right);
}
