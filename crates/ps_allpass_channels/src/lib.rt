// The all-pass channels of a frame (source documents 000 to 002), slot by slot: from the samples of the split bands and the input's row through their
// chains into the rows of left and right.
#![tactic(auto)]

mod desks;
mod rows;

ghost use Rattle.std.specs.Prelude.{List, ◌≡◌, ◌+◌, ◌*◌, ◌/◌, ◌%◌, ◌<◌, ◌≤◌, min, ℤ, length, ℕ};
ghost use Rattle.layout.specs.Numbers.{bands_of, all_pass_of, groups_of, unsplit_from_of};
ghost use Rattle.limits.specs.Limits as limits;
ghost use Rattle.lists.specs.Part.{part, put};
ghost use Rattle.ps_allpass_groups.specs.Desk.{chain_on};
ghost use Rattle.ps_decorr_allpass.specs.Memory.{silenced_from, delays_with};
ghost use Rattle.ps_map.specs.Bands.{parameter_map};
ghost use Rattle.standard.specs.Channel.{chain_from};
ghost use Rattle.standard.specs.Mixing.{left_of, right_of};
ghost use Rattle.ps_allpass_channels.specs.Channels.{channel_then, side_rows, left_after, right_after, delays_after};
ghost use Rattle.ps_allpass_channels.specs.Desks.{desk_of, Lies, Wayed};
ghost use Rattle.ps_allpass_channels.specs.Slots.{Passed, Roomy, Reached};

use desks::{DESKS, Lent};
use layout::Layout;
use ps_stereo_slots::Timing;

// What is said of a slot: that it is slot n of the frame, that `turn` slots came before it, and how far it lies on its way, or that it is held.
#[derive(Clone, Copy)]
struct Moment {
    n: usize,
    turn: usize,
    t: f64,
    held: bool,
}

// One slot; its region's coefficients are on the desks.
fn slot(
    moment: Moment,
    lent: Lent,
    desks: &mut [f64; DESKS],
    delays: &mut [f64],
    left: &mut [f64],
    right: &mut [f64],
)
    requires map_value { (lent.map.now ≡ parameter_map lent.layout) × (moment.n < 32) × (128 * moment.n + 128 ≤ length lent.input.now) }
    requires layout_in_bounds { (64 * unsplit_from_of lent.layout ≤ length lent.samples.now) × (32 * bands_of lent.layout ≤ length lent.gains.now) }
    requires delays_len { 112 * groups_of lent.layout ≤ length delays.old }
    requires n_in_bounds { (128 * moment.n + 128 ≤ length left.old) × (128 * moment.n + 128 ≤ length right.old) }
    ensures { Passed lent.entry.layout lent.entry.samples.now lent.entry.gains.now lent.entry.input.now moment.n moment.turn moment.t moment.held desks.old delays.old left.old right.old desks.new delays.new left.new right.new }
{
    desks::enter(lent, moment.n, desks);
    ps_allpass_groups::groups(
        lent.layout,
        delays,
        desks,
        moment.turn,
        moment.t,
        moment.held,
    );
    rows::leave(lent.layout, desks, moment.n, left, right);
}

// The coefficients of a region onto the desks, unless they are there. Behind the last border they are held.
fn begin(lent: Lent, count: usize, region: usize, old: Option<usize>, desks: &mut [f64; DESKS])
    requires map_value { (lent.map.now ≡ parameter_map lent.layout) × (limits.course * bands_of lent.layout ≤ length lent.rows.now) }
    requires region_le_count { (region ≤ count) × (count ≤ limits.envelopes) × ((e : ℕ) → old ≡ Some e → Wayed lent.layout lent.rows.now e (min (e + 1) count) desks.old) }
    ensures way { Wayed lent.entry.layout lent.entry.rows.now region (min (region + 1) count) desks.new }
    ensures chains { Lies lent.entry.layout chain_on desks.new (desk_of chain_on desks.old) }
{
    if let Some(there) = old
        && there == region
    {
        return;
    }
    desks::ways(
        lent.layout,
        lent.map,
        lent.rows,
        region,
        (region + 1).min(count),
        desks,
    );
}

// The slots of a frame, whose turn is below 420. The constants are on the desks.
fn run(
    timing: Timing,
    lent: Lent,
    desks: &mut [f64; DESKS],
    delays: &mut [f64],
    left: &mut [f64],
    right: &mut [f64],
)
    requires map_value { lent.map.now ≡ parameter_map lent.layout }
    requires room { Roomy lent.layout timing lent.samples.now lent.gains.now lent.rows.now lent.input.now delays.old left.old right.old }
    ensures { (table : List ℤ) → Lies lent.entry.layout chain_on desks.old (chain_from table lent.entry.layout)
        → Reached lent.entry.layout timing table lent.entry.samples.now lent.entry.gains.now lent.entry.rows.now lent.entry.input.now delays.old timing.slots left.old right.old delays.new left.new right.new }
{
    let count = timing.count.min(limits::ENVELOPES);
    // The region whose coefficients are on the desks.
    let mut region = None;
    for n in 0..timing.slots {
        let next = ps_stereo_slots::region_in(timing, n);
        begin(lent, count, next, region, desks);
        region = Some(next);
        let moment = Moment {
            n,
            turn: timing.turn + n,
            t: ps_stereo_slots::share_in(timing, next, n),
            held: next == count,
        };
        slot(moment, lent, desks, delays, left, right);
    }
}

// The lanes of the last group that have no channel: what went through them is nothing.
fn silence_free(layout: Layout, delays: &mut [f64])
    requires { 112 * groups_of layout ≤ length delays.old }
    ensures { delays.new ≡ put (112 * (all_pass_of layout / 4)) 112 delays.old
        (silenced_from (λ m. m % 4) (all_pass_of layout % 4) (part (112 * (all_pass_of layout / 4)) 112 delays.old)) }
{
    let at = 112 * (layout.all_pass() / 4);
    ps_decorr_allpass::silence(&mut delays[at..at + 112], layout.all_pass() % 4);
}

// A frame with room in every list, of at most 32 slots and with a turn below 420.
fn frame(
    timing: Timing,
    table: &[i64],
    lent: Lent,
    delays: &mut [f64],
    left: &mut [f64],
    right: &mut [f64],
)
    requires map_value { lent.map.now ≡ parameter_map lent.layout }
    requires room { Roomy lent.layout timing lent.samples.now lent.gains.now lent.rows.now lent.input.now delays.old left.old right.old }
    ensures left { left.new ≡ side_rows lent.entry.layout timing table.now lent.entry.samples.now lent.entry.gains.now lent.entry.rows.now lent.entry.input.now delays.old left_of timing.slots left.old }
    ensures right { right.new ≡ side_rows lent.entry.layout timing table.now lent.entry.samples.now lent.entry.gains.now lent.entry.rows.now lent.entry.input.now delays.old right_of timing.slots right.old }
    ensures delays { delays.new ≡ delays_with lent.entry.layout (timing.turn + timing.slots)
        (λ k. channel_then lent.entry.layout timing table.now lent.entry.samples.now lent.entry.gains.now lent.entry.rows.now lent.entry.input.now delays.old k timing.slots) delays.old }
{
    let mut desks = [0.0; DESKS];
    desks::lay(lent.layout, table, &mut desks);
    run(timing, lent, &mut desks, delays, left, right);
    silence_free(lent.layout, delays);
}

// What a frame's channels have in common is lent: rotations, samples, ducking factors, the coefficients at the borders, the input, and the delays.
pub fn allpass_channels(
    layout: Layout,
    timing: Timing,
    table: &[i64],
    samples: &[f64],
    gains: &[f64],
    rows: &[f64],
    input: &[f64],
    delays: &mut [f64],
    left: &mut [f64],
    right: &mut [f64],
)
    ensures left { left.new ≡ left_after layout timing table.now samples.now gains.now rows.now input.now delays.old left.old right.old }
    ensures right { right.new ≡ right_after layout timing table.now samples.now gains.now rows.now input.now delays.old left.old right.old }
    ensures delays { delays.new ≡ delays_after layout timing table.now samples.now gains.now rows.now input.now delays.old left.old right.old }
{
    let slots = timing.slots.min(32);
    let bands = layout.bands();
    if left.len() != 128 * slots
        || right.len() != 128 * slots
        || input.len() < 128 * slots
        || samples.len() < 64 * layout.unsplit_from()
        || gains.len() < 32 * bands
        || rows.len() < limits::COURSE * bands
        || delays.len() < 112 * layout.groups()
    {
        return;
    }
    let within = Timing {
        slots,
        turn: timing.turn % 420,
        ..timing
    };
    let lent = Lent {
        layout,
        map: &ps_map::parameter_map(layout),
        samples,
        gains,
        rows,
        input,
    };
    frame(within, table, lent, delays, left, right);
}
