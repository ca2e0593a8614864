// Groups of four all-pass channels, one slot at a time (source documents 000 and 001, §8.6.4.5.2 and §8.6.4.6): each goes through its chain, over rings
// that are used where they lie, is ducked and mixed into both sides.
#![tactic(auto)]

mod chain;
mod lanes;
mod mixing;

ghost use Rattle.std.specs.Prelude.{◌≡◌, ℕ, ◌+◌, ◌*◌, ◌≤◌, ◌<◌, length};
ghost use Rattle.layout.specs.Numbers.{groups_of};
ghost use Rattle.ps_map.specs.Bands.{conjugated_of};
ghost use Rattle.ps_allpass_groups.specs.Lanes.{mark_of};
ghost use Rattle.ps_allpass_groups.specs.Groups.{Grouped, AllGrouped, Slotted};

use lanes::{Four, Pair};
use layout::Layout;
use mixing::Marks;

// Which channels of a group are marked with *: 0 and 1 of 71, and 9, 10 and 11 of 91.
fn marks(layout: Layout, g: usize) -> Marks
    ensures { (i : ℕ) → i < 4 → mark_of i result ≡ conjugated_of layout (4 * g + i) }
{
    match (layout, g) {
        (Layout::Bands20, 0) => Some([true, true, false, false]),
        (Layout::Bands34, 2) => Some([false, true, true, true]),
        _ => None,
    }
}

// One slot of a group, on its part of the delays and on its desk.
// Kept: slices here, in chain and in mixing: with `&mut [f64; 136]` for the desk the proof did not close, for the check stopped at a fault of its own where
// the desk is lent as a slice and then as an array.
fn group(part: &mut [f64], desk: &mut [f64], turn: usize, t: f64, held: bool, marks: Marks)
    requires { (length part.old ≡ 112) × (length desk.old ≡ 136) }
    ensures { Grouped turn t held (λ i. mark_of i marks) part.old desk.old part.new desk.new }
{
    let s = Pair::at(desk, 108);
    let d = chain::chain(part, desk, turn, s);
    mixing::mix(desk, t, held, marks, s, d.scale(Four::at(desk, 116)));
}

// One slot of a layout's groups.
fn each(layout: Layout, delays: &mut [f64], desks: &mut [f64], turn: usize, t: f64, held: bool)
    requires { (112 * groups_of layout ≤ length delays.old) × (136 * groups_of layout ≤ length desks.old) }
    ensures { AllGrouped layout turn t held delays.old desks.old delays.new desks.new }
{
    let count = layout.groups();
    for g in 0..count {
        let p = 112 * g;
        let o = 136 * g;
        group(
            &mut delays[p..p + 112],
            &mut desks[o..o + 136],
            turn,
            t,
            held,
            marks(layout, g),
        );
    }
}

// One slot of a layout's groups; `turn` slots came before it. Its coefficients are those at the border before it, or, where it is not held, t of the way to
// the next. Nothing changes where the delays or the desks have no room for the groups.
pub fn groups(
    layout: Layout,
    delays: &mut [f64],
    desks: &mut [f64],
    turn: usize,
    t: f64,
    held: bool,
)
    ensures { Slotted layout turn t held delays.old desks.old delays.new desks.new }
{
    let count = layout.groups();
    if delays.len() < 112 * count {
        return;
    }
    if desks.len() < 136 * count {
        return;
    }
    each(layout, delays, desks, turn, t, held);
}
