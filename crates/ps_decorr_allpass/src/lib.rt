// The all-pass chain of a hybrid channel (source document 001, §8.6.4.5.2): a delay of two slots, a rotation, and three links whose delays are 3, 4
// and 5 slots. Here are its constants, and in specs/Memory how the carried delays hold it.
#![tactic(auto)]

ghost use Rattle.std.specs.Prelude.{◌≡◌, ◌+◌, ◌*◌, ◌%◌, ◌<◌, if◌then◌else◌};
ghost use Rattle.std.specs.Float.Ieee.{lt};
ghost use Rattle.fixed.specs.Real.{pair_at};
ghost use Rattle.standard.specs.Numbers as numbers;
ghost use Rattle.standard.specs.Channel as channel;
ghost use Rattle.standard.specs.Channel.{chain_from, rotations_of};
ghost use Rattle.ps_decorr_allpass.specs.Memory.{silenced_from};

use complex::Complex;
use layout::Layout;
use standard::{Chain, Link};

// The rotations of a layout's channels, eight numbers to each.
pub fn rotations(layout: Layout) -> &'static [i64]
    ensures { result.now ≡ rotations_of layout }
{
    match layout {
        Layout::Bands20 => rotation_table::rotations_20(),
        Layout::Bands34 => rotation_table::rotations_34(),
    }
}

// The pair at a place of channel k's eight numbers, 0 past the table's end.
fn rotation(table: &[i64], k: usize, place: usize) -> Complex
    requires { place < 8 }
    ensures { result ≡ pair_at table.now (8 * k + place) }
{
    if k < table.len() {
        fixed::pair(table, 8 * k + place)
    } else {
        fixed::pair(table, table.len())
    }
}

// Not below 0.
fn at_least_zero(x: f64) -> f64
    ensures { result ≡ (if lt x numbers.zero then numbers.zero else x) }
{
    // Kept: f64's max answers 0 where x is a NaN, and may answer 0 for -0, where the definition, standard Channel `decay`, has x.
    if x < 0.0 { 0.0 } else { x }
}

// g(k).
fn decay(layout: Layout, k: usize) -> f64
    ensures { result ≡ channel.decay layout k }
{
    let cutoff = layout.decay_cutoff();
    if k <= cutoff {
        1.0
    } else {
        at_least_zero(
            1.0 - decimals::decay_slope() * std::num::nearest_u64_to_f64((k - cutoff) as u64),
        )
    }
}

// The constants of channel k's chain, from a lent table of rotations.
pub fn chain(layout: Layout, k: usize, table: &[i64]) -> Chain
    ensures { result ≡ chain_from table.now layout k }
{
    let a = decimals::all_pass();
    let g = decay(layout, k);
    Chain {
        fractional: rotation(table, k, 0),
        first: Link {
            rotation: rotation(table, k, 2),
            feedback: a[0] * g,
        },
        second: Link {
            rotation: rotation(table, k, 4),
            feedback: a[1] * g,
        },
        third: Link {
            rotation: rotation(table, k, 6),
            feedback: a[2] * g,
        },
    }
}

// The lanes from `lane` on of four side by side, in numbers that begin with lane 0.
pub fn silence(xs: &mut [f64], lane: usize)
    ensures { xs.new ≡ silenced_from (λ m. m % 4) lane xs.old }
{
    for (m, x) in xs.iter_mut().enumerate() {
        if lane <= m % 4 {
            *x = 0.0;
        }
    }
}
