// The smoothed phase of three indices (§8.6.4.6.3.2), as whole numbers of 2^-52.
#![tactic(auto)]

mod values;

ghost use Rattle.std.specs.Prelude.{◌≡◌, ◌<◌};
ghost use Rattle.phase_table.specs.Values.{phase};
ghost use Rattle.phase_table.specs.Directions.{direction_place, direction_at};

use complex::Complex;

pub fn table() -> &'static [i64; 1024]
    ensures { result.now ≡ phase }
{
    &values::PHASE
}

// Where the pair of three indices starts.
fn place(oldest: usize, previous: usize, current: usize) -> usize
    ensures { result ≡ direction_place oldest previous current }
{
    2 * (((oldest % 8) * 8 + previous % 8) * 8 + current % 8)
}

// The direction of 1/4, 1/2 and 1 times the unit vectors of three indices.
pub fn direction(table: &[i64], oldest: usize, previous: usize, current: usize) -> Complex
    ensures { result ≡ direction_at table.now oldest previous current }
{
    fixed::pair(table, place(oldest, previous, current))
}
