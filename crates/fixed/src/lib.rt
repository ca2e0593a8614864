// Constants as floats: a table holds whole numbers of 2^-52.
#![tactic(auto)]

ghost use Rattle.std.specs.Prelude.{◌≡◌, pos, slice_index_or};
ghost use Rattle.fixed.specs.Real.{real, pair_at};

use complex::Complex;

// The whole number n of 2^-52. The cast is exact for every number of a table.
pub fn unit(n: i64) -> f64
    ensures { result ≡ real n }
{
    std::num::nearest_i64_to_f64(n) / 4503599627370496.0
}

// The number at a place of a table, 0 past its end.
fn number(table: &[i64], at: usize) -> i64
    ensures { result ≡ slice_index_or table.now at (pos 0) }
{
    table.get(at).copied().unwrap_or(0)
}

// The pair that starts at a place of a table.
pub fn pair(table: &[i64], at: usize) -> Complex
    ensures { result ≡ pair_at table.now at }
{
    Complex {
        re: unit(number(table, at)),
        im: unit(number(table, at.saturating_add(1))),
    }
}
