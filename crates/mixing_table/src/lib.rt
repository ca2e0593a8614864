// The mixing coefficients (§8.6.4.6.2), as whole numbers of 2^-52.
#![tactic(auto)]

mod values;

ghost use Rattle.std.specs.Prelude.{◌≡◌, ◌<◌, pos, get_or};
ghost use Rattle.fixed.specs.Real.{real};
ghost use Rattle.mixing_table.specs.Values.{mixing};
ghost use Rattle.mixing_table.specs.Coefficients.{procedure_place, level_place, set_place, coefficients_at};

#[derive(Clone, Copy)]
pub struct Coefficients {
    pub h11: f64,
    pub h12: f64,
    pub h21: f64,
    pub h22: f64,
}

pub fn table() -> &'static [i64; 2944]
    ensures { result.now ≡ mixing }
{
    &values::MIXING
}

// The place of a level among the 46: 15 coarse ones, then 31 fine ones.
fn level_place(fine: bool, level: usize) -> usize
    ensures { (result ≡ level_place fine level) × (result < 46) }
{
    if fine {
        15 + level.min(30)
    } else {
        level.min(14)
    }
}

// The place of a procedure's first level: Ra has the first 46, Rb the others.
fn procedure_place(rb: bool) -> usize
    ensures { (result ≡ procedure_place rb) × (result < 47) }
{
    if rb { 46 } else { 0 }
}

// Where a set of four starts.
fn place(rb: bool, fine: bool, level: usize, coherence: usize) -> usize
    ensures { (result ≡ set_place rb fine level coherence) × (result < 2941) }
{
    let procedure = procedure_place(rb);
    let row = level_place(fine, level);
    let column = coherence.min(7);
    4 * ((procedure + row) * 8 + column)
}

fn coefficient(table: &[i64; 2944], at: usize) -> f64
    requires { at < 2944 }
    ensures { result ≡ real (get_or table.now at (pos 0)) }
{
    fixed::unit(table[at])
}

// The set of a procedure, a quantiser, a level (from 0, the lowest of its quantiser) and a coherence. Beyond the last level, or the last
// coherence, it is the last.
pub fn set(
    table: &[i64; 2944],
    rb: bool,
    fine: bool,
    level: usize,
    coherence: usize,
) -> Coefficients
    ensures { result ≡ coefficients_at table.now rb fine level coherence }
{
    let at = place(rb, fine, level, coherence);
    Coefficients {
        h11: coefficient(table, at),
        h12: coefficient(table, at + 1),
        h21: coefficient(table, at + 2),
        h22: coefficient(table, at + 3),
    }
}
