// The carried state of mixing (source document 000): the coefficients at the last border, and the history of phase indices.
#![tactic(auto)]

ghost use Rattle.std.specs.Prelude.{◌≡◌, ◌<◌};
ghost use Rattle.ps_stereo.specs.State.{fresh_stereo, part_of, remapped_to, remapped_in};
ghost use Rattle.ps_stereo.specs.Parts.{Scattered};

use layout::Layout;

// Eight numbers of each of 34 bands.
pub const MATRICES: usize = 8 * 34;

// Four phase indices of each.
pub const PHASES: usize = 4 * 34;

// For each band h11, h12, h21, h22 with their parts side by side; and for each band the oldest and the previous index of IPD, then those of OPD.
#[derive(Clone, Copy)]
pub struct PsStereo {
    pub matrices: [f64; MATRICES],
    pub phases: [i8; PHASES],
}

pub fn fresh() -> PsStereo
    ensures { result ≡ fresh_stereo }
{
    PsStereo {
        matrices: [0.0; MATRICES],
        phases: [0; PHASES],
    }
}

// One of the eight numbers of every band.
fn gathered(matrices: &[f64; MATRICES], c: usize) -> [f64; 34]
    requires { c < 8 }
    ensures { result ≡ part_of matrices.now c }
{
    std::array::from_fn(|b| matrices[8 * b + c])
}

fn scatter(part: &[f64; 34], c: usize, matrices: &mut [f64; MATRICES])
    requires { c < 8 }
    ensures { Scattered c part.now 34 matrices.old matrices.new }
{
    for (b, x) in part.iter().enumerate() {
        matrices[8 * b + c] = *x;
    }
}

fn remap_each(layout: Layout, matrices: &mut [f64; MATRICES])
    ensures { matrices.new ≡ remapped_to layout matrices.old }
{
    for c in 0..8 {
        let mapped = ps_map::map_coefficients(gathered(matrices, c), layout);
        scatter(&mapped, c, matrices);
    }
}

// The coefficients of 34 bands after a change to a layout from the other one. Nothing changes where they are those of another number.
pub fn remap(layout: Layout, matrices: &mut [f64])
    ensures { matrices.new ≡ remapped_in layout matrices.old }
{
    if let Some(all) = matrices.as_mut_array::<MATRICES>() {
        remap_each(layout, all);
    }
}
