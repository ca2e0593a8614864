// The mixing coefficients of every band at an envelope's border (source document 000, §8.6.4.6.2 and §8.6.4.6.3), with the history of phase indices.
#![tactic(auto)]

ghost use Rattle.std.specs.Prelude.{◌≡◌, ◌*◌, ◌<◌, ◌≤◌, length};
ghost use Rattle.complex.specs.Operations.{product, conjugate};
ghost use Rattle.limits.specs.Limits as limits;
ghost use Rattle.planar.specs.Frame.{numbers_of};
ghost use Rattle.standard.specs.Numbers.{natural_of};
ghost use Rattle.standard.specs.Mixing.{level_of, unrotated, direction_of, rotated_by};
ghost use Rattle.layout.specs.Numbers.{bands_of};
ghost use Rattle.ps_stereo_envelope.specs.Envelope.{rows_after, kept_after, rows_then, kept_then, matrix_at, phases_then};
ghost use Rattle.ps_stereo_envelope.specs.Loops.{cue_in, before};

use complex::Complex;
use layout::Layout;
use ps_kinds::Kinds;
use standard::{Cues, Matrix, Modes};

// The mapped indices of one band.
type Indices = Kinds<i8>;

// A negative index acts as 0.
fn natural(index: i32) -> usize
    ensures { result ≡ natural_of index }
{
    // Kept: (b): by try_from and unwrap_or a frame's coefficients at the borders take 17 % more instructions.
    index.max(0) as usize
}

fn natural_index(index: i8) -> usize
    ensures { result ≡ natural_of index }
{
    natural(i32::from(index))
}

// An IID index counts from -7 or, on the fine grid, from -15.
fn level(fine: bool, iid: i8) -> usize
    ensures { result ≡ level_of fine iid }
{
    natural(i32::from(iid) + if fine { 15 } else { 7 })
}

// The tables that are lent: coefficients and directions.
#[derive(Clone, Copy)]
struct Tables<'a> {
    coefficients: &'a [i64; 2944],
    directions: &'a [i64],
}

// What is said of a border: that it is that of envelope e, how its coefficients are made, and its indices.
#[derive(Clone, Copy)]
struct Border {
    layout: Layout,
    modes: Modes,
    cues: Cues,
    e: usize,
}

// A band's coefficients before phase.
fn base(coefficients: &[i64; 2944], modes: Modes, indices: Indices) -> Matrix
    ensures { result ≡ unrotated coefficients.now modes (cue_in indices) }
{
    let level = level(modes.fine, indices.iid);
    let coherence = natural_index(indices.icc);
    let set = mixing_table::set(coefficients, modes.rb, modes.fine, level, coherence);
    Matrix {
        h11: Complex {
            re: set.h11,
            im: 0.0,
        },
        h12: Complex {
            re: set.h12,
            im: 0.0,
        },
        h21: Complex {
            re: set.h21,
            im: 0.0,
        },
        h22: Complex {
            re: set.h22,
            im: 0.0,
        },
    }
}

// e^(jφ) of the smoothed phase, from a kind's oldest and previous index and the current one.
fn direction(directions: &[i64], kept: &[i8], current: i8) -> Complex
    requires { length kept.now ≡ 2 }
    ensures { result ≡ direction_of directions.now (before kept.now) current }
{
    let oldest = natural_index(kept[0]);
    let previous = natural_index(kept[1]);
    phase_table::direction(directions, oldest, previous, natural_index(current))
}

// r1 is the OPD direction, r2 its product with the conjugate IPD direction: r1 turns h11 and h21, r2 turns h12 and h22.
fn rotated(h: Matrix, opd: Complex, ipd: Complex) -> Matrix
    ensures { result ≡ rotated_by opd (product opd (conjugate ipd)) h }
{
    let back = ipd.conj();
    let second = opd * back;
    Matrix {
        h11: h.h11 * opd,
        h12: h.h12 * second,
        h21: h.h21 * opd,
        h22: h.h22 * second,
    }
}

// A band's coefficients, with its four phase indices.
fn matrix(tables: Tables, modes: Modes, indices: Indices, phases: &[i8]) -> Matrix
    requires { length phases.now ≡ 4 }
    ensures { result ≡ matrix_at tables.entry.coefficients.now tables.entry.directions.now modes (cue_in indices) phases.now }
{
    let h = base(tables.coefficients, modes, indices);
    if !modes.phase {
        return h;
    }
    let opd = direction(tables.directions, &phases[2..4], indices.opd);
    let ipd = direction(tables.directions, &phases[0..2], indices.ipd);
    rotated(h, opd, ipd)
}

fn store(h: Matrix, out: &mut [f64])
    requires { length out.old ≡ 8 }
    ensures { out.new ≡ numbers_of h }
{
    out.copy_from_slice(&[
        h.h11.re, h.h11.im, h.h12.re, h.h12.im, h.h21.re, h.h21.im, h.h22.re, h.h22.im,
    ]);
}

// In a frame with phase the previous index of each kind becomes the oldest, the current one the previous.
fn shift(phase: bool, indices: Indices, phases: &mut [i8])
    requires { length phases.old ≡ 4 }
    ensures { phases.new ≡ phases_then phase (cue_in indices) phases.old }
{
    if phase {
        let (ipd, opd) = (phases[1], phases[3]);
        phases.copy_from_slice(&[ipd, indices.ipd, opd, indices.opd]);
    }
}

// The bands of a layout, one after the other.
fn each(tables: Tables, border: Border, phases: &mut [i8], rows: &mut [f64])
    requires { (border.e < limits.envelopes) × (4 * bands_of border.layout ≤ length phases.old) × (limits.course * bands_of border.layout ≤ length rows.old) }
    ensures phases { phases.new ≡ kept_then border.layout border.modes border.cues phases.old }
    ensures rows { rows.new ≡ rows_then tables.entry.coefficients.now tables.entry.directions.now border.layout border.modes border.cues phases.old border.e rows.old }
{
    let Border {
        layout,
        modes,
        cues,
        e,
    } = border;
    let bands = layout.bands();
    for b in 0..bands {
        let indices = Indices {
            iid: cues.iid[b],
            icc: cues.icc[b],
            ipd: cues.ipd[b],
            opd: cues.opd[b],
        };
        let p = 4 * b;
        let at = limits::COURSE * b + 8 * (e + 1);
        let h = matrix(tables, modes, indices, &phases[p..p + 4]);
        store(h, &mut rows[at..at + 8]);
        shift(modes.phase, indices, &mut phases[p..p + 4]);
    }
}

// Envelope e of a frame, from lent tables of coefficients and directions. Nothing changes where the phase indices or the rows have no room for the
// layout's bands.
pub fn envelope(
    coefficients: &[i64; 2944],
    directions: &[i64],
    layout: Layout,
    modes: Modes,
    cues: Cues,
    phases: &mut [i8],
    e: usize,
    rows: &mut [f64],
)
    ensures phases { phases.new ≡ kept_after layout modes cues phases.old e rows.old }
    ensures rows { rows.new ≡ rows_after coefficients.now directions.now layout modes cues phases.old e rows.old }
{
    let bands = layout.bands();
    if limits::ENVELOPES <= e || phases.len() < 4 * bands || rows.len() < limits::COURSE * bands {
        return;
    }
    let tables = Tables {
        coefficients,
        directions,
    };
    let border = Border {
        layout,
        modes,
        cues,
        e,
    };
    each(tables, border, phases, rows);
}
