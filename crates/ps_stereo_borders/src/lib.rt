// The coefficients of every band at every border of a frame (source document 000, §8.6.4.6.2 and §8.6.4.6.3).
#![tactic(auto)]

ghost use Rattle.std.specs.Prelude.{◌*◌, ◌≤◌, ◌≡◌, length};
ghost use Rattle.calls.specs.Call.{modes_of};
ghost use Rattle.layout.specs.Numbers.{bands_of};
ghost use Rattle.limits.specs.Limits as limits;
ghost use Rattle.ps_stereo_borders.specs.Borders.{rows_after, matrices_after, phases_after};
ghost use Rattle.ps_stereo_borders.specs.Steps.{Room, copied, Advanced};

use cue::Header;
use layout::Layout;
use ps_data::PsIndices;
use standard::Modes;

// Eight numbers of each band, from a place of its run in one list to the front of its run in another.
fn copy(bands: usize, from: &[f64], run: usize, at: usize, to: &mut [f64], wide: usize)
    requires { Room bands run at wide (length from.now) (length to.old) }
    ensures { to.new ≡ copied bands from.now run at to.old wide }
{
    for b in 0..bands {
        let source = run * b + at;
        let target = wide * b;
        to[target..target + 8].copy_from_slice(&from[source..source + 8]);
    }
}

// How the coefficients of a frame are made.
fn modes_of(header: Header) -> Modes
    ensures { result ≡ modes_of header }
{
    Modes {
        fine: header.config.fine(),
        rb: header.config.rb(),
        phase: header.phase,
    }
}

// What a frame says: its bands, its header, and the indices of its envelopes.
#[derive(Clone, Copy)]
struct Frame {
    layout: Layout,
    header: Header,
    indices: PsIndices,
}

// The envelopes, one after the other.
fn envelopes(frame: Frame, count: usize, directions: &[i64], phases: &mut [i8], rows: &mut [f64])
    requires { (count ≤ limits.envelopes) × (4 * bands_of frame.layout ≤ length phases.old) × (limits.course * bands_of frame.layout ≤ length rows.old) }
    ensures { Advanced frame.layout frame.header frame.indices directions.now phases.old rows.old count phases.new rows.new }
{
    let Frame {
        layout,
        header,
        indices,
    } = frame;
    let coefficients = mixing_table::table();
    let modes = modes_of(header);
    for e in 0..count {
        let cues = ps_stereo_cues::cues(indices, header.config, layout, e);
        ps_stereo_envelope::envelope(
            coefficients,
            directions,
            layout,
            modes,
            cues,
            phases,
            e,
            rows,
        );
    }
}

// The borders of a frame's envelopes, cut to the limit, from a lent table of directions: each band's course gets the kept coefficients and those of each
// envelope; the last ones are kept. Nothing changes where a list has no room for the layout's bands.
pub fn coefficients(
    layout: Layout,
    header: Header,
    indices: PsIndices,
    directions: &[i64],
    matrices: &mut [f64],
    phases: &mut [i8],
    rows: &mut [f64],
)
    ensures matrices { matrices.new ≡ matrices_after layout header indices directions.now matrices.old phases.old rows.old }
    ensures phases { phases.new ≡ phases_after layout header indices directions.now matrices.old phases.old rows.old }
    ensures rows { rows.new ≡ rows_after layout header indices directions.now matrices.old phases.old rows.old }
{
    let bands = layout.bands();
    if matrices.len() < 8 * bands
        || phases.len() < 4 * bands
        || rows.len() < limits::COURSE * bands
    {
        return;
    }
    copy(bands, matrices, 8, 0, rows, limits::COURSE);
    let count = usize::from(header.envelopes).min(limits::ENVELOPES);
    if count == 0 {
        return;
    }
    let frame = Frame {
        layout,
        header,
        indices,
    };
    envelopes(frame, count, directions, phases, rows);
    copy(bands, rows, limits::COURSE, 8 * count, matrices, 8);
}
