// The sound of an accepted frame, stage by stage, from a state that is ready for it.
ghost use Rattle.std.specs.Prelude.{◌≡◌, ◌+◌, ◌*◌, ◌≤◌, length};
ghost use Rattle.borders.specs.Borders.{slots_of};
ghost use Rattle.ps_state.specs.State.{decoder_in};
ghost use Rattle.ps_stereo_borders.specs.Borders as borders;
ghost use Rattle.ps_decoder.specs.Sound.{directions_of, Staged, Sounded};

use answer::Answer;
use cue::Header;
use layout::Layout;
use ps_data::{PsIndices, Resolved};
use ps_state::{DELAYS, DETECTORS, MATRICES, PLAIN, PsCarried, SOUND};
use ps_stereo_slots::Timing;

// The coefficients at the borders. The table of directions is there in a frame with phase alone.
fn mixed(
    layout: Layout,
    header: Header,
    indices: PsIndices,
    matrices: &mut [f64],
    phases: &mut [i8],
    rows: &mut [f64],
)
    ensures matrices { matrices.new ≡ borders.matrices_after layout header indices (directions_of header) matrices.old phases.old rows.old }
    ensures phases { phases.new ≡ borders.phases_after layout header indices (directions_of header) matrices.old phases.old rows.old }
    ensures rows { rows.new ≡ borders.rows_after layout header indices (directions_of header) matrices.old phases.old rows.old }
{
    let directions: &[i64] = if header.phase {
        phase_table::table()
    } else {
        &[]
    };
    ps_stereo_borders::coefficients(layout, header, indices, directions, matrices, phases, rows);
}

// The stages after the coefficients: the samples and the ducking factors, then both kinds of channels into left and right. They stand apart from `sound`,
// so that no stack holds both these arrays and the rows of an envelope.
// Kept: seven parameters: each stage below takes its own of them, so that a struct would be taken apart at every call.
fn stages(
    carried: PsCarried,
    timing: Timing,
    rows: &[f64],
    input: &[f64],
    sound: &mut [f64; SOUND],
    left: &mut [f64],
    right: &mut [f64],
)
    requires { (slots_of timing.slots ≡ timing.slots) × (128 * (timing.slots + 6) ≤ length input.now) }
    ensures { Staged (decoder_in carried sound.old) timing rows.now input.now left.old right.old
        (decoder_in carried sound.new) left.new right.new }
{
    let layout = carried.layout;
    let mut samples = [0.0; 2048];
    let analysed = ps_hybrid_analysis::analyse(
        layout,
        timing.slots,
        &mut sound[0..DELAYS],
        input,
        &mut samples,
    );
    let Answer::Done = analysed else {
        return;
    };
    let mut gains = [0.0; 1088];
    ps_decorr_transient::duck(
        layout,
        &mut sound[DETECTORS..MATRICES],
        &samples,
        input,
        timing.slots,
        &mut gains,
    );
    ps_allpass_channels::allpass_channels(
        layout,
        timing,
        ps_decorr_allpass::rotations(layout),
        &samples,
        &gains,
        rows,
        input,
        &mut sound[DELAYS..PLAIN],
        left,
        right,
    );
    ps_delay_channels::delay_channels(
        layout,
        timing,
        input,
        &gains,
        rows,
        &mut sound[PLAIN..DETECTORS],
        left,
        right,
    );
}

// From a state that is ready, whose sound is lent, and an input that is long enough.
pub fn sound(
    carried: PsCarried,
    sound: &mut [f64; SOUND],
    resolved: Resolved,
    input: &[f64],
    left: &mut [f64],
    right: &mut [f64],
) -> PsCarried
    requires { 128 * (slots_of carried.asked + 6) ≤ length input.now }
    ensures { Sounded (decoder_in carried sound.old) resolved.header resolved input.now left.old right.old
        (decoder_in result sound.new) left.new right.new }
{
    let header = resolved.header;
    let mut phases = carried.phases;
    let mut rows = [0.0; limits::MATRICES];
    mixed(
        carried.layout,
        header,
        resolved.indices,
        &mut sound[MATRICES..SOUND],
        &mut phases,
        &mut rows,
    );
    let slots = borders::slots(carried.asked);
    let count = usize::from(header.envelopes);
    let borders = borders::borders(carried.asked, header.variable, count, resolved.positions);
    let timing = Timing {
        borders,
        count,
        slots,
        turn: carried.turn,
    };
    stages(carried, timing, &rows, input, sound, left, right);
    PsCarried {
        cued: header.cued,
        lines: resolved.lines,
        phases,
        turn: (carried.turn % 420 + slots) % 420,
        ..carried
    }
}
