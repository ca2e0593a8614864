// The coefficients of a frame: at its borders, and of every band in each slot.
ghost use Rattle.std.specs.Prelude.{◌≤◌};

use crate::play::RUNS;
use cue::Header;
use layout::Layout;
use ps_data::Resolved;
use ps_stereo_slots::Timing;

pub fn timing_of(asked: usize, header: Header, positions: [u8; limits::ENVELOPES]) -> Timing
    ensures { result.slots ≤ 32 }
{
    let count = usize::from(header.envelopes);
    Timing {
        borders: borders::borders(asked, header.variable, count, positions),
        count,
        slots: borders::slots(asked),
        turn: 0,
    }
}

// Those of every band in each slot, 256 numbers a band.
fn in_slots(timing: Timing, rows: &[f64], runs: &mut [f64; RUNS]) {
    let mut fractions = [0.0; limits::FRACTIONS];
    ps_stereo_slots::fractions(timing.borders, timing.count, &mut fractions);
    let (courses, _) = runs.as_chunks_mut::<256>();
    for (b, run) in courses.iter_mut().enumerate() {
        ps_stereo_slots::interpolate(
            rows,
            &fractions,
            timing.borders,
            timing.count,
            b,
            timing.slots,
            run,
        );
    }
}

// From the borders to the slots, with the coefficients in force where they lie; the phases after the frame are returned.
pub fn in_frame(
    layout: Layout,
    resolved: Resolved,
    timing: Timing,
    before: [i8; 136],
    matrices: &mut [f64],
    runs: &mut [f64; RUNS],
) -> [i8; 136] {
    let mut phases = before;
    let mut rows = [0.0; limits::MATRICES];
    ps_stereo_borders::coefficients(
        layout,
        resolved.header,
        resolved.indices,
        phase_table::table(),
        matrices,
        &mut phases,
        &mut rows,
    );
    in_slots(timing, &rows, runs);
    phases
}
