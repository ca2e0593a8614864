// The beginning of a frame, up to its slots: its line, the coefficients of every slot, and the queues made ready.
use crate::carried::Carried;
use crate::play::{Call, RUNS};
use crate::{carried, coefficients, sheet};
use ps_data::Resolved;
use ps_state::PsCarried;

// What a line that is read makes of a frame: the slots that are asked for, and how many it has.
#[derive(Clone, Copy)]
pub struct Begun {
    pub asked: usize,
    pub slots: usize,
}

// What is small in the state, the coefficients and the queues, from before a frame whose line is read to before its slots.
fn begin_read(
    rt: &impl Print,
    small: PsCarried,
    resolved: Resolved,
    call: Call,
    carried: &mut Carried,
    runs: &mut [f64; RUNS],
) -> Begun {
    let header = resolved.header;
    let layout = ps_data::layout_in(small.layout, header);
    sheet::resets(rt, &carried.queues, layout, call);
    carried.queues = queue_decorr::ready(carried.queues, layout, call.edge, header.cued);
    let timing = coefficients::timing_of(small.asked, header, resolved.positions);
    let now = ps_state::ready(
        small,
        layout,
        call.edge,
        &mut carried.memory[ps_memory::SOUND..],
    );
    let phases = coefficients::in_frame(
        layout,
        resolved,
        timing,
        now.phases,
        &mut carried.memory[carried::MATRICES..],
        runs,
    );
    let after = PsCarried {
        layout,
        cued: header.cued,
        lines: resolved.lines,
        phases,
        turn: 0,
        ..now
    };
    ps_memory::store(after, &mut carried.memory);
    Begun {
        asked: small.asked,
        slots: timing.slots,
    }
}

// The beginning of a frame. Nothing moves where its line is not read.
pub fn begin(
    rt: &impl Print,
    call: Call,
    carried: &mut Carried,
    runs: &mut [f64; RUNS],
) -> Option<Begun> {
    let small = ps_memory::load(&carried.memory);
    let resolved = ps_data::resolve(small.lines, call.line).ok()?;
    Some(begin_read(rt, small, resolved, call, carried, runs))
}
