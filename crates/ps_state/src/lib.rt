// The carried state of a decoder (source document 004), fresh and made ready for a frame.
#![tactic(auto)]

ghost use Rattle.std.specs.Prelude.{◌≡◌};
ghost use Rattle.ps_state.specs.State.{fresh_decoder, carried_of, sound_of, decorr_in, decoder_in, lent};
ghost use Rattle.ps_state.specs.Ready.{switched_from, cleared_place, ready_in};

use layout::Layout;
use ps_data::PsLines;
use ps_decorr::PsDecorr;
use ps_stereo::PsStereo;

#[derive(Clone, Copy)]
pub struct PsDecoder {
    // The slots asked for.
    pub asked: usize,
    pub layout: Layout,
    // Whether the last accepted frame had a line.
    pub cued: bool,
    pub lines: PsLines,
    // For each of five QMF bands a run of its last six slots.
    pub history: [f64; 60],
    pub decorr: PsDecorr,
    pub stereo: PsStereo,
}

// A decoder for an asked number of slots.
pub fn fresh(asked: usize) -> PsDecoder
    ensures { result ≡ fresh_decoder asked }
{
    PsDecoder {
        asked,
        layout: Layout::Bands20,
        cued: false,
        lines: ps_data::fresh(),
        history: [0.0; 60],
        decorr: ps_decorr::fresh(),
        stereo: ps_stereo::fresh(),
    }
}

// ---- a state apart: what is small in it goes by value, its numbers of sound are lent in one list, so that no call copies them

#[derive(Clone, Copy)]
pub struct PsCarried {
    pub asked: usize,
    pub layout: Layout,
    pub cued: bool,
    pub lines: PsLines,
    pub phases: [i8; ps_stereo::PHASES],
    // The counter of the de-correlator's rings.
    pub turn: usize,
}

// Where the numbers of sound stand, behind the history: the rings of the all-pass channels, the plain delays, the detectors, the coefficients.
pub const DELAYS: usize = 60;

pub const PLAIN: usize = DELAYS + 1456;

pub const DETECTORS: usize = PLAIN + 394;

pub const MATRICES: usize = DETECTORS + 102;

pub const SOUND: usize = MATRICES + ps_stereo::MATRICES;

// What is small in a state.
pub fn apart(state: PsDecoder) -> PsCarried
    ensures { result ≡ carried_of state }
{
    let phases = state.stereo.phases;
    PsCarried {
        asked: state.asked,
        layout: state.layout,
        cued: state.cued,
        lines: state.lines,
        phases,
        turn: state.decorr.turn,
    }
}

// What is small in a fresh one.
pub fn fresh_carried(asked: usize) -> PsCarried
    ensures { result ≡ carried_of (fresh_decoder asked) }
{
    PsCarried {
        asked,
        layout: Layout::Bands20,
        cued: false,
        lines: ps_data::fresh(),
        phases: [0; ps_stereo::PHASES],
        turn: 0,
    }
}

// The numbers of sound of a state.
pub fn sound(state: PsDecoder) -> [f64; SOUND]
    ensures { result ≡ sound_of state }
{
    let mut sound = [0.0; SOUND];
    sound[MATRICES..SOUND].copy_from_slice(&state.stereo.matrices);
    sound[DETECTORS..MATRICES].copy_from_slice(&state.decorr.detectors);
    sound[PLAIN..DETECTORS].copy_from_slice(&state.decorr.plain);
    sound[DELAYS..PLAIN].copy_from_slice(&state.decorr.delays);
    sound[0..DELAYS].copy_from_slice(&state.history);
    sound
}

fn decorr_in(turn: usize, sound: &[f64; SOUND]) -> PsDecorr
    ensures { result ≡ decorr_in turn sound.now }
{
    let mut decorr = ps_decorr::fresh();
    decorr.turn = turn;
    decorr.delays.copy_from_slice(&sound[DELAYS..PLAIN]);
    decorr.plain.copy_from_slice(&sound[PLAIN..DETECTORS]);
    decorr
        .detectors
        .copy_from_slice(&sound[DETECTORS..MATRICES]);
    decorr
}

// The state of which this is what is small, and these are the numbers of sound.
pub fn together(carried: PsCarried, sound: &[f64; SOUND]) -> PsDecoder
    ensures { result ≡ decoder_in carried sound.now }
{
    let mut history = [0.0; DELAYS];
    history.copy_from_slice(&sound[0..DELAYS]);
    let mut matrices = [0.0; ps_stereo::MATRICES];
    matrices.copy_from_slice(&sound[MATRICES..SOUND]);
    let phases = carried.phases;
    PsDecoder {
        asked: carried.asked,
        layout: carried.layout,
        cued: carried.cued,
        lines: carried.lines,
        history,
        decorr: decorr_in(carried.turn, sound),
        stereo: PsStereo { matrices, phases },
    }
}

// ---- before a frame

// A change of layout resets the hybrid history and the whole de-correlator, and remaps the held coefficients.
fn switched(carried: PsCarried, layout: Layout, sound: &mut [f64; SOUND]) -> PsCarried
    ensures { decoder_in result sound.new ≡ switched_from layout (decoder_in carried sound.old) }
{
    if carried.layout == layout {
        return carried;
    }
    sound[0..MATRICES].fill(0.0);
    ps_stereo::remap(layout, &mut sound[MATRICES..SOUND]);
    PsCarried {
        layout,
        phases: [0; ps_stereo::PHASES],
        turn: 0,
        ..carried
    }
}

// The channel from which a frame's own reset clears the delays.
pub fn cleared_place(layout: Layout, edge: usize, cued: bool) -> usize
    ensures { result ≡ cleared_place layout edge cued }
{
    if cued { layout.reset_from(edge) } else { 0 }
}

// The state before a frame of a layout. Nothing changes where the sound is of another length.
pub fn ready(carried: PsCarried, layout: Layout, edge: usize, sound: &mut [f64]) -> PsCarried
    ensures { lent result sound.new ≡ ready_in layout edge carried sound.old }
{
    let Some(sound) = sound.as_mut_array::<SOUND>() else {
        return carried;
    };
    let after = switched(carried, layout, sound);
    let place = cleared_place(layout, edge, after.cued);
    ps_decorr::reset_chains(layout, place, &mut sound[DELAYS..PLAIN]);
    ps_decorr::reset_plain(layout, place, &mut sound[PLAIN..DETECTORS]);
    after
}
