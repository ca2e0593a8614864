// The frame driver (source document 004, Annex 8.A): one call for each frame.
#![tactic(auto)]

mod sound;

ghost use Rattle.std.specs.Prelude.{◌≡◌, ◌+◌, ◌*◌, ◌<◌, ◌≤◌, length, IfErr};
ghost use Rattle.answer.specs.Number.{number_of};
ghost use Rattle.borders.specs.Borders.{slots_of};
ghost use Rattle.calls.specs.Call.{played};
ghost use Rattle.ps_data.specs.Indices.{layout_in};
ghost use Rattle.ps_state.specs.Ready.{readied};
ghost use Rattle.ps_state.specs.State.{decoder_in, playing_of};
ghost use Rattle.ps_decoder.specs.Frame.{call_of, answered, answered_whole, played_by, returned, returned_by};
ghost use Rattle.ps_decoder.specs.Sound.{Sounded};

use answer::Answer;
use ps_data::Resolved;
use ps_state::{PsCarried, PsDecoder, SOUND};

// An accepted frame, whose input is long enough.
// Kept: seven parameters, those of the call with its line resolved: a struct would be made for this call and taken apart two lines on.
fn play(
    carried: PsCarried,
    sound: &mut [f64; SOUND],
    resolved: Resolved,
    input: &[f64],
    edge: usize,
    left: &mut [f64],
    right: &mut [f64],
) -> PsCarried
    requires { 128 * (slots_of carried.asked + 6) ≤ length input.now }
    ensures { Sounded (readied (layout_in carried.layout resolved.header) edge (decoder_in carried sound.old))
        resolved.header resolved input.now left.old right.old
        (decoder_in result sound.new) left.new right.new }
{
    let layout = ps_data::layout_in(carried.layout, resolved.header);
    let ready = ps_state::ready(carried, layout, edge, sound);
    sound::sound(ready, sound, resolved, input, left, right)
}

// A frame: a cue line, the input's QMF rows, the spectrum edge, and the two outputs. What is small in the state goes by value and comes back once the frame is
// accepted; its sound is lent, so that nothing large is copied. A call that is not accepted says its answer and changes nothing; sound of another length is
// refused as a buffer is.
// Kept: seven parameters: a public function keeps its parameters and its clauses, and C hands them on one by one.
pub fn lent_frame(
    carried: PsCarried,
    sound: &mut [f64],
    line: &[u8],
    input: &[f64],
    edge: usize,
    left: &mut [f64],
    right: &mut [f64],
) -> Result<PsCarried, Answer>
    ensures told { returned (answered carried result) sound.new left.new right.new
        ≡ returned_by carried sound.old (call_of line.now input.now edge left.old right.old) }
    ensures refused { IfErr result (λ a. 0 < number_of a) }
{
    let Some(sound) = sound.as_mut_array() else {
        return Err(Answer::Buffers);
    };
    let read = ps_data::resolve(carried.lines, line);
    let Ok(resolved) = read else {
        return Err(cue::answer_of(read));
    };
    let of_line = ps_data::read_answer(resolved.header, carried.lines.configured);
    let Answer::Done = of_line else {
        return Err(of_line);
    };
    let of_input = ps_input::input_answer(carried.asked, input, left.len(), right.len());
    let Answer::Done = of_input else {
        return Err(of_input);
    };
    let next = play(carried, sound, resolved, input, edge, left, right);
    Ok(next)
}

// A frame of a whole state by value.
pub fn frame(
    state: PsDecoder,
    line: &[u8],
    input: &[f64],
    edge: usize,
    left: &mut [f64],
    right: &mut [f64],
) -> Result<PsDecoder, Answer>
    ensures state { answered_whole state result ≡ played_by state (call_of line.now input.now edge left.old right.old) }
    ensures refused { IfErr result (λ a. 0 < number_of a) }
    ensures left { left.new ≡ (played (playing_of state) (call_of line.now input.now edge left.old right.old)).left }
    ensures right { right.new ≡ (played (playing_of state) (call_of line.now input.now edge left.old right.old)).right }
{
    let carried = ps_state::apart(state);
    let mut sound = ps_state::sound(state);
    let after = lent_frame(carried, &mut sound, line, input, edge, left, right)?;
    Ok(ps_state::together(after, &sound))
}
