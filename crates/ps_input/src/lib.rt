// What a frame's buffers must be before anything is done (document 01): their lengths, then the samples.
#![tactic(auto)]

ghost use Rattle.std.specs.Prelude.{◌≡◌, ◌≤◌};
ghost use Rattle.borders.specs.Borders.{slots_of};
ghost use Rattle.lists.specs.All.{all};
ghost use Rattle.calls.specs.Call.{buffers_fit, sample_fits, input_answer};

use answer::Answer;

// Every number is tried, without an early end as `all` has it: a loop without branches is the faster one.
fn samples_fit(samples: &[f64]) -> bool
    ensures { result ≡ all sample_fits samples.now }
{
    let mut fit = true;
    for &x in samples {
        fit &= (x <= 1048576.0) & (x >= -1048576.0);
    }
    fit
}

fn buffers_fit(slots: usize, input: usize, left: usize, right: usize) -> bool
    requires { slots ≤ 32 }
    ensures { result ≡ buffers_fit slots input left right }
{
    input % 128 == 0 && input >= 128 * (slots + 6) && left == 128 * slots && right == 128 * slots
}

// The answer of the input, for an asked number of slots and the outputs' lengths: done, or a refusal.
pub fn input_answer(asked: usize, input: &[f64], left: usize, right: usize) -> Answer
    ensures { result ≡ input_answer (slots_of asked) input.now left right }
{
    let slots = borders::slots(asked);
    if !buffers_fit(slots, input.len(), left, right) {
        Answer::Buffers
    } else if samples_fit(&input[..128 * (slots + 6)]) {
        Answer::Done
    } else {
        Answer::Sample
    }
}
