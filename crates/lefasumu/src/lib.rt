// The C API: a decoder whose state lies in memory that the caller lends. lefasumu.h says the same in C's words; crates/lefasumu_c exports it to C.
#![tactic(auto)]

ghost use Rattle.std.specs.Prelude.{◌≡◌};
ghost use Rattle.answer.specs.Number.{number_of};
ghost use Rattle.ps_decoder.specs.Frame.{call_of};
ghost use Rattle.lefasumu.specs.Api.{started, started_in, called, called_in};
ghost use Rattle.ps_memory.specs.Place.{numbers};

use answer::Answer;

// How many numbers the lent memory has.
pub const MEMORY: usize = ps_memory::NUMBERS;

// The same, as C asks for it.
pub fn lefasumu_memory() -> usize
    ensures { result ≡ numbers }
{
    MEMORY
}

// What C is told for an answer.
fn told(answer: Answer) -> u32
    ensures { result ≡ number_of answer }
{
    u32::from(u8::from(answer))
}

// Makes memory that of a fresh decoder, whatever it held. Memory of another length is refused.
pub fn lefasumu_start(memory: &mut [f64], slots: usize) -> u32
    ensures { started result memory.new ≡ started_in memory.old slots }
{
    if memory.len() != MEMORY {
        return told(Answer::Buffers);
    }
    ps_memory::start(slots, memory);
    told(Answer::Done)
}

// A frame. The memory is written only after answer 0; its sound is used where it lies.
pub fn lefasumu_frame(
    memory: &mut [f64],
    line: &[u8],
    input: &[f64],
    edge: usize,
    left: &mut [f64],
    right: &mut [f64],
) -> u32
    ensures { called result memory.new left.new right.new ≡ called_in memory.old (call_of line.now input.now edge left.old right.old) }
{
    if memory.len() != MEMORY {
        return told(Answer::Buffers);
    }
    let carried = ps_memory::load(memory);
    let sound = &mut memory[ps_memory::SOUND..MEMORY];
    match ps_decoder::lent_frame(carried, sound, line, input, edge, left, right) {
        Ok(after) => {
            ps_memory::store(after, memory);
            told(Answer::Done)
        }
        Err(answer) => told(answer),
    }
}
