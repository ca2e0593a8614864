// The C API as a static library: what C links is crates/lefasumu, function by function, under the names of lefasumu.h.
#![tactic(auto)]

ghost use Rattle.std.specs.Prelude.{◌≡◌};
ghost use Rattle.ps_decoder.specs.Frame.{call_of};
ghost use Rattle.lefasumu.specs.Api.{started, started_in, called, called_in};
ghost use Rattle.ps_memory.specs.Place.{numbers};

#[unsafe(no_mangle)]
pub extern "C" fn lefasumu_memory() -> usize
    ensures { result ≡ numbers }
{
    lefasumu::lefasumu_memory()
}

#[unsafe(no_mangle)]
pub extern "C" fn lefasumu_start(memory: &mut [f64], slots: usize) -> u32
    ensures { started result memory.new ≡ started_in memory.old slots }
{
    lefasumu::lefasumu_start(memory, slots)
}

#[unsafe(no_mangle)]
pub extern "C" fn lefasumu_frame(
    memory: &mut [f64],
    line: &[u8],
    input: &[f64],
    edge: usize,
    left: &mut [f64],
    right: &mut [f64],
) -> u32
    ensures { called result memory.new left.new right.new ≡ called_in memory.old (call_of line.now input.now edge left.old right.old) }
{
    lefasumu::lefasumu_frame(memory, line, input, edge, left, right)
}
