// A decoder's whole state in lent memory, a run of floats, between calls. Any memory of the right length is a state.
#![tactic(auto)]

mod lines;

ghost use Rattle.std.specs.Prelude.{◌≡◌, length};
ghost use Rattle.ps_memory.specs.Place.{numbers, head_long, sound_at, layout_in, slots_in, turn_in, head_image, small_image, carried_in, loaded_from, stored_in, started_in};

use layout::Layout;
use ps_state::PsCarried;

// The places of specs/Place: layout, cued, slots and turn, then what the lines have left, the phase indices, two to a float, and the sound.
const LINES: usize = 4;

const PHASES: usize = LINES + lines::LONG;

pub const SOUND: usize = PHASES + ps_stereo::PHASES / 2;

pub const NUMBERS: usize = SOUND + ps_state::SOUND;

// How many numbers a state takes.
pub fn numbers() -> usize
    ensures { result ≡ numbers }
{
    NUMBERS
}

fn layout_in(x: f64) -> Layout
    ensures { result ≡ layout_in x }
{
    if exact_numbers::flag(x) {
        Layout::Bands34
    } else {
        Layout::Bands20
    }
}

// The single numbers. The slots are kept as they act, 6 to 32, and the turn as it counts, 0 to 419.
fn store_head(layout: Layout, cued: bool, asked: usize, turn: usize, to: &mut [f64])
    requires { length to.old ≡ head_long }
    ensures { to.new ≡ head_image layout cued asked turn }
{
    to.copy_from_slice(&[
        exact_numbers::kept_flag(layout == Layout::Bands34),
        exact_numbers::kept_flag(cued),
        exact_numbers::kept_number(borders::slots(asked) as u16),
        exact_numbers::kept_number((turn % 420) as u16),
    ]);
}

fn slots_in(x: f64) -> usize
    ensures { result ≡ slots_in x }
{
    borders::slots(usize::from(exact_numbers::number(x, 32)))
}

fn turn_in(x: f64) -> usize
    ensures { result ≡ turn_in x }
{
    usize::from(exact_numbers::number(x, 419))
}

// What is small in the state that a memory holds.
fn load_small(memory: &[f64]) -> PsCarried
    requires { length memory.now ≡ numbers }
    ensures { result ≡ carried_in memory.now }
{
    let mut phases = [0; ps_stereo::PHASES];
    lines::unpack(&memory[PHASES..SOUND], &mut phases);
    PsCarried {
        asked: slots_in(memory[2]),
        layout: layout_in(memory[0]),
        cued: exact_numbers::flag(memory[1]),
        lines: lines::load(&memory[LINES..PHASES]),
        phases,
        turn: turn_in(memory[3]),
    }
}

// The same, and that of a fresh state for a memory of another length. The sound is used where it lies.
pub fn load(memory: &[f64]) -> PsCarried
    ensures { result ≡ loaded_from memory.now }
{
    if memory.len() != NUMBERS {
        return ps_state::fresh_carried(32);
    }
    load_small(memory)
}

fn store_small(carried: PsCarried, to: &mut [f64])
    requires { length to.old ≡ sound_at }
    ensures { to.new ≡ small_image carried }
{
    lines::pack(&carried.phases, &mut to[PHASES..SOUND]);
    lines::store(carried.lines, &mut to[LINES..PHASES]);
    store_head(
        carried.layout,
        carried.cued,
        carried.asked,
        carried.turn,
        &mut to[0..LINES],
    );
}

// Makes a memory that of a state whose sound it has; a memory of another length is left as it is.
pub fn store(carried: PsCarried, memory: &mut [f64])
    ensures { memory.new ≡ stored_in carried memory.old }
{
    if memory.len() == NUMBERS {
        store_small(carried, &mut memory[0..SOUND]);
    }
}

// Makes a memory that of a fresh decoder for an asked number of slots, whatever it held; one of another length is left as it is.
pub fn start(asked: usize, memory: &mut [f64])
    ensures { memory.new ≡ started_in asked memory.old }
{
    if memory.len() == NUMBERS {
        memory[SOUND..NUMBERS].fill(0.0);
        store_small(ps_state::fresh_carried(asked), &mut memory[0..SOUND]);
    }
}
