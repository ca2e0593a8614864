// Chance, by the generator that streams have too.
use super::runs::Turn;
pub use run_stream::chance::step;

// From a seed another one for each number.
pub fn branch(seed: u32, number: u32) -> u32 {
    step(step(step(seed ^ number)))
}

// What a run draws at a step: where the runs agree the step's own number, elsewhere another one for each run.
pub fn drawn(x: u32, turn: Turn, agreed: bool) -> u32 {
    if agreed {
        return x;
    }
    branch(
        x,
        match turn {
            Turn::First => 2863311530,
            Turn::Second => 858993459,
        },
    )
}

// One of the numbers below n.
pub fn below(x: u32, n: u32) -> u32 {
    if n == 0 { 0 } else { x / 65536 % n }
}
