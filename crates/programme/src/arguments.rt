// Numbers and names among the program's arguments.
ghost use Rattle.std.specs.Prelude.{◌≤◌, length, IfSome};

use std::env::{Env, FillError};

// The most characters that a name may have.
pub const LONGEST: usize = 4096;

// Slots act alike from 32 on and the spectrum's edge from 64 on, so a number above this one is read as this one.
const MOST: usize = 1000000;

// The number that a digit more makes of one.
fn number_more(number: usize, byte: u8) -> Option<usize> {
    let digit = char::from(byte).to_digit(10)?;
    Some(
        number
            .saturating_mul(10)
            .saturating_add(digit as usize)
            .min(MOST),
    )
}

// The number of a text that is one digit or more and nothing else.
fn number_of(text: &[u8]) -> Option<usize> {
    if text.is_empty() {
        return None;
    }
    text.iter()
        .try_fold(0, |number, byte| number_more(number, *byte))
}

// An argument, at the front of lent memory: none where it is missing, or too long for the memory.
pub fn text_at<'a>(rt: &impl Env, place: usize, memory: &'a mut [u8]) -> Option<&'a [u8]>
    ensures { IfSome result (λ text. length text.now ≤ length memory.old) }
{
    let used = rt.arg(place, memory).ok()?;
    Some(&memory[..used])
}

pub fn number_at(rt: &impl Env, place: usize) -> Option<usize> {
    let mut memory = [0u8; LONGEST];
    number_of(text_at(rt, place, &mut memory)?)
}

// Whether a name is there, has a character, and is no longer than a path may be.
pub fn named(rt: &impl Env, place: usize) -> bool {
    let mut memory = [0u8; LONGEST];
    text_at(rt, place, &mut memory).is_some_and(|name| !name.is_empty())
}

fn is_given(rt: &impl Env, place: usize) -> bool {
    !matches!(rt.arg(place, &mut [0u8; 1]), Err(FillError::NotPresent))
}

// How many arguments there are, the program's own name among them.
pub fn count(rt: &impl Env) -> usize {
    (0..usize::MAX)
        .find(|place| !is_given(rt, *place))
        .unwrap_or(usize::MAX)
}
