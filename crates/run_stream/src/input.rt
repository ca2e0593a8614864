// What a call hands in: the line's characters and the samples, from the stream, which `reader` reads.
ghost use Rattle.std.specs.Prelude.{◌≡◌, ◌≤◌, IfOk, length};

use crate::head::Head;
use crate::{chance, head};
use std::io::Read;

// The input ends within what is asked of it, or cannot be read; or there is no room for what is asked.
#[derive(Clone, Copy, Debug, PartialEq, Eq)]
pub struct Broken;

// Reads that many bytes to the front of lent memory, and answers them. Nothing is read where there is no room for them.
pub fn fill<'a>(
    reader: &mut impl Read,
    memory: &'a mut [u8],
    count: usize,
) -> Result<&'a [u8], Broken>
    ensures { IfOk result (λ bytes. (length bytes.now ≡ count) × (count ≤ length memory.old)) }
{
    let bytes = memory.get_mut(..count).ok_or(Broken)?;
    reader.read_exact(bytes).map_err(|_| Broken)?;
    Ok(bytes)
}

// The next record's head.
pub fn next_head(reader: &mut impl Read, memory: &mut [u8]) -> Result<Head, Broken> {
    let bytes = fill(reader, memory, head::SIZE)?;
    Ok(head::read(bytes))
}

// (x' - 2^31) times a step; the difference is exact.
fn number(state: u32, step: f64) -> f64 {
    (f64::from(state) - 2147483648.0) * step
}

// The samples: noise, or +0 where the call has none. The generator turns at each that has noise.
fn noise(samples: &mut [f64], head: Head) {
    let mut state = head.state;
    for (place, sample) in samples.iter_mut().enumerate() {
        *sample = if head.noisy(place) {
            state = chance::step(state);
            number(state, head.step)
        } else {
            0.0
        };
    }
}

// The given samples, 12 bytes each: its place, then its bits.
fn give(samples: &mut [f64], given: &[u8]) {
    for bytes in given.as_chunks::<12>().0 {
        let place = float_bytes::half_at(bytes, 0) as usize;
        if let Some(sample) = samples.get_mut(place) {
            *sample = float_bytes::float_of(float_bytes::word_at(bytes, 4));
        }
    }
}

// The line and the samples of a call.
pub fn load(
    reader: &mut impl Read,
    head: Head,
    line: &mut [u8],
    bytes: &mut [u8],
    samples: &mut [f64],
) -> Result<(), Broken> {
    fill(reader, line, head.line)?;
    let given = fill(reader, bytes, 12 * head.given.min(head::INPUT))?;
    noise(samples, head);
    give(samples, given);
    Ok(())
}
