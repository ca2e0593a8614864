// Both outputs of a call, compared with what the stream says.
use crate::text::Fault;
use answer::Answer;
use run_stream::head::Head;
use run_stream::side::Side;
use run_stream::{head, input};
use std::io::Read;

// What an output holds before a call: more than any output number can be.
const MARK: f64 = 1.0e300;

// The numbers of both outputs.
#[derive(Clone, Copy)]
pub struct Sides {
    pub left: [f64; head::SIDE],
    pub right: [f64; head::SIDE],
}

// Nothing was written to a side.
fn untouched(side: Side, numbers: &[f64]) -> Result<(), Fault> {
    if numbers.iter().all(|x| *x == MARK) {
        Ok(())
    } else {
        Err(Fault::Touched(side))
    }
}

// A side is bit for bit as the stream has it, to which it is read.
fn same(
    reader: &mut impl Read,
    side: Side,
    numbers: &[f64],
    bytes: &mut [u8],
) -> Result<(), Fault> {
    let bytes = input::fill(reader, bytes, numbers.len().saturating_mul(8))?;
    let pairs = numbers.iter().zip(bytes.chunks_exact(8));
    for (place, (number, eight)) in pairs.enumerate() {
        let bits = float_bytes::bits_of(*number);
        let wanted = float_bytes::word_at(eight, 0);
        if bits != wanted {
            return Err(Fault::Differs {
                side,
                place,
                bits,
                wanted,
            });
        }
    }
    Ok(())
}

impl Sides {
    pub fn new() -> Sides {
        Sides {
            left: [0.0; head::SIDE],
            right: [0.0; head::SIDE],
        }
    }

    pub fn mark(&mut self) {
        self.left.fill(MARK);
        self.right.fill(MARK);
    }

    // A call left what the stream says.
    pub fn agree(
        &self,
        reader: &mut impl Read,
        head: Head,
        answer: Answer,
        bytes: &mut [u8],
    ) -> Result<(), Fault> {
        let wanted = head.answer;
        if u8::from(answer) != wanted {
            return Err(Fault::Answer { answer, wanted });
        }
        if answer != Answer::Done {
            untouched(Side::Left, &self.left)?;
            return untouched(Side::Right, &self.right);
        }
        let left = head.left.min(head::SIDE);
        let right = head.right.min(head::SIDE);
        same(reader, Side::Left, &self.left[..left], bytes)?;
        same(reader, Side::Right, &self.right[..right], bytes)
    }
}
