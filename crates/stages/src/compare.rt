// A stage's numbers against those of the stream, by their bits.
ghost use Rattle.std.specs.Prelude.{◌*◌, ◌≤◌, length};

use super::play::{ROW, Stages};
use layout::Layout;
use std::io::Read;
use std::{fmt, io};

#[derive(Clone, Copy, Debug, PartialEq, Eq)]
pub enum Stage {
    Analysis,
    Decorrelation,
    MixingLeft,
    MixingRight,
    SynthesisLeft,
    SynthesisRight,
}

impl Stage {
    // In the stream's order.
    pub const ALL: [Stage; 6] = [
        Stage::Analysis,
        Stage::Decorrelation,
        Stage::MixingLeft,
        Stage::MixingRight,
        Stage::SynthesisLeft,
        Stage::SynthesisRight,
    ];
}

impl fmt::Display for Stage {
    fn fmt<W: fmt::Write>(&self, f: &mut fmt::Formatter<W>) -> fmt::Result {
        f.write_str(match self {
            Stage::Analysis => "analysis",
            Stage::Decorrelation => "de-correlation",
            Stage::MixingLeft => "mixing, left",
            Stage::MixingRight => "mixing, right",
            Stage::SynthesisLeft => "synthesis, left",
            Stage::SynthesisRight => "synthesis, right",
        })
    }
}

// The first number of a slot that differs: its place, the Rust's bits and ours.
#[derive(Clone, Copy, Debug, PartialEq, Eq)]
pub struct Difference {
    stage: Stage,
    slot: usize,
    place: usize,
    wanted: u64,
    found: u64,
}

// A place among the numbers of a slot is re or im of a channel, or of a QMF band after synthesis.
impl fmt::Display for Difference {
    fn fmt<W: fmt::Write>(&self, f: &mut fmt::Formatter<W>) -> fmt::Result {
        let kind = match self.stage {
            Stage::SynthesisLeft | Stage::SynthesisRight => "band",
            _ => "channel",
        };
        let part = if self.place % 2 == 0 { "re" } else { "im" };
        let stage = self.stage;
        let slot = self.slot;
        let number = self.place / 2;
        let wanted = self.wanted;
        let found = self.found;
        write!(
            f,
            "{stage}: slot {slot} {kind} {number} {part}: the Rust {wanted:016x}, Lefasumu {found:016x}"
        )
    }
}

// Why a frame does not hold.
#[derive(Clone, Copy, Debug, PartialEq, Eq)]
pub enum Fault {
    // The stream ends before the frame does.
    Cut,
    // Its lengths are not those of the frame's layout and slots.
    Lengths,
    // The cue line is refused.
    Refused,
    Differs(Difference),
}

impl From<std::io::Error> for Fault {
    fn from(_error: std::io::Error) -> Fault {
        Fault::Cut
    }
}

// As it goes on behind the frame's place.
impl fmt::Display for Fault {
    fn fmt<W: fmt::Write>(&self, f: &mut fmt::Formatter<W>) -> fmt::Result {
        match self {
            Fault::Cut => f.write_str(": the stream ends in this frame"),
            Fault::Lengths => f.write_str(": the lengths are not those of its layout and slots"),
            Fault::Refused => f.write_str(": its cue line is refused"),
            Fault::Differs(difference) => write!(f, ", {difference}"),
        }
    }
}

// Slot n of a stage, in the stream's order.
fn slot(reader: &mut impl Read, stage: Stage, n: usize, numbers: &[f64]) -> Result<(), Fault>
    requires { length numbers.now ≤ 182 }
{
    let mut bytes = [0u8; 8 * ROW];
    reader.read_exact(&mut bytes[..8 * numbers.len()])?;
    for (place, number) in numbers.iter().enumerate() {
        let wanted = float_bytes::word_at(&bytes, 8 * place);
        let found = float_bytes::bits_of(*number);
        if found != wanted {
            return Err(Fault::Differs(Difference {
                stage,
                slot: n,
                place,
                wanted,
                found,
            }));
        }
    }
    Ok(())
}

// The first `count` numbers of each row.
fn rows(
    reader: &mut impl Read,
    stage: Stage,
    numbers: &[f64],
    row: usize,
    count: usize,
    slots: usize,
) -> Result<(), Fault>
    requires { (count ≤ row) × ((row ≤ 182) × ((slots ≤ 32) × (32 * row ≤ length numbers.now))) }
{
    for n in 0..slots {
        let at = row * n;
        slot(reader, stage, n, &numbers[at..at + count])?;
    }
    Ok(())
}

// A stage: channel by channel re and im, as the Rust has a slot, or QMF rows.
fn one(
    reader: &mut impl Read,
    stage: Stage,
    layout: Layout,
    slots: usize,
    numbers: &Stages,
) -> Result<(), Fault>
    requires { slots ≤ 32 }
{
    let hybrid = 2 * layout.channels();
    match stage {
        Stage::Analysis => rows(reader, stage, &numbers.samples, ROW, hybrid, slots),
        Stage::Decorrelation => rows(reader, stage, &numbers.decorrelated, ROW, hybrid, slots),
        Stage::MixingLeft => rows(reader, stage, &numbers.lefts, ROW, hybrid, slots),
        Stage::MixingRight => rows(reader, stage, &numbers.rights, ROW, hybrid, slots),
        Stage::SynthesisLeft => rows(reader, stage, &numbers.left, 128, 128, slots),
        Stage::SynthesisRight => rows(reader, stage, &numbers.right, 128, 128, slots),
    }
}

// The stages in the stream's order, each counted that holds.
pub fn all(
    reader: &mut impl Read,
    layout: Layout,
    slots: usize,
    numbers: &Stages,
    held: &mut [u64; 6],
) -> Result<(), Fault>
    requires { slots ≤ 32 }
{
    for (stage, count) in Stage::ALL.iter().zip(held.iter_mut()) {
        one(reader, *stage, layout, slots, numbers)?;
        *count = count.wrapping_add(1);
    }
    Ok(())
}
