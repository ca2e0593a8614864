// What a call answers. Document 01's table gives each answer its number and says what it leaves.
#![tactic(auto)]

use std::fmt;

#[derive(Clone, Copy, Debug, PartialEq, Eq)]
pub enum Answer {
    Done,
    Quiet,
    Character,
    Length,
    Field,
    Buffers,
    Sample,
}

// A number that is no answer's.
#[derive(Clone, Copy, Debug, PartialEq, Eq)]
pub struct NoAnswer(pub u32);

impl From<Answer> for u8 {
    ghost use Rattle.std.specs.Prelude.{◌≡◌};
    ghost use Rattle.answer.specs.Number.{number_of};

    ghost from_gives = { λ answer number. number ≡ number_of answer };

    fn from(answer: Answer) -> u8 {
        match answer {
            Answer::Done => 0,
            Answer::Quiet => 1,
            Answer::Character => 2,
            Answer::Length => 3,
            Answer::Field => 4,
            Answer::Buffers => 5,
            Answer::Sample => 6,
        }
    }
}

impl TryFrom<u32> for Answer {
    ghost use Rattle.answer.specs.Number.{Numbered};

    type Error = NoAnswer;

    ghost try_from_gives = { Numbered };

    fn try_from(number: u32) -> Result<Answer, NoAnswer> {
        match number {
            0 => Ok(Answer::Done),
            1 => Ok(Answer::Quiet),
            2 => Ok(Answer::Character),
            3 => Ok(Answer::Length),
            4 => Ok(Answer::Field),
            5 => Ok(Answer::Buffers),
            6 => Ok(Answer::Sample),
            _ => Err(NoAnswer(number)),
        }
    }
}

impl fmt::Display for Answer {
    fn fmt<W: fmt::Write>(&self, f: &mut fmt::Formatter<W>) -> fmt::Result {
        f.write_str(match self {
            Answer::Done => "done",
            Answer::Quiet => "quiet: an empty line before any configuration",
            Answer::Character => "a character outside 0-9 a-f",
            Answer::Length => "the line's length",
            Answer::Field => "a field out of range",
            Answer::Buffers => "the buffers' lengths",
            Answer::Sample => "a sample not finite, or above 1048576 in magnitude",
        })
    }
}
