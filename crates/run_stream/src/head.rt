// The head of a record, which says what follows it.
ghost use Rattle.std.specs.Prelude.{◌≡◌};
ghost use Rattle.run_stream.specs.Heads.{kind_of, head_of, fits_in};

// Its bytes. The last eight, a call's place and count (oracle/README.md, "Streams"), are not looked at.
pub const SIZE: usize = 56;

// The most that a record may ask for. A given sample takes 12 bytes, a number of a side 8.
pub const LINE: usize = 2048;

pub const INPUT: usize = 5632;

pub const SIDE: usize = 4352;

// What a record is.
#[derive(Clone, Copy, Debug, PartialEq, Eq)]
pub enum Kind {
    End,
    Run,
    Call,
}

// A byte that is no kind's is the error.
impl TryFrom<u8> for Kind {
    type Error = u8;

    ghost try_from_gives = { λ byte kind. kind ≡ kind_of byte };

    fn try_from(byte: u8) -> Result<Kind, u8> {
        match byte {
            0 => Ok(Kind::End),
            1 => Ok(Kind::Run),
            2 => Ok(Kind::Call),
            _ => Err(byte),
        }
    }
}

#[derive(Clone, Copy)]
pub struct Head {
    pub kind: Result<Kind, u8>,
    // Kept: a number: (a) replay prints whatever byte the stream has as the answer wanted, an answer's number or not.
    pub answer: u8,
    // The spectrum edge of a call, the asked slots of a run.
    pub number: usize,
    // The generator's state, the size of a step, the numbers of a row and of the whole input that have noise.
    pub state: u32,
    pub step: f64,
    pub width: usize,
    pub reach: usize,
    // Counts: samples that are given, characters of the line, numbers lent.
    pub given: usize,
    pub line: usize,
    pub input: usize,
    pub left: usize,
    pub right: usize,
}

// The head that the bytes of a record have; what is not there is 0.
#[tactic(auto, unfolding(crate::specs::Heads::head_of))]
pub fn read(bytes: &[u8]) -> Head
    ensures { result ≡ head_of bytes.now }
{
    Head {
        kind: Kind::try_from(float_bytes::byte_at(bytes, 0)),
        answer: float_bytes::byte_at(bytes, 1),
        number: float_bytes::word_at(bytes, 8) as usize,
        state: float_bytes::half_at(bytes, 4),
        step: float_bytes::float_of(float_bytes::word_at(bytes, 16)),
        width: usize::from(float_bytes::byte_at(bytes, 2)),
        reach: float_bytes::half_at(bytes, 24) as usize,
        given: float_bytes::half_at(bytes, 28) as usize,
        line: float_bytes::half_at(bytes, 32) as usize,
        input: float_bytes::half_at(bytes, 36) as usize,
        left: float_bytes::half_at(bytes, 40) as usize,
        right: float_bytes::half_at(bytes, 44) as usize,
    }
}

impl Head {
    // There is room for what the record asks.
    pub fn fits(self) -> bool
        ensures { result ≡ fits_in self }
    {
        self.input <= INPUT
            && self.left <= SIDE
            && self.right <= SIDE
            && self.line <= LINE
            && self.given <= INPUT
    }

    // The call's sample at a place has noise.
    pub(crate) fn noisy(self, place: usize) -> bool {
        place < self.reach && place % 128 < self.width
    }
}
