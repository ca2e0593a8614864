// The cue line of document 01: one frame's stereo parameters in hexadecimal. Reading a line gives its header, the places of its rows and its bytes, or a
// refusal; the rows of deltas after the header are left to ps_data.
#![tactic(auto)]

mod digits;
mod fields;

ghost use Rattle.std.specs.Prelude.{◌≡◌, replicate};
ghost use Rattle.limits.specs.Limits as limits;
ghost use Rattle.cue.specs.Fields.{parameters_of, count_of, phase_count_of, fine_of, rb_of, places_of};
ghost use Rattle.cue.specs.Line.{answer_of, no_header, cue_of, read_bytes, read_line};

use answer::Answer;

// A kind of parameter: whether the frame brings it, and its mode.
// Kept: the mode is no part of an Option, since it counts where the kind is absent too (specs/Fields `fine_of`, `rb_of`).
#[derive(Clone, Copy)]
pub struct Parameter {
    pub present: bool,
    pub mode: u8,
}

// What stays in force when a later line is empty.
#[derive(Clone, Copy)]
pub struct Config {
    pub iid: Parameter,
    pub icc: Parameter,
}

// What a line says before its rows. An empty line is not cued: it brings no configuration and no envelopes.
// Kept: `cued` is a flag beside the rest, since calls/specs/Call (`header`, `modes_of`) reads the rest of an empty line too.
#[derive(Clone, Copy)]
pub struct Header {
    pub cued: bool,
    pub config: Config,
    pub variable: bool,
    pub phase: bool,
    pub envelopes: u8,
}

// The rows of a kind in a line: whether they are there, how many deltas each has, and the byte at which the first row begins.
// Kept: `present` is a flag beside the place, since the next kind begins at the place of one that is absent (specs/Fields `places_of`, `behind`).
#[derive(Clone, Copy)]
pub struct Block {
    pub present: bool,
    pub count: usize,
    pub place: usize,
}

// The rows of each kind, and where the line ends.
#[derive(Clone, Copy)]
pub struct Places {
    pub iid: Block,
    pub icc: Block,
    pub ipd: Block,
    pub opd: Block,
    pub end: usize,
}

// A line that is read: what it says, where its rows stand, and its bytes with zeros after them.
// Kept: as many bytes as the longest line has, since fixed memory without a heap is a rule of the project; `places.end` says how many are its own.
#[derive(Clone, Copy)]
pub struct Cue {
    pub header: Header,
    pub places: Places,
    pub bytes: [u8; limits::BYTES],
}

// The answer of reading a line: Done where something was read.
pub fn answer_of<T: Drop>(read: Result<T, Answer>) -> Answer
    ensures { result ≡ answer_of read }
{
    read.err().unwrap_or(Answer::Done)
}

impl Parameter {
    // Parameters of an envelope by the mode, whether or not the kind is there.
    pub fn parameters(self) -> usize
        ensures { result ≡ parameters_of self }
    {
        fields::by_mode(self.mode, 10, 20, 34)
    }

    // Parameters of an envelope.
    pub fn count(self) -> usize
        ensures { result ≡ count_of self }
    {
        if self.present { self.parameters() } else { 0 }
    }
}

impl Config {
    // IPD and OPD parameters of an envelope.
    pub fn phase_count(self) -> usize
        ensures { result ≡ phase_count_of self }
    {
        if self.iid.present {
            fields::by_mode(self.iid.mode, 5, 11, 17)
        } else {
            0
        }
    }

    // Whether IID goes by the fine quantiser.
    pub fn fine(self) -> bool
        ensures { result ≡ fine_of self }
    {
        3 <= self.iid.mode
    }

    // Whether the mixing goes by procedure Rb.
    pub fn rb(self) -> bool
        ensures { result ≡ rb_of self }
    {
        3 <= self.icc.mode
    }
}

fn no_header() -> Header
    ensures { result ≡ no_header }
{
    let absent = Parameter {
        present: false,
        mode: 0,
    };
    Header {
        cued: false,
        config: Config {
            iid: absent,
            icc: absent,
        },
        variable: false,
        phase: false,
        envelopes: 0,
    }
}

fn no_cue() -> Cue
    ensures { result ≡ cue_of no_header (replicate limits.bytes 0) }
{
    let header = no_header();
    Cue {
        header,
        places: fields::places(header),
        bytes: [0; limits::BYTES],
    }
}

// The fields of a line of so many digits.
#[tactic(auto, unfolding(crate::specs::Line::read_bytes))]
fn read_bytes(digits: usize, bytes: [u8; limits::BYTES]) -> Result<Cue, Answer>
    ensures { result ≡ read_bytes digits bytes }
{
    if fields::first_bad_head(&bytes).is_some() {
        return Err(Answer::Field);
    }
    let header = fields::header(&bytes);
    let places = fields::places(header);
    if digits != 2 * places.end {
        return Err(Answer::Length);
    }
    if fields::first_bad_field(header, places, &bytes).is_some() {
        return Err(Answer::Field);
    }
    Ok(Cue {
        header,
        places,
        bytes,
    })
}

// A line of any length and any characters.
#[tactic(auto, using(crate::proofs::Characters::others), unfolding(crate::specs::Line::read_line))]
pub fn read(text: &[u8]) -> Result<Cue, Answer>
    ensures { result ≡ read_line text.now }
{
    let digits = text.len();
    if limits::DIGITS < digits {
        return Err(Answer::Length);
    }
    if digits::first_other(text).is_some() {
        return Err(Answer::Character);
    }
    if digits::is_ragged(digits) {
        return Err(Answer::Length);
    }
    if digits == 0 {
        return Ok(no_cue());
    }
    read_bytes(digits, digits::bytes(text))
}
