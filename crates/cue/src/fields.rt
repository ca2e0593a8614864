// Bytes 0 to 3, what stands where after them, and the first of a line's bytes that is out of range.
ghost use Rattle.std.specs.Prelude.{◌≡◌, ◌+◌, ◌≤◌, cond};
ghost use Rattle.cue.specs.Checks.{found, every, head_checks, time_checks, body_checks};
ghost use Rattle.cue.specs.Fields.{by_mode, behind, places_of, header_of};

use super::{Block, Config, Header, Parameter, Places};

// One of three numbers, by mode modulo 3.
pub fn by_mode(mode: u8, a: usize, b: usize, c: usize) -> usize
    ensures { result ≡ by_mode mode a b c }
{
    match mode % 3 {
        0 => a,
        1 => b,
        _ => c,
    }
}

pub fn header(bytes: &[u8; limits::BYTES]) -> Header
    ensures { result ≡ header_of bytes.now }
{
    let flags = bytes[0];
    let iid = Parameter {
        present: flags % 2 == 1,
        mode: bytes[1],
    };
    let icc = Parameter {
        present: flags / 2 % 2 == 1,
        mode: bytes[2],
    };
    Header {
        cued: true,
        config: Config { iid, icc },
        variable: flags / 4 % 2 == 1,
        phase: flags / 8 % 2 == 1,
        envelopes: bytes[3],
    }
}

// One for each envelope of what is there: border bytes, or the rows of a kind.
fn each(there: bool, envelopes: u8) -> usize
    ensures { (result ≡ cond there envelopes 0) × (result ≤ 255) }
{
    if there { usize::from(envelopes) } else { 0 }
}

// The place behind a kind.
fn end(envelopes: u8, kind: Block) -> usize
    requires { (kind.place ≤ 65536) × (kind.count ≤ 34) }
    ensures { (result ≡ behind envelopes kind) × (result ≤ kind.place + 8925) }
{
    kind.place + each(kind.present, envelopes) * (kind.count + 1)
}

#[tactic(auto, unfolding(crate::specs::Fields::places_of))]
pub fn places(h: Header) -> Places
    ensures { result ≡ places_of h }
{
    let iid = Block {
        present: h.config.iid.present,
        count: h.config.iid.count(),
        place: 4 + each(h.variable, h.envelopes),
    };
    let icc = Block {
        present: h.config.icc.present,
        count: h.config.icc.count(),
        place: end(h.envelopes, iid),
    };
    let phases = h.config.phase_count();
    let ipd = Block {
        present: h.phase,
        count: phases,
        place: end(h.envelopes, icc),
    };
    let opd = Block {
        place: end(h.envelopes, ipd),
        ..ipd
    };
    Places {
        iid,
        icc,
        ipd,
        opd,
        end: end(h.envelopes, opd),
    }
}

// The first of bytes 0 to 3 that is out of range.
pub fn first_bad_head(bytes: &[u8; limits::BYTES]) -> Option<usize>
    ensures { result ≡ found bytes.now head_checks }
{
    first_over(bytes, 0, 1, 1, 15)
        .or(first_over(bytes, 1, 1, 1, 5))
        .or(first_over(bytes, 2, 1, 1, 5))
        .or(first_over(bytes, 3, 1, 1, limits::ENVELOPES as u8))
}

// Of `count` bytes that stand `apart` bytes apart, the first that is above `most`; past the end they are 0.
fn first_over(bytes: &[u8], place: usize, apart: usize, count: usize, most: u8) -> Option<usize>
    requires { (place ≤ 65536) × (apart ≤ 35) × (count ≤ 255) }
    ensures { result ≡ found bytes.now (every most count apart place) }
{
    for i in 0..count {
        let here = place + i * apart;
        if most < bytes.get(here).copied().unwrap_or(0) {
            return Some(here);
        }
    }
    None
}

// The first time byte of a kind that is out of range.
fn first_bad_time(envelopes: u8, kind: Block, bytes: &[u8]) -> Option<usize>
    requires { (kind.place ≤ 65536) × (kind.count ≤ 34) }
    ensures { result ≡ found bytes.now (time_checks envelopes kind) }
{
    first_over(
        bytes,
        kind.place,
        kind.count + 1,
        each(kind.present, envelopes),
        1,
    )
}

// The first byte behind those that is out of range: borders, then time bytes, kind after kind.
pub fn first_bad_field(h: Header, at: Places, bytes: &[u8; limits::BYTES]) -> Option<usize>
    requires { at ≡ places_of h }
    ensures { result ≡ found bytes.now (body_checks h) }
{
    first_over(bytes, 4, 1, each(h.variable, h.envelopes), 31)
        .or(first_bad_time(h.envelopes, at.iid, bytes))
        .or(first_bad_time(h.envelopes, at.icc, bytes))
        .or(first_bad_time(h.envelopes, at.ipd, bytes))
        .or(first_bad_time(h.envelopes, at.opd, bytes))
}
