// The frames of a pair: what its two runs have in common.
ghost use Rattle.std.specs.Prelude.{◌≤◌};

pub const FRAMES: u32 = 6;

// The kinds of indices, in the order of a line.
#[derive(Clone, Copy, Debug, PartialEq, Eq)]
pub enum Kind {
    Iid,
    Icc,
    Ipd,
    Opd,
}

pub const KINDS: [Kind; 4] = [Kind::Iid, Kind::Icc, Kind::Ipd, Kind::Opd];

// What a frame's line says: its first byte (IID and ICC are always there), whether the quantiser is the fine one and the procedure Rb, its envelopes, how many
// of these have a border of their own, and how many kinds it has.
#[derive(Clone, Copy)]
pub struct Said {
    pub flags: u8,
    pub fine: bool,
    pub rb: bool,
    pub envelopes: u8,
    pub borders: u8,
    pub kinds: usize,
}

const ALL: Said = Said {
    flags: 11,
    fine: false,
    rb: false,
    envelopes: 4,
    borders: 0,
    kinds: 4,
};

// Frame 2 holds, and frame 3 has an empty line.
pub fn said_in(frame: u32) -> Option<Said> {
    match frame {
        0 => Some(ALL),
        1 => Some(Said {
            flags: 7,
            rb: true,
            envelopes: 3,
            borders: 3,
            kinds: 2,
            ..ALL
        }),
        2 => Some(Said {
            envelopes: 0,
            ..ALL
        }),
        4 => Some(Said {
            fine: true,
            envelopes: 2,
            ..ALL
        }),
        5 => Some(Said {
            flags: 15,
            fine: true,
            rb: true,
            envelopes: 1,
            borders: 1,
            ..ALL
        }),
        _ => None,
    }
}

// A few slots, and now and then a full frame.
pub fn slots_of(pair: u32) -> usize
    ensures { result ≤ 32 }
{
    if pair % 12 == 0 {
        32
    } else {
        6 + (pair % 3) as usize
    }
}

// Frames 2 and 5 clear the delays from some channel on; frame 4, after the empty line, clears all of them whatever its edge.
pub fn edge_of(pair: u32, frame: u32) -> usize {
    match frame {
        2 => (pair % 13 * 5) as usize,
        5 => (63 - pair % 64) as usize,
        _ => 64,
    }
}
