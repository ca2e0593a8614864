// The indices of one kind of parameter (source document 005, §8.5.2): deltas, over frequency or over time, to absolute indices.
#![tactic(auto)]

mod steps;

ghost use Rattle.std.specs.Prelude.{◌≡◌, [], ◌≤◌, take, drop, get_or};
ghost use Rattle.ps_rows.specs.Rows.{row_of, padded_row, padded_rows, start_of, resolve_kind};

#[derive(Clone, Copy)]
pub enum Kind {
    // IID by the default quantiser, and by the fine one.
    Coarse,
    Fine,
    // ICC.
    Coherence,
    // IPD and OPD.
    Phase,
}

// A row of indices: the first `used` of 34 places, zeros after them.
// Kept: a count beside the places, here and in `Rows`, since fixed memory without a heap is a rule of the project and ps_memory keeps both.
#[derive(Clone, Copy)]
pub struct Row {
    pub at: [i8; 34],
    pub used: u16,
}

// The rows of a frame, one for each envelope: the first `used` of its places.
#[derive(Clone, Copy)]
pub struct Rows {
    pub row: [Row; limits::ENVELOPES],
    pub used: u16,
}

// A frame's rows, and the row that the next frame's time rows start from.
#[derive(Clone, Copy)]
pub struct ResolvedKind {
    pub rows: Rows,
    pub kept: Row,
}

pub fn no_row() -> Row
    ensures { result ≡ padded_row [] }
{
    Row {
        at: [0; 34],
        used: 0,
    }
}

pub fn no_rows() -> Rows
    ensures { result ≡ padded_rows [] }
{
    Rows {
        row: [no_row(); limits::ENVELOPES],
        used: 0,
    }
}

// The byte at a place, 0 past the end.
// Kept: a name for the library's look-up, which two places here ask; float_bytes, which has it too, reads files and is no crate of lines.
fn byte_at(bytes: &[u8], place: usize) -> u8
    ensures { result ≡ get_or bytes.now place 0 }
{
    bytes.get(place).copied().unwrap_or(0)
}

// One envelope's row, whose time byte stands at a place: over time each index starts from the old one of its band, over frequency from the one before it.
fn envelope_row(kind: Kind, count: usize, old: [i8; 34], bytes: &[u8], place: usize) -> Row
    requires { (count ≤ 34) × (place ≤ 65536) }
    ensures { result ≡ padded_row (row_of kind count (take count old) (drop place bytes.now)) }
{
    let over_time = byte_at(bytes, place) == 1;
    let mut at = [0; 34];
    let mut previous = 0;
    for b in 0..count {
        let from = if over_time { old[b] } else { previous };
        previous = steps::accumulate(kind, from, byte_at(bytes, place + 1 + b));
        at[b] = previous;
    }
    Row {
        at,
        used: count as u16,
    }
}

// What the first envelope's time row starts from.
fn start(kept: Row, count: usize) -> [i8; 34]
    requires { count ≤ 34 }
    ensures { take count result ≡ start_of kept count }
{
    if usize::from(kept.used) == count {
        kept.at
    } else {
        [0; 34]
    }
}

// The rows of a frame's envelopes, of at most 34 parameters. Bytes past the end are 0.
pub fn resolve_kind(
    kind: Kind,
    kept: Row,
    envelopes: usize,
    count: usize,
    bytes: &[u8],
) -> ResolvedKind
    ensures { result ≡ resolve_kind kind kept envelopes count bytes.now }
{
    let parameters = count.min(34);
    let limit = envelopes.min(limits::ENVELOPES);
    let none = no_row();
    let mut row = [none; limits::ENVELOPES];
    let mut old = start(kept, parameters);
    let mut last = kept;
    for e in 0..limit {
        last = envelope_row(kind, parameters, old, bytes, e * (parameters + 1));
        old = last.at;
        row[e] = last;
    }
    ResolvedKind {
        rows: Rows {
            row,
            used: limit as u16,
        },
        kept: last,
    }
}
