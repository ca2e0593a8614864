// What the lines have left in lent memory: a flag, then four rows of indices, two to a float.
ghost use Rattle.std.specs.Prelude.{◌≡◌, ◌*◌, length};
ghost use Rattle.ps_memory.specs.Packed.{packed, unpacked};
ghost use Rattle.ps_memory.specs.Place.{row_long, lines_long, row_of, row_image, lines_of, lines_image};

use ps_data::{PsIndexState, PsLines};
use ps_rows::Row;

// A row: its count, and its 34 places in 17 floats.
const ROW_LONG: usize = 18;
// The rows stand behind the flag.
const IID: usize = 1;

const ICC: usize = IID + ROW_LONG;

const IPD: usize = ICC + ROW_LONG;

const OPD: usize = IPD + ROW_LONG;

pub const LONG: usize = OPD + ROW_LONG;

// Indices out of memory, and into it.
pub fn unpack(from: &[f64], to: &mut [i8])
    requires { length to.old ≡ 2 * length from.now }
    ensures { to.new ≡ unpacked (length from.now) from.now }
{
    // Kept: two places are written by their number, for chunks_exact_mut says nothing of what the list holds after the loop.
    for (i, x) in from.iter().enumerate() {
        to[2 * i..2 * i + 2].copy_from_slice(&exact_numbers::indices(*x));
    }
}

pub fn pack(from: &[i8], to: &mut [f64])
    requires { length from.now ≡ 2 * length to.old }
    ensures { to.new ≡ packed (length to.old) from.now }
{
    for (i, x) in to.iter_mut().enumerate() {
        *x = exact_numbers::kept_pair(from[2 * i], from[2 * i + 1]);
    }
}

fn load_row(from: &[f64]) -> Row
    requires { length from.now ≡ row_long }
    ensures { result ≡ row_of from.now }
{
    let mut at = [0; 34];
    unpack(&from[1..ROW_LONG], &mut at);
    Row {
        at,
        used: exact_numbers::number(from[0], 34),
    }
}

fn store_row(row: Row, to: &mut [f64])
    requires { length to.old ≡ row_long }
    ensures { to.new ≡ row_image row }
{
    pack(&row.at, &mut to[1..ROW_LONG]);
    to[0] = exact_numbers::kept_number(row.used);
}

pub fn load(from: &[f64]) -> PsLines
    requires { length from.now ≡ lines_long }
    ensures { result ≡ lines_of from.now }
{
    PsLines {
        configured: exact_numbers::flag(from[0]),
        rows: PsIndexState {
            iid: load_row(&from[IID..ICC]),
            icc: load_row(&from[ICC..IPD]),
            ipd: load_row(&from[IPD..OPD]),
            opd: load_row(&from[OPD..LONG]),
        },
    }
}

pub fn store(lines: PsLines, to: &mut [f64])
    requires { length to.old ≡ lines_long }
    ensures { to.new ≡ lines_image lines }
{
    store_row(lines.rows.opd, &mut to[OPD..LONG]);
    store_row(lines.rows.ipd, &mut to[IPD..OPD]);
    store_row(lines.rows.icc, &mut to[ICC..IPD]);
    store_row(lines.rows.iid, &mut to[IID..ICC]);
    to[0] = exact_numbers::kept_flag(lines.configured);
}
