// Rows of 64 complex numbers between files and memory: 128 numbers, 1,024 bytes.
ghost use Rattle.std.specs.Prelude.{◌≡◌, ◌+◌, ◌≤◌, min};
ghost use Rattle.programme.specs.Read.{came};
ghost use Rattle.programme.specs.Rows.{carried_rows};

use crate::files;
use crate::files::{Cut, Failed, PIECE};
use std::env::Env;
use std::fs::File;

// What a frame hears at most: 32 rows of its own and the six ahead of them.
pub const HEARD: usize = 38 * 128;

// Rows of bytes, to the rows of `input` from a row on; the rows after them are silent.
fn load(bytes: &[u8; PIECE], rows: usize, from: usize, input: &mut [f64; HEARD])
    requires { from + rows ≤ 38 }
{
    let behind = (from + rows) * 128;
    float_bytes::read_floats(&bytes[..rows * 1024], &mut input[from * 128..behind]);
    input[behind..].fill(0.0);
}

// Reads rows to lent bytes, as many as are wanted or there are.
fn read_rows(
    rt: &(impl Env + Eprint),
    file: &File,
    wanted: usize,
    bytes: &mut [u8; PIECE],
) -> Result<usize, Cut>
    requires { wanted ≤ 38 }
    ensures { came result ≤ wanted }
{
    match files::read_all(rt, files::SAMPLES, file, &mut bytes[..wanted * 1024]) {
        Ok(count) => Ok(count / 1024),
        Err(cut) => Err(Cut {
            came: cut.came / 1024,
        }),
    }
}

// Reads rows to follow the `ahead` rows, six at most, that `input` begins with, up to the last of a frame's rows ahead, and answers how many came, also where
// a read fails; a frame has 32 slots at most. A row that the file's end cuts short does not count. Nothing is read where `input` has not 38 rows.
pub fn fetch(
    rt: &(impl Env + Eprint),
    file: &File,
    slots: usize,
    ahead: usize,
    input: &mut [f64],
) -> Result<usize, Cut>
    ensures { came result + min ahead 6 ≤ min slots 32 + 6 }
{
    let Ok(input) = <&mut [f64; HEARD]>::try_from(input) else {
        return Err(Cut { came: 0 });
    };
    let ahead = ahead.min(6);
    let mut bytes = [0u8; PIECE];
    let rows = read_rows(rt, file, slots.min(32) + 6 - ahead, &mut bytes)?;
    load(&bytes, rows, ahead, input);
    Ok(rows)
}

// The six rows ahead of a frame of 32 slots at most are the next one's first. Nothing changes where `input` has not 38 rows.
pub fn carry(input: &mut [f64], slots: usize)
    ensures { input.new ≡ carried_rows slots input.old }
{
    if input.len() == HEARD {
        let first = 128 * slots.min(32);
        input.copy_within(first..first + 768, 0);
    }
}

// Writes the rows of an output, 32 at most.
pub fn write(
    rt: &(impl Env + Eprint),
    place: usize,
    file: &File,
    numbers: &[f64],
) -> Result<(), Failed> {
    if 4096 < numbers.len() {
        return Err(Failed);
    }
    let mut bytes = [0u8; PIECE];
    let used = numbers.len() * 8;
    float_bytes::write_floats(numbers, &mut bytes[..used]);
    files::write_all(rt, place, file, &bytes[..used])
}
