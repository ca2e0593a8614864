// Compares the band map with the Rust's. The input has 77 bytes for each row: its length, the target, 40 places for its indices, the answer, and the 34
// indices that the Rust gives. It says how many rows are mapped so, or which is the first that is not.
#![tactic(auto)]

ghost use Rattle.std.specs.Prelude.{◌≤◌, length};

use answer::Answer;
use std::io::Read;

const RECORD: usize = 77;

// Whole records that one read brings.
const PIECE: usize = 851 * RECORD;

// A byte as a signed number: its magnitude, at most 63, and 128 more where it is negative.
fn signed(byte: u8) -> i8 {
    if byte < 128 {
        byte as i8
    } else {
        -((byte % 64) as i8)
    }
}

// The answer and the mapped row are the record's.
fn says(record: &[u8; RECORD], answer: Answer, mapped: &[i8; 34]) -> bool {
    u8::from(answer) == record[42]
        && record[43..]
            .iter()
            .zip(mapped)
            .all(|(byte, index)| signed(*byte) == *index)
}

// One row is mapped as the Rust maps it.
fn holds(record: &[u8; RECORD]) -> bool {
    let count = usize::from(record[0]);
    let target = usize::from(record[1]);
    if 40 < count {
        return false;
    }
    let row: [i8; 40] = std::array::from_fn(|i| signed(record[i + 2]));
    match ps_map::map_indices(&row[..count], target) {
        Ok(mapped) => says(record, Answer::Done, &mapped.row),
        Err(answer) => says(record, answer, &[0; 34]),
    }
}

// Reads until the memory is full, the input ends or a read fails, and answers how many bytes came.
// Kept: a loop of reads: (a) the program prints how many records came before the input's end, and `read_exact` does not say how many bytes did.
fn read_full(reader: &mut impl Read, bytes: &mut [u8]) -> usize
    ensures { result ≤ length bytes.new }
{
    let mut done = 0;
    while done < bytes.len() {
        match reader.read(&mut bytes[done..]) {
            Ok(0) | Err(_) => break,
            Ok(count) => done += count,
        }
    }
    done
}

// A record does not hold, or is cut: how many hold before it.
#[derive(Clone, Copy)]
struct Broken {
    held: usize,
}

// How many records hold.
fn replay(reader: &mut impl Read) -> Result<usize, Broken> {
    let mut bytes = [0; PIECE];
    let mut count = 0usize;
    // A proved loop has to end: no input uses up these turns.
    for _ in 0..u64::MAX {
        let got = read_full(reader, &mut bytes);
        if got == 0 {
            break;
        }
        let (records, rest) = bytes[..got].as_chunks::<RECORD>();
        let held = records.iter().take_while(|record| holds(record)).count();
        count = count.wrapping_add(held);
        if held < records.len() || !rest.is_empty() {
            return Err(Broken { held: count });
        }
    }
    Ok(count)
}

fn main(rt: HostRuntime) {
    let _ = match replay(&mut rt.stdin()) {
        Ok(count) => println!(rt; "{count} rows are mapped as the Rust maps them"),
        Err(Broken { held }) => {
            println!(rt; "{held} rows are mapped as the Rust maps them; the next is not, or is cut")
        }
    };
}
