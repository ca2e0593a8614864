// What `oracle stage-runs` writes, read piece by piece.
use std::io::Read;
use std::{fmt, io};

// What stands before a frame.
#[derive(Clone, Copy)]
pub struct Head {
    // Whether it is the first accepted frame of a run.
    pub starts: bool,
    // Characters of the cue line.
    pub line: usize,
    // The frame's place in its run, and the run's seed.
    number: u64,
    seed: u64,
    pub asked: usize,
    pub edge: usize,
    // How many numbers follow of the input, after each hybrid stage, and of each output.
    pub input: usize,
    pub hybrid: usize,
    pub output: usize,
}

// Where a frame stands.
impl fmt::Display for Head {
    fn fmt<W: fmt::Write>(&self, f: &mut fmt::Formatter<W>) -> fmt::Result {
        let seed = self.seed;
        let number = self.number;
        write!(f, "run seed {seed} frame {number}")
    }
}

// What comes next in the stream.
#[derive(Clone, Copy)]
pub enum Piece {
    Frame(Head),
    // The stream says that it ends.
    End,
    // It ends and does not say so, or goes on with what is neither: then its bytes as a head, else zeros.
    Broken(Head),
}

fn head_of(bytes: &[u8; 48]) -> Head {
    let low = usize::from(bytes[2]);
    let high = usize::from(bytes[3]);
    Head {
        starts: bytes[1] != 0,
        line: low + 256 * high,
        number: u64::from(float_bytes::half_at(bytes, 4)),
        seed: float_bytes::word_at(bytes, 8),
        asked: float_bytes::word_at(bytes, 16) as usize,
        edge: float_bytes::word_at(bytes, 24) as usize,
        input: float_bytes::half_at(bytes, 32) as usize,
        hybrid: float_bytes::half_at(bytes, 36) as usize,
        output: float_bytes::half_at(bytes, 40) as usize,
    }
}

pub fn next(reader: &mut impl Read) -> Piece {
    let mut bytes = [0u8; 48];
    if reader.read_exact(&mut bytes).is_err() {
        return Piece::Broken(head_of(&[0u8; 48]));
    }
    let head = head_of(&bytes);
    match bytes[0] {
        0 => Piece::End,
        1 => Piece::Frame(head),
        _ => Piece::Broken(head),
    }
}

// The rows of the input, as many as are lent.
pub fn read_rows(reader: &mut impl Read, input: &mut [f64]) -> std::io::Result<()> {
    let (rows, _) = input.as_chunks_mut::<128>();
    for row in rows.iter_mut() {
        let mut bytes = [0u8; 1024];
        reader.read_exact(&mut bytes)?;
        float_bytes::read_floats(&bytes, row);
    }
    Ok(())
}
