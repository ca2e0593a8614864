// A line of output, put together in memory of a fixed size.
ghost use Rattle.std.specs.Prelude.{◌≤◌};
ghost use Rattle.cuelist.specs.declared.text.TheConstants.{LONGEST};

use answer::Answer;
use ps_data::PsIndices;
use ps_rows::Rows;

// No line is longer: two numbers, a space and a newline, of at most 20, 3, 1 and 1 characters; then for each envelope the rows of four kinds, each with a
// word of 4 characters and at most 34 indices of at most 5 with their space.
const LONGEST: usize = 25 + 4 * (4 + 34 * 5) * limits::ENVELOPES;

// Kept: put by hand (b): a Display by println! took 11.0 s for 4.1 s on tests/cuelist's 100,000 lines (tools/unproved), proved 0.45 for 0.33 s on a million.
#[derive(Clone, Copy)]
pub struct Text {
    bytes: [u8; LONGEST],
    used: usize,
    ghost fits: { used ≤ LONGEST },
}

impl Text {
    pub fn new() -> Text {
        Text {
            bytes: [0; LONGEST],
            used: 0,
        }
    }

    // Becomes a line: its number and its answer; then for each envelope of each kind a word and the indices.
    pub fn put_line(&mut self, number: u64, answer: Answer, indices: &PsIndices) {
        self.used = 0;
        self.put_number(number);
        self.put(b' ');
        self.put_number(u64::from(u8::from(answer)));
        self.put_rows(b" iid", &indices.iid);
        self.put_rows(b" icc", &indices.icc);
        self.put_rows(b" ipd", &indices.ipd);
        self.put_rows(b" opd", &indices.opd);
        self.put(b'\n');
    }

    pub fn bytes(&self) -> &[u8] {
        &self.bytes[..self.used]
    }

    fn put(&mut self, byte: u8) {
        if self.used < LONGEST {
            self.bytes[self.used] = byte;
            self.used += 1;
        }
    }

    fn put_all(&mut self, bytes: &[u8]) {
        for byte in bytes {
            self.put(*byte);
        }
    }

    fn put_number(&mut self, number: u64) {
        if 9 < number {
            self.put_number(number / 10);
        }
        self.put(b'0' + (number % 10) as u8);
    }

    fn put_index(&mut self, index: i8) {
        if index < 0 {
            self.put(b'-');
        }
        self.put_number(u64::from(index.unsigned_abs()));
    }

    // A word and the indices, for each envelope.
    fn put_rows(&mut self, word: &[u8], rows: &Rows) {
        let envelopes = usize::from(rows.used).min(limits::ENVELOPES);
        for row in &rows.row[..envelopes] {
            self.put_all(word);
            let indices = usize::from(row.used).min(34);
            for index in &row.at[..indices] {
                self.put(b' ');
                self.put_index(*index);
            }
        }
    }
}
