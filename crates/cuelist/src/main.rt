// Lists the resolved indices of the cue lines on standard input: for each line its number, the answer, and the indices of each kind and envelope.
// It holds one line at a time, so that its memory does not grow with the input.
#![tactic(auto)]

mod text;

ghost use Rattle.std.specs.Prelude.{⊤, ◌≡◌};
ghost use Rattle.ps_data.specs.Indices.{resolve_line, left_by};

use answer::Answer;
use programme::files::{HELD, PIECE};
use ps_data::{PsIndices, PsLines};
use std::io::{ErrorKind, Read};
use std::process::ExitCode;
use text::Text;
use text_lines::Hearer;

// What became of the output: all was written so far, or not all, or it has no reader any more.
#[derive(Clone, Copy, Debug, PartialEq, Eq)]
enum Output {
    Written,
    Lost,
    Unread,
}

// What is carried from line to line: what the lines so far have left, the number of the last line and its text, and what became of the output.
#[derive(Clone, Copy)]
struct Listing {
    lines: PsLines,
    number: u64,
    text: Text,
    output: Output,
}

impl Listing {
    fn write(&mut self, out: &impl Print, answer: Answer, indices: &PsIndices)
        ensures { self.new.lines ≡ self.old.lines }
    {
        self.text.put_line(self.number, answer, indices);
        if let Err(error) = out.write_all(self.text.bytes()) {
            self.output = match (self.output, error.kind()) {
                (Output::Unread, _) | (_, ErrorKind::BrokenPipe) => Output::Unread,
                _ => Output::Lost,
            };
        }
    }

    // One line of the input, without its newline. What the lines have left goes on as they say it does: a refused line leaves it as it was.
    fn list_line(&mut self, out: &impl Print, line: &[u8])
        ensures { self.new.lines ≡ (left_by self.old.lines (resolve_line self.old.lines line.now)).lines }
    {
        self.number = self.number.wrapping_add(1);
        match ps_data::resolve(self.lines, line) {
            Ok(read) => {
                let answer = ps_data::read_answer(read.header, self.lines.configured);
                self.lines = read.lines;
                self.write(out, answer, &read.indices);
            }
            Err(answer) => self.write(out, answer, &ps_data::no_indices()),
        }
    }
}

// A listing, and where it is written.
#[derive(Drop)]
struct Lister<'a, P: Print> {
    listing: &'a mut Listing,
    out: &'a P,
}

impl<P: Print> Hearer for Lister<'_, P> {
    ghost hears = { λ before line after. ⊤ };

    fn hear(&mut self, line: &[u8]) {
        self.listing.list_line(self.out, line);
    }
}

// The status of a program that is stopped because nobody reads its output any more.
const UNREAD: u8 = 141;

// But for that the program has no exit status: the launcher takes what is said here for a failure.
fn conclude(rt: &impl Eprint, listing: &Listing) -> ExitCode {
    match listing.output {
        Output::Unread => return ExitCode::from(UNREAD),
        Output::Lost => {
            let _ = eprintln!(rt; "lefasumu: standard output: not all could be written");
        }
        Output::Written => {}
    }
    ExitCode::SUCCESS
}

fn main(rt: HostRuntime) -> ExitCode {
    let mut line = text_lines::Line::<HELD>::new();
    let mut reader = rt.stdin();
    let mut input = [0u8; PIECE];
    let mut listing = Listing {
        lines: ps_data::fresh(),
        number: 0,
        text: Text::new(),
        output: Output::Written,
    };
    // A proved loop has to end: no input uses up these turns. What cannot be read ends the input too.
    for _ in 0..u64::MAX {
        let used = reader.read(&mut input).unwrap_or(0);
        let mut lister = Lister {
            listing: &mut listing,
            out: &rt,
        };
        line.each(&input[..used], &mut lister);
        if used == 0 || listing.output == Output::Unread {
            break;
        }
    }
    if 0 < line.count {
        listing.list_line(&rt, line.held());
    }
    conclude(&rt, &listing)
}
