// Lines out of pieces of a text, however the pieces cut them. A line that has begun is the count of all its characters, beside room that holds the first of
// them: so memory does not grow with the text, and of a line that is longer than the room the count is known still.
#![tactic(auto)]

ghost use Rattle.std.specs.Prelude.{◌≡◌, List, ℕ, take, replicate, option_map};
ghost use Rattle.std.specs.List.{FoldsTo};
ghost use Rattle.lists.specs.First.{before};
ghost use Rattle.text_lines.specs.Lines.{of_line, laid, stepped, step_of, begun, left_by, ended_in};

// Whoever hears the lines of a text as they end: `hears` says what a line, as it is held, makes of the hearer.
pub trait Hearer {
    ghost hears: { Self → List ℕ → Self → Type 0 };

    fn hear(&mut self, line: &[u8])
        ensures { hears self.old line.now self.new };
}

#[derive(Clone, Copy)]
pub struct Line<const N: usize> {
    pub room: [u8; N],
    // How many characters it has had: a count that stays at the largest number where there is none for it.
    pub count: u64,
}

// How many characters stand before the first newline; all of them where there is none.
fn before_newline(text: &[u8]) -> usize
    ensures { result ≡ before of_line text.now }
{
    text.iter().take_while(|c| **c != b'\n').count()
}

// Holds a part of a line behind the characters that it has had, as far as there is room.
fn hold(room: &mut [u8], count: usize, part: &[u8])
    ensures { room.new ≡ laid room.old count part.now }
{
    let place = count.min(room.len());
    let size = part.len().min(room.len() - place);
    room[place..place + size].copy_from_slice(&part[..size]);
}

// Takes the characters of a piece that are of a line, whose first characters lie in lent room of any length, and answers what comes behind its newline,
// where there is one.
pub fn step<'a>(room: &mut [u8], count: &mut u64, piece: &'a [u8]) -> Option<&'a [u8]>
    ensures { stepped (option_map (λ x. x.now) result) room.new count.new ≡ step_of room.old count.old piece.now }
{
    let size = before_newline(piece);
    let (part, rest) = piece.split_at(size);
    hold(room, *count as usize, part);
    *count = count.saturating_add(size as u64);
    rest.get(1..)
}

// What is held of a line: its first characters.
pub fn held(room: &[u8], count: u64) -> &[u8]
    ensures { result.now ≡ take count room.now }
{
    let end = (count as usize).min(room.len());
    &room[..end]
}

impl<const N: usize> Line<N> {
    // A line that has no character yet.
    pub fn new() -> Self
        ensures room { result.room ≡ replicate N 0 }
        ensures count { result.count ≡ 0 }
    {
        Line {
            room: [0; N],
            count: 0,
        }
    }

    // What is held of it: its first characters.
    pub fn held(&self) -> &[u8]
        ensures { result.now ≡ take self.now.count self.now.room }
    {
        held(&self.room, self.count)
    }

    // Takes the characters of a piece that are of the line, and answers what comes behind its newline, where there is one.
    pub fn take<'a>(&mut self, piece: &'a [u8]) -> Option<&'a [u8]>
        ensures { stepped (option_map (λ x. x.now) result) self.new.room self.new.count ≡ step_of self.old.room self.old.count piece.now }
    {
        step(&mut self.room, &mut self.count, piece)
    }

    // Takes a piece of the text: each line that ends in it is heard, and the line is then the one that the piece leaves begun.
    pub fn each<H: Hearer>(&mut self, piece: &[u8], hearer: &mut H)
        ensures lines { FoldsTo H.hears hearer.old (ended_in self.old.room self.old.count piece.now) hearer.new }
        ensures left { begun self.new.room self.new.count ≡ left_by self.old.room self.old.count piece.now }
    {
        let mut rest = piece;
        while let Some(behind) = self.take(rest) {
            hearer.hear(self.held());
            self.count = 0;
            rest = behind;
        }
    }
}
