// The indices of a frame (source document 005): a cue line and what the lines before it have left give the absolute indices of each kind and envelope.
// A refused line changes nothing.
#![tactic(auto)]

mod kinds;

ghost use Rattle.std.specs.Prelude.{◌≡◌};
ghost use Rattle.ps_data.specs.Indices.{on_thirty_four, layout_of, layout_in, read_answer, no_rows, fresh_lines, lines_after, no_indices, unresolved, resolve_line};

use answer::Answer;
use cue::{Config, Header, Parameter};
use layout::Layout;
use ps_kinds::Kinds;
use ps_rows::{Row, Rows};

// The row of each kind's last envelope.
pub type PsIndexState = Kinds<Row>;

// What the lines so far have left: whether a configuration has come, and the rows that the next line's time rows start from.
#[derive(Clone, Copy)]
pub struct PsLines {
    pub configured: bool,
    pub rows: PsIndexState,
}

// A frame's rows.
pub type PsIndices = Kinds<Rows>;

// What a line that is read says, what it and those before it have left, its indices, and its own borders where they are variable.
#[derive(Clone, Copy)]
pub struct Resolved {
    pub header: Header,
    pub lines: PsLines,
    pub indices: PsIndices,
    pub positions: [u8; limits::ENVELOPES],
}

fn on_thirty_four(p: Parameter) -> bool
    ensures { result ≡ on_thirty_four p }
{
    p.present && p.mode % 3 == 2
}

// The layout of a configuration.
pub fn layout_of(config: Config) -> Layout
    ensures { result ≡ layout_of config }
{
    if on_thirty_four(config.iid) || on_thirty_four(config.icc) {
        Layout::Bands34
    } else {
        Layout::Bands20
    }
}

// An empty line leaves the configuration in force, and so the layout.
pub fn layout_in(old: Layout, header: Header) -> Layout
    ensures { result ≡ layout_in old header }
{
    if header.cued {
        layout_of(header.config)
    } else {
        old
    }
}

// The answer of a line that is read, by whether a configuration has come before it.
pub fn read_answer(header: Header, configured: bool) -> Answer
    ensures { result ≡ read_answer header configured }
{
    if header.cued || configured {
        Answer::Done
    } else {
        Answer::Quiet
    }
}

fn no_rows() -> PsIndexState
    ensures { result ≡ no_rows }
{
    let none = ps_rows::no_row();
    PsIndexState {
        iid: none,
        icc: none,
        ipd: none,
        opd: none,
    }
}

// Before the first line.
pub fn fresh() -> PsLines
    ensures { result ≡ fresh_lines }
{
    PsLines {
        configured: false,
        rows: no_rows(),
    }
}

// What a line that is read leaves, with the rows that it leaves.
fn lines_after(lines: PsLines, header: Header, rows: PsIndexState) -> PsLines
    ensures { result ≡ lines_after lines header rows }
{
    PsLines {
        configured: lines.configured || header.cued,
        rows,
    }
}

// The indices of nothing.
pub fn no_indices() -> PsIndices
    ensures { result ≡ no_indices }
{
    let none = ps_rows::no_rows();
    PsIndices {
        iid: none,
        icc: none,
        ipd: none,
        opd: none,
    }
}

// A line without envelopes.
fn unresolved(lines: PsLines, header: Header) -> Resolved
    ensures { result ≡ unresolved lines header }
{
    Resolved {
        header,
        lines,
        indices: no_indices(),
        positions: [0; limits::ENVELOPES],
    }
}

// A line of any length and any characters, after any lines.
#[tactic(auto, unfolding(crate::specs::Indices::resolve_line))]
pub fn resolve(lines: PsLines, text: &[u8]) -> Result<Resolved, Answer>
    ensures { result ≡ resolve_line lines text.now }
{
    let cue = cue::read(text)?;
    if cue.header.envelopes == 0 {
        let after = lines_after(lines, cue.header, lines.rows);
        return Ok(unresolved(after, cue.header));
    }
    Ok(kinds::resolve_rows(lines, &cue))
}
