// The mapped indices of an envelope (source document 000, §8.6.4.6.1).
#![tactic(auto)]

ghost use Rattle.std.specs.Prelude.{◌≡◌, min};
ghost use Rattle.calls.specs.Cues.{envelope_row, mapped_row, mapped_phases};
ghost use Rattle.ps_stereo_cues.specs.Cues.{cues_at};

use cue::Config;
use layout::Layout;
use ps_data::PsIndices;
use ps_rows::{Row, Rows};
use standard::Cues;

// The row of an envelope; of none past the last.
fn envelope_row(kind: Rows, e: usize) -> Row
    ensures { result ≡ envelope_row kind e }
{
    kind.row.get(e).copied().unwrap_or(ps_rows::no_row())
}

// How many indices a row has.
fn used(row: Row) -> usize
    ensures { result ≡ min row.used 34 }
{
    usize::from(row.used).min(34)
}

#[tactic(auto, unfolding(calls::specs::Cues::mapped_row))]
fn mapped(kind: Rows, layout: Layout, e: usize) -> [i8; 34]
    ensures { result ≡ mapped_row layout kind e }
{
    let row = envelope_row(kind, e);
    ps_map::map_row(&row.at[..used(row)], layout)
}

// A row of phases has 10, 20 or 34 places, by iid_mode.
fn mapped_phases(kind: Rows, config: Config, layout: Layout, e: usize) -> [i8; 34]
    ensures { result ≡ mapped_phases layout config kind e }
{
    let row = envelope_row(kind, e);
    let wanted = config.iid.parameters();
    let extended = ps_map::extended(&row.at[..used(row)], wanted);
    ps_map::map_row(&extended[..wanted], layout)
}

// The mapped indices of every band in envelope e; 0 where a kind is absent.
#[tactic(auto, unfolding(crate::specs::Cues::cues_at))]
pub fn cues(indices: PsIndices, config: Config, layout: Layout, e: usize) -> Cues
    ensures { result ≡ cues_at layout config indices e }
{
    Cues {
        iid: mapped(indices.iid, layout, e),
        icc: mapped(indices.icc, layout, e),
        ipd: mapped_phases(indices.ipd, config, layout, e),
        opd: mapped_phases(indices.opd, config, layout, e),
    }
}
