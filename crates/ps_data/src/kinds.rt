// A frame with envelopes: the rows of each kind, from its place in the line.
ghost use Rattle.std.specs.Prelude.{◌≡◌, ◌≤◌, length};
ghost use Rattle.limits.specs.Limits as limits;
ghost use Rattle.ps_data.specs.Indices.{forgotten, kind_of, quantiser_of, positions_of, resolved};

use super::{PsIndexState, PsIndices, PsLines, Resolved};
use cue::{Block, Config, Cue, Header};
use ps_rows::{Kind, ResolvedKind, Row};

fn forgotten() -> ResolvedKind
    ensures { result ≡ forgotten }
{
    ResolvedKind {
        rows: ps_rows::no_rows(),
        kept: ps_rows::no_row(),
    }
}

// The rows of a kind, or none where it is absent.
#[tactic(auto, using(crate::proofs::Lent::lent_from))]
fn kind_rows(kind: Kind, kept: Row, envelopes: u8, block: Block, bytes: &[u8]) -> ResolvedKind
    ensures { result ≡ kind_of kind kept envelopes block bytes.now }
{
    if !block.present {
        return forgotten();
    }
    let from = block.place.min(bytes.len());
    ps_rows::resolve_kind(
        kind,
        kept,
        usize::from(envelopes),
        block.count,
        &bytes[from..],
    )
}

fn quantiser(config: Config) -> Kind
    ensures { result ≡ quantiser_of config }
{
    if config.fine() {
        Kind::Fine
    } else {
        Kind::Coarse
    }
}

// The border bytes in a frame's places.
fn positions(h: Header, bytes: &[u8]) -> [u8; limits::ENVELOPES]
    requires { limits.bytes ≤ length bytes.now }
    ensures { result ≡ positions_of h bytes.now }
{
    let mut out = [0; limits::ENVELOPES];
    if h.variable {
        // Bytes 0 to 3 are the header.
        let count = usize::from(h.envelopes).min(limits::ENVELOPES);
        out[..count].copy_from_slice(&bytes[4..4 + count]);
    }
    out
}

#[tactic(auto, unfolding(crate::specs::Indices::resolved))]
pub fn resolve_rows(lines: PsLines, cue: &Cue) -> Resolved
    ensures { result ≡ resolved lines cue.now.header cue.now.places cue.now.bytes }
{
    let h = cue.header;
    let at = cue.places;
    let bytes = &cue.bytes;
    let kept = lines.rows;
    let iid = kind_rows(quantiser(h.config), kept.iid, h.envelopes, at.iid, bytes);
    let icc = kind_rows(Kind::Coherence, kept.icc, h.envelopes, at.icc, bytes);
    let ipd = kind_rows(Kind::Phase, kept.ipd, h.envelopes, at.ipd, bytes);
    let opd = kind_rows(Kind::Phase, kept.opd, h.envelopes, at.opd, bytes);
    let after = PsIndexState {
        iid: iid.kept,
        icc: icc.kept,
        ipd: ipd.kept,
        opd: opd.kept,
    };
    Resolved {
        header: h,
        lines: super::lines_after(lines, h, after),
        indices: PsIndices {
            iid: iid.rows,
            icc: icc.rows,
            ipd: ipd.rows,
            opd: opd.rows,
        },
        positions: positions(h, bytes),
    }
}
