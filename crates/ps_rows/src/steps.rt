// One index from the one before it.
ghost use Rattle.std.specs.Prelude.{◌≡◌};
ghost use Rattle.integers.specs.Integers.{byte_z};
ghost use Rattle.ps_rows.specs.Steps.{within, step};

use super::Kind;

#[tactic(auto, using(crate::proofs::Inside::clamp_is, crate::proofs::Inside::wrap_is))]
fn limited(kind: Kind, z: i32) -> i8
    ensures { result ≡ within kind z }
{
    let inside = match kind {
        Kind::Coarse => z.clamp(-7, 7),
        Kind::Fine => z.clamp(-15, 15),
        Kind::Coherence => z.clamp(0, 7),
        Kind::Phase => z.rem_euclid(8),
    };
    inside as i8
}

// A delta is a signed byte.
#[tactic(auto, using(integers::proofs::Ranges::byte_is))]
fn signed(delta: u8) -> i32
    ensures { result ≡ byte_z delta }
{
    i32::from(delta.cast_signed())
}

pub fn accumulate(kind: Kind, previous: i8, delta: u8) -> i8
    ensures { result ≡ step kind previous delta }
{
    limited(kind, i32::from(previous) + signed(delta))
}
