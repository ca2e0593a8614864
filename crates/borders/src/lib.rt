// Slots of a frame, and the borders of its envelopes (source document 000).
#![tactic(auto)]

ghost use Rattle.std.specs.Prelude.{◌≡◌, ◌<◌, ◌≤◌, ◌-◌, min};
ghost use Rattle.limits.specs.Limits as limits;
ghost use Rattle.lists.specs.Padded.{padded};
ghost use Rattle.borders.specs.Borders.{slots_of, fixed_border, border_of, borders_of};

// The slots of a frame, for an asked number.
pub fn slots(asked: usize) -> usize
    ensures { result ≡ slots_of asked }
{
    asked.clamp(6, 32)
}

fn fixed(slots: usize, envelopes: usize, e: usize) -> u8
    requires { (6 ≤ slots) × (slots ≤ 32) × (envelopes ≤ limits.envelopes) × (e < envelopes) }
    ensures { result ≡ fixed_border slots envelopes e }
{
    (slots * (e + 1) / envelopes - 1) as u8
}

fn border(
    slots: usize,
    variable: bool,
    envelopes: usize,
    positions: [u8; limits::ENVELOPES],
    e: usize,
) -> u8
    requires { (6 ≤ slots) × (slots ≤ 32) × (envelopes ≤ limits.envelopes) × (e < envelopes) }
    ensures { result ≡ border_of slots variable envelopes positions e }
{
    if variable {
        positions[e].min((slots - 1) as u8)
    } else {
        fixed(slots, envelopes, e)
    }
}

// The borders of a frame's envelopes, zeros after them; `positions` are the line's own, where borders are variable.
pub fn borders(
    asked: usize,
    variable: bool,
    envelopes: usize,
    positions: [u8; limits::ENVELOPES],
) -> [u8; limits::ENVELOPES]
    ensures { result ≡ padded limits.envelopes 0 (borders_of (slots_of asked) variable (min envelopes limits.envelopes) positions) }
{
    let within = slots(asked);
    let count = envelopes.min(limits::ENVELOPES);
    let mut out = [0; limits::ENVELOPES];
    for e in 0..count {
        out[e] = border(within, variable, count, positions, e);
    }
    out
}
