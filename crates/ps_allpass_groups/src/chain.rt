// The all-pass chains of four channels (source document 001, §8.6.4.5.2), one slot at a time. Private to the crate.
ghost use Rattle.std.specs.Prelude.{◌≡◌, ℕ, ◌+◌, ◌<◌, length};
ghost use Rattle.planar.specs.Cells as cells;
ghost use Rattle.planar.specs.Lanes.{on};
ghost use Rattle.standard.specs.Channel.{Channel, link_state, link_output, channel_after, third_output};
ghost use Rattle.ps_allpass_groups.specs.Lanes.{lane_of, link_of, lanes, flat};
ghost use Rattle.ps_allpass_groups.specs.Desk.{chain_on};
ghost use Rattle.ps_allpass_groups.specs.Rings.{Holds};

use super::lanes;
use super::lanes::{Four, Pair};

// One link, on the cell of its rings that was written longest ago: w[n] = u[n] + a g Q w[n - d] takes its place, and v[n] = Q w[n - d] - a g w[n] comes
// out.
fn link(cell: &mut [f64], u: Pair, rotation: Pair, feedback: Four) -> Pair
    requires { length cell.old ≡ 8 }
    ensures state { cell.new ≡ flat (lanes (λ i. link_state (lane_of i u) (link_of i rotation feedback) (cells.cell 4 cell.old i))) }
    ensures output { result ≡ lanes (λ i. link_output (lane_of i u) (link_of i rotation feedback) (cells.cell 4 cell.old i)) }
{
    let turned = rotation * Pair::at(cell, 0);
    let state = u + turned.scale(feedback);
    lanes::put(cell, state);
    turned - state.scale(feedback)
}

// The chains, on their channels' part of the delays: rings of 2, 3, 4 and 5 cells, each of which is at the number of slots before this one modulo its
// length. The desk has their constants first. Answers what they give. Whatever channels the part held, they are one slot further, x having come in.
pub fn chain(part: &mut [f64], desk: &[f64], turn: usize, x: Pair) -> Pair
    requires { (length part.old ≡ 112) × (length desk.now ≡ 136) }
    ensures { (i : ℕ) → i < 4 → (c : Channel) → Holds turn (on i part.old) c
        → Holds (turn + 1) (on i part.new) (channel_after (chain_on i desk.now) c (lane_of i x))
        × (lane_of i result ≡ third_output (chain_on i desk.now) c) }
{
    let two = 8 * (turn % 2);
    let three = 8 * (2 + turn % 3);
    let four = 8 * (5 + turn % 4);
    let five = 8 * (9 + turn % 5);
    let u = Pair::at(desk, 0) * Pair::at(part, two);
    lanes::put(&mut part[two..two + 8], x);
    let v = link(
        &mut part[three..three + 8],
        u,
        Pair::at(desk, 8),
        Four::at(desk, 16),
    );
    let w = link(
        &mut part[four..four + 8],
        v,
        Pair::at(desk, 20),
        Four::at(desk, 28),
    );
    link(
        &mut part[five..five + 8],
        w,
        Pair::at(desk, 32),
        Four::at(desk, 40),
    )
}
