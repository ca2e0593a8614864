// The mixing of a slot of four channels (source document 000, §8.6.4.6). Private to the crate.
ghost use Rattle.std.specs.Prelude.{cond, ◌≡◌, ◌++◌, ◌+◌, ◌≤◌, length};
ghost use Rattle.std.specs.Float.Ieee.{neg};
ghost use Rattle.complex.specs.Operations.{sum, scaled};
ghost use Rattle.lists.specs.Part.{put};
ghost use Rattle.planar.specs.Cells.{cell};
ghost use Rattle.standard.specs.Mixing as mixing;
ghost use Rattle.ps_allpass_groups.specs.Lanes.{lane_of, mark_of, lanes, flat};
ghost use Rattle.ps_allpass_groups.specs.Desk.{matrix_on};

use super::lanes;
use super::lanes::{Four, Pair};

// Which of four channels are marked with *. Few groups have any.
pub type Marks = Option<[bool; 4]>;

fn signed(marked: bool, x: f64) -> f64
    ensures { result ≡ cond marked (neg x) x }
{
    if marked { -x } else { x }
}

// A channel marked with * takes the conjugate of a coefficient.
fn taken(marks: Marks, h: Pair) -> Pair
    ensures { result ≡ lanes (λ i. mixing.taken (mark_of i marks) (lane_of i h)) }
{
    match marks {
        None => h,
        Some(marked) => Pair {
            re: h.re,
            im: Four {
                a: signed(marked[0], h.im.a),
                b: signed(marked[1], h.im.b),
                c: signed(marked[2], h.im.c),
                d: signed(marked[3], h.im.d),
            },
        },
    }
}

// One coefficient of a slot, from + step t. What is held is never from + (from - from) t, which may round.
fn on_way(desk: &[f64], at: usize, t: f64, held: bool) -> Pair
    requires { (length desk.now ≡ 136) × (at + 40 ≤ 136) }
    ensures { result ≡ lanes (λ i. cond held (cell 4 desk.now (at + i))
        (sum (cell 4 desk.now (at + i)) (scaled (cell 4 desk.now (at + 32 + i)) t))) }
{
    let from = Pair::at(desk, at);
    if held {
        return from;
    }
    from + Pair::at(desk, at + 32).scale(Four::all(t))
}

// Both sides of a slot, from the coefficients on the desk to their places there.
pub fn mix(desk: &mut [f64], t: f64, held: bool, marks: Marks, s: Pair, d: Pair)
    requires { length desk.old ≡ 136 }
    ensures { desk.new ≡ put 120 16 desk.old
        (flat (lanes (λ i. mixing.left_of (mark_of i marks) (matrix_on t held i desk.old) (lane_of i s) (lane_of i d)))
        ++ flat (lanes (λ i. mixing.right_of (mark_of i marks) (matrix_on t held i desk.old) (lane_of i s) (lane_of i d)))) }
{
    let h11 = taken(marks, on_way(desk, 44, t, held));
    let h12 = taken(marks, on_way(desk, 52, t, held));
    let h21 = taken(marks, on_way(desk, 60, t, held));
    let h22 = taken(marks, on_way(desk, 68, t, held));
    let left = h11 * s + h21 * d;
    let right = h12 * s + h22 * d;
    lanes::put(&mut desk[120..128], left);
    lanes::put(&mut desk[128..136], right);
}
