// Hybrid synthesis of a slot (source document 002, §8.6.4.7): the channels' sides go from the desks into the rows of left and right. Private to the crate.
ghost use Rattle.std.specs.Prelude.{◌≡◌, ℕ, ◌+◌, ◌-◌, ◌*◌, ◌/◌, ◌%◌, ◌<◌, ◌≤◌, length};
ghost use Rattle.complex.specs.Operations.{sum};
ghost use Rattle.layout.specs.Numbers.{split_of};
ghost use Rattle.planar.specs.Cells.{cell};
ghost use Rattle.ps_allpass_groups.specs.Desk.{left_on, right_on};
ghost use Rattle.standard.specs.Hybrid.{added_to, synthesised};
ghost use Rattle.ps_allpass_channels.specs.Desks.{desk_of, standing, Rowed, Left};

use super::desks::DESKS;
use complex::Complex;
use layout::Layout;

// A complex number of a lane, its parts four places apart.
fn lane(desks: &[f64; DESKS], at: usize) -> Complex
    requires { at < 1764 }
    ensures { result ≡ cell 4 desks.now at }
{
    Complex {
        re: desks[at],
        im: desks[at + 4],
    }
}

// A side of channel k: left stands from place 120 of a desk on, right from 128.
fn side(desks: &[f64; DESKS], place: usize, k: usize) -> Complex
    requires { (k < 52) × (place ≤ 128) }
    ensures { result ≡ standing desks.now place k }
{
    lane(desks, 136 * (k / 4) + k % 4 + place)
}

// The four channels of one desk, which stand from `at` on, added in rising order.
fn add_four(start: Complex, desks: &[f64; DESKS], at: usize) -> Complex
    requires { at ≤ 1760 }
    ensures { result ≡ sum (sum (sum (sum start (cell 4 desks.now at)) (cell 4 desks.now (at + 1)))
        (cell 4 desks.now (at + 2))) (cell 4 desks.now (at + 3)) }
{
    let a = lane(desks, at);
    let b = lane(desks, at + 1);
    let c = lane(desks, at + 2);
    let d = lane(desks, at + 3);
    start + a + b + c + d
}

// Kept: by desks here, by channels below: one loop over channels for both was tried, and proved, but a frame took 1 to 3 in 100 longer.
// The channels of the desks from `first` to before `last`, added to a sum of those below, whichever of them it begins at.
fn add_desks(
    start: Complex,
    desks: &[f64; DESKS],
    place: usize,
    first: usize,
    last: usize,
) -> Complex
    requires { (first ≤ last) × ((last ≤ 13) × (place ≤ 128)) }
    ensures { (least : ℕ) → least ≤ 4 * first → start ≡ added_to (standing desks.now place) least (4 * first - least)
        → result ≡ added_to (standing desks.now place) least (4 * last - least) }
{
    let mut sum = start;
    for j in first..last {
        sum = add_four(sum, desks, 136 * j + place);
    }
    sum
}

// The channels from `from` to before `end`, one after the other, added to a sum of those below, whichever of them it begins at.
fn add_channels(
    start: Complex,
    desks: &[f64; DESKS],
    place: usize,
    from: usize,
    end: usize,
) -> Complex
    requires { (from ≤ end) × ((end ≤ 52) × (place ≤ 128)) }
    ensures { (least : ℕ) → least ≤ from → start ≡ added_to (standing desks.now place) least (from - least)
        → result ≡ added_to (standing desks.now place) least (end - least) }
{
    let mut sum = start;
    for k in from..end {
        sum = sum + side(desks, place, k);
    }
    sum
}

// The channels from `from` to before `end`, added in rising order from 0: by whole desks where the first of them begins a desk.
fn added(desks: &[f64; DESKS], place: usize, from: usize, end: usize) -> Complex
    requires { (from ≤ end) × ((end ≤ 52) × (place ≤ 128)) }
    ensures { result ≡ added_to (standing desks.now place) from (end - from) }
{
    let mut sum = Complex { re: 0.0, im: 0.0 };
    if from % 4 == 0 {
        sum = add_desks(sum, desks, place, from / 4, end / 4);
        return add_channels(sum, desks, place, 4 * (end / 4), end);
    }
    add_channels(sum, desks, place, from, end)
}

// One side's split bands.
fn add_split(layout: Layout, desks: &[f64; DESKS], place: usize, row: &mut [f64; 128])
    requires { place ≤ 128 }
    ensures { Rowed (synthesised layout (standing desks.now place)) 0 (split_of layout) row.old row.new }
{
    for p in 0..layout.split() {
        let sum = added(
            desks,
            place,
            layout.first_channel(p),
            layout.first_channel(p + 1),
        );
        row[2 * p] = sum.re;
        row[2 * p + 1] = sum.im;
    }
}

// QMF band q of a row.
fn lay(row: &mut [f64; 128], q: usize, y: Complex)
    requires { q < 64 }
    ensures { Rowed (λ _. y) q (q + 1) row.old row.new }
{
    row[2 * q] = y.re;
    row[2 * q + 1] = y.im;
}

// The four channels of one desk, which stand from `at` on, as the four QMF bands from q on. All are read before the first is written.
fn pass_four(desks: &[f64; DESKS], at: usize, row: &mut [f64; 128], q: usize)
    requires at_bound { at ≤ 1760 }
    requires q_bound { q ≤ 60 }
    ensures { Rowed (λ p. cell 4 desks.now (at + (p - q))) q (q + 4) row.old row.new }
{
    let a = lane(desks, at);
    let b = lane(desks, at + 1);
    let c = lane(desks, at + 2);
    let d = lane(desks, at + 3);
    lay(row, q, a);
    lay(row, q + 1, b);
    lay(row, q + 2, c);
    lay(row, q + 3, d);
}

// Kept: below 5, by desks, and behind them: one loop over all of them was tried and proved together with the one above, and was as slow.
// The unsplit bands below 5: each is the channel `unsplit - split` above it.
fn pass_low(desks: &[f64; DESKS], place: usize, split: usize, unsplit: usize, row: &mut [f64; 128])
    requires split_bound { (split ≤ 5) × ((split ≤ unsplit) × (unsplit ≤ split + 27)) }
    requires place_bound { place ≤ 128 }
    ensures { Rowed (λ q. standing desks.now place (q + unsplit - split)) split 5 row.old row.new }
{
    for q in split..5 {
        let y = side(desks, place, q + unsplit - split);
        lay(row, q, y);
    }
}

// Bands 5 to 20: the channels of four desks, one after the other.
fn pass_desks(desks: &[f64; DESKS], first: usize, row: &mut [f64; 128])
    requires { first ≤ 1352 }
    ensures { Rowed (λ q. cell 4 desks.now (first + 136 * ((q - 5) / 4) + (q - 5) % 4)) 5 21 row.old row.new }
{
    for j in 0..4 {
        pass_four(desks, first + 136 * j, row, 4 * j + 5);
    }
}

// Its other bands, up to the last of an all-pass channel. In both layouts band 5 is the first channel of a desk.
fn pass_unsplit(
    desks: &[f64; DESKS],
    place: usize,
    split: usize,
    unsplit: usize,
    row: &mut [f64; 128],
)
    requires split_bound { (split ≤ 5) × ((split ≤ unsplit) × ((unsplit ≤ split + 27) × ((5 + unsplit - split) % 4 ≡ 0))) }
    requires place_bound { place ≤ 128 }
    ensures { Rowed (λ q. standing desks.now place (q + unsplit - split)) split 23 row.old row.new }
{
    pass_low(desks, place, split, unsplit, row);
    pass_desks(desks, 136 * ((5 + unsplit - split) / 4) + place, row);
    let next = side(desks, place, 21 + unsplit - split);
    lay(row, 21, next);
    let last = side(desks, place, 22 + unsplit - split);
    lay(row, 22, last);
}

// One side of a slot, whose row has 128 numbers.
fn leave_side(layout: Layout, desks: &[f64; DESKS], place: usize, row: &mut [f64])
    requires { (place ≤ 128) × (length row.old ≡ 128) }
    ensures { Rowed (synthesised layout (standing desks.now place)) 0 23 row.old row.new }
{
    if let Some(bands) = row.as_mut_array::<128>() {
        add_split(layout, desks, place, bands);
        pass_unsplit(desks, place, layout.split(), layout.unsplit_from(), bands);
    }
}

// Slot n of both sides.
pub fn leave(layout: Layout, desks: &[f64; DESKS], n: usize, left: &mut [f64], right: &mut [f64])
    requires n_bound { n < 32 }
    requires n_in_bounds { (128 * n + 128 ≤ length left.old) × (128 * n + 128 ≤ length right.old) }
    ensures left { Left layout (desk_of left_on desks.now) n left.old left.new }
    ensures right { Left layout (desk_of right_on desks.now) n right.old right.new }
{
    let at = 128 * n;
    leave_side(layout, desks, 120, &mut left[at..at + 128]);
    leave_side(layout, desks, 128, &mut right[at..at + 128]);
}
