// What a slot's groups take is laid on their desks (ps_allpass_groups has the places): for channel k in lane k mod 4 of desk k / 4. Private to the crate.
ghost use Rattle.std.specs.Prelude.{cond, ◌≡◌, ℕ, ◌+◌, ◌-◌, ◌*◌, ◌<◌, ◌≤◌, ltb, length, get_or};
ghost use Rattle.std.specs.Float.{nan, binary64};
ghost use Rattle.std.specs.Float.Ieee.{sub};
ghost use Rattle.layout.specs.Numbers.{bands_of, unsplit_from_of};
ghost use Rattle.limits.specs.Limits as limits;
ghost use Rattle.ps_map.specs.Bands.{parameter_map, band_of};
ghost use Rattle.planar.specs.Cells.{cell};
ghost use Rattle.planar.specs.Frame.{sample_at, qmf_at, qmf_band_of, sample_in};
ghost use Rattle.ps_allpass_groups.specs.Desk.{chain_on, from_on, step_on, sample_on, duck_on};
ghost use Rattle.standard.specs.Channel.{chain_from};
ghost use Rattle.ps_allpass_channels.specs.Desks.{desk_of, lanes_of, Lies, Wayed};
ghost use Rattle.ps_allpass_channels.specs.DeskNumbers.{sample_number, Put};

use layout::Layout;
use standard::Chain;

// 13 desks of 136 numbers.
pub const DESKS: usize = 13 * 136;

// What a frame's channels read: the layout and its map of channels to bands, the samples of the split bands, the ducking factors, the coefficients at the
// borders, and the input.
#[derive(Clone, Copy)]
pub struct Lent<'a> {
    pub layout: Layout,
    pub map: &'a [u8; 91],
    pub samples: &'a [f64],
    pub gains: &'a [f64],
    pub rows: &'a [f64],
    pub input: &'a [f64],
}

// The constants of channel k's chain. Those of the channels before it stay.
fn lay_chain(chain: Chain, k: usize, desks: &mut [f64; DESKS])
    requires { k < 52 }
    ensures own { desk_of chain_on desks.new k ≡ chain }
    ensures before { (i : ℕ) → i < k → desk_of chain_on desks.new i ≡ desk_of chain_on desks.old i }
{
    let at = 136 * (k / 4) + k % 4;
    desks[at] = chain.fractional.re;
    desks[at + 4] = chain.fractional.im;
    desks[at + 8] = chain.first.rotation.re;
    desks[at + 12] = chain.first.rotation.im;
    desks[at + 16] = chain.first.feedback;
    desks[at + 20] = chain.second.rotation.re;
    desks[at + 24] = chain.second.rotation.im;
    desks[at + 28] = chain.second.feedback;
    desks[at + 32] = chain.third.rotation.re;
    desks[at + 36] = chain.third.rotation.im;
    desks[at + 40] = chain.third.feedback;
}

// The constants of every chain, from a lent table of rotations: once a frame.
pub fn lay(layout: Layout, table: &[i64], desks: &mut [f64; DESKS])
    ensures { Lies layout chain_on desks.new (chain_from table.now layout) }
{
    let channels = 4 * layout.groups();
    for k in 0..channels {
        lay_chain(ps_decorr_allpass::chain(layout, k, table), k, desks);
    }
}

// Channel k's eight coefficients from one border, and what they are to gain until another.
fn lay_way(rows: &[f64], from: usize, to: usize, k: usize, desks: &mut [f64; DESKS])
    requires { (from + 8 ≤ length rows.now) × (to + 8 ≤ length rows.now) × (k < 52) }
    ensures { Put k (k + 1) 11 (λ j. j < 27) (λ _ j. cond (ltb j 19) (get_or rows.now (from + (j - 11)) nan)
        (sub binary64 (get_or rows.now (to + (j - 19)) nan) (get_or rows.now (from + (j - 19)) nan)))
        desks.old desks.new }
{
    let at = 136 * (k / 4) + k % 4 + 44;
    for c in 0..8 {
        let number = rows[from + c];
        desks[at + 4 * c] = number;
        desks[at + 4 * c + 32] = rows[to + c] - number;
    }
}

// The coefficients of every channel from border e to another.
pub fn ways(
    layout: Layout,
    map: &[u8; 91],
    rows: &[f64],
    e: usize,
    next: usize,
    desks: &mut [f64; DESKS],
)
    requires map_value { (map.now ≡ parameter_map layout) × (limits.course * bands_of layout ≤ length rows.now) }
    requires e_lt_borders { (e < limits.borders) × (next < limits.borders) }
    ensures way { Wayed layout rows.now e next desks.new }
    ensures chains { Lies layout chain_on desks.new (desk_of chain_on desks.old) }
{
    let channels = 4 * layout.groups();
    for k in 0..channels {
        let at = limits::COURSE * usize::from(map[k]);
        lay_way(rows, at + 8 * e, at + 8 * next, k, desks);
    }
}

// Four complex numbers of a list into the lanes of desk g: each STEP places behind the one before it, its im APART places behind its re.
fn enter_four<const STEP: usize, const APART: usize>(
    xs: &[f64],
    from: usize,
    g: usize,
    desks: &mut [f64; DESKS],
)
    requires { (from + 3 * STEP + APART < length xs.now) × (g < 13) }
    ensures { Put (4 * g) (4 * g + 4) 27 (λ j. j < 29) (λ k. sample_number (cell APART xs.now (from + STEP * (k - 4 * g))))
        desks.old desks.new }
{
    let at = 136 * g + 108;
    let re0 = xs[from];
    let im0 = xs[from + APART];
    let re1 = xs[from + STEP];
    let im1 = xs[from + STEP + APART];
    let re2 = xs[from + 2 * STEP];
    let im2 = xs[from + 2 * STEP + APART];
    let re3 = xs[from + 3 * STEP];
    let im3 = xs[from + 3 * STEP + APART];
    desks[at] = re0;
    desks[at + 1] = re1;
    desks[at + 2] = re2;
    desks[at + 3] = re3;
    desks[at + 4] = im0;
    desks[at + 5] = im1;
    desks[at + 6] = im2;
    desks[at + 7] = im3;
}

// Slot n of the split bands' channels that fill whole desks, from their runs.
fn split_desks(whole: usize, samples: &[f64], n: usize, desks: &mut [f64; DESKS])
    requires { (whole ≤ 8) × (n < 32) × (256 * whole ≤ length samples.now) }
    ensures { Put 0 (4 * whole) 27 (λ j. j < 29) (λ k. sample_number (sample_at samples.now n k)) desks.old desks.new }
{
    for g in 0..whole {
        enter_four::<64, 32>(samples, 256 * g + n, g, desks);
    }
}

// Of those that are left.
fn split_rest(first: usize, unsplit: usize, samples: &[f64], n: usize, desks: &mut [f64; DESKS])
    requires { (first ≤ unsplit) × (unsplit ≤ 32) × (n < 32) × (64 * unsplit ≤ length samples.now) }
    ensures { Put first unsplit 27 (λ j. j < 29) (λ k. sample_number (sample_at samples.now n k)) desks.old desks.new }
{
    for k in first..unsplit {
        let at = 136 * (k / 4) + k % 4 + 108;
        desks[at] = samples[64 * k + n];
        desks[at + 4] = samples[64 * k + n + 32];
    }
}

// Of all the split bands' channels.
fn enter_split(unsplit: usize, samples: &[f64], n: usize, desks: &mut [f64; DESKS])
    requires { (unsplit ≤ 32) × (n < 32) × (64 * unsplit ≤ length samples.now) }
    ensures { Put 0 unsplit 27 (λ j. j < 29) (λ k. sample_number (sample_at samples.now n k)) desks.old desks.new }
{
    let whole = unsplit / 4;
    split_desks(whole, samples, n, desks);
    split_rest(4 * whole, unsplit, samples, n, desks);
}

// And of QMF bands that are not split, up to the first one whose channel begins a desk.
fn enter_low(
    split: usize,
    unsplit: usize,
    end: usize,
    input: &[f64],
    n: usize,
    desks: &mut [f64; DESKS],
)
    requires { (split ≤ unsplit) × (unsplit ≤ end) × (end ≤ 52) × (n < 32) × (128 * n + 128 ≤ length input.now) }
    ensures { Put unsplit end 27 (λ j. j < 29) (λ k. sample_number (qmf_at input.now n (k + split - unsplit)))
        desks.old desks.new }
{
    for k in unsplit..end {
        let at = 136 * (k / 4) + k % 4 + 108;
        let from = 128 * n + 2 * (k + split - unsplit);
        desks[at] = input[from];
        desks[at + 4] = input[from + 1];
    }
}

// QMF bands 5 to 24 are the lanes of five desks.
fn enter_high(first: usize, input: &[f64], n: usize, desks: &mut [f64; DESKS])
    requires { (first ≤ 8) × (n < 32) × (128 * n + 128 ≤ length input.now) }
    ensures { Put (4 * first) (4 * first + 20) 27 (λ j. j < 29) (λ k. sample_number (qmf_at input.now n (k + 5 - 4 * first)))
        desks.old desks.new }
{
    for i in 0..5 {
        enter_four::<2, 1>(input, 128 * n + 8 * i + 10, first + i, desks);
    }
}

// And of all that are not split: the last five desks have bands 5 to 24.
fn enter_row(layout: Layout, input: &[f64], n: usize, desks: &mut [f64; DESKS])
    requires { (n < 32) × (128 * n + 128 ≤ length input.now) }
    ensures { Put (unsplit_from_of layout) (lanes_of layout) 27 (λ j. j < 29) (λ k. sample_number (qmf_at input.now n (qmf_band_of layout k)))
        desks.old desks.new }
{
    let first = layout.groups() - 5;
    enter_low(
        layout.split(),
        layout.unsplit_from(),
        4 * first,
        input,
        n,
        desks,
    );
    enter_high(first, input, n, desks);
}

// The ducking factor of channel k's band in slot n.
fn duck(map: &[u8; 91], gains: &[f64], k: usize, n: usize) -> f64
    requires { (k < 91) × (n < 32) × (32 * get_or map.now k 0 + 32 ≤ length gains.now) }
    ensures { result ≡ get_or gains.now (32 * get_or map.now k 0 + n) nan }
{
    gains[32 * usize::from(map[k]) + n]
}

// Those of four channels into the lanes of desk g.
fn duck_four(map: &[u8; 91], gains: &[f64], n: usize, g: usize, desks: &mut [f64; DESKS])
    requires { ((k : ℕ) → 32 * get_or map.now k 0 + 32 ≤ length gains.now) × (n < 32) × (g < 13) }
    ensures { Put (4 * g) (4 * g + 4) 29 (λ j. j < 30) (λ k _. get_or gains.now (32 * get_or map.now k 0 + n) nan)
        desks.old desks.new }
{
    let at = 136 * g + 116;
    let k = 4 * g;
    let a = duck(map, gains, k, n);
    let b = duck(map, gains, k + 1, n);
    let c = duck(map, gains, k + 2, n);
    let d = duck(map, gains, k + 3, n);
    desks[at] = a;
    desks[at + 1] = b;
    desks[at + 2] = c;
    desks[at + 3] = d;
}

// The ducking factors of slot n.
fn enter_ducks(layout: Layout, map: &[u8; 91], gains: &[f64], n: usize, desks: &mut [f64; DESKS])
    requires { (map.now ≡ parameter_map layout) × (n < 32) × (32 * bands_of layout ≤ length gains.now) }
    ensures { Put 0 (lanes_of layout) 29 (λ j. j < 30) (λ k _. get_or gains.now (32 * band_of layout k + n) nan)
        desks.old desks.new }
{
    for g in 0..layout.groups() {
        duck_four(map, gains, n, g, desks);
    }
}

// What every channel takes in slot n.
pub fn enter(lent: Lent, n: usize, desks: &mut [f64; DESKS])
    requires map_value { (lent.map.now ≡ parameter_map lent.layout) × ((n < 32) × (128 * n + 128 ≤ length lent.input.now)) }
    requires layout_in_bounds { (64 * unsplit_from_of lent.layout ≤ length lent.samples.now) × (32 * bands_of lent.layout ≤ length lent.gains.now) }
    ensures samples { Lies lent.entry.layout sample_on desks.new (sample_in lent.entry.layout lent.entry.samples.now lent.entry.input.now n) }
    ensures ducks { Lies lent.entry.layout duck_on desks.new (λ k. get_or lent.entry.gains.now (32 * band_of lent.entry.layout k + n) nan) }
    ensures chains { Lies lent.entry.layout chain_on desks.new (desk_of chain_on desks.old) }
    ensures from { Lies lent.entry.layout from_on desks.new (desk_of from_on desks.old) }
    ensures step { Lies lent.entry.layout step_on desks.new (desk_of step_on desks.old) }
{
    enter_split(lent.layout.unsplit_from(), lent.samples, n, desks);
    enter_row(lent.layout, lent.input, n, desks);
    enter_ducks(lent.layout, lent.map, lent.gains, n, desks);
}
