// A band's mixing coefficients in each slot of a frame (source document 000, §8.6.4.6.4): interpolated between borders, then held.
#![tactic(auto)]

ghost use Rattle.std.specs.Prelude.{cond, ◌≡◌, ◌+◌, ◌-◌, ◌*◌, ◌/◌, ◌%◌, ◌≤◌, ◌<◌, min, max, leb, ltb, length, get_or};
ghost use Rattle.std.specs.Float.{nan};
ghost use Rattle.limits.specs.Limits as limits;
ghost use Rattle.lists.specs.Part.{part};
ghost use Rattle.lists.specs.Rows.{tabulate};
ghost use Rattle.planar.specs.Cells.{overwritten};
ghost use Rattle.planar.specs.Frame.{matrix_at, matrix_runs, kept_matrix};
ghost use Rattle.standard.specs.Interpolation.{start, fraction, between, filled_by};
ghost use Rattle.ps_stereo_slots.specs.Envelopes.{in_region, region_below, region_of};
ghost use Rattle.ps_stereo_slots.specs.Slots.{fractions_after, fraction_at, runs_after};
ghost use Rattle.ps_stereo_slots.specs.Regions.{step_of, stepped, stored_matrix, Written, row_matrix};

use complex::Complex;
use standard::Matrix;

// When a frame is: the borders of its envelopes, how many envelopes there are, its slots, and how many slots came before it.
#[derive(Clone, Copy)]
pub struct Timing {
    pub borders: [u8; limits::ENVELOPES],
    pub count: usize,
    pub slots: usize,
    pub turn: usize,
}

// ---- how far a slot lies on its way

// The slot after a border.
fn after(border: u8) -> u16
    ensures { (result ≡ border + 1) × (result ≤ 256) }
{
    u16::from(border) + 1
}

// The first slot after the border before envelope e.
fn first_slot(borders: [u8; limits::ENVELOPES], e: usize) -> u16
    requires { e < limits.envelopes }
    ensures { (result ≡ start borders e) × (result ≤ 256) }
{
    if e == 0 {
        return 0;
    }
    after(borders[e - 1])
}

fn fraction_of(borders: [u8; limits::ENVELOPES], e: usize, n: usize) -> f64
    requires { (e < limits.envelopes) × (n < 32) }
    ensures { result ≡ fraction borders e n }
{
    let first = first_slot(borders, e);
    let passed = (n as u16 + 1).saturating_sub(first);
    let size = after(borders[e]).saturating_sub(first).max(1);
    f64::from(passed) / f64::from(size)
}

// How far each slot lies on its way from border to border, the same for every band: made once a frame.
pub fn fractions(borders: [u8; limits::ENVELOPES], count: usize, out: &mut [f64; limits::FRACTIONS])
    ensures { out.new ≡ fractions_after borders count out.old }
{
    let envelopes = count.min(limits::ENVELOPES);
    for i in 0..32 * envelopes {
        out[i] = fraction_of(borders, i / 32, i % 32);
    }
}

// The last envelope that a frame can have.
const LAST: usize = limits::ENVELOPES - 1;

// How far slot n, which is one of 32, lies on its way in the region of envelope e.
pub fn share_in(timing: Timing, e: usize, n: usize) -> f64
    ensures { result ≡ fraction timing.borders (min e (limits.envelopes - 1)) (min n 31) }
{
    fraction_of(timing.borders, e.min(LAST), n.min(31))
}

// ---- where a slot lies

// Whether slot n lies in the region of envelope e.
fn lies_in(borders: [u8; limits::ENVELOPES], e: usize, n: usize) -> bool
    requires { (e < limits.envelopes) × (n < 32) }
    ensures { result ≡ in_region borders e n }
{
    usize::from(first_slot(borders, e)) <= n && n <= usize::from(borders[e])
}

// The last of the first envelopes whose region has slot n.
fn region_below(borders: [u8; limits::ENVELOPES], count: usize, n: usize) -> usize
    requires { (count ≤ limits.envelopes) × (n < 32) }
    ensures { result ≡ region_below borders n count }
{
    for e in (0..count).rev() {
        if lies_in(borders, e, n) {
            return e;
        }
    }
    0
}

// The same, or how many envelopes there are where their borders have passed.
fn region_at(borders: [u8; limits::ENVELOPES], count: usize, n: usize) -> usize
    requires { (count ≤ limits.envelopes) × (n < 32) }
    ensures { result ≡ region_of borders count n }
{
    if 0 < count && n <= usize::from(borders[count - 1]) {
        return region_below(borders, count, n);
    }
    count
}

// The region of slot n, which is one of 32: the last envelope whose region has it, or how many envelopes there are behind their borders.
pub fn region_in(timing: Timing, n: usize) -> usize
    ensures { result ≡ region_of timing.borders (min timing.count limits.envelopes) (min n 31) }
{
    region_at(
        timing.borders,
        timing.count.min(limits::ENVELOPES),
        n.min(31),
    )
}

// ---- coefficients

// Coefficients that are kept as eight numbers.
fn matrix(numbers: &[f64]) -> Matrix
    requires { length numbers.now ≡ 8 }
    ensures { result ≡ kept_matrix numbers.now }
{
    Matrix {
        h11: Complex {
            re: numbers[0],
            im: numbers[1],
        },
        h12: Complex {
            re: numbers[2],
            im: numbers[3],
        },
        h21: Complex {
            re: numbers[4],
            im: numbers[5],
        },
        h22: Complex {
            re: numbers[6],
            im: numbers[7],
        },
    }
}

fn matrix_at(rows: &[f64], at: usize) -> Matrix
    requires { at + 8 ≤ length rows.now }
    ensures { result ≡ kept_matrix (part at 8 rows.now) }
{
    matrix(&rows[at..at + 8])
}

// to - from, taken once for all slots of a region.
fn step(from: Matrix, to: Matrix) -> Matrix
    ensures { result ≡ step_of from to }
{
    Matrix {
        h11: to.h11 - from.h11,
        h12: to.h12 - from.h12,
        h21: to.h21 - from.h21,
        h22: to.h22 - from.h22,
    }
}

// from + step t.
fn stepped(from: Matrix, step: Matrix, t: f64) -> Matrix
    ensures { result ≡ stepped from step t }
{
    Matrix {
        h11: from.h11 + step.h11.scale(t),
        h12: from.h12 + step.h12.scale(t),
        h21: from.h21 + step.h21.scale(t),
        h22: from.h22 + step.h22.scale(t),
    }
}

// A band's coefficients in 32 slots: four runs, each of real and then imaginary parts.
pub const RUNS: usize = 256;

// A slot's coefficients to their places in the runs.
fn put(out: &mut [f64; RUNS], n: usize, h: Matrix)
    requires { n < 32 }
    ensures { out.new ≡ stored_matrix out.old n h }
{
    out[n] = h.h11.re;
    out[n + 32] = h.h11.im;
    out[64 + n] = h.h12.re;
    out[64 + n + 32] = h.h12.im;
    out[128 + n] = h.h21.re;
    out[128 + n + 32] = h.h21.im;
    out[192 + n] = h.h22.re;
    out[192 + n + 32] = h.h22.im;
}

// ---- slots

// The slots from `first` to before `end`, on the way from one border's coefficients to the next one's.
fn region(
    from: Matrix,
    to: Matrix,
    fractions: &[f64],
    first: usize,
    end: usize,
    out: &mut [f64; RUNS],
)
    requires { (length fractions.now ≡ 32) × (end ≤ 32) }
    ensures { Written first end (λ n. between from to (get_or fractions.now n nan)) out.old out.new }
{
    let way = step(from, to);
    for n in first..end {
        put(out, n, stepped(from, way, fractions[n]));
    }
}

// The same coefficients in each slot: never from + (from - from) t, which may round.
fn hold(h: Matrix, first: usize, end: usize, out: &mut [f64; RUNS])
    requires { end ≤ 32 }
    ensures { Written first end (λ n. h) out.old out.new }
{
    for n in first..end {
        put(out, n, h);
    }
}

// The ways of a frame: the borders of its envelopes, how many there are, and how far each slot lies on its way from one to the next.
#[derive(Clone, Copy)]
struct Ways<'a> {
    borders: [u8; limits::ENVELOPES],
    count: usize,
    fractions: &'a [f64; limits::FRACTIONS],
}

// A band whose course stands at `at`: each envelope's region, then the slots after the last border.
fn envelopes(rows: &[f64], at: usize, ways: Ways, slots: usize, out: &mut [f64; RUNS])
    requires course_in_bounds { at + limits.course ≤ length rows.now }
    requires count_le_envelopes { (ways.count ≤ limits.envelopes) × (slots ≤ 32) }
    ensures { out.new ≡ matrix_runs (overwritten slots (λ n. cond (leb (start ways.entry.borders ways.entry.count) n) (row_matrix rows.now at ways.entry.count)
        (filled_by ways.entry.borders (fraction_at ways.entry.fractions.now) (row_matrix rows.now at) n ways.entry.count)) (matrix_at out.old)) }
{
    let Ways {
        borders,
        count,
        fractions,
    } = ways;
    let mut from = matrix_at(rows, at);
    let mut first = 0;
    for e in 0..count {
        let next = usize::from(after(borders[e]));
        let to = matrix_at(rows, at + 8 * (e + 1));
        let way = &fractions[32 * e..32 * e + 32];
        region(from, to, way, first, next.min(slots), out);
        from = to;
        first = next;
    }
    hold(from, first, slots, out);
}

// A band of 34 over at most 32 slots, envelopes cut to the limit. Nothing changes where the rows have no course of the band.
pub fn interpolate(
    rows: &[f64],
    fractions: &[f64; limits::FRACTIONS],
    borders: [u8; limits::ENVELOPES],
    count: usize,
    band: usize,
    slots: usize,
    out: &mut [f64; RUNS],
)
    ensures { out.new ≡ runs_after rows.now fractions.now borders count band (min slots 32) out.old }
{
    if 34 <= band || rows.len() < limits::COURSE * band + limits::COURSE {
        return;
    }
    let ways = Ways {
        borders,
        count: count.min(limits::ENVELOPES),
        fractions,
    };
    envelopes(rows, limits::COURSE * band, ways, slots.min(32), out);
}
