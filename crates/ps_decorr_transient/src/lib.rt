// The transient detectors of a frame and the ducking factors that they give (source document 001, §8.6.4.5.3). A band's row of gains holds its powers
// until its detector has gone over them.
#![tactic(auto)]

ghost use Rattle.std.specs.Prelude.{ℕ, ◌≡◌, cond, ◌+◌, ◌*◌, ◌<◌, ◌≤◌, min, length};
ghost use Rattle.std.specs.Float.Ieee.{lt};
ghost use Rattle.layout.specs.Numbers.{bands_of, unsplit_from_of};
ghost use Rattle.planar.specs.Cells.{cell};
ghost use Rattle.standard.specs.Numbers.{zero, one, ◌⊘◌};
ghost use Rattle.standard.specs.Detector.{detector_after, ducking};
ghost use Rattle.ps_decorr_transient.specs.Gains.{detector_of, power_at, detectors_after, gains_after};
ghost use Rattle.ps_decorr_transient.specs.Rows.{Rowed, added, detector_in, Detected, Ducked};

use layout::Layout;

fn larger(a: f64, b: f64) -> f64
    ensures { result ≡ cond (lt a b) b a }
{
    // Kept: f64's max answers the other number where one is a NaN; the definition, standard Detector `detector_after`, keeps a.
    if a < b { b } else { a }
}

// The share of a power in a larger number, and 1 for one that is not larger.
fn share(power: f64, whole: f64) -> f64
    ensures { result ≡ cond (lt power whole) (power ⊘ whole) one }
{
    if power < whole { power / whole } else { 1.0 }
}

fn clear(gains: &mut [f64], bands: usize, slots: usize)
    requires { (32 * bands ≤ length gains.old) × (slots ≤ 32) }
    ensures { Rowed 0 bands slots (λ b n. zero) gains.old gains.new }
{
    for b in 0..bands {
        gains[32 * b..32 * b + slots].fill(0.0);
    }
}

// The power of a channel added to its band's. Its slots are STEP numbers apart, their imaginary parts APART behind the real ones.
fn add_channel<const STEP: usize, const APART: usize>(
    gains: &mut [f64],
    b: usize,
    samples: &[f64],
    from: usize,
    slots: usize,
)
    requires { (32 * b + 32 ≤ length gains.old) × (slots ≤ 32) × ((n : ℕ) → n < slots → STEP * n + from + APART < length samples.now) }
    ensures { Rowed b (b + 1) slots (added gains.old (λ n. cell APART samples.now (STEP * n + from))) gains.old gains.new }
{
    let at = 32 * b;
    for n in 0..slots {
        let place = STEP * n + from;
        let re = samples[place];
        let im = samples[place + APART];
        gains[at + n] += re * re + im * im;
    }
}

// The powers of all bands, from 0: channel by channel in rising order, those of the split bands and then those that are QMF bands.
fn add_powers(layout: Layout, samples: &[f64], input: &[f64], slots: usize, gains: &mut [f64])
    requires layout_in_bounds { (64 * unsplit_from_of layout ≤ length samples.now) × (32 * bands_of layout ≤ length gains.old) × (slots ≤ 32) }
    requires slots_in_bounds { 128 * slots ≤ length input.now }
    ensures { Rowed 0 (bands_of layout) slots (power_at layout samples.now input.now) gains.old gains.new }
{
    clear(gains, layout.bands(), slots);
    let map = ps_map::parameter_map(layout);
    let unsplit = layout.unsplit_from();
    let split = layout.split();
    let channels = layout.channels();
    for k in 0..unsplit {
        add_channel::<1, 32>(gains, usize::from(map[k]), samples, 64 * k, slots);
    }
    for k in unsplit..channels {
        let q = k + split - unsplit;
        add_channel::<128, 1>(gains, usize::from(map[k]), input, 2 * q, slots);
    }
}

// A band's detector.
#[derive(Clone, Copy)]
pub struct Follower {
    pub peak: f64,
    pub smooth: f64,
    pub difference: f64,
}

fn recall(detectors: &[f64], b: usize) -> Follower
    requires { 3 * b + 3 ≤ length detectors.now }
    ensures { detector_in result ≡ detector_of detectors.now b }
{
    Follower {
        peak: detectors[3 * b],
        smooth: detectors[3 * b + 1],
        difference: detectors[3 * b + 2],
    }
}

fn keep(detectors: &mut [f64], b: usize, last: Follower)
    requires { 3 * b + 3 ≤ length detectors.old }
    ensures { Detected b (b + 1) (λ i. detector_in last) detectors.old detectors.new }
{
    detectors[3 * b] = last.peak;
    detectors[3 * b + 1] = last.smooth;
    detectors[3 * b + 2] = last.difference;
}

// A detector one slot later.
fn step(now: Follower, power: f64) -> Follower
    ensures { detector_in result ≡ detector_after (detector_in now) power }
{
    let factors = decimals::detector();
    let peak = larger(factors.decay * now.peak, power);
    let smooth = now.smooth + factors.smoothing * (power - now.smooth);
    let difference = now.difference + factors.smoothing * (peak - power - now.difference);
    Follower {
        peak,
        smooth,
        difference,
    }
}

// The ducking factor that a detector gives.
pub fn factor(now: Follower) -> f64
    ensures { result ≡ ducking (detector_in now) }
{
    let factors = decimals::detector();
    share(now.smooth, factors.impact * now.difference)
}

// A band's detector through its powers, each of which gives way to the ducking factor of its slot.
fn duck_row(detectors: &mut [f64], b: usize, gains: &mut [f64], slots: usize)
    requires { (3 * b + 3 ≤ length detectors.old) × (32 * b + 32 ≤ length gains.old) × (slots ≤ 32) }
    ensures { Ducked b (b + 1) slots detectors.old gains.old detectors.new gains.new }
{
    let at = 32 * b;
    let mut one = recall(detectors, b);
    for n in 0..slots {
        one = step(one, gains[at + n]);
        gains[at + n] = factor(one);
    }
    keep(detectors, b, one);
}

// Four bands from b on.
// Kept: four at once beside one, since each waits for its own last slot, so that four take little longer than one.
fn duck_four(detectors: &mut [f64], b: usize, gains: &mut [f64], slots: usize)
    requires { (3 * b + 12 ≤ length detectors.old) × (32 * b + 128 ≤ length gains.old) × (slots ≤ 32) }
    ensures { Ducked b (b + 4) slots detectors.old gains.old detectors.new gains.new }
{
    let at = 32 * b;
    let mut first = recall(detectors, b);
    let mut second = recall(detectors, b + 1);
    let mut third = recall(detectors, b + 2);
    let mut fourth = recall(detectors, b + 3);
    for n in 0..slots {
        let place = at + n;
        first = step(first, gains[place]);
        second = step(second, gains[place + 32]);
        third = step(third, gains[place + 64]);
        fourth = step(fourth, gains[place + 96]);
        gains[place] = factor(first);
        gains[place + 32] = factor(second);
        gains[place + 64] = factor(third);
        gains[place + 96] = factor(fourth);
    }
    keep(detectors, b, first);
    keep(detectors, b + 1, second);
    keep(detectors, b + 2, third);
    keep(detectors, b + 3, fourth);
}

fn duck_rows(detectors: &mut [f64], gains: &mut [f64], bands: usize, slots: usize)
    requires { (3 * bands ≤ length detectors.old) × (32 * bands ≤ length gains.old) × (slots ≤ 32) }
    ensures { Ducked 0 bands slots detectors.old gains.old detectors.new gains.new }
{
    let fours = bands / 4;
    for g in 0..fours {
        duck_four(detectors, 4 * g, gains, slots);
    }
    for b in 4 * fours..bands {
        duck_row(detectors, b, gains, slots);
    }
}

// Steps every band's detector through a frame of at most 32 slots, and writes its ducking factors. Nothing changes where the input is too short, or
// another list has no room for the layout.
pub fn duck(
    layout: Layout,
    detectors: &mut [f64],
    samples: &[f64],
    input: &[f64],
    slots: usize,
    gains: &mut [f64],
)
    ensures detectors { detectors.new ≡ detectors_after layout detectors.old samples.now input.now gains.old (min slots 32) }
    ensures gains { gains.new ≡ gains_after layout detectors.old samples.now input.now gains.old (min slots 32) }
{
    let bands = layout.bands();
    let count = slots.min(32);
    if input.len() < 128 * count
        || samples.len() < 64 * layout.unsplit_from()
        || gains.len() < 32 * bands
        || detectors.len() < 3 * bands
    {
        return;
    }
    add_powers(layout, samples, input, count, gains);
    duck_rows(detectors, gains, bands, count);
}
