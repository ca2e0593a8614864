// Hybrid analysis of a frame (source document 002, §8.6.4.3): the lowest QMF bands split by filters of 13 taps. The others are channels as they are.
#![tactic(auto)]

mod band;
mod filter;
mod plan;

ghost use Rattle.std.specs.Prelude.{◌≡◌, ◌++◌, ℕ, suc, ◌+◌, ◌*◌, ◌<◌, ◌≤◌, length, drop};
ghost use Rattle.borders.specs.Borders.{slots_of};
ghost use Rattle.complex.specs.Operations.{sum};
ghost use Rattle.layout.specs.Numbers.{split_of, unsplit_from_of, first_channel_of};
ghost use Rattle.lists.specs.Rows.{rows};
ghost use Rattle.planar.specs.Cells.{cell, planar, overwritten};
ghost use Rattle.planar.specs.Frame.{sample_at};
ghost use Rattle.standard.specs.Numbers.{nought};
ghost use Rattle.standard.specs.Hybrid.{prototype_for, filters_of, channel_for, filtered, joined_to, hybrid};
ghost use Rattle.ps_hybrid_analysis.specs.Analysis.{slot_at, answer_of, history_after, samples_after};
ghost use Rattle.ps_hybrid_analysis.specs.Stages.{band_at, Written};

use answer::Answer;
use band::{Band, Slots};
use decimals::Prototype;
use filter::Bank;
use layout::Layout;

// A channel's slots are 0, before its filters are added.
fn silence_run(run: &mut [f64], slots: Slots)
    requires { length run.old ≡ 64 }
    ensures { run.new ≡ planar 32 (overwritten slots.count (λ n. nought) (cell 32 run.old)) }
{
    let count = slots.count;
    // Kept: two `fill`s of a few numbers are slower: 0.3 % of a frame's instructions.
    for n in 0..count {
        run[n] = 0.0;
        run[n + 32] = 0.0;
    }
}

// The channels of a split band.
fn silence(samples: &mut [f64], from: usize, to: usize, slots: Slots)
    requires { (from ≤ to) × (64 * to ≤ length samples.old) }
    ensures { Written slots.count from to (λ k n. nought) samples.old samples.new }
{
    for k in from..to {
        let at = 64 * k;
        silence_run(&mut samples[at..at + 64], slots);
    }
}

// Filter q of QMF band p, added to its hybrid channel.
fn apply(layout: Layout, p: usize, bank: &Bank, q: usize, band: Band, samples: &mut [f64])
    requires prototype_value { (bank.now.prototype ≡ prototype_for layout p) × ((p < split_of layout) × (q < filters_of bank.now.prototype)) }
    requires room { 64 * unsplit_from_of layout ≤ length samples.old }
    ensures { Written band.entry.slots.count (channel_for layout p q) (channel_for layout p q + 1)
        (λ k n. sum (sample_at samples.old n k) (filtered bank.now.prototype q (cell 44 band.entry.run.now) n))
        samples.old samples.new }
{
    let mut taps = [0.0; 26];
    bank.taps(q, &mut taps);
    let k = plan::channel(layout, p, q);
    let at = 64 * k;
    filter::join(&taps, band, &mut samples[at..at + 64]);
}

// The filters of QMF band p in their order, over channels that are 0.
fn apply_all(layout: Layout, p: usize, bank: &Bank, band: Band, samples: &mut [f64])
    requires prototype_value { (bank.now.prototype ≡ prototype_for layout p) × (p < split_of layout) }
    requires room { 64 * unsplit_from_of layout ≤ length samples.old }
    requires by_index { (k n : ℕ) → first_channel_of layout p ≤ k → k < first_channel_of layout (suc p) → n < band.slots.count → sample_at samples.old n k ≡ nought }
    ensures { Written band.entry.slots.count (first_channel_of layout p) (first_channel_of layout (suc p))
        (λ k n. joined_to layout p (cell 44 band.entry.run.now) n k (filters_of bank.now.prototype)) samples.old samples.new }
{
    let count = plan::filters_of(bank.prototype);
    for q in 0..count {
        apply(layout, p, bank, q, band, samples);
    }
}

// The filters of a prototype, made ready once for a band.
fn modulate(layout: Layout, p: usize, prototype: Prototype, band: Band, samples: &mut [f64])
    requires prototype_value { (prototype ≡ prototype_for layout p) × (p < split_of layout) }
    requires room { 64 * unsplit_from_of layout ≤ length samples.old }
    requires by_index { (k n : ℕ) → first_channel_of layout p ≤ k → k < first_channel_of layout (suc p) → n < band.slots.count → sample_at samples.old n k ≡ nought }
    ensures { Written band.entry.slots.count (first_channel_of layout p) (first_channel_of layout (suc p))
        (λ k n. joined_to layout p (cell 44 band.entry.run.now) n k (filters_of prototype)) samples.old samples.new }
{
    apply_all(layout, p, &Bank::new(prototype), band, samples);
}

// The hybrid channels of QMF band p, from its slots.
fn filter_band(layout: Layout, p: usize, band: Band, samples: &mut [f64])
    requires p_bound { p < split_of layout }
    requires room { 64 * unsplit_from_of layout ≤ length samples.old }
    ensures { Written band.entry.slots.count (first_channel_of layout p) (first_channel_of layout (suc p))
        (λ k n. joined_to layout p (cell 44 band.entry.run.now) n k (filters_of (prototype_for layout p))) samples.old samples.new }
{
    let from = layout.first_channel(p);
    let to = layout.first_channel(p + 1);
    let prototype = plan::prototype_for(layout, p);
    silence(samples, from, to, band.slots);
    modulate(layout, p, prototype, band, samples);
}

// QMF band p, on its part of the history.
fn split_band(
    layout: Layout,
    p: usize,
    history: &mut [f64],
    input: &[f64],
    slots: Slots,
    samples: &mut [f64],
)
    requires p_bound { (p < split_of layout) × (length history.old ≡ 12) }
    requires slots_in_bounds { (128 * (slots.count + 6) ≤ length input.now) × (64 * unsplit_from_of layout ≤ length samples.old) }
    ensures history { history.new ≡ planar 6 (λ j. band_at history.old input.now p (slots.count + j)) }
    ensures samples { Written slots.count (first_channel_of layout p) (first_channel_of layout (suc p))
        (λ k n. joined_to layout p (band_at history.old input.now p) n k (filters_of (prototype_for layout p)))
        samples.old samples.new }
{
    let mut gathered = [0.0; 88];
    band::gather(history, input, p, slots, &mut gathered);
    let band = Band {
        run: &gathered,
        slots,
    };
    filter_band(layout, p, band, samples);
    band::keep(&gathered, slots, history);
}

// The split QMF bands.
fn split_bands(
    layout: Layout,
    history: &mut [f64],
    input: &[f64],
    slots: Slots,
    samples: &mut [f64],
)
    requires history_len { 12 * split_of layout ≤ length history.old }
    requires slots_in_bounds { (128 * (slots.count + 6) ≤ length input.now) × (64 * unsplit_from_of layout ≤ length samples.old) }
    ensures history { history.new ≡
        rows (λ p. planar 6 (λ j. slot_at layout history.old input.now p (slots.count + j))) (split_of layout)
        ++ drop (12 * split_of layout) history.old }
    ensures samples { Written slots.count 0 (unsplit_from_of layout)
        (λ k n. hybrid layout (slot_at layout history.old input.now) n k) samples.old samples.new }
{
    let split = layout.split();
    for p in 0..split {
        let at = 12 * p;
        split_band(layout, p, &mut history[at..at + 12], input, slots, samples);
    }
}

// A frame of the asked slots. Input that is too short is refused, and so are lists without room for the layout; nothing changes then.
pub fn analyse(
    layout: Layout,
    asked: usize,
    history: &mut [f64],
    input: &[f64],
    samples: &mut [f64],
) -> Answer
    ensures answer { result ≡ answer_of layout history.old input.now samples.old (slots_of asked) }
    ensures history { history.new ≡ history_after layout history.old input.now samples.old (slots_of asked) }
    ensures samples { samples.new ≡ samples_after layout history.old input.now samples.old (slots_of asked) }
{
    let slots = Slots {
        count: borders::slots(asked),
    };
    if input.len() < 128 * (slots.count + 6)
        || history.len() < 12 * layout.split()
        || samples.len() < 64 * layout.unsplit_from()
    {
        return Answer::Buffers;
    }
    split_bands(layout, history, input, slots, samples);
    Answer::Done
}
