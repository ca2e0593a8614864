// Plays pairs of runs through the decoder. The two runs of a pair agree on one stereo band, or on all stereo bands of one split QMF band, and differ in
// all that docs/ISOLATION.md says may differ. It says how many numbers came out alike, or the first that did not.
#![tactic(auto)]

mod chance;
mod compare;
mod line;
mod marks;
mod runs;
mod scene;
mod sound;

use layout::Layout;
use marks::Agreed;
use runs::{Counts, Pair};

// Which pair does not stand, and how: a number that differs, or a frame that was not accepted, or free QMF bands that came out alike, by which the comparison
// would tell nothing.
fn say_fault(rt: &impl Print, bands: usize, agreed: Agreed, pair: Pair) {
    let _ = print!(rt; "{bands} bands: {agreed}");
    let _ = match pair.first {
        Some((side, at)) if pair.all_accepted() => {
            let frame = at / 4096;
            let slot = at % 4096 / 128;
            let band = at % 128 / 2;
            println!(rt; ", frame {frame}, slot {slot}, QMF band {band}, {side}: not alike")
        }
        _ => println!(rt; ": {} frames accepted, {}", pair.accepted, pair.counts),
    };
}

// The pairs of a layout, up to the first that is not as it should be.
fn play_pairs(rt: &impl Print, layout: Layout, pairs: u32) {
    let bands = layout.bands();
    let mut total = Counts::NONE;
    for number in 0..pairs {
        let pair = runs::play_pair(layout, number);
        if !pair.stands() {
            say_fault(rt, bands, Agreed::of(layout, number as usize), pair);
            return;
        }
        total = total.plus(pair.counts);
    }
    let _ = println!(rt; "{bands} bands: {pairs} pairs, {total}");
}

// One pair for each stereo band, and one for each split QMF band.
fn main(rt: HostRuntime) {
    play_pairs(&rt, Layout::Bands20, 20 + 3);
    play_pairs(&rt, Layout::Bands34, 34 + 5);
}
