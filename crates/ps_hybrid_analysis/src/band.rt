// The slots of a QMF band in a run of 44: six of history, the frame, and six ahead.
ghost use Rattle.std.specs.Prelude.{◌≡◌, ◌+◌, ◌-◌, ◌*◌, ◌<◌, ◌≤◌, length};
ghost use Rattle.planar.specs.Cells.{cell, planar, overwritten};
ghost use Rattle.ps_hybrid_analysis.specs.Stages.{band_at};

// How many slots a frame has: no more than 32.
#[derive(Clone, Copy)]
pub struct Slots {
    pub count: usize,
    ghost few: { count ≤ 32 },
}

// What the filters of a band read, and in how many slots they answer.
#[derive(Clone, Copy)]
pub struct Band<'a> {
    pub run: &'a [f64; 88],
    pub slots: Slots,
}

// Six slots of history.
fn past(history: &[f64], band: &mut [f64; 88])
    requires { length history.now ≡ 12 }
    ensures { band.new ≡ planar 44 (overwritten 6 (cell 6 history.now) (cell 44 band.old)) }
{
    band[..6].copy_from_slice(&history[..6]);
    band[44..50].copy_from_slice(&history[6..]);
}

// And after them the input's, `count` in all.
fn ahead(input: &[f64], p: usize, count: usize, band: &mut [f64; 88])
    requires p_bound { (p < 5) × ((6 ≤ count) × (count ≤ 44)) }
    requires count_in_bounds { 128 * (count - 6) ≤ length input.now }
    ensures { band.new ≡ planar 44 (overwritten count
        (overwritten 6 (cell 44 band.old) (λ j. cell 1 input.now (128 * (j - 6) + 2 * p))) (cell 44 band.old)) }
{
    for j in 6..count {
        let at = 128 * (j - 6) + 2 * p;
        band[j] = input[at];
        band[j + 44] = input[at + 1];
    }
}

// The slots that a frame's filters read.
pub fn gather(history: &[f64], input: &[f64], p: usize, slots: Slots, band: &mut [f64; 88])
    requires p_bound { p < 5 }
    requires history_len { (length history.now ≡ 12) × (128 * (slots.count + 6) ≤ length input.now) }
    ensures { band.new ≡ planar 44 (overwritten (slots.count + 12) (band_at history.now input.now p) (cell 44 band.old)) }
{
    past(history, band);
    ahead(input, p, slots.count + 12, band);
}

// The frame's last six slots become the history.
pub fn keep(band: &[f64; 88], slots: Slots, history: &mut [f64])
    requires { length history.old ≡ 12 }
    ensures { history.new ≡ planar 6 (λ j. cell 44 band.now (slots.count + j)) }
{
    let at = slots.count;
    history[..6].copy_from_slice(&band[at..at + 6]);
    history[6..12].copy_from_slice(&band[at + 44..at + 50]);
}
