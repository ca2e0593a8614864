// The memory of the delays after a frame: what the next one reads. Private to the crate.
ghost use Rattle.std.specs.Prelude.{◌≡◌, ℕ, ◌+◌, ◌*◌, ◌%◌, ◌<◌, ◌≤◌, length};
ghost use Rattle.planar.specs.Cells.{cell};
ghost use Rattle.ps_delay_channels.specs.Spans.{long_delay, short_delay, earlier};

// Kept: a loop: (a) `copy_from_slice` compiles to a call of `memmove` here, and the archive for C asks for `memcpy` and `memset` alone (docs/C-API.md).
fn copy(from: &[f64], to: &mut [f64])
    requires { length from.now ≡ length to.old }
    ensures { to.new ≡ from.now }
{
    for i in 0..to.len() {
        to[i] = from[i];
    }
}

// The last 14 slots, or as many as there were, from QMF band 23 on: each slot's row over that of 14 slots before. The slots behind the frame would read it.
pub fn keep_long(input: &[f64], position: usize, slots: usize, long: &mut [f64])
    requires { (length long.old ≡ 336) × (position < 14) × (slots ≤ 32) × (128 * slots ≤ length input.now) }
    ensures { (i j : ℕ) → i < 14 → j < 12 → cell 1 long.new (24 * ((position + (slots + i)) % 14) + 2 * j)
        ≡ earlier (long_delay position) long.old input.now (slots + i) (23 + j) }
{
    for n in slots.saturating_sub(14)..slots {
        let from = 128 * n + 46;
        let at = 24 * ((position + n) % 14);
        copy(&input[from..from + 24], &mut long[at..at + 24]);
    }
}

// The last slot, from QMF band 35 on.
pub fn keep_short(input: &[f64], slots: usize, short: &mut [f64])
    requires { (length short.old ≡ 58) × (slots ≤ 32) × (128 * slots ≤ length input.now) }
    ensures { (j : ℕ) → j < 29 → cell 1 short.new (2 * j) ≡ earlier short_delay short.old input.now slots (35 + j) }
{
    if slots == 0 {
        return;
    }
    let from = 128 * (slots - 1) + 70;
    copy(&input[from..from + 58], short);
}
