// The carried state of de-correlation (source document 001): flat arrays of floats with fixed places for each channel and band.
#![tactic(auto)]

ghost use Rattle.std.specs.Prelude.{◌≡◌, ◌+◌, ◌*◌, ◌/◌, ◌%◌, ◌≤◌, length};
ghost use Rattle.ps_decorr_allpass.specs.Memory.{owner_of, silenced_from};
ghost use Rattle.ps_decorr.specs.State.{fresh_decorr, plain_owner, delays_reset, plain_reset};

use layout::{Kind, Layout};

// How many slots have come, modulo 420, of which the length of every ring is a divisor; the rings of the all-pass channels; the plain delays, a ring of 14
// rows of 24 numbers, then one of a row of 58; and the transient detectors.
#[derive(Clone, Copy)]
pub struct PsDecorr {
    pub turn: usize,
    pub delays: [f64; 1456],
    pub plain: [f64; 394],
    pub detectors: [f64; 102],
}

// Every delay silent.
pub fn fresh() -> PsDecorr
    ensures { result ≡ fresh_decorr }
{
    PsDecorr {
        turn: 0,
        delays: [0.0; 1456],
        plain: [0.0; 394],
        detectors: [0.0; 102],
    }
}

// The columns from one on, in each of the ring's 14 rows.
fn clear_ring(ring: &mut [f64], column: usize)
    requires { (length ring.old ≡ 336) × (column ≤ 24) }
    ensures { ring.new ≡ silenced_from (λ m. m % 24) column ring.old }
{
    for row in 0..14 {
        ring[24 * row + column..24 * row + 24].fill(0.0);
    }
}

// The all-pass channels from k on: the lanes of its own group, then the groups behind it.
fn clear_chains(delays: &mut [f64], k: usize)
    requires { 112 * (k / 4) + 112 ≤ length delays.old }
    ensures { delays.new ≡ silenced_from owner_of k delays.old }
{
    let at = 112 * (k / 4);
    ps_decorr_allpass::silence(&mut delays[at..at + 112], k % 4);
    delays[at + 112..].fill(0.0);
}

// A frame's own reset: the all-pass channels from k on. Nothing changes where k is none, or the delays have no room for the layout's groups.
pub fn reset_chains(layout: Layout, k: usize, delays: &mut [f64])
    ensures { delays.new ≡ delays_reset layout k delays.old }
{
    if delays.len() < 112 * layout.groups() {
        return;
    }
    match layout.kind(k) {
        Kind::AllPass => clear_chains(delays, k),
        Kind::Long | Kind::Short => {}
    }
}

// And the plain delays from channel k on: columns of the ring of 14 rows, and those of the one row behind it.
fn clear_plain(layout: Layout, k: usize, plain: &mut [f64])
    requires { length plain.old ≡ 394 }
    ensures { plain.new ≡ silenced_from (plain_owner layout) k plain.old }
{
    match layout.kind(k) {
        Kind::AllPass => plain.fill(0.0),
        Kind::Long => {
            clear_ring(&mut plain[0..336], 2 * (k - layout.all_pass()));
            plain[336..394].fill(0.0);
        }
        Kind::Short => {
            let column = 2 * (k - layout.short_delay()).min(29);
            plain[336 + column..394].fill(0.0);
        }
    }
}

// Nothing changes where the plain delays are not 394 numbers.
pub fn reset_plain(layout: Layout, k: usize, plain: &mut [f64])
    ensures { plain.new ≡ plain_reset layout k plain.old }
{
    if plain.len() == 394 {
        clear_plain(layout, k, plain);
    }
}
