// One filter of 13 taps: its taps, and its answer over the slots of a frame. Complex numbers stand in runs, the imaginary parts behind the real ones.
ghost use Rattle.std.specs.Prelude.{◌≡◌, ℕ, ◌+◌, ◌-◌, ◌*◌, ◌<◌, ◌≤◌, length, get_or};
ghost use Rattle.complex.specs.Operations.{sum, product};
ghost use Rattle.decimals.specs.Prototypes.{prototype_of};
ghost use Rattle.fixed.specs.Real.{pair_at};
ghost use Rattle.planar.specs.Cells.{cell, planar, overwritten};
ghost use Rattle.standard.specs.Numbers.{zero};
ghost use Rattle.standard.specs.Hybrid.{tap, added_to};
ghost use Rattle.ps_hybrid_analysis.specs.Stages.{Waves};

use super::band::Band;
use super::plan;
use complex::Complex;
use decimals::Prototype;

// The unit roots of a table as floats.
fn floats(roots: &[i64], order: usize, out: &mut [f64; 48])
    requires { order ≤ 24 }
    ensures { (t : ℕ) → t < order → cell 1 out.new (2 * t) ≡ pair_at roots.now (2 * t) }
{
    for t in 0..order {
        let root = fixed::pair(roots, 2 * t);
        out[2 * t] = root.re;
        out[2 * t + 1] = root.im;
    }
}

// The unit roots that modulate a prototype.
fn lay_waves(prototype: Prototype, out: &mut [f64; 48])
    ensures { Waves prototype out.new }
{
    match prototype {
        Prototype::EighthsOfBand0 => floats(root_table::roots_16(), 16, out),
        Prototype::Halves => floats(root_table::roots_8(), 8, out),
        Prototype::Twelfths => floats(root_table::roots_24(), 24, out),
        Prototype::EighthsOfBand1 => floats(root_table::roots_16(), 16, out),
        Prototype::Quarters => floats(root_table::roots_8(), 8, out),
    }
}

// A prototype with what the taps of its filters are made of, once for all of a band: its numbers, and the unit roots that modulate them.
#[derive(Drop)]
pub struct Bank {
    pub prototype: Prototype,
    g: [f64; 13],
    waves: [f64; 48],
    ghost own: { g ≡ prototype_of prototype },
    ghost roots: { Waves prototype waves },
}

impl Bank {
    pub fn new(prototype: Prototype) -> Bank
        ensures { result.prototype ≡ prototype }
    {
        let g = prototype.taps();
        let mut waves = [0.0; 48];
        lay_waves(prototype, &mut waves);
        Bank {
            prototype,
            g,
            waves,
        }
    }

    // Tap m of filter q.
    fn modulated(&self, q: usize, m: usize) -> Complex
        requires { (q < 12) × (m < 13) }
        ensures { result ≡ tap self.now.prototype q m }
    {
        let turn = plan::turn(self.prototype, q, m);
        let g = self.g[m];
        if plan::is_complex(self.prototype) {
            Complex {
                re: g * self.waves[2 * turn],
                im: g * self.waves[2 * turn + 1],
            }
        } else {
            Complex {
                re: g * self.waves[2 * turn],
                im: 0.0,
            }
        }
    }

    // The 13 taps of filter q.
    pub fn taps(&self, q: usize, out: &mut [f64; 26])
        requires { q < 12 }
        ensures { out.new ≡ planar 13 (tap self.now.prototype q) }
    {
        for m in 0..13 {
            let v = self.modulated(q, m);
            out[m] = v.re;
            out[m + 13] = v.im;
        }
    }
}

// The taps over a band's slots, from 0 in tap order: tap m meets the slot at n + 12 - m.
fn convolved(taps: &[f64; 26], band: &[f64; 88], n: usize) -> Complex
    requires { n < 32 }
    ensures { result ≡ added_to (λ m. product (cell 13 taps.now m) (cell 44 band.now (n + 12 - m))) 0 13 }
{
    let mut re = 0.0;
    let mut im = 0.0;
    for m in 0..13 {
        let j = n + 12 - m;
        let a = taps[m];
        let b = taps[m + 13];
        let c = band[j];
        let d = band[j + 44];
        re += a * c - b * d;
        im += a * d + b * c;
    }
    Complex { re, im }
}

// A filter's answer, added to a hybrid channel.
pub fn join(taps: &[f64; 26], band: Band, run: &mut [f64])
    requires { length run.old ≡ 64 }
    ensures { run.new ≡ planar 32 (overwritten band.entry.slots.count
        (λ n. sum (cell 32 run.old n) (added_to (λ m. product (cell 13 taps.now m) (cell 44 band.entry.run.now (n + 12 - m))) 0 13))
        (cell 32 run.old)) }
{
    for n in 0..band.slots.count {
        let y = convolved(taps, band.run, n);
        let re = run[n] + y.re;
        let im = run[n + 32] + y.im;
        run[n] = re;
        run[n + 32] = im;
    }
}
