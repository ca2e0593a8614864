// Parametric stereo as §8.6.4 of the standard has it: definitions in specs/ that know nothing of rings, places or loops. The crates of the decoder
// are proved to keep them; proofs/ has what holds of the definitions alone. Here stand only the types that code and definitions share.
#![tactic(auto)]

use complex::Complex;
use ps_kinds::Kinds;

// A link of an all-pass chain: Q(k, m), and a(m) g(k).
#[derive(Clone, Copy)]
pub struct Link {
    pub rotation: Complex,
    pub feedback: f64,
}

// The constants of a channel's all-pass chain: φ_fract(k), and the three links.
#[derive(Clone, Copy)]
pub struct Chain {
    pub fractional: Complex,
    pub first: Link,
    pub second: Link,
    pub third: Link,
}

// h11, h12, h21, h22.
#[derive(Clone, Copy)]
pub struct Matrix {
    pub h11: Complex,
    pub h12: Complex,
    pub h21: Complex,
    pub h22: Complex,
}

// How a frame's coefficients are made: the fine IID quantiser, mixing procedure Rb, and phase.
#[derive(Clone, Copy)]
pub struct Modes {
    pub fine: bool,
    pub rb: bool,
    pub phase: bool,
}

// The mapped indices of an envelope, for each band; 0 where a kind is absent.
pub type Cues = Kinds<[i8; 34]>;
