// The decimals that the standard prints: the prototypes of the hybrid filters, the all-pass coefficients and the detectors' factors. Each is the
// float nearest to the decimal.
#![tactic(auto)]

ghost use Rattle.std.specs.Prelude.{◌≡◌};
ghost use Rattle.decimals.specs.Prototypes.{prototype_of};
ghost use Rattle.decimals.specs.Decorrelation.{all_pass, decay_slope, detector_factors};

// A prototype filter of 13 taps, by the part of a QMF band that one of its filters takes.
#[derive(Clone, Copy)]
pub enum Prototype {
    EighthsOfBand0,
    Halves,
    Twelfths,
    EighthsOfBand1,
    Quarters,
}

impl Prototype {
    pub fn taps(self) -> [f64; 13]
        ensures { result ≡ prototype_of self }
    {
        match self {
            Prototype::EighthsOfBand0 => G0_Q8,
            Prototype::Halves => G12_Q2,
            Prototype::Twelfths => G0_Q12,
            Prototype::EighthsOfBand1 => G1_Q8,
            Prototype::Quarters => G234_Q4,
        }
    }
}

// a(m) of the three all-pass links (Table 8.39).
pub fn all_pass() -> [f64; 3]
    ensures { result ≡ all_pass }
{
    [0.65143905753106, 0.56471812200776, 0.48954165955695]
}

// §8.6.4.5.1.
const DECAY_SLOPE: f64 = 0.05;

pub fn decay_slope() -> f64
    ensures { result ≡ decay_slope }
{
    DECAY_SLOPE
}

// The factors of the transient detectors (§8.6.4.5.3): the peak's decay α (Table 8.43), the smoothing a_smooth and the impact γ.
#[derive(Clone, Copy)]
pub struct DetectorFactors {
    pub decay: f64,
    pub smoothing: f64,
    pub impact: f64,
}

pub fn detector() -> DetectorFactors
    ensures { result ≡ detector_factors }
{
    DetectorFactors {
        decay: 0.76592833836465,
        smoothing: 0.25,
        impact: 1.5,
    }
}

// Table 8.37, g⁰, Q⁰ = 8: QMF band 0 of 20 stereo bands.
const G0_Q8: [f64; 13] = [
    0.00746082949812,
    0.02270420949825,
    0.04546865930473,
    0.07266113929591,
    0.09885108575264,
    0.11793710567217,
    0.125,
    0.11793710567217,
    0.09885108575264,
    0.07266113929591,
    0.04546865930473,
    0.02270420949825,
    0.00746082949812,
];

// Table 8.37, g¹ and g², Q = 2: QMF bands 1 and 2 of 20 stereo bands.
const G12_Q2: [f64; 13] = [
    0.0,
    0.01899487526049,
    0.0,
    -0.07293139167538,
    0.0,
    0.30596630545168,
    0.5,
    0.30596630545168,
    0.0,
    -0.07293139167538,
    0.0,
    0.01899487526049,
    0.0,
];

// Table 8.38, g⁰, Q⁰ = 12: QMF band 0 of 34 stereo bands.
const G0_Q12: [f64; 13] = [
    0.04081179924692,
    0.03812810994926,
    0.05144908135699,
    0.06399831151592,
    0.07428313801106,
    0.08100347892914,
    0.08333333333333,
    0.08100347892914,
    0.07428313801106,
    0.06399831151592,
    0.05144908135699,
    0.03812810994926,
    0.04081179924692,
];

// Table 8.38, g¹, Q¹ = 8: QMF band 1 of 34 stereo bands.
const G1_Q8: [f64; 13] = [
    0.01565675600122,
    0.03752716391991,
    0.05417891378782,
    0.08417044116767,
    0.10307344158036,
    0.12222452249753,
    0.125,
    0.12222452249753,
    0.10307344158036,
    0.08417044116767,
    0.05417891378782,
    0.03752716391991,
    0.01565675600122,
];

// Table 8.38, g², g³ and g⁴, Q = 4: QMF bands 2 to 4 of 34 stereo bands.
const G234_Q4: [f64; 13] = [
    -0.05908211155639,
    -0.04871498374946,
    0.0,
    0.07778723915851,
    0.16486303567403,
    0.23279856662996,
    0.25,
    0.23279856662996,
    0.16486303567403,
    0.07778723915851,
    0.0,
    -0.04871498374946,
    -0.05908211155639,
];
