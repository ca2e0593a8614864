// Four numbers and four complex numbers side by side, so that one instruction serves four channels. Private to the crate.
ghost use Rattle.std.specs.Prelude.{◌≡◌, ◌+◌, ◌≤◌, length, get_or};
ghost use Rattle.std.specs.Float.{nan, binary64};
ghost use Rattle.std.specs.Float.Ieee.{add, sub, mul};
ghost use Rattle.complex.specs.Operations.{product, sum, difference, scaled};
ghost use Rattle.planar.specs.Cells.{cell};
ghost use Rattle.ps_allpass_groups.specs.Lanes.{number_of, lane_of, four, lanes, flat};

use std::ops::{Add, Mul, Sub};

#[derive(Clone, Copy)]
pub struct Four {
    pub a: f64,
    pub b: f64,
    pub c: f64,
    pub d: f64,
}

// Real parts and imaginary parts.
#[derive(Clone, Copy)]
pub struct Pair {
    pub re: Four,
    pub im: Four,
}

impl Add for Four {
    type Output = Four;

    ghost add_gives = { λ x y z. z ≡ four (λ i. add binary64 (number_of i x) (number_of i y)) };

    fn add(self, other: Four) -> Four {
        Four {
            a: self.a + other.a,
            b: self.b + other.b,
            c: self.c + other.c,
            d: self.d + other.d,
        }
    }
}

impl Sub for Four {
    type Output = Four;

    ghost sub_gives = { λ x y z. z ≡ four (λ i. sub binary64 (number_of i x) (number_of i y)) };

    fn sub(self, other: Four) -> Four {
        Four {
            a: self.a - other.a,
            b: self.b - other.b,
            c: self.c - other.c,
            d: self.d - other.d,
        }
    }
}

impl Mul for Four {
    type Output = Four;

    ghost mul_gives = { λ x y z. z ≡ four (λ i. mul binary64 (number_of i x) (number_of i y)) };

    fn mul(self, other: Four) -> Four {
        Four {
            a: self.a * other.a,
            b: self.b * other.b,
            c: self.c * other.c,
            d: self.d * other.d,
        }
    }
}

impl Four {
    // One number four times.
    pub fn all(x: f64) -> Four
        ensures { result ≡ four (λ i. x) }
    {
        Four {
            a: x,
            b: x,
            c: x,
            d: x,
        }
    }

    pub fn at(xs: &[f64], at: usize) -> Four
        requires { at + 4 ≤ length xs.now }
        ensures { result ≡ four (λ i. get_or xs.now (at + i) nan) }
    {
        Four {
            a: xs[at],
            b: xs[at + 1],
            c: xs[at + 2],
            d: xs[at + 3],
        }
    }
}

impl Add for Pair {
    type Output = Pair;

    ghost add_gives = { λ x y z. z ≡ lanes (λ i. sum (lane_of i x) (lane_of i y)) };

    fn add(self, other: Pair) -> Pair {
        Pair {
            re: self.re + other.re,
            im: self.im + other.im,
        }
    }
}

impl Sub for Pair {
    type Output = Pair;

    ghost sub_gives = { λ x y z. z ≡ lanes (λ i. difference (lane_of i x) (lane_of i y)) };

    fn sub(self, other: Pair) -> Pair {
        Pair {
            re: self.re - other.re,
            im: self.im - other.im,
        }
    }
}

impl Mul for Pair {
    type Output = Pair;

    ghost mul_gives = { λ x y z. z ≡ lanes (λ i. product (lane_of i x) (lane_of i y)) };

    fn mul(self, other: Pair) -> Pair {
        Pair {
            re: self.re * other.re - self.im * other.im,
            im: self.re * other.im + self.im * other.re,
        }
    }
}

impl Pair {
    pub fn scale(self, factor: Four) -> Pair
        ensures { result ≡ lanes (λ i. scaled (lane_of i self) (number_of i factor)) }
    {
        Pair {
            re: self.re * factor,
            im: self.im * factor,
        }
    }

    pub fn at(xs: &[f64], at: usize) -> Pair
        requires { at + 8 ≤ length xs.now }
        ensures { result ≡ lanes (λ i. cell 4 xs.now (at + i)) }
    {
        Pair {
            re: Four::at(xs, at),
            im: Four::at(xs, at + 4),
        }
    }
}

// Eight numbers.
pub fn put(xs: &mut [f64], x: Pair)
    requires { length xs.old ≡ 8 }
    ensures { xs.new ≡ flat x }
{
    xs.copy_from_slice(&[
        x.re.a, x.re.b, x.re.c, x.re.d, x.im.a, x.im.b, x.im.c, x.im.d,
    ]);
}
