// Complex numbers by value (source document 006). Each operation on a part is rounded once, in the order that is written.
#![tactic(auto)]

ghost use Rattle.std.specs.Prelude.{◌≡◌};
ghost use Rattle.complex.specs.Operations.{product, sum, difference, conjugate, scaled, squared_magnitude};

use std::ops::{Add, Mul, Sub};

#[derive(Clone, Copy)]
pub struct Complex {
    pub re: f64,
    pub im: f64,
}

impl Add for Complex {
    type Output = Complex;

    ghost add_gives = { λ x y r. r ≡ sum x y };

    fn add(self, other: Complex) -> Complex {
        Complex {
            re: self.re + other.re,
            im: self.im + other.im,
        }
    }
}

impl Sub for Complex {
    type Output = Complex;

    ghost sub_gives = { λ x y r. r ≡ difference x y };

    fn sub(self, other: Complex) -> Complex {
        Complex {
            re: self.re - other.re,
            im: self.im - other.im,
        }
    }
}

impl Mul for Complex {
    type Output = Complex;

    ghost mul_gives = { λ x y r. r ≡ product x y };

    fn mul(self, other: Complex) -> Complex {
        Complex {
            re: self.re * other.re - self.im * other.im,
            im: self.re * other.im + self.im * other.re,
        }
    }
}

impl Complex {
    pub fn conj(self) -> Complex
        ensures { result ≡ conjugate self }
    {
        Complex {
            re: self.re,
            im: -self.im,
        }
    }

    pub fn scale(self, factor: f64) -> Complex
        ensures { result ≡ scaled self factor }
    {
        Complex {
            re: self.re * factor,
            im: self.im * factor,
        }
    }

    pub fn norm_sqr(self) -> f64
        ensures { result ≡ squared_magnitude self }
    {
        self.re * self.re + self.im * self.im
    }
}
