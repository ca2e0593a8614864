// Small whole numbers kept as floats, exactly, in memory that anyone may have written: any float reads as a number in range.
#![tactic(auto)]

ghost use Rattle.std.specs.Prelude.{◌≡◌, ◌<◌, [], ◌∷◌};
ghost use Rattle.exact_numbers.specs.Numbers.{kept_number, number_in, kept_flag, flag_in, shift_of, index_of, kept_pair, first_in, second_in};

// The whole part of x where it is 0..limit, else 0.
pub fn number(x: f64, limit: u16) -> u16
    ensures { result ≡ number_in limit x }
{
    if x > -1.0 && x < 18446744073709551616.0 {
        let n = std::num::truncating_f64_to_u64(x);
        if n <= u64::from(limit) {
            return n as u16;
        }
    }
    0
}

pub fn kept_number(n: u16) -> f64
    ensures { result ≡ kept_number n }
{
    f64::from(n)
}

pub fn flag(x: f64) -> bool
    ensures { result ≡ flag_in x }
{
    x == 1.0
}

pub fn kept_flag(b: bool) -> f64
    ensures { result ≡ kept_flag b }
{
    f64::from(b)
}

// An index counted from -128, and back.
fn shifted(index: i8) -> u16
    ensures { (result ≡ shift_of index) × (result < 256) }
{
    (i32::from(index) + 128) as u16
}

fn index(n: u16) -> i8
    requires { n < 256 }
    ensures { result ≡ index_of n }
{
    (i32::from(n) - 128) as i8
}

// The two indices of a float.
pub fn indices(x: f64) -> [i8; 2]
    ensures { result ≡ first_in x ∷ second_in x ∷ [] }
{
    let both = number(x, 65535);
    [index(both / 256), index(both % 256)]
}

pub fn kept_pair(first: i8, second: i8) -> f64
    ensures { result ≡ kept_pair first second }
{
    kept_number(256 * shifted(first) + shifted(second))
}
