// Floats as bytes, the lowest byte first: any eight bytes are read, any float is written.
#![tactic(auto)]

ghost use Rattle.std.specs.Prelude.{◌≡◌, ◌*◌, length, get_or};
ghost use Rattle.std.specs.Float.{binary64};
ghost use Rattle.std.specs.Float.Ieee.{of_bits, to_bits};
ghost use Rattle.float_bytes.specs.Bytes.{bytes_at, half_at, word_at, floats_of, bytes_of, moved, filled, written};

// The float of a pattern. Every NaN pattern gives a NaN, of no particular sign or payload.
pub fn float_of(n: u64) -> f64
    ensures { result ≡ of_bits binary64 n }
{
    if n % 0x8000_0000_0000_0000 > 0x7ff0_0000_0000_0000 {
        f64::NAN
    } else {
        f64::from_bits(n)
    }
}

// The pattern of a float: of any NaN 0x7ff8_0000_0000_0000.
pub fn bits_of(x: f64) -> u64
    ensures { result ≡ to_bits binary64 x }
{
    if x.is_nan() {
        0x7ff8_0000_0000_0000
    } else {
        x.to_bits()
    }
}

// The bytes from a place on; zeros where there are not as many.
fn bytes_at<const N: usize>(b: &[u8], at: usize) -> [u8; N]
    ensures { result ≡ bytes_at N b.now at }
{
    if let Some(rest) = b.get(at..)
        && let Some(bytes) = rest.first_chunk()
    {
        return *bytes;
    }
    [0; N]
}

// The byte at a place, and the numbers of the four and of the eight bytes from there on; 0 where there are not as many.
pub fn byte_at(b: &[u8], at: usize) -> u8
    ensures { result ≡ get_or b.now at 0 }
{
    b.get(at).copied().unwrap_or(0)
}

// Kept: a function for each width, since `from_le_bytes` is each type's own and of no trait; `bytes_at` has what is common.
pub fn half_at(b: &[u8], at: usize) -> u32
    ensures { result ≡ half_at b.now at }
{
    u32::from_le_bytes(bytes_at(b, at))
}

pub fn word_at(b: &[u8], at: usize) -> u64
    ensures { result ≡ word_at b.now at }
{
    u64::from_le_bytes(bytes_at(b, at))
}

fn fill(b: &[u8], out: &mut [f64])
    requires { length b.now ≡ length out.old * 8 }
    ensures { out.new ≡ floats_of (length out.old) b.now }
{
    // Kept: `out[i]`, for of what `out.iter_mut().zip(..)` writes a proof knows nothing after the loop; the same below.
    for (i, word) in b.as_chunks().0.iter().enumerate() {
        out[i] = float_of(u64::from_le_bytes(*word));
    }
}

fn spill(xs: &[f64], out: &mut [u8])
    requires { length out.old ≡ length xs.now * 8 }
    ensures { out.new ≡ bytes_of xs.now }
{
    for (i, x) in xs.iter().enumerate() {
        out[8 * i..8 * i + 8].copy_from_slice(&bits_of(*x).to_le_bytes());
    }
}

// Kept: a `bool`: a Result is no plainer, for every caller hands on rows that fit and drops the answer.
// Reads a row of floats. True exactly if there are eight bytes to a float; otherwise nothing is written.
#[tactic(auto, unfolding(crate::specs::Bytes::filled))]
pub fn read_floats(b: &[u8], out: &mut [f64]) -> bool
    ensures { moved result out.new ≡ filled b.now out.old }
{
    if b.len() != out.len() * 8 {
        return false;
    }
    fill(b, out);
    true
}

// Kept: a `bool`: a Result is no plainer, for its caller hands on a row that fits and drops the answer.
// Writes a row of floats. True exactly if there are eight bytes to a float; otherwise nothing is written.
#[tactic(auto, unfolding(crate::specs::Bytes::written))]
pub fn write_floats(xs: &[f64], out: &mut [u8]) -> bool
    ensures { moved result out.new ≡ written xs.now out.old }
{
    if out.len() != xs.len() * 8 {
        return false;
    }
    spill(xs, out);
    true
}
