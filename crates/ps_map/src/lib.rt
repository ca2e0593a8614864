// Band maps (source document 003, §8.6.4.6.1): parameters and coefficients brought from one number of stereo bands to another, and the stereo band
// of each hybrid channel.
#![tactic(auto)]

mod channels;
mod sources;

ghost use Rattle.std.specs.Prelude.{◌≡◌, ◌≤◌, length};
ghost use Rattle.lists.specs.All.{all};
ghost use Rattle.ps_map.specs.Bands.{parameter_map, conjugated_of};
ghost use Rattle.ps_map.specs.Maps.{duplicated, map_row, padded_row, extended_to, map_coefficients};
ghost use Rattle.ps_map.specs.Standalone.{length_fits, value_fits, by_values, map_indices};

use answer::Answer;
use layout::Layout;

// Where a band's parameter comes from.
#[derive(Clone, Copy)]
pub enum MapSrc {
    // A copy of one band.
    Single(usize),
    // The average of two bands, and of four.
    Avg(usize, usize),
    Avg4(usize, usize, usize, usize),
    // (2a + b)/3, and (a + 2b)/3.
    W21(usize, usize),
    W12(usize, usize),
}

// A mapped row, with zeros after it, and how many bands it is for.
#[derive(Clone, Copy)]
pub struct Mapped {
    pub bands: usize,
    pub row: [i8; 34],
}

// b(k): the stereo band of each hybrid channel.
pub fn parameter_map(layout: Layout) -> [u8; 91]
    ensures { result ≡ parameter_map layout }
{
    match layout {
        Layout::Bands20 => channels::B_K_20,
        Layout::Bands34 => channels::B_K_34,
    }
}

// Whether a hybrid channel takes conjugated coefficients.
pub fn conjugated(layout: Layout, channel: usize) -> bool
    ensures { result ≡ conjugated_of layout channel }
{
    match layout {
        Layout::Bands20 => channel < 2,
        Layout::Bands34 => (9..12).contains(&channel),
    }
}

// A row in 34 places: its first 34 numbers, zeros after them.
fn copied(v: &[i8]) -> [i8; 34]
    ensures { result ≡ padded_row v.now }
{
    std::array::from_fn(|i| v.get(i).copied().unwrap_or(0))
}

// From 10 to 20: each number twice.
fn doubled(v: &[i8]) -> [i8; 34]
    ensures { result ≡ padded_row (duplicated v.now) }
{
    std::array::from_fn(|i| v.get(i / 2).copied().unwrap_or(0))
}

// A row of 10, 20 or 34 indices for the bands of a layout.
pub fn map_row(v: &[i8], layout: Layout) -> [i8; 34]
    ensures { result ≡ padded_row (map_row v.now layout) }
{
    if v.len() == layout.bands() {
        return copied(v);
    }
    if v.len() != 10 {
        return sources::brought(v, layout);
    }
    let twice = doubled(v);
    match layout {
        Layout::Bands20 => twice,
        Layout::Bands34 => sources::brought(&twice[..20], layout),
    }
}

// The first numbers of a row, up to a length of at most 34, zeros after them.
pub fn extended(v: &[i8], length: usize) -> [i8; 34]
    ensures { result ≡ padded_row (extended_to length v.now) }
{
    copied(&v[..length.min(v.len())])
}

fn value_fits(value: i8) -> bool
    ensures { result ≡ value_fits value }
{
    (-15..=15).contains(&value)
}

fn all_values_fit(v: &[i8]) -> bool
    ensures { result ≡ all value_fits v.now }
{
    v.iter().all(|x| value_fits(*x))
}

fn length_fits(count: usize) -> bool
    ensures { result ≡ length_fits count }
{
    matches!(count, 10 | 20 | 34)
}

#[tactic(auto, unfolding(crate::specs::Standalone::by_values))]
fn map_values(v: &[i8], layout: Layout, target: usize) -> Result<Mapped, Answer>
    ensures { result ≡ by_values v.now layout target }
{
    if !all_values_fit(v) {
        return Err(Answer::Field);
    }
    Ok(Mapped {
        bands: target,
        row: map_row(v, layout),
    })
}

// The stand-alone map, for rows of any length and values, and any target.
#[tactic(auto, unfolding(crate::specs::Standalone::map_indices))]
pub fn map_indices(v: &[i8], target: usize) -> Result<Mapped, Answer>
    ensures { result ≡ map_indices v.now target }
{
    if !length_fits(v.len()) {
        return Err(Answer::Buffers);
    }
    match target {
        20 => map_values(v, Layout::Bands20, target),
        34 => map_values(v, Layout::Bands34, target),
        _ => Err(Answer::Buffers),
    }
}

// Held coefficients, one of the four and one part of it for each band, brought to a layout from the other one.
#[tactic(auto, unfolding(crate::specs::Maps::map_coefficients))]
pub fn map_coefficients(v: [f64; 34], layout: Layout) -> [f64; 34]
    ensures { result ≡ map_coefficients v layout }
{
    sources::brought(&v, layout)
}
