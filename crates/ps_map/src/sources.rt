// Tables 8.45 and 8.46 (source document 003), and what a source makes of a row.
ghost use Rattle.std.specs.Prelude.{◌≡◌, map, get_or};
ghost use Rattle.lists.specs.Padded.{padded};
ghost use Rattle.ps_map.specs.Maps.{Averages, index_averages, coefficient_averages, at, made};
ghost use Rattle.ps_map.specs.Tables.{sources_of};

use super::MapSrc;
use layout::Layout;

// Table 8.45: the source of each of 34 bands among 20.
const MAP_20_TO_34: [MapSrc; 34] = [
    MapSrc::Single(0),
    MapSrc::Avg(0, 1),
    MapSrc::Single(1),
    MapSrc::Single(2),
    MapSrc::Avg(2, 3),
    MapSrc::Single(3),
    MapSrc::Single(4),
    MapSrc::Single(4),
    MapSrc::Single(5),
    MapSrc::Single(5),
    MapSrc::Single(6),
    MapSrc::Single(7),
    MapSrc::Single(8),
    MapSrc::Single(8),
    MapSrc::Single(9),
    MapSrc::Single(9),
    MapSrc::Single(10),
    MapSrc::Single(11),
    MapSrc::Single(12),
    MapSrc::Single(13),
    MapSrc::Single(14),
    MapSrc::Single(14),
    MapSrc::Single(15),
    MapSrc::Single(15),
    MapSrc::Single(16),
    MapSrc::Single(16),
    MapSrc::Single(17),
    MapSrc::Single(17),
    MapSrc::Single(18),
    MapSrc::Single(18),
    MapSrc::Single(18),
    MapSrc::Single(18),
    MapSrc::Single(19),
    MapSrc::Single(19),
];

// Table 8.46: the source of each of 20 bands among 34.
const MAP_34_TO_20: [MapSrc; 20] = [
    MapSrc::W21(0, 1),
    MapSrc::W12(1, 2),
    MapSrc::W21(3, 4),
    MapSrc::W12(4, 5),
    MapSrc::Avg(6, 7),
    MapSrc::Avg(8, 9),
    MapSrc::Single(10),
    MapSrc::Single(11),
    MapSrc::Avg(12, 13),
    MapSrc::Avg(14, 15),
    MapSrc::Single(16),
    MapSrc::Single(17),
    MapSrc::Single(18),
    MapSrc::Single(19),
    MapSrc::Avg(20, 21),
    MapSrc::Avg(22, 23),
    MapSrc::Avg(24, 25),
    MapSrc::Avg(26, 27),
    MapSrc::Avg4(28, 29, 30, 31),
    MapSrc::Avg(32, 33),
];

// The sources of a layout's bands among those of the other layout.
#[tactic(auto, unfolding(crate::specs::Tables::map20to34, crate::specs::Tables::map34to20))]
fn sources(layout: Layout) -> &'static [MapSrc]
    ensures { result.now ≡ sources_of layout }
{
    match layout {
        Layout::Bands20 => &MAP_34_TO_20,
        Layout::Bands34 => &MAP_20_TO_34,
    }
}

// A kind of number that is brought from one number of bands to another.
pub trait Averaged: Copy {
    ghost averages: { Averages Self };

    // What stands past a row's end.
    fn none() -> Self
        ensures { result ≡ averages.none };

    fn of_two(a: Self, b: Self) -> Self
        ensures { result ≡ averages.of_two a b };

    fn of_four(a: Self, b: Self, c: Self, d: Self) -> Self
        ensures { result ≡ averages.of_four a b c d };

    fn first_twice(a: Self, b: Self) -> Self
        ensures { result ≡ averages.first_twice a b };

    fn second_twice(a: Self, b: Self) -> Self
        ensures { result ≡ averages.second_twice a b };
}

// Indices are averaged in whole numbers, toward zero.
impl Averaged for i8 {
    ghost averages = { index_averages };

    fn none() -> i8 {
        0
    }

    fn of_two(a: i8, b: i8) -> i8 {
        ((i32::from(a) + i32::from(b)) / 2) as i8
    }

    fn of_four(a: i8, b: i8, c: i8, d: i8) -> i8 {
        ((i32::from(a) + i32::from(b) + i32::from(c) + i32::from(d)) / 4) as i8
    }

    fn first_twice(a: i8, b: i8) -> i8 {
        ((2 * i32::from(a) + i32::from(b)) / 3) as i8
    }

    fn second_twice(a: i8, b: i8) -> i8 {
        ((i32::from(a) + 2 * i32::from(b)) / 3) as i8
    }
}

// Coefficients in floats, each operation rounded once.
#[tactic(auto, using(crate::proofs::Literals::none, crate::proofs::Literals::two, crate::proofs::Literals::three, crate::proofs::Literals::four))]
impl Averaged for f64 {
    ghost averages = { coefficient_averages };

    fn none() -> f64 {
        0.0
    }

    fn of_two(a: f64, b: f64) -> f64 {
        (a + b) / 2.0
    }

    fn of_four(a: f64, b: f64, c: f64, d: f64) -> f64 {
        (a + b + c + d) / 4.0
    }

    fn first_twice(a: f64, b: f64) -> f64 {
        (2.0 * a + b) / 3.0
    }

    fn second_twice(a: f64, b: f64) -> f64 {
        (a + 2.0 * b) / 3.0
    }
}

// The number at a band.
fn at<T: Averaged>(v: &[T], band: usize) -> T
    ensures { result ≡ at T.averages v.now band }
{
    v.get(band).copied().unwrap_or(T::none())
}

// The number that a source makes.
fn made<T: Averaged>(source: MapSrc, v: &[T]) -> T
    ensures { result ≡ made T.averages v.now source }
{
    match source {
        MapSrc::Single(i) => at(v, i),
        MapSrc::Avg(i, j) => T::of_two(at(v, i), at(v, j)),
        MapSrc::Avg4(i, j, k, l) => T::of_four(at(v, i), at(v, j), at(v, k), at(v, l)),
        MapSrc::W21(i, j) => T::first_twice(at(v, i), at(v, j)),
        MapSrc::W12(i, j) => T::second_twice(at(v, i), at(v, j)),
    }
}

// The number that the source at a place makes, and what stands past a row's end where there is none.
fn placed<T: Averaged>(sources: &[MapSrc], v: &[T], place: usize) -> T
    ensures { result ≡ get_or (map (made T.averages v.now) sources.now) place T.averages.none }
{
    match sources.get(place) {
        Some(source) => made(*source, v),
        None => T::none(),
    }
}

// A row brought to a layout's bands from those of the other layout.
pub fn brought<T: Averaged>(v: &[T], layout: Layout) -> [T; 34]
    ensures { result ≡ padded 34 T.averages.none (map (made T.averages v.now) (sources_of layout)) }
{
    let sources = sources(layout);
    std::array::from_fn(|i| placed(sources, v, i))
}
