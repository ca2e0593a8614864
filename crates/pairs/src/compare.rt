// The numbers of two runs, frame after frame, bit for bit. Each frame has 4,096 places.
use super::marks::Bands;

// One side: how many numbers of the QMF bands that are held are alike, the place of the first that is not, and the QMF bands that have a number which differs.
#[derive(Clone, Copy)]
pub struct Compared {
    pub numbers: u64,
    pub first: Option<usize>,
    pub different: Bands,
}

// 0 and -0 differ, as their reciprocals do; what is not a number is like nothing.
fn alike(a: f64, b: f64) -> bool {
    if a == 0.0 {
        return b == 0.0 && 1.0 / a == 1.0 / b;
    }
    a == b
}

// Of each frame the places before an end are written.
pub fn compare<const N: usize>(held: Bands, a: &[f64; N], b: &[f64; N], end: usize) -> Compared {
    let mut compared = Compared {
        numbers: 0,
        first: None,
        different: Bands::NONE,
    };
    for (at, (x, y)) in a.iter().zip(b).enumerate() {
        let band = at % 128 / 2;
        let same = alike(*x, *y);
        if !same {
            compared.different.insert(band);
        }
        if held.has(band) && at % 4096 < end {
            if same {
                compared.numbers = compared.numbers.wrapping_add(1);
            } else if compared.first.is_none() {
                compared.first = Some(at);
            }
        }
    }
    compared
}
