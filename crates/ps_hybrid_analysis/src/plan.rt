// Which filters a split QMF band has, and where they go: Tables 8.37 and 8.38, Figures 8.20 and 8.22.
ghost use Rattle.std.specs.Prelude.{◌≡◌, ◌<◌};
ghost use Rattle.layout.specs.Numbers.{split_of, unsplit_from_of};
ghost use Rattle.standard.specs.Hybrid.{prototype_for, filters_of, type_a, channel_for};
ghost use Rattle.ps_hybrid_analysis.specs.Stages.{turn_of};

use decimals::Prototype;
use layout::Layout;

// The prototype of QMF band p.
pub fn prototype_for(layout: Layout, p: usize) -> Prototype
    ensures { result ≡ prototype_for layout p }
{
    match layout {
        Layout::Bands20 => match p {
            0 => Prototype::EighthsOfBand0,
            _ => Prototype::Halves,
        },
        Layout::Bands34 => match p {
            0 => Prototype::Twelfths,
            1 => Prototype::EighthsOfBand1,
            _ => Prototype::Quarters,
        },
    }
}

// How many filters a prototype has.
pub fn filters_of(prototype: Prototype) -> usize
    ensures { result ≡ filters_of prototype }
{
    match prototype {
        Prototype::EighthsOfBand0 => 8,
        Prototype::Halves => 2,
        Prototype::Twelfths => 12,
        Prototype::EighthsOfBand1 => 8,
        Prototype::Quarters => 4,
    }
}

// The unit root that modulates tap m of filter q.
pub fn turn(prototype: Prototype, q: usize, m: usize) -> usize
    requires { (q < 12) × (m < 13) }
    ensures { (result ≡ turn_of prototype q m) × (result < 24) }
{
    let odd = (2 * q + 1) * (m + 42);
    let quarter = 4 * q * (m + 42);
    match prototype {
        Prototype::EighthsOfBand0 => odd % 16,
        Prototype::Halves => quarter % 8,
        Prototype::Twelfths => odd % 24,
        Prototype::EighthsOfBand1 => odd % 16,
        Prototype::Quarters => odd % 8,
    }
}

// Filters of type B have real taps.
pub fn is_complex(prototype: Prototype) -> bool
    ensures { result ≡ type_a prototype }
{
    match prototype {
        Prototype::EighthsOfBand0 => true,
        Prototype::Halves => false,
        Prototype::Twelfths => true,
        Prototype::EighthsOfBand1 => true,
        Prototype::Quarters => true,
    }
}

// QMF band 0's filters join to six channels, band 1's are exchanged.
fn channel_of_71(p: usize, q: usize) -> usize
    requires { q < 12 }
    ensures { result ≡ channel_for Layout.Bands20 p q }
{
    match p {
        0 => match q {
            6 => 0,
            7 => 1,
            0 => 2,
            1 => 3,
            2 | 5 => 4,
            _ => 5,
        },
        1 => match q {
            0 => 7,
            _ => 6,
        },
        _ => 8 + q,
    }
}

// The hybrid channel of filter q of QMF band p.
pub fn channel(layout: Layout, p: usize, q: usize) -> usize
    requires { (p < split_of layout) × (q < filters_of (prototype_for layout p)) }
    ensures { (result ≡ channel_for layout p q) × (result < unsplit_from_of layout) }
{
    match layout {
        Layout::Bands20 => channel_of_71(p, q),
        Layout::Bands34 => layout.first_channel(p) + q,
    }
}
