// Sets of bands: the stereo bands of a pair, and its QMF bands.
use layout::Layout;
use std::fmt;

// At most 64 bands, a bit for each.
#[derive(Clone, Copy, Debug, PartialEq, Eq)]
pub struct Bands(u64);

impl Bands {
    pub const NONE: Bands = Bands(0);

    pub fn has(self, band: usize) -> bool {
        band < 64 && self.0 >> band & 1 == 1
    }

    pub fn insert(&mut self, band: usize) {
        if band < 64 {
            self.0 |= 1 << band;
        }
    }

    // The bands of the 64 that it lacks.
    pub fn others(self) -> Bands {
        Bands(!self.0)
    }

    // How many of its bands the other set has too.
    pub fn common(self, other: Bands) -> u64 {
        u64::from((self.0 & other.0).count_ones())
    }

    pub fn len(self) -> u64 {
        self.common(self)
    }
}

// The QMF bands that the two runs agree on, and those that have to come out alike.
#[derive(Clone, Copy)]
pub struct Columns {
    pub agreed: Bands,
    pub held: Bands,
}

// The QMF band of a hybrid channel (Figures 8.20 and 8.22).
fn column(layout: Layout, channel: usize) -> usize {
    let split = layout.split();
    if layout.unsplit_from() <= channel {
        return channel - layout.unsplit_from() + split;
    }
    (1..split)
        .filter(|p| layout.first_channel(*p) <= channel)
        .count()
}

// The stereo bands that have a channel in a QMF band.
fn bands_in(layout: Layout, band: usize) -> Bands {
    let map = ps_map::parameter_map(layout);
    let mut bands = Bands::NONE;
    for (channel, stereo) in map.iter().enumerate().take(layout.channels()) {
        if column(layout, channel) == band {
            bands.insert(usize::from(*stereo));
        }
    }
    bands
}

// What the runs of a pair agree on: one stereo band alone, or all that have a channel in a split QMF band.
#[derive(Clone, Copy)]
pub enum Agreed {
    Stereo(usize),
    Split(usize),
}

impl Agreed {
    // The first pairs are those of the stereo bands.
    pub fn of(layout: Layout, pair: usize) -> Agreed {
        let count = layout.bands();
        if pair < count {
            Agreed::Stereo(pair)
        } else {
            Agreed::Split(pair - count)
        }
    }

    // Its stereo bands.
    pub fn bands(self, layout: Layout) -> Bands {
        match self {
            Agreed::Stereo(band) => {
                let mut bands = Bands::NONE;
                bands.insert(band);
                bands
            }
            Agreed::Split(band) => bands_in(layout, band),
        }
    }
}

impl fmt::Display for Agreed {
    fn fmt<W: fmt::Write>(&self, f: &mut fmt::Formatter<W>) -> fmt::Result {
        match self {
            Agreed::Stereo(band) => write!(f, "stereo band {band}"),
            Agreed::Split(band) => write!(f, "split QMF band {band}"),
        }
    }
}

// The runs agree on a QMF band that feeds a channel of those bands; it is held if all of its channels are theirs.
pub fn columns_of(layout: Layout, bands: Bands) -> Columns {
    let map = ps_map::parameter_map(layout);
    let mut agreed = Bands::NONE;
    let mut free = Bands::NONE;
    for (channel, stereo) in map.iter().enumerate().take(layout.channels()) {
        let at = column(layout, channel);
        if bands.has(usize::from(*stereo)) {
            agreed.insert(at);
        } else {
            free.insert(at);
        }
    }
    Columns {
        agreed,
        held: free.others(),
    }
}
