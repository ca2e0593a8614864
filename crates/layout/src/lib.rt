// The two layouts of §8.6.4: 20 stereo bands over 71 hybrid channels, 34 over 91. A layout's numbers belong to its type.
#![tactic(auto)]

ghost use Rattle.std.specs.Prelude.{◌≡◌, ◌≤◌};
ghost use Rattle.layout.specs.Numbers.{bands_of, channels_of, split_of, unsplit_from_of, first_channel_of, all_pass_of, short_delay_of, groups_of, kind_of, decay_cutoff_of, edge_shift_of, reset_from_of};

#[derive(Clone, Copy)]
pub struct Twenty;

impl Twenty {
    pub const BANDS: usize = 20;

    pub const CHANNELS: usize = 71;

    pub const SPLIT: usize = 3;

    pub const UNSPLIT_FROM: usize = 10;

    pub const ALL_PASS: usize = 30;

    pub const SHORT_DELAY: usize = 42;

    pub const GROUPS: usize = 8;

    pub const DECAY_CUTOFF: usize = 10;

    pub const EDGE_SHIFT: usize = 7;
}

#[derive(Clone, Copy)]
pub struct ThirtyFour;

impl ThirtyFour {
    pub const BANDS: usize = 34;

    pub const CHANNELS: usize = 91;

    pub const SPLIT: usize = 5;

    pub const UNSPLIT_FROM: usize = 32;

    pub const ALL_PASS: usize = 50;

    pub const SHORT_DELAY: usize = 62;

    pub const GROUPS: usize = 13;

    pub const DECAY_CUTOFF: usize = 32;

    pub const EDGE_SHIFT: usize = 27;
}

#[derive(Clone, Copy, Debug, PartialEq, Eq)]
pub enum Layout {
    Bands20,
    Bands34,
}

// How a channel is de-correlated: by an all-pass chain, by a delay of 14 slots, or by one of one slot.
#[derive(Clone, Copy, Debug, PartialEq, Eq)]
pub enum Kind {
    AllPass,
    Long,
    Short,
}

// Kept: each number is matched by hand: a macro may not write items, and a trait of Twenty and ThirtyFour would say each of them three times.
impl Layout {
    // Stereo bands.
    pub fn bands(self) -> usize
        ensures { result ≡ bands_of self }
    {
        match self {
            Layout::Bands20 => Twenty::BANDS,
            Layout::Bands34 => ThirtyFour::BANDS,
        }
    }

    // Hybrid channels.
    pub fn channels(self) -> usize
        ensures { result ≡ channels_of self }
    {
        match self {
            Layout::Bands20 => Twenty::CHANNELS,
            Layout::Bands34 => ThirtyFour::CHANNELS,
        }
    }

    // QMF bands that are split.
    pub fn split(self) -> usize
        ensures { result ≡ split_of self }
    {
        match self {
            Layout::Bands20 => Twenty::SPLIT,
            Layout::Bands34 => ThirtyFour::SPLIT,
        }
    }

    // The hybrid channel of the first QMF band that is not split.
    pub fn unsplit_from(self) -> usize
        ensures { result ≡ unsplit_from_of self }
    {
        match self {
            Layout::Bands20 => Twenty::UNSPLIT_FROM,
            Layout::Bands34 => ThirtyFour::UNSPLIT_FROM,
        }
    }

    // The first hybrid channel of split QMF band p, or of the band after the last.
    // Kept: `match`, which synthesis asks twice a band and slot: `get` of a list is slower (0.4 % of a frame's instructions).
    pub fn first_channel(self, p: usize) -> usize
        ensures { result ≡ first_channel_of self p }
    {
        match self {
            Layout::Bands20 => match p {
                0 => 0,
                1 => 6,
                2 => 8,
                _ => Twenty::UNSPLIT_FROM,
            },
            Layout::Bands34 => match p {
                0 => 0,
                1 => 12,
                2 => 20,
                3 => 24,
                4 => 28,
                _ => ThirtyFour::UNSPLIT_FROM,
            },
        }
    }

    // Channels with an all-pass chain, the first ones.
    pub fn all_pass(self) -> usize
        ensures { result ≡ all_pass_of self }
    {
        match self {
            Layout::Bands20 => Twenty::ALL_PASS,
            Layout::Bands34 => ThirtyFour::ALL_PASS,
        }
    }

    // The first channel with a delay of one slot.
    pub fn short_delay(self) -> usize
        ensures { result ≡ short_delay_of self }
    {
        match self {
            Layout::Bands20 => Twenty::SHORT_DELAY,
            Layout::Bands34 => ThirtyFour::SHORT_DELAY,
        }
    }

    // Groups of four all-pass channels; the last group's last lanes may have none.
    pub fn groups(self) -> usize
        ensures { result ≡ groups_of self }
    {
        match self {
            Layout::Bands20 => Twenty::GROUPS,
            Layout::Bands34 => ThirtyFour::GROUPS,
        }
    }

    // The kind of channel k.
    pub fn kind(self, k: usize) -> Kind
        ensures { result ≡ kind_of self k }
    {
        match self {
            Layout::Bands20 => match k {
                0..=29 => Kind::AllPass,
                30..=41 => Kind::Long,
                _ => Kind::Short,
            },
            Layout::Bands34 => match k {
                0..=49 => Kind::AllPass,
                50..=61 => Kind::Long,
                _ => Kind::Short,
            },
        }
    }

    // The last channel whose all-pass chain does not decay.
    pub fn decay_cutoff(self) -> usize
        ensures { result ≡ decay_cutoff_of self }
    {
        match self {
            Layout::Bands20 => Twenty::DECAY_CUTOFF,
            Layout::Bands34 => ThirtyFour::DECAY_CUTOFF,
        }
    }

    fn edge_shift(self) -> usize
        ensures { (result ≡ edge_shift_of self) × (result ≤ 27) }
    {
        match self {
            Layout::Bands20 => Twenty::EDGE_SHIFT,
            Layout::Bands34 => ThirtyFour::EDGE_SHIFT,
        }
    }

    // The channel from which a frame's own reset clears the delays, by the spectrum edge.
    pub fn reset_from(self, edge: usize) -> usize
        ensures { result ≡ reset_from_of self edge }
    {
        (edge.min(64) + self.edge_shift()).min(self.channels())
    }
}
