// How large a frame and its line can be: the numbers that document 01 fixes and those that follow from them, once for the code here and once for the
// definitions in specs/Limits, held together by `all`.
#![tactic(auto)]

ghost use Rattle.std.specs.Prelude.{◌≡◌, [], ◌∷◌};
ghost use Rattle.limits.specs.Limits as limits;

// Envelopes of a frame.
pub const ENVELOPES: usize = 4;
// A line's bytes 0 to 3, then for each envelope a border and the rows of IID, ICC, IPD and OPD, of at most 34, 34, 17 and 17 deltas after a time byte.
pub const BYTES: usize = 4 + 107 * ENVELOPES;
// Two digits a byte.
pub const DIGITS: usize = 2 * BYTES;
// Where a frame's coefficients stand: at the border kept from the frame before, and at each envelope's.
pub const BORDERS: usize = ENVELOPES + 1;
// A band's course: eight numbers at each border.
pub const COURSE: usize = 8 * BORDERS;
// The courses of 34 bands.
pub const MATRICES: usize = 34 * COURSE;
// For each envelope how far each of 32 slots lies on the way to its border.
pub const FRACTIONS: usize = 32 * ENVELOPES;

// The limits as the definitions have them.
pub fn all() -> [usize; 7]
    ensures { result ≡ limits.envelopes ∷ limits.bytes ∷ limits.digits ∷ limits.borders ∷ limits.course ∷ limits.matrices ∷ limits.fractions ∷ [] }
{
    [
        ENVELOPES, BYTES, DIGITS, BORDERS, COURSE, MATRICES, FRACTIONS,
    ]
}
