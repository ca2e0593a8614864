// No code: something of each kind of parameter, as a row, the rows of a frame or the mapped indices of an envelope.
#![tactic(auto)]

#[derive(Clone, Copy)]
pub struct Kinds<T> {
    pub iid: T,
    pub icc: T,
    pub ipd: T,
    pub opd: T,
}
