/// A pair of moments: the departure at a source and the arrival at a target.
#[derive(Clone, Copy, PartialEq, Eq, Default, Debug)]
pub struct Pair {
    pub departure: u32,
    pub arrival: u32,
}
