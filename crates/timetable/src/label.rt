/// An entry of the label memory: the minute at which a search comes to a place, and the place that it came from; at the start
/// of a row, the departure and the connection of its rank.
#[derive(Clone, Copy, PartialEq, Eq, Default, Debug)]
pub struct Label {
    pub minute: u32,
    pub origin: u32,
}

impl Label {
    /// No minute, and no place. The format of the label memory is fixed, and has no `Option`.
    pub const NONE: u32 = u32::MAX;

    /// The entry of a place that a search does not come to: neither minute nor origin.
    pub const BLANK: Label = Label {
        minute: Label::NONE,
        origin: Label::NONE,
    };
}
