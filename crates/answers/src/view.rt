/// The rows that a question looks at in a label memory: how many there are, how many entries each has, which station is
/// the target, and the period.
#[derive(Clone, Copy)]
pub struct View {
    pub rows: usize,
    pub width: usize,
    pub target: usize,
    pub period: u32,
}
