/// A board and a label queue, lent by the caller.
#[derive(Drop)]
pub struct QueuePair<'b, 'l, B, L> {
    pub board: &'b mut B,
    pub labels: &'l mut L,
}
