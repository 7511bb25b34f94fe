//! What the manager of one thread keeps of each pass.

/// What a pass of the manager of one thread has used.
#[derive(Clone, Copy, Debug, PartialEq, Eq)]
pub struct PassState {
    /// The id of the row that it uses next.
    pub next: u32,
    /// How many rows are left to it, from that one on.
    pub left: u16,
    /// How many of its units of work are used.
    pub claimed: u16,
    /// The unit of work that it has claimed, and neither committed nor aborted itself.
    pub holding: Option<u16>,
    /// For each stage the row after the element that it took last in its turn, and 0 before.
    pub turns: [u32; 16],
}
