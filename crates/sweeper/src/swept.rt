//! What the sweep of some blocks came to.

/// A stretch of blocks that was swept.
#[derive(Clone, Copy)]
pub struct Swept {
    /// The first block.
    pub block: u32,
    /// How many blocks they are, side by side.
    pub blocks: u32,
    /// The cells whose allocation bits the sweep cleared.
    pub freed: u32,
}
