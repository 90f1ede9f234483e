// The order of blocks.

/// How the block of one node lies to that of another. The block of a node is all the keys that have
/// the prefix of its keys.
#[derive(Clone, Copy, Debug, PartialEq, Eq)]
pub enum Blocks {
    /// They are one block.
    Equal,
    /// The first is larger and has the second in it.
    Around,
    /// The first lies in the second, which is larger.
    Inside,
    /// They have no key in common.
    Apart,
}
