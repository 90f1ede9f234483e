// A slot of the list: a node, or what is left of one that is free.
use store_api::Shape;

#[derive(Clone, Copy, Debug)]
pub struct Slot {
    pub shape: Shape,
    pub first: usize,
    pub second: usize,
    /// The depth of the tree, 1 to 128.
    pub depth: u64,
    /// How many holds name it.
    pub holds: usize,
    /// How many subtrees of other nodes are this one; a free node still counts for its own.
    pub parents: usize,
    /// The next free slot, behind a free one.
    pub next: Option<usize>,
}
