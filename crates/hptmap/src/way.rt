// The directions of a merge.

/// What is made of the payloads of a common key, and which side goes first.
#[derive(Clone, Copy, Debug, PartialEq, Eq)]
pub enum Way {
    Join,
    Widen,
    JoinBack,
    WidenBack,
}
