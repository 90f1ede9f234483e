/// A tree, and how deep its nodes nest.
#[derive(Drop)]
pub struct Measured<T> {
    pub tree: T,
    pub height: u32,
}
