use c_tree::Stmt;

/// A statement, and whether it ends in an `if` without `else`.
#[derive(Drop)]
pub struct Built {
    pub tree: Stmt,
    pub waits: bool,
}
