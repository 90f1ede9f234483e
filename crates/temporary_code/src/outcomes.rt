use crate::temporaries::Temporaries;
use code_parts::{Fork, Part};
use program::{Expr, LVal};
use sqlite_items::Items;

/// The side effects of an expression of scalar type, the value that is left, and the temporaries behind it.
#[derive(Drop)]
pub struct Valued {
    pub parts: Items<Part>,
    pub value: Expr,
    pub temps: Temporaries,
}

/// The same of an lvalue, with the place that it designates.
#[derive(Drop)]
pub struct Placed {
    pub parts: Items<Part>,
    pub place: LVal,
    pub temps: Temporaries,
}

/// The same of the arguments of a call.
#[derive(Drop)]
pub struct Listed {
    pub parts: Items<Part>,
    pub values: Items<Expr>,
    pub temps: Temporaries,
}

/// A condition, and the temporaries behind it.
#[derive(Drop)]
pub struct Forked {
    pub fork: Fork,
    pub temps: Temporaries,
}

/// The side effects of an expression whose value isn't used, and the temporaries behind them.
#[derive(Drop)]
pub struct Done {
    pub parts: Items<Part>,
    pub temps: Temporaries,
}
