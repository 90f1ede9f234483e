use crate::{Returning, definitions, normalise};
use c_lex::tokens;
use c_tree::{
    BlockItem, DeclForm, Declarator, Ex, ExForm, Item, Param, Spec, Stmt, StmtForm, Unit,
};
use c_types::IntKind;
use program::{BinOp, Expr, Place, same_expr};
use sqlite_items::{Boxed, Items};
use std::alloc::{AllocError, Global};
use std::test::Fail;

fn one<T: Drop>(alloc: Global, item: T) -> Result<Items<T>, AllocError> {
    let mut items = Items::new(alloc);
    items.push(item)?;
    Ok(items)
}

/// A function by the tokens of its type, its name and its `return`.
fn function(
    alloc: Global,
    at: u32,
    name: u32,
    params: Items<Param>,
    jump: u32,
    value: Ex,
) -> Result<Item, AllocError> {
    let inner = Declarator {
        at: name,
        form: DeclForm::Name,
    };
    let statement = Stmt {
        at: jump,
        form: StmtForm::Return(Some(value)),
    };
    Ok(Item::Function {
        at,
        specs: one(alloc, Spec::Word { at })?,
        declarator: Declarator {
            at: name,
            form: DeclForm::Function {
                inner: Boxed::new(alloc, inner)?,
                params,
                variadic: false,
            },
        },
        body: Stmt {
            at: jump,
            form: StmtForm::Block(one(alloc, BlockItem::Stmt(statement))?),
        },
    })
}

fn int(at: u32) -> Ex {
    Ex {
        at,
        form: ExForm::Int,
    }
}

/// `int f(void){return 3;}` from the token 0 on.
fn first(alloc: Global) -> Result<Item, AllocError> {
    let void = Param {
        at: 3,
        specs: one(alloc, Spec::Word { at: 3 })?,
        declarator: Declarator {
            at: 4,
            form: DeclForm::Abstract,
        },
    };
    function(alloc, 0, 1, one(alloc, void)?, 6, int(7))
}

/// `int g(){return 6/4*2;}` from the token 10 on.
fn second(alloc: Global) -> Result<Item, AllocError> {
    let four = Boxed::new(alloc, int(18))?;
    let quotient = Ex {
        at: 16,
        form: ExForm::Binary(17, Boxed::new(alloc, int(16))?, four),
    };
    let two = Boxed::new(alloc, int(20))?;
    let product = Ex {
        at: 16,
        form: ExForm::Binary(19, Boxed::new(alloc, quotient)?, two),
    };
    function(alloc, 10, 11, Items::new(alloc), 15, product)
}

fn different(alloc: Global) -> Result<Unit, AllocError> {
    let mut items = one(alloc, first(alloc)?)?;
    items.push(second(alloc)?)?;
    Ok(Unit { items })
}

fn twice(alloc: Global) -> Result<Unit, AllocError> {
    let mut items = one(alloc, first(alloc)?)?;
    items.push(first(alloc)?)?;
    Ok(Unit { items })
}

/// The definitions of a tree over the tokens of `int f(void){return 3;}` and `int g(){return 6/4*2;}`.
fn found(alloc: Global, tree: &Unit) -> Result<Option<Items<Returning>>, AllocError> {
    let file = b"int f(void){return 3;}\nint g(){return 6/4*2;}".as_slice();
    match tokens(alloc, file) {
        Ok(tokens) => definitions(alloc, file, tokens.as_slice(), tree),
        Err(_) => Ok(None),
    }
}

/// `6/4*2`
fn product(alloc: Global) -> Result<Expr, AllocError> {
    let six = Boxed::new(alloc, Expr::Const(IntKind::Int, 6))?;
    let four = Boxed::new(alloc, Expr::Const(IntKind::Int, 4))?;
    let quotient = Boxed::new(alloc, Expr::Binary(BinOp::Div, six, four))?;
    let two = Boxed::new(alloc, Expr::Const(IntKind::Int, 2))?;
    Ok(Expr::Binary(BinOp::Mul, quotient, two))
}

fn are_both(found: &[Returning], product: &Expr) -> bool {
    let [f, g] = found else {
        return false;
    };
    f.name.as_slice() == b"f".as_slice()
        && f.place.line == 1
        && same_expr(&f.value, &Expr::Const(IntKind::Int, 3))
        && g.name.as_slice() == b"g".as_slice()
        && g.place.line == 2
        && same_expr(&g.value, product)
}

#[test]
fn two_definitions(rt: HostRuntime) -> Result<(), Fail> {
    let tree = different(rt.alloc())?;
    let product = product(rt.alloc())?;
    match found(rt.alloc(), &tree)? {
        Some(found) => assert!(rt; are_both(found.as_slice(), &product)),
        None => assert!(rt; false),
    }
    Ok(())
}

#[test]
fn one_name_twice(rt: HostRuntime) -> Result<(), Fail> {
    let tree = twice(rt.alloc())?;
    assert!(rt; found(rt.alloc(), &tree)?.is_none());
    Ok(())
}

#[test]
fn graphs(rt: HostRuntime) -> Result<(), Fail> {
    let alloc = rt.alloc();
    for (name, nodes) in [(b"f".as_slice(), 2), (b"main".as_slice(), 3)] {
        let f = normalise(
            alloc,
            Returning {
                name: Items::from_slice(alloc, name)?,
                value: Expr::Const(IntKind::Int, 3),
                place: Place {
                    name_at: 0,
                    name_len: 0,
                    line: 1,
                },
            },
        )?;
        assert_eq!(rt; f.nodes.len(), nodes);
    }
    Ok(())
}
