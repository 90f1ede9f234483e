//! The expressions of int constants, brackets, unary `-` and binary `+ - * /`, from the tree.

ghost use Rattle.std.specs.Prelude.{◌≡◌, ◌+◌, ◌<◌, ◌≤◌, ◌^◌, ◌↔◌, IfOk, IsTrue, MatchOption};
ghost use Rattle.c_lex.specs.Source.{text_in};
ghost use Rattle.c_lex.specs.Constant.{int_constant};
ghost use Rattle.normal_form.specs.ConstantExpression.{IsConstant};
ghost use Rattle.normal_form.specs.ConstantForm as spec;
ghost use Rattle.program.specs.Numbers.{count_expr};

use c_lex::{Longs, Token, int_constant};
use c_tree::{Ex, ExForm};
use c_types::IntKind;
use program::{BinOp, Expr, UnOp};
use sqlite_items::Boxed;
use std::alloc::{AllocError, Global};

/// The text of a token of the file.
pub fn text_in<'a>(file: &'a [u8], tokens: &[Token], i: u32) -> &'a [u8]
    ensures { result.now ≡ text_in file.now tokens.now i }
{
    match tokens.get(i as usize) {
        Some(token) => token.text(file),
        None => &file[..0],
    }
}

/// The expression of an int constant.
fn int_of(text: &[u8]) -> Option<Expr>
    ensures { result ≡ spec.int_of (int_constant text.now) }
{
    let c = int_constant(text)?;
    if !c.unsigned && c.longs == Longs::Zero && c.value < 2147483648 {
        Some(Expr::Const(IntKind::Int, c.value as i128))
    } else {
        None
    }
}

fn operator(text: &[u8]) -> Option<BinOp>
    ensures { result ≡ spec.operator text.now }
{
    if text == b"+".as_slice() {
        Some(BinOp::Add)
    } else if text == b"-".as_slice() {
        Some(BinOp::Sub)
    } else if text == b"*".as_slice() {
        Some(BinOp::Mul)
    } else if text == b"/".as_slice() {
        Some(BinOp::Div)
    } else {
        None
    }
}

fn negated(alloc: Global, text: &[u8], operand: Option<Expr>) -> Result<Option<Expr>, AllocError>
    ensures { IfOk result (λ e. e ≡ spec.negated text.now operand) }
{
    match operand {
        Some(a) if text == b"-".as_slice() => {
            Ok(Some(Expr::Unary(UnOp::Neg, Boxed::new(alloc, a)?)))
        }
        _ => Ok(None),
    }
}

fn combined(
    alloc: Global,
    op: Option<BinOp>,
    left: Option<Expr>,
    right: Option<Expr>,
) -> Result<Option<Expr>, AllocError>
    ensures { IfOk result (λ e. e ≡ spec.combined op left right) }
{
    let Some(op) = op else { return Ok(None) };
    let Some(left) = left else { return Ok(None) };
    let Some(right) = right else { return Ok(None) };
    let left = Boxed::new(alloc, left)?;
    Ok(Some(Expr::Binary(op, left, Boxed::new(alloc, right)?)))
}

/// The expression that a tree stands for, where it is made of int constants, brackets, unary `-` and binary `+ - * /`.
/// `Err` only for want of memory.
#[cycle(folding)]
pub fn constant_of(
    alloc: Global,
    file: &[u8],
    tokens: &[Token],
    e: &Ex,
) -> Result<Option<Expr>, AllocError>
    ensures { IfOk result (λ made. made ≡ spec.constant_of (text_in file.now tokens.now) e.now) }
{
    match &e.form {
        ExForm::Int => Ok(int_of(text_in(file, tokens, e.at))),
        ExForm::Paren(a) => constant_of(alloc, file, tokens, a.get()),
        ExForm::Unary(a) => {
            let a = constant_of(alloc, file, tokens, a.get())?;
            negated(alloc, text_in(file, tokens, e.at), a)
        }
        ExForm::Binary(op, a, b) => {
            let a = constant_of(alloc, file, tokens, a.get())?;
            let b = constant_of(alloc, file, tokens, b.get())?;
            combined(alloc, operator(text_in(file, tokens, *op)), a, b)
        }
        _ => Ok(None),
    }
}

/// How many subexpressions a constant expression has, itself among them; `None` where they are 2^32 or more.
#[cycle(counting)]
#[tactic(auto, using(crate::proofs::ConstantCounts::constant_counts))]
fn count_of(e: &Expr) -> Option<u32>
    requires { IsConstant e.now }
    ensures { MatchOption result (2 ^ 32 ≤ count_expr e.now) (λ n. n ≡ count_expr e.now) }
{
    match e {
        Expr::Const(_, _) => Some(1),
        Expr::Unary(_, a) => count_of(a.get())?.checked_add(1),
        Expr::Binary(_, a, b) => {
            let left = count_of(a.get())?;
            let right = count_of(b.get())?;
            left.checked_add(right)?.checked_add(1)
        }
        Expr::Null | Expr::Load(_, _) | Expr::Addr(_) | Expr::Start(_) | Expr::Cast(_, _) => {
            unreachable!()
        }
    }
}

/// Whether the numbers of a constant expression's subexpressions lie below 2^32, where that of the target comes first.
pub fn is_numbered(e: &Expr) -> bool
    requires { IsConstant e.now }
    ensures { IsTrue result ↔ 1 + count_expr e.now < 2 ^ 32 }
{
    match count_of(e) {
        Some(count) => count < u32::MAX,
        None => false,
    }
}
