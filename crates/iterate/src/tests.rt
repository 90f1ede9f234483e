ghost use Rattle.std.specs.Prelude.{◌≡◌, ◌<◌, IfOk};
ghost use Rattle.constant_meaning.specs.ConstantExecution.{IsResultFunction};
ghost use Rattle.constant_meaning.specs.ConstantValue.{IsConstant};
ghost use Rattle.program.specs.Numbers.{count_expr};

use crate::{State, analyse_entry, constant_norm_is_taken, constant_run_is_unique};
use c_types::IntKind;
use normal_form::{Returning, normalise};
use program::{BinOp, Expr, Function, Kind, Place, Site};
use sqlite_items::{Boxed, Items};
use std::alloc::{AllocError, Global};
use std::test::Fail;

/// `left / right`
#[tactic(auto, using(normal_form::proofs::ConstantEquations::constant_expression_equations, program::proofs::Equations::count_equations))]
fn divided(alloc: Global, left: u32, right: u32) -> Result<Expr, AllocError>
    requires left { left < 2147483648 }
    requires right { right < 2147483648 }
    ensures constant { IfOk result (λ e. IsConstant e) }
    ensures count { IfOk result (λ e. count_expr e ≡ 3) }
{
    let dividend = Boxed::new(alloc, Expr::Const(IntKind::Int, left as i128))?;
    let divisor = Boxed::new(alloc, Expr::Const(IntKind::Int, right as i128))?;
    Ok(Expr::Binary(BinOp::Div, dividend, divisor))
}

/// A function that returns a constant expression.
fn function(alloc: Global, name: &[u8], value: Expr) -> Result<Function, AllocError>
    requires constant { IsConstant value }
    requires count { count_expr value ≡ 3 }
    ensures { IfOk result (λ f. IsResultFunction f) }
{
    constant_norm_is_taken();
    let definition = Returning {
        name: Items::from_slice(alloc, name)?,
        value,
        place: Place {
            name_at: 0,
            name_len: 0,
            line: 1,
        },
    };
    let f = normalise(alloc, definition)?;
    Ok(f)
}

fn quotient(alloc: Global, name: &[u8], left: u32, right: u32) -> Result<Function, AllocError>
    requires left { left < 2147483648 }
    requires right { right < 2147483648 }
    ensures { IfOk result (λ f. IsResultFunction f) }
{
    let value = divided(alloc, left, right)?;
    function(alloc, name, value)
}

#[test]
fn results(rt: HostRuntime) -> Result<(), Fail> {
    let alloc = rt.alloc();
    let f = analyse_entry(alloc, 0, &quotient(alloc, b"f", 6, 4)?)?;
    assert!(rt; f.end == State::Live(Some(1)) && f.alarms.is_empty() && f.turns == 2);
    // The `return` of `main` goes to the exit, past the node at its end.
    let main = analyse_entry(alloc, 0, &quotient(alloc, b"main", 6, 4)?)?;
    assert!(rt; main.end == State::Live(Some(1)) && main.alarms.is_empty() && main.turns == 2);
    Ok(())
}

#[test]
fn alarms(rt: HostRuntime) -> Result<(), Fail> {
    let alloc = rt.alloc();
    let f = analyse_entry(alloc, 3, &quotient(alloc, b"f", 6, 0)?)?;
    let alarm = Site {
        fun: 3,
        node: 0,
        sub: 1,
        kind: Kind::DivisionByZero,
    };
    assert!(rt; f.end == State::Bottom && f.turns == 1);
    assert!(rt; f.alarms.as_slice() == [alarm].as_slice());
    constant_run_is_unique();
    Ok(())
}
