ghost use Rattle.std.specs.Prelude.{◌≡◌, ◌∷◌, [], IfOk, OnOk, ◌++◌};
ghost use Rattle.temporary_code.specs.Instructions.{base_of, int, kept, set, copy, set_temp, one, branching, type_read, volatile_read, reading, cast_to, computed, read_back, stored, assigned, updated, post_updated, struct_assigned, truth, chosen, struct_chosen, called, call_of, interval_of};
ghost use Rattle.program.specs.declared.expressions.Expr.TheVariants as expr;
ghost use Rattle.c_types.specs.declared.types.IntKind.TheVariants as kind;
ghost use Rattle.code_parts.specs.declared.parts.Part.TheVariants as part;

use crate::outcomes::{Forked, Listed, Placed, Valued};
use crate::temporaries::{Taken, take};
use c_types::{CType, IntKind, StructId, copy_type};
use code_parts::{Fork, Part, sized};
use program::{Expr, Instr, LVal, Place, What, copy_lval};
use sqlite_items::{Boxed, Items};
use std::alloc::{AllocError, Global};
use typed_tree::{Access, Callee, Operation, Target};

/// The base of the object of this number.
pub fn base_of(names: &[u32], n: u32) -> u32
    ensures { result ≡ base_of names.now n }
{
    match names.get(n as usize) {
        Some(b) => *b,
        None => 0,
    }
}

fn int() -> CType
    ensures { result ≡ int }
{
    CType::Int {
        kind: IntKind::Int,
        volatile: false,
    }
}

/// What stands in a temporary.
pub fn kept(base: u32, ty: CType) -> Expr
    ensures { result ≡ kept base ty }
{
    Expr::Load(LVal::Var(base), ty)
}

/// Adds a node.
pub fn node(parts: &mut Items<Part>, place: Place, instr: Instr) -> Result<(), AllocError>
    ensures { OnOk result (parts.new ≡ parts.old ++ part.Node place instr ∷ []) }
{
    parts.push(Part::Node(place, instr))
}

/// Adds an assignment.
pub fn set_part(parts: &mut Items<Part>, place: Place, l: LVal, e: Expr) -> Result<(), AllocError>
    ensures { OnOk result (parts.new ≡ parts.old ++ set place l e ∷ []) }
{
    node(parts, place, Instr::Set(l, e))
}

fn copy_part(parts: &mut Items<Part>, place: Place, to: LVal, from: LVal) -> Result<(), AllocError>
    ensures { OnOk result (parts.new ≡ parts.old ++ copy place to from ∷ []) }
{
    node(parts, place, Instr::Copy(to, from))
}

/// The type of the value that is read.
pub fn type_read(alloc: Global, access: &Access) -> Result<CType, AllocError>
    ensures { IfOk result (λ ty. ty ≡ type_read access.now) }
{
    match access {
        Access::Plain(ty) => copy_type(alloc, ty),
        Access::Volatile(kind) => Ok(CType::Int {
            kind: *kind,
            volatile: false,
        }),
    }
}

fn volatile_read(
    parts: &mut Items<Part>,
    place: Place,
    base: u32,
    l: LVal,
    kind: IntKind,
) -> Result<(), AllocError>
    ensures { OnOk result (parts.new ≡ parts.old ++ volatile_read place base l kind ∷ []) }
{
    node(
        parts,
        place,
        Instr::External(Some(base), What::Volatile(l, kind)),
    )
}

/// The value of an object, which a temporary takes where its read is a side effect.
#[tactic(auto, using(crate::proofs::Lists::list_rules), unfolding(crate::specs::Instructions::reading))]
pub fn reading(
    alloc: Global,
    place: Place,
    p: Placed,
    access: &Access,
) -> Result<Valued, AllocError>
    ensures { IfOk result (λ c. c ≡ reading place p access.now) }
{
    let Placed {
        mut parts,
        place: l,
        temps,
    } = p;
    match access {
        Access::Plain(ty) => Ok(Valued {
            parts,
            value: Expr::Load(l, copy_type(alloc, ty)?),
            temps,
        }),
        Access::Volatile(kind) => {
            let ty = CType::Int {
                kind: *kind,
                volatile: false,
            };
            let Taken { base, temps } = take(alloc, temps, &ty)?;
            volatile_read(&mut parts, place, base, l, *kind)?;
            Ok(Valued {
                parts,
                value: kept(base, ty),
                temps,
            })
        }
    }
}

fn cast_to(alloc: Global, to: &Option<CType>, e: Expr) -> Result<Expr, AllocError>
    ensures { IfOk result (λ c. c ≡ cast_to to.now e) }
{
    match to {
        Some(ty) => Ok(Expr::Cast(copy_type(alloc, ty)?, Boxed::new(alloc, e)?)),
        None => Ok(e),
    }
}

/// What a compound assignment computes from the old value and its right operand.
#[tactic(auto, using(crate::proofs::Lists::list_rules), unfolding(crate::specs::Instructions::computed))]
pub fn computed(alloc: Global, o: &Operation, old: Expr, right: Expr) -> Result<Expr, AllocError>
    ensures { IfOk result (λ e. e ≡ computed o.now old right) }
{
    let left = Boxed::new(alloc, cast_to(alloc, &o.left, old)?)?;
    let right = Boxed::new(alloc, right)?;
    cast_to(alloc, &o.back, Expr::Binary(o.op, left, right))
}

/// Adds the read of a bit-field behind its assignment.
fn read_back(
    alloc: Global,
    parts: &mut Items<Part>,
    place: Place,
    base: u32,
    l: LVal,
    access: &Access,
) -> Result<(), AllocError>
    ensures { OnOk result (parts.new ≡ parts.old ++ read_back place base l access.now ∷ []) }
{
    match access {
        Access::Plain(ty) => {
            let e = Expr::Load(l, copy_type(alloc, ty)?);
            set_part(parts, place, LVal::Var(base), e)
        }
        Access::Volatile(kind) => volatile_read(parts, place, base, l, *kind),
    }
}

/// Adds what keeps a value in a temporary and assigns it from there.
#[tactic(auto, using(crate::proofs::Lists::list_rules))]
fn stored(
    alloc: Global,
    parts: &mut Items<Part>,
    place: Place,
    base: u32,
    l: LVal,
    target: &Target,
    e: Expr,
) -> Result<(), AllocError>
    ensures { OnOk result (parts.new ≡ parts.old ++ stored place base l target.now e) }
{
    set_part(parts, place, LVal::Var(base), e)?;
    let value = kept(base, type_read(alloc, &target.access)?);
    if target.is_bit_field {
        let again = copy_lval(alloc, &l)?;
        set_part(parts, place, l, value)?;
        read_back(alloc, parts, place, base, again, &target.access)
    } else {
        set_part(parts, place, l, value)
    }
}

/// An assignment whose value is used, behind the side effects of its left operand.
#[tactic(auto, using(crate::proofs::Lists::list_rules), unfolding(crate::specs::Instructions::assigned))]
pub fn assigned(
    alloc: Global,
    place: Place,
    before: Items<Part>,
    l: LVal,
    target: &Target,
    r: Valued,
) -> Result<Valued, AllocError>
    ensures { IfOk result (λ c. c ≡ assigned place before l target.now r) }
{
    let Valued {
        parts: right,
        value,
        temps,
    } = r;
    let mut parts = before;
    parts.append(right)?;
    let ty = type_read(alloc, &target.access)?;
    let Taken { base, temps } = take(alloc, temps, &ty)?;
    stored(alloc, &mut parts, place, base, l, target, value)?;
    Ok(Valued {
        parts,
        value: kept(base, ty),
        temps,
    })
}

/// The right operand of a compound assignment, with what is computed in place of its value.
pub fn updated(alloc: Global, o: &Operation, old: Expr, r: Valued) -> Result<Valued, AllocError>
    ensures { IfOk result (λ c. c ≡ updated o.now old r) }
{
    let Valued {
        parts,
        value,
        temps,
    } = r;
    Ok(Valued {
        parts,
        value: computed(alloc, o, old, value)?,
        temps,
    })
}

/// `l++` or `l--` whose value is used: the old one, which the temporary of this base has taken.
#[tactic(auto, using(crate::proofs::Lists::list_rules), unfolding(crate::specs::Instructions::post_updated))]
pub fn post_updated(
    alloc: Global,
    place: Place,
    before: Items<Part>,
    old: Expr,
    l: LVal,
    base: u32,
    ty: CType,
    o: &Operation,
    r: Valued,
) -> Result<Valued, AllocError>
    ensures { IfOk result (λ c. c ≡ post_updated place before old l base ty o.now r) }
{
    let Valued {
        parts: right,
        value,
        temps,
    } = r;
    let mut parts = before;
    set_part(&mut parts, place, LVal::Var(base), old)?;
    parts.append(right)?;
    let was = kept(base, copy_type(alloc, &ty)?);
    let e = computed(alloc, o, was, value)?;
    set_part(&mut parts, place, l, e)?;
    Ok(Valued {
        parts,
        value: kept(base, ty),
        temps,
    })
}

/// An assignment of structs whose value is used, behind the side effects of its left operand.
#[tactic(auto, using(crate::proofs::Lists::list_rules), unfolding(crate::specs::Instructions::struct_assigned))]
pub fn struct_assigned(
    alloc: Global,
    place: Place,
    before: Items<Part>,
    to: LVal,
    id: StructId,
    from: Placed,
) -> Result<Placed, AllocError>
    ensures { IfOk result (λ p. p ≡ struct_assigned place before to id from) }
{
    let Placed {
        parts: right,
        place: source,
        temps,
    } = from;
    let mut parts = before;
    parts.append(right)?;
    let ty = CType::Struct(id);
    let Taken { base, temps } = take(alloc, temps, &ty)?;
    copy_part(&mut parts, place, LVal::Var(base), source)?;
    copy_part(&mut parts, place, to, LVal::Var(base))?;
    Ok(Placed {
        parts,
        place: LVal::Var(base),
        temps,
    })
}

/// A list of one part.
fn alone(alloc: Global, part: Part) -> Result<Items<Part>, AllocError>
    ensures { IfOk result (λ ps. ps ≡ one part) }
{
    let mut parts = Items::new(alloc);
    parts.push(part)?;
    Ok(parts)
}

/// A branch by itself.
pub fn branch(
    alloc: Global,
    c: Fork,
    on: Items<Part>,
    off: Items<Part>,
) -> Result<Items<Part>, AllocError>
    ensures { IfOk result (λ ps. ps ≡ branching c on off) }
{
    let c = Boxed::new(alloc, c)?;
    let on = Boxed::new(alloc, sized(on)?)?;
    let off = Boxed::new(alloc, sized(off)?)?;
    alone(alloc, Part::Branch(c, on, off))
}

fn flag(alloc: Global, place: Place, base: u32, n: i128) -> Result<Items<Part>, AllocError>
    ensures { IfOk result (λ ps. ps ≡ one (set_temp place base (expr.Const kind.Int n))) }
{
    let value = Expr::Const(IntKind::Int, n);
    alone(alloc, Part::Node(place, Instr::Set(LVal::Var(base), value)))
}

/// `&&` or `||` as a value.
#[tactic(auto, using(crate::proofs::Lists::list_rules), unfolding(crate::specs::Instructions::truth))]
pub fn truth(alloc: Global, place: Place, c: Forked) -> Result<Valued, AllocError>
    ensures { IfOk result (λ t. t ≡ truth place c) }
{
    let Forked { fork, temps } = c;
    let Taken { base, temps } = take(alloc, temps, &int())?;
    let on = flag(alloc, place, base, 1)?;
    let off = flag(alloc, place, base, 0)?;
    Ok(Valued {
        parts: branch(alloc, fork, on, off)?,
        value: kept(base, int()),
        temps,
    })
}

/// `?:` of scalar type, of which the temporary of this base takes the value.
#[tactic(auto, using(crate::proofs::Lists::list_rules), unfolding(crate::specs::Instructions::chosen))]
pub fn chosen(
    alloc: Global,
    place: Place,
    ty: CType,
    base: u32,
    c: Fork,
    first: Items<Part>,
    a: Expr,
    second: Valued,
) -> Result<Valued, AllocError>
    ensures { IfOk result (λ v. v ≡ chosen place ty base c first a second) }
{
    let Valued {
        parts: mut off,
        value: b,
        temps,
    } = second;
    let mut on = first;
    set_part(&mut on, place, LVal::Var(base), a)?;
    set_part(&mut off, place, LVal::Var(base), b)?;
    Ok(Valued {
        parts: branch(alloc, c, on, off)?,
        value: kept(base, ty),
        temps,
    })
}

/// `?:` of struct type.
#[tactic(auto, using(crate::proofs::Lists::list_rules), unfolding(crate::specs::Instructions::struct_chosen))]
pub fn struct_chosen(
    alloc: Global,
    place: Place,
    base: u32,
    c: Fork,
    first: Items<Part>,
    a: LVal,
    second: Placed,
) -> Result<Placed, AllocError>
    ensures { IfOk result (λ p. p ≡ struct_chosen place base c first a second) }
{
    let Placed {
        parts: mut off,
        place: b,
        temps,
    } = second;
    let mut on = first;
    copy_part(&mut on, place, LVal::Var(base), a)?;
    copy_part(&mut off, place, LVal::Var(base), b)?;
    Ok(Placed {
        parts: branch(alloc, c, on, off)?,
        place: LVal::Var(base),
        temps,
    })
}

/// A call, and the base of its result where that is wanted.
pub fn called(to: Option<u32>, callee: Callee, args: Items<Expr>) -> Instr
    ensures { result ≡ called to callee args }
{
    match callee {
        Callee::Defined(f) => Instr::Call(to, f, args),
        Callee::External(kind) => Instr::External(to, What::Function(args, kind)),
    }
}

/// A call whose value is used.
#[tactic(auto, using(crate::proofs::Lists::list_rules), unfolding(crate::specs::Instructions::call_of))]
pub fn call_of(
    alloc: Global,
    place: Place,
    ty: CType,
    callee: Callee,
    args: Listed,
) -> Result<Valued, AllocError>
    ensures { IfOk result (λ c. c ≡ call_of place ty callee args) }
{
    let Listed {
        mut parts,
        values,
        temps,
    } = args;
    let Taken { base, temps } = take(alloc, temps, &ty)?;
    node(&mut parts, place, called(Some(base), callee, values))?;
    Ok(Valued {
        parts,
        value: kept(base, ty),
        temps,
    })
}

/// A call of `Frama_C_interval` whose value is used, behind the side effects of its lower end.
#[tactic(auto, using(crate::proofs::Lists::list_rules), unfolding(crate::specs::Instructions::interval_of))]
pub fn interval_of(
    alloc: Global,
    place: Place,
    before: Items<Part>,
    low: Expr,
    high: Valued,
) -> Result<Valued, AllocError>
    ensures { IfOk result (λ c. c ≡ interval_of place before low high) }
{
    let Valued {
        parts: right,
        value,
        temps,
    } = high;
    let mut parts = before;
    parts.append(right)?;
    let Taken { base, temps } = take(alloc, temps, &int())?;
    let call = Instr::External(Some(base), What::Interval(low, value));
    node(&mut parts, place, call)?;
    Ok(Valued {
        parts,
        value: kept(base, int()),
        temps,
    })
}
