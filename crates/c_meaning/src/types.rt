//! The types that evaluation looks at, found without a copy.

ghost use Rattle.std.specs.Prelude.{◌≡◌, ◌≤◌, ◌<◌, ◌^◌, ℕ, slice_get, option_and_then, IfSome, IsTrue};
ghost use Rattle.std.specs.Option.{option_copied};
ghost use Rattle.program.specs.Typing.{base_type, is_pointer, is_scalar};
ghost use Rattle.c_meaning.specs.PlaceTypes.{pointed, element, array_length, member_of, bits_of, kind_of_type, result_kind, kind_of, is_address, target_type, place_type, length_of_array, moves_pointer, moved_target, either, offset_of, field_width, access_bits, scalar_bits, stride, HasNarrowFields};

use c_types::{CType, IntKind, Layout, Member, kept_size};
use program::{BinOp, Expr, Function, LVal, Program};

#[tactic(auto, using(crate::proofs::PartEquations::part_equations))]
fn pointed(t: &CType) -> Option<&CType>
    ensures { option_copied result ≡ pointed t.now }
{
    match t {
        CType::Ptr(to) => Some(to.get()),
        CType::Void | CType::Int { .. } | CType::Array(_, _) | CType::Struct(_) | CType::Unusable =>
            None,
    }
}

#[tactic(auto, using(crate::proofs::PartEquations::part_equations))]
fn element(t: &CType) -> Option<&CType>
    ensures { option_copied result ≡ element t.now }
{
    match t {
        CType::Array(of, _) => Some(of.get()),
        CType::Void | CType::Int { .. } | CType::Ptr(_) | CType::Struct(_) | CType::Unusable =>
            None,
    }
}

fn base_type<'a>(p: &'a Program, f: &'a Function, base: u32) -> Option<&'a CType>
    ensures { option_copied result ≡ base_type p.now f.now base }
{
    if base == 0 {
        return Some(&f.result);
    }
    match p.bases.get(base as usize) {
        Some(object) => Some(&object.ctype),
        None => None,
    }
}

fn member_of<'a>(layout: &'a Layout, member: u32, t: &CType) -> Option<&'a Member>
    requires { HasNarrowFields layout.now }
    ensures value { option_copied result ≡ member_of layout.now member t.now }
    ensures narrow { IfSome result (λ m. IfSome m.now.bits (λ w. w ≤ 64)) }
{
    match t {
        CType::Struct(id) => match layout.structs.get(id.0 as usize) {
            Some(info) => info.members.get(member as usize),
            None => None,
        },
        CType::Void | CType::Int { .. } | CType::Ptr(_) | CType::Array(_, _) | CType::Unusable =>
            None,
    }
}

fn type_bits(layout: &Layout, t: Option<&CType>) -> u32
    ensures { result ≡ bits_of layout.now (option_copied t.entry) }
{
    match t {
        Some(t) => kept_size(layout, t),
        None => 0,
    }
}

/// The kind of an integer type.
pub fn kind_of_type(t: &CType) -> IntKind
    ensures { result ≡ kind_of_type t.now }
{
    match t {
        CType::Int { kind, .. } => *kind,
        CType::Void | CType::Ptr(_) | CType::Array(_, _) | CType::Struct(_) | CType::Unusable =>
            IntKind::Int,
    }
}

fn result_kind(op: BinOp, left: IntKind) -> IntKind
    ensures { result ≡ result_kind op left }
{
    match op {
        BinOp::Lt | BinOp::Le | BinOp::Gt | BinOp::Ge | BinOp::Eq | BinOp::Ne => IntKind::Int,
        BinOp::PtrDiff => IntKind::Long,
        BinOp::Add
        | BinOp::Sub
        | BinOp::Mul
        | BinOp::Div
        | BinOp::Rem
        | BinOp::Shl
        | BinOp::Shr
        | BinOp::And
        | BinOp::Or
        | BinOp::Xor
        | BinOp::PtrAdd
        | BinOp::PtrSub => left,
    }
}

/// The kind of a number's expression.
#[tactic(auto, using(crate::proofs::KindEquations::kind_equations))]
pub fn kind_of(e: &Expr) -> IntKind
    ensures { result ≡ kind_of e.now }
{
    match e {
        Expr::Const(kind, _) => *kind,
        Expr::Load(_, t) | Expr::Cast(t, _) => kind_of_type(t),
        Expr::Unary(_, a) => kind_of(a.get()),
        Expr::Binary(op, a, _) => result_kind(*op, kind_of(a.get())),
        Expr::Null | Expr::Addr(_) | Expr::Start(_) => IntKind::Int,
    }
}

fn is_pointer(t: &CType) -> bool
    ensures { result ≡ is_pointer t.now }
{
    match t {
        CType::Ptr(_) => true,
        CType::Void | CType::Int { .. } | CType::Array(_, _) | CType::Struct(_) | CType::Unusable =>
            false,
    }
}

fn moves_pointer(op: BinOp) -> bool
    ensures { result ≡ moves_pointer op }
{
    matches!(op, BinOp::PtrAdd | BinOp::PtrSub)
}

/// Whether an expression has a pointer type.
#[tactic(auto, using(crate::proofs::KindEquations::kind_equations))]
pub fn is_address(e: &Expr) -> bool
    ensures { result ≡ is_address e.now }
{
    match e {
        Expr::Null | Expr::Addr(_) | Expr::Start(_) => true,
        Expr::Load(_, t) | Expr::Cast(t, _) => is_pointer(t),
        Expr::Binary(op, _, _) => moves_pointer(*op),
        Expr::Const(_, _) | Expr::Unary(_, _) => false,
    }
}

/// What an expression of pointer type points to; nothing is known of the null pointer.
#[cycle(types)]
#[tactic(auto, using(crate::proofs::TypeEquations::place_type_equations))]
pub fn target_type<'a>(p: &'a Program, f: &'a Function, e: &'a Expr) -> Option<&'a CType>
    requires { HasNarrowFields p.now.layout }
    ensures { option_copied result ≡ target_type p.now f.now e.now }
{
    match e {
        Expr::Const(_, _) | Expr::Null | Expr::Unary(_, _) => None,
        Expr::Load(_, t) | Expr::Cast(t, _) => pointed(t),
        Expr::Addr(l) => place_type(p, f, l),
        Expr::Start(l) => match place_type(p, f, l) {
            Some(t) => element(t),
            None => None,
        },
        Expr::Binary(op, a, b) => {
            let left = target_type(p, f, a.get());
            let right = target_type(p, f, b.get());
            moved_target(*op, left, right)
        }
    }
}

fn moved_target<'a>(
    op: BinOp,
    left: Option<&'a CType>,
    right: Option<&'a CType>,
) -> Option<&'a CType>
    ensures { option_copied result ≡ moved_target op (option_copied left.entry) (option_copied right.entry) }
{
    match op {
        BinOp::PtrAdd => match left {
            Some(t) => Some(t),
            None => right,
        },
        BinOp::PtrSub => left,
        BinOp::Add
        | BinOp::Sub
        | BinOp::Mul
        | BinOp::Div
        | BinOp::Rem
        | BinOp::Shl
        | BinOp::Shr
        | BinOp::And
        | BinOp::Or
        | BinOp::Xor
        | BinOp::Lt
        | BinOp::Le
        | BinOp::Gt
        | BinOp::Ge
        | BinOp::Eq
        | BinOp::Ne
        | BinOp::PtrDiff => None,
    }
}

/// The type of the object that an lvalue designates.
#[cycle(types)]
#[tactic(auto, using(crate::proofs::TypeEquations::place_type_equations))]
pub fn place_type<'a>(p: &'a Program, f: &'a Function, l: &'a LVal) -> Option<&'a CType>
    requires { HasNarrowFields p.now.layout }
    ensures { option_copied result ≡ place_type p.now f.now l.now }
{
    match l {
        LVal::Var(base) => base_type(p, f, *base),
        LVal::Deref(e) => target_type(p, f, e.get()),
        LVal::Index(a, _) => match place_type(p, f, a.get()) {
            Some(t) => element(t),
            None => None,
        },
        LVal::Field(a, m) => match place_type(p, f, a.get()) {
            Some(t) => match member_of(&p.layout, *m, t) {
                Some(member) => Some(&member.ctype),
                None => None,
            },
            None => None,
        },
    }
}

#[tactic(auto, using(crate::proofs::PartEquations::part_equations))]
fn length_of_array(t: &CType) -> u32
    ensures { result ≡ length_of_array t.now }
{
    match t {
        CType::Array(_, length) => *length,
        CType::Void | CType::Int { .. } | CType::Ptr(_) | CType::Struct(_) | CType::Unusable => 0,
    }
}

/// How many elements the array of an index has.
pub fn array_length(p: &Program, f: &Function, array: &LVal) -> u32
    requires { HasNarrowFields p.now.layout }
    ensures { result ≡ array_length (place_type p.now f.now array.now) }
{
    match place_type(p, f, array) {
        Some(t) => length_of_array(t),
        None => 0,
    }
}

/// The size of an element of an array, in bits.
pub fn element_bits(p: &Program, f: &Function, array: &LVal) -> u32
    requires { HasNarrowFields p.now.layout }
    ensures { result ≡ bits_of p.now.layout (option_and_then element (place_type p.now f.now array.now)) }
{
    match place_type(p, f, array) {
        Some(t) => type_bits(&p.layout, element(t)),
        None => 0,
    }
}

fn member_at<'a>(p: &'a Program, f: &'a Function, of: &'a LVal, member: u32) -> Option<&'a Member>
    requires { HasNarrowFields p.now.layout }
    ensures value { option_copied result ≡ option_and_then (member_of p.now.layout member) (place_type p.now f.now of.now) }
    ensures narrow { IfSome result (λ m. IfSome m.now.bits (λ w. w ≤ 64)) }
{
    match place_type(p, f, of) {
        Some(t) => member_of(&p.layout, member, t),
        None => None,
    }
}

/// The offset of a member in its struct, in bits.
pub fn member_offset(p: &Program, f: &Function, of: &LVal, member: u32) -> u32
    requires { HasNarrowFields p.now.layout }
    ensures { result ≡ offset_of (option_and_then (member_of p.now.layout member) (place_type p.now f.now of.now)) }
{
    match member_at(p, f, of, member) {
        Some(member) => member.offset_bits,
        None => 0,
    }
}

/// The width of a bit-field.
#[tactic(auto, using(crate::proofs::TypeEquations::place_type_equations))]
fn field_width(p: &Program, f: &Function, l: &LVal) -> Option<u32>
    requires { HasNarrowFields p.now.layout }
    ensures value { result ≡ field_width p.now f.now l.now }
    ensures narrow { IfSome result (λ w. w ≤ 64) }
{
    match l {
        LVal::Field(of, member) => match member_at(p, f, of.get(), *member) {
            Some(member) => member.bits,
            None => None,
        },
        LVal::Var(_) | LVal::Deref(_) | LVal::Index(_, _) => None,
    }
}

/// How many bits an access to a place has.
pub fn access_bits(p: &Program, f: &Function, l: &LVal) -> u32
    requires { HasNarrowFields p.now.layout }
    ensures { result ≡ access_bits p.now f.now l.now }
{
    match field_width(p, f, l) {
        Some(width) => width,
        None => type_bits(&p.layout, place_type(p, f, l)),
    }
}

/// How many bits a read as this type has.
pub fn scalar_bits(p: &Program, f: &Function, l: &LVal, t: &CType) -> u32
    requires { HasNarrowFields p.now.layout }
    ensures value { result ≡ scalar_bits p.now f.now l.now t.now }
    ensures narrow { IsTrue (is_scalar t.now) → result ≤ 64 }
{
    match field_width(p, f, l) {
        Some(width) => width,
        None => kept_size(&p.layout, t),
    }
}

/// The size of what a sum or a difference of pointers counts, in bytes.
pub fn stride<'a>(p: &'a Program, f: &'a Function, a: &'a Expr, b: &'a Expr) -> u32
    requires { HasNarrowFields p.now.layout }
    ensures { result ≡ stride p.now f.now a.now b.now }
{
    let target = match target_type(p, f, a) {
        Some(t) => Some(t),
        None => target_type(p, f, b),
    };
    type_bits(&p.layout, target) / 8
}
