// Integer sets of single bits.
ghost use Rattle.std.specs.Prelude.{◌≡◌, ◌≤◌, ◌^◌, ◌-ℤ◌, pos};
ghost use Rattle.abstract_memory.specs.Values as spec;
ghost use Rattle.c_memory.specs.Cells.{bit_of};
ghost use Rattle.std.specs.List.{list_all};
ghost use Rattle.std.specs.Ordering.{int_eq};
ghost use Rattle.ival.specs.Forms as form;

use c_memory::bit_of;
use ival::Ival;

/// Whether there is no number.
pub fn is_empty(x: &Ival) -> bool
    ensures { result ≡ form.is_empty x.now }
{
    match x {
        Ival::Empty => true,
        _ => false,
    }
}

/// The one number of a set of one.
pub fn only_number(x: &Ival) -> Option<i128>
    ensures { result ≡ form.only_number x.now }
{
    if let Ival::Set(xs) = x {
        let xs = xs.as_slice();
        if xs.len() == 1 {
            return Some(xs[0]);
        }
    }
    None
}

/// Whether each of these is 0.
fn are_zero(mut xs: &[i128]) -> bool
    ensures { result ≡ list_all (λ x. int_eq x (pos 0)) xs.now }
{
    while let [x, rest @ ..] = xs {
        if *x != 0 {
            return false;
        }
        xs = rest;
    }
    true
}

/// Whether it is exactly the number 0.
pub fn all_zero(x: &Ival) -> bool
    ensures { result ≡ spec.all_zero x.now }
{
    match x {
        Ival::Set(xs) => are_zero(xs.as_slice()),
        _ => false,
    }
}

/// Whether the `w` low bits of a number are 1.
fn has_ones(x: i128, w: u32) -> bool
    ensures { result ≡ spec.all_below w (bit_of x) }
{
    let mut all = true;
    for j in 0..w {
        all = bit_of(x, j) && all;
    }
    all
}

/// Whether the `w` low bits of each of these are 1.
fn have_ones(mut xs: &[i128], w: u32) -> bool
    ensures { result ≡ list_all (λ x. spec.all_below w (bit_of x)) xs.now }
{
    while let [x, rest @ ..] = xs {
        if !has_ones(*x, w) {
            return false;
        }
        xs = rest;
    }
    true
}

/// Whether the `w` low bits of each number are 1.
fn all_ones(x: &Ival, w: u32) -> bool
    ensures { result ≡ spec.all_ones x.now w }
{
    match x {
        Ival::Set(xs) => have_ones(xs.as_slice(), w),
        _ => false,
    }
}

/// The set of the number of a bit.
#[tactic(auto, using(crate::proofs::Bits::bit_facts))]
pub fn bit_set(b: bool) -> Ival
    ensures value { result ≡ spec.one_number (spec.bit_number b) }
    ensures formed { form.IsWellFormed result }
{
    if b {
        Ival::of_set(&[1])
    } else {
        Ival::of_set(&[0])
    }
}

/// The numbers of a bit of `w` bits that hold one of these.
#[tactic(auto, using(crate::proofs::Bits::bit_facts))]
pub fn bit_ints(x: &Ival, w: u32) -> Ival
    ensures value { result ≡ spec.bit_ints x.now w }
    ensures formed { form.IsWellFormed result }
{
    if is_empty(x) {
        return Ival::Empty;
    }
    if all_zero(x) {
        return bit_set(false);
    }
    if all_ones(x, w) {
        return bit_set(true);
    }
    Ival::of_set(&[0, 1])
}

/// All numbers of `n` bits, 1 to 64.
pub fn any_number(n: u32) -> Ival
    requires { n ≤ 64 }
    ensures value { result ≡ form.norm (pos 0) (pos (2 ^ n) -ℤ pos 1) (pos 0) 1 }
    ensures formed { form.IsWellFormed result }
{
    Ival::interval(0, (1 << n) - 1)
}
