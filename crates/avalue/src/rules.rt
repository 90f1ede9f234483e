//! What the offsets of a base that both sides have become.

ghost use Rattle.std.specs.Prelude.{◌≡◌, ℤ, pos, ℕ};
ghost use Rattle.ival.specs.declared.forms.Ival.{Ival};
ghost use Rattle.ival.specs.Forms.{HasEnds};
ghost use Rattle.ival.specs.SetOperations.{join_of};
ghost use Rattle.avalue.specs.Pointers.{AreInObject, widened_offsets};

use crate::pointers::Rule;
use ival::Ival;

/// Their join.
pub struct Join;

impl Rule for Join {
    ghost takes = { λ s x. Unit {0} };

    ghost of = { λ s x y. join_of x y };

    fn apply(&self, x: &Ival, y: &Ival) -> Ival {
        x.join(y)
    }
}

/// All of the object in their class, where the newer ones aren't among the old. An object has at most 2^21 bytes.
pub struct Widening;

impl Rule for Widening {
    ghost takes = { λ s x. AreInObject x };

    ghost of = { λ s x y. widened_offsets x y };

    fn apply(&self, x: &Ival, y: &Ival) -> Ival {
        if y.included(x) {
            *x
        } else {
            x.join(y).class_within(0, 1 << 21)
        }
    }
}
