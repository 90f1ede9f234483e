//! Equal values stay: each function's contract is one law.

ghost use Rattle.object_laws.specs.Same.{InclusionIsReflexive, JoinIsIdempotent, WideningIsIdempotent};

/// A value joined with itself is that value.
pub fn join_is_idempotent()
    ensures { JoinIsIdempotent }
{}

/// A value widened by itself is that value.
pub fn widening_is_idempotent()
    ensures { WideningIsIdempotent }
{}

/// A value is included in itself.
pub fn inclusion_is_reflexive()
    ensures { InclusionIsReflexive }
{}
