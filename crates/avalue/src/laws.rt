//! Laws of the definitions: each function's contract is one.

ghost use Rattle.avalue.specs.Members.{JoinKeeps, WideningKeeps, InclusionIsSound};

/// A join has the members of both sides.
pub fn join_keeps()
    ensures { JoinKeeps }
{}

/// A widening has the members of both sides.
pub fn widen_keeps()
    ensures { WideningKeeps }
{}

/// What is included has no other members.
pub fn included_is_sound()
    ensures { InclusionIsSound }
{}
