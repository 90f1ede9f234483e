//! Laws of the concrete machine: what its definitions make true of memories, expressions and initial states.
//!
//! Nothing runs here, and no code stands on it. Each function's contract is one law, in the words of `specs/` here
//! and in `c_meaning`.
#![tactic(auto)]

ghost use Rattle.c_meaning_laws.specs.Beginnings.{BeginningsAreLawful, PicksMakeEach};
ghost use Rattle.c_meaning_laws.specs.Memories.{EndsOfLivesStayLawful, EntriesStayLawful, InstructionsStayLawful, PointersStayInside, WritesStayLawful};
ghost use Rattle.c_meaning_laws.specs.Values.{ValuesAreTyped};

/// A write of bits whose pointers point inside leaves a lawful memory.
pub fn writes_stay_lawful()
    ensures { WritesStayLawful }
{}

/// An object that comes to life leaves a lawful memory.
pub fn entries_stay_lawful()
    ensures { EntriesStayLawful }
{}

/// Objects that end leave a lawful memory.
pub fn ends_of_lives_stay_lawful()
    ensures { EndsOfLivesStayLawful }
{}

/// A pointer that an expression gives points into an object that lives, or to its end.
pub fn pointers_stay_inside()
    ensures { PointersStayInside }
{}

/// Each described initial state is one that picks make.
pub fn picks_make_each()
    ensures { PicksMakeEach }
{}

/// An expression of a type gives a value of it, where no bit-field is wider than its type.
pub fn values_are_typed()
    ensures { ValuesAreTyped }
{}

/// The states with which executions begin are lawful.
pub fn beginnings_are_lawful()
    ensures { BeginningsAreLawful }
{}

/// An instruction that stays in its function leaves a lawful memory; where it is an Enter, its bases didn't live.
pub fn instructions_stay_lawful()
    ensures { InstructionsStayLawful }
{}
