//! The operations give lawful objects: each function's contract is one law.

ghost use Rattle.object_laws.specs.Lawful.{BlurIsLawful, CopyIsLawful, EscapeIsLawful, FreshIsLawful, WeakWriteIsLawful, WideningIsLawful};

/// An object of equal bits is lawful.
pub fn fresh_is_lawful()
    ensures { FreshIsLawful }
{}

/// A weak write gives a lawful object.
pub fn weak_write_is_lawful()
    ensures { WeakWriteIsLawful }
{}

/// A range of bits that are joined with one gives a lawful object.
pub fn blur_is_lawful()
    ensures { BlurIsLawful }
{}

/// A copy gives a lawful object.
pub fn copy_is_lawful()
    ensures { CopyIsLawful }
{}

/// An object whose pointers dangle is lawful.
pub fn escape_is_lawful()
    ensures { EscapeIsLawful }
{}

/// A widening gives a lawful object.
pub fn widening_is_lawful()
    ensures { WideningIsLawful }
{}
