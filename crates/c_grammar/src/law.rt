//! Laws of the definitions: each function's contract is one.

ghost use Rattle.c_grammar.specs.Laws.{StopIsFinal, StopIsInFile, TreeIsDerived, TreeIsOfFile, TreeIsRead, TreeIsTheOnlyOne};
ghost use Rattle.c_grammar.specs.Lists.{ListsAreByRule};
ghost use Rattle.c_grammar.specs.Places.{GoesForward, IsLocal, StaysInside};
ghost use Rattle.c_syntax.specs.FileScope.{translation_unit};

/// Whether a file is accepted, its tree and its stop depend on no word behind the place where the parser ends or stops:
/// each file that begins with the same words up to a stop has that stop. The stop is one of the file's words, or its end.
pub fn reads_no_further()
    ensures forward { GoesForward translation_unit }
    ensures local { IsLocal translation_unit }
    ensures inside { StaysInside translation_unit }
    ensures stop { StopIsFinal }
    ensures file { StopIsInFile }
{}

/// A file's tree is one of all its words.
pub fn reads_to_the_end()
    ensures { TreeIsOfFile }
{}

/// Each list is the one that its rule without a bound gives, on each file of at most 2^20 tokens.
pub fn bound_ends_no_list()
    ensures { ListsAreByRule }
{}

/// A file's tree is one of its words by the productions of C11 Annex A.2, with no node that is nested deeper than 200.
pub fn trees_are_derived()
    ensures { TreeIsDerived }
{}

/// Each tree of a file's words by the productions of C11 Annex A.2 is the one that is read, or the stop is for depth and stands at no
/// word before which the tree is nested within the limit. A file with a tree that is nested within the limit has no other.
pub fn trees_are_read()
    ensures read { TreeIsRead }
    ensures only { TreeIsTheOnlyOne }
{}
