//! Laws of the definitions: each function's contract is one.

ghost use Rattle.c_lex.specs.Characters.{CharactersAreRead, CharactersAreAllRead, StringsAreRead, CharsAreRead, StringsHaveBytes};
ghost use Rattle.c_lex.specs.Laws.{OneList, OneStop, NeverBoth, TokensAreSlices};
ghost use Rattle.c_lex.specs.Rules.{IsLongest, IsIdentifier, IsNumber, IsPunctuator, IsComment};

use crate::piece::Piece;

/// A file has at most one list of tokens, at most one stop, and never both.
pub fn one_reading()
    ensures list { OneList }
    ensures stop { OneStop }
    ensures either { NeverBoth }
{}

/// Identifiers, numbers, punctuators and comments are the longest that begin at their place.
pub fn longest_match()
    ensures word { IsLongest Piece.Word IsIdentifier }
    ensures number { IsLongest Piece.Number IsNumber }
    ensures punctuator { IsLongest Piece.Punct IsPunctuator }
    ensures comment { IsLongest Piece.Comment IsComment }
{}

/// The tokens of a file stand in it in order, each a slice of its kind.
pub fn tokens_are_slices()
    ensures { TokensAreSlices }
{}

/// The characters of literals are those of C11 6.4.4.4, with their longest escape sequences, and all of those.
pub fn characters_by_rule()
    ensures read { CharactersAreRead }
    ensures all { CharactersAreAllRead }
{}

/// A string literal is characters between quotes, and has their bytes; a character constant is one.
pub fn literals_by_rule()
    ensures string { StringsAreRead }
    ensures char { CharsAreRead }
    ensures bytes { StringsHaveBytes }
{}
