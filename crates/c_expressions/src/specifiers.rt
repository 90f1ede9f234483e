//! Declaration specifiers, structs and enumerations (C11 6.7 to 6.7.3).

ghost use Rattle.std.specs.Prelude.{◌≡◌, ◌≢◌, ◌≤◌, suc, length};
ghost use Rattle.c_expressions.specs.Specifiers as spec;
ghost use Rattle.c_input.specs.Parser as parser;
ghost use Rattle.c_input.specs.Input as input;
ghost use Rattle.c_expressions.specs.Levels.{nest};
ghost use Rattle.c_input.specs.Signs as signs;
ghost use Rattle.c_input.specs.Words.{words_of};
ghost use Rattle.c_input.specs.Gives.{Gives, Within};
ghost use Rattle.c_expressions.specs.Nests.{Nests};

use crate::declarators::leaf;
use crate::grown::{Declares, Mode, Specs};
use crate::nest::{Grammar, Node, Wanted};
use c_input::{
    MOST_WORDS, Measured, Place, Sign, SyntaxStop, Word, any_name, expect, is_close_brace,
    is_comma, qualifies, refuse, sign, skip, specifies, too_deep,
};
use c_tree::{DeclForm, Enumerator, MemberLine, MemberPart, Spec};
use sqlite_items::Items;
use std::alloc::Global;

/// The specifiers that may stand in a list.
#[derive(Clone, Copy, Debug)]
pub enum Allowed {
    /// Those of a declaration.
    All,
    /// Type specifiers and qualifiers.
    Qualifiers,
}

fn goes_on(allowed: Allowed, typed: bool, sign: Sign) -> bool
    ensures { result ≡ spec.allows allowed typed sign }
{
    match allowed {
        Allowed::All => specifies(typed, sign),
        Allowed::Qualifiers => qualifies(typed, sign),
    }
}

fn is_type_specifier(sign: Sign) -> bool
    ensures { result ≡ spec.is_type_specifier sign }
{
    match sign {
        Sign::TypeWord | Sign::TypeName | Sign::Struct | Sign::Union | Sign::Enum => true,
        _ => false,
    }
}

fn is_no_close_brace(sign: Sign) -> bool
    ensures { result ≡ signs.is_no_close_brace sign }
{
    match sign {
        Sign::CloseBrace => false,
        _ => true,
    }
}

fn is_typedef(sign: Sign) -> bool
    ensures { result ≡ spec.is_typedef sign }
{
    match sign {
        Sign::Typedef => true,
        _ => false,
    }
}

impl<F: Fn(Global, &[Word], &mut Place, u32, Wanted) -> Result<Node, SyntaxStop>> Grammar<F> {
    /// The struct declarations of a struct (C11 6.7.2.1).
    fn lines(
        &self,
        words: &[Word],
        place: &mut Place,
    ) -> Result<Measured<Items<MemberLine>>, SyntaxStop>
        requires nests { Nests self.now.room (F.pre self.now.node) (F.post self.now.node) }
        requires short { length words.now ≤ 1048576 }
        ensures gives { Gives (parser.gathered (parser.one_or_more signs.is_no_close_brace (nest self.now.room).line) (words_of words.now) place.old) result place.new }
        ensures within { Within (λ e. e.height) self.now.room result }
    {
        let mut all = Items::new(self.alloc);
        let line = self.line(words, place)?;
        let mut height = line.height;
        all.push(line.tree)?;
        for _turn in place.at..MOST_WORDS {
            if !is_no_close_brace(sign(words, place)) {
                break;
            }
            let line = self.line(words, place)?;
            height = line.height.max(height);
            all.push(line.tree)?;
        }
        Ok(Measured { tree: all, height })
    }

    /// The struct declarations of a struct, with their braces.
    #[tactic(auto, unfolding(crate::specs::Specifiers::member_lines))]
    fn member_lines(
        &self,
        words: &[Word],
        place: &mut Place,
    ) -> Result<Measured<Items<MemberLine>>, SyntaxStop>
        requires nests { Nests self.now.room (F.pre self.now.node) (F.post self.now.node) }
        requires short { length words.now ≤ 1048576 }
        requires seen { input.look_at (words_of words.now) place.old ≢ Sign.Eof }
        ensures gives { Gives (spec.member_lines (nest self.now.room) (words_of words.now) place.old) result place.new }
        ensures within { Within (λ e. e.height) self.now.room result }
    {
        skip(words, place);
        let lines = self.lines(words, place)?;
        expect(words, place, Sign::CloseBrace)?;
        Ok(lines)
    }

    /// A tag, which may be left out before a brace.
    #[tactic(auto, unfolding(crate::specs::Specifiers::tag))]
    fn tag(&self, words: &[Word], place: &mut Place) -> Result<Option<u32>, SyntaxStop>
        requires nests { Nests self.now.room (F.pre self.now.node) (F.post self.now.node) }
        requires short { length words.now ≤ 1048576 }
        ensures gives { Gives (spec.tag (words_of words.now) place.old) result place.new }
    {
        if sign(words, place) == Sign::OpenBrace {
            return Ok(None);
        }
        let name = any_name(words, place)?;
        Ok(Some(name.1))
    }

    #[tactic(auto, unfolding(crate::specs::Specifiers::struct_specifier))]
    fn struct_specifier(
        &self,
        words: &[Word],
        place: &mut Place,
    ) -> Result<Measured<Spec>, SyntaxStop>
        requires nests { Nests self.now.room (F.pre self.now.node) (F.post self.now.node) }
        requires short { length words.now ≤ 1048576 }
        requires seen { input.look_at (words_of words.now) place.old ≢ Sign.Eof }
        ensures gives { Gives (spec.struct_specifier (nest self.now.room) (words_of words.now) place.old) result place.new }
        ensures within { Within (λ e. e.height) self.now.room result }
    {
        let at = place.at;
        skip(words, place);
        let tag = self.tag(words, place)?;
        if sign(words, place) != Sign::OpenBrace {
            let lines = None;
            return Ok(Measured {
                tree: Spec::Struct { at, tag, lines },
                height: 0,
            });
        }
        let body = self.member_lines(words, place)?;
        let lines = Some(body.tree);
        Ok(Measured {
            tree: Spec::Struct { at, tag, lines },
            height: body.height,
        })
    }

    /// An enumerator, whose name is declared behind it (C11 6.2.1p7, 6.7.2.2).
    #[tactic(auto, unfolding(crate::specs::Specifiers::enumerator, c_input::specs::Parser::declare))]
    fn enumerator(
        &self,
        words: &[Word],
        place: &mut Place,
    ) -> Result<Measured<Enumerator>, SyntaxStop>
        requires nests { Nests self.now.room (F.pre self.now.node) (F.post self.now.node) }
        requires short { length words.now ≤ 1048576 }
        ensures gives { Gives (spec.enumerator (nest self.now.room) (words_of words.now) place.old) result place.new }
        ensures within { Within (λ e. e.height) self.now.room result }
    {
        let (number, name) = any_name(words, place)?;
        if sign(words, place) != Sign::Equal {
            place.names.declare(number, false)?;
            return Ok(Measured {
                tree: Enumerator { name, value: None },
                height: 0,
            });
        }
        skip(words, place);
        let e = self.expr(words, place, 3)?;
        place.names.declare(number, false)?;
        Ok(Measured {
            tree: Enumerator {
                name,
                value: Some(e.tree),
            },
            height: e.height,
        })
    }

    fn enumerator_list(
        &self,
        words: &[Word],
        place: &mut Place,
    ) -> Result<Measured<Items<Enumerator>>, SyntaxStop>
        requires nests { Nests self.now.room (F.pre self.now.node) (F.post self.now.node) }
        requires short { length words.now ≤ 1048576 }
        ensures gives { Gives (parser.gathered (parser.trailed signs.is_comma signs.is_close_brace (spec.enumerator (nest self.now.room))) (words_of words.now) place.old) result place.new }
        ensures within { Within (λ e. e.height) self.now.room result }
    {
        let mut all = Items::new(self.alloc);
        let mut height = 0;
        for _turn in place.at..MOST_WORDS {
            let enumerator = self.enumerator(words, place)?;
            height = enumerator.height.max(height);
            all.push(enumerator.tree)?;
            if !is_comma(sign(words, place)) {
                break;
            }
            skip(words, place);
            if is_close_brace(sign(words, place)) {
                break;
            }
        }
        Ok(Measured { tree: all, height })
    }

    /// The enumerators of an enumeration, with their braces.
    #[tactic(auto, unfolding(crate::specs::Specifiers::enumerators))]
    fn enumerators(
        &self,
        words: &[Word],
        place: &mut Place,
    ) -> Result<Measured<Items<Enumerator>>, SyntaxStop>
        requires nests { Nests self.now.room (F.pre self.now.node) (F.post self.now.node) }
        requires short { length words.now ≤ 1048576 }
        requires seen { input.look_at (words_of words.now) place.old ≢ Sign.Eof }
        ensures gives { Gives (spec.enumerators (nest self.now.room) (words_of words.now) place.old) result place.new }
        ensures within { Within (λ e. e.height) self.now.room result }
    {
        skip(words, place);
        let all = self.enumerator_list(words, place)?;
        expect(words, place, Sign::CloseBrace)?;
        Ok(all)
    }

    #[tactic(auto, unfolding(crate::specs::Specifiers::enum_specifier))]
    fn enum_specifier(
        &self,
        words: &[Word],
        place: &mut Place,
    ) -> Result<Measured<Spec>, SyntaxStop>
        requires nests { Nests self.now.room (F.pre self.now.node) (F.post self.now.node) }
        requires short { length words.now ≤ 1048576 }
        requires seen { input.look_at (words_of words.now) place.old ≢ Sign.Eof }
        ensures gives { Gives (spec.enum_specifier (nest self.now.room) (words_of words.now) place.old) result place.new }
        ensures within { Within (λ e. e.height) self.now.room result }
    {
        let at = place.at;
        skip(words, place);
        let tag = self.tag(words, place)?;
        if sign(words, place) != Sign::OpenBrace {
            let values = None;
            return Ok(Measured {
                tree: Spec::Enum { at, tag, values },
                height: 0,
            });
        }
        let body = self.enumerators(words, place)?;
        let values = Some(body.tree);
        Ok(Measured {
            tree: Spec::Enum { at, tag, values },
            height: body.height,
        })
    }

    fn spec(
        &self,
        words: &[Word],
        place: &mut Place,
        found: Sign,
    ) -> Result<Measured<Spec>, SyntaxStop>
        requires nests { Nests self.now.room (F.pre self.now.node) (F.post self.now.node) }
        requires short { length words.now ≤ 1048576 }
        requires seen { found ≡ input.look_at (words_of words.now) place.old }
        requires some { found ≢ Sign.Eof }
        ensures gives { Gives (spec.spec_by (nest self.now.room) found (words_of words.now) place.old) result place.new }
        ensures within { Within (λ e. e.height) self.now.room result }
    {
        let at = place.at;
        let tree = match found {
            Sign::Struct | Sign::Union => return self.struct_specifier(words, place),
            Sign::Enum => return self.enum_specifier(words, place),
            Sign::TypeName => Spec::Named { at },
            _ => Spec::Word { at },
        };
        skip(words, place);
        Ok(Measured { tree, height: 0 })
    }

    /// Goes on with a list of specifiers as long as its words come.
    fn specs(
        &self,
        words: &[Word],
        place: &mut Place,
        allowed: Allowed,
        mut specs: Specs,
    ) -> Result<Specs, SyntaxStop>
        requires nests { Nests self.now.room (F.pre self.now.node) (F.post self.now.node) }
        requires short { length words.now ≤ 1048576 }
        requires fits { specs.height ≤ self.now.room }
        ensures gives { Gives (parser.and_then (words_of words.now) (spec.specs (nest self.now.room) (spec.allows allowed) specs.is_typed (words_of words.now) place.old) (λ more. parser.pure (spec.behind specs more))) result place.new }
        ensures within { Within (λ e. e.height) self.now.room result }
    {
        for _turn in place.at..MOST_WORDS {
            let found = sign(words, place);
            if !goes_on(allowed, specs.is_typed, found) {
                break;
            }
            let spec = self.spec(words, place, found)?;
            specs.list.push(spec.tree)?;
            specs = Specs {
                list: specs.list,
                height: spec.height.max(specs.height),
                is_typed: specs.is_typed || is_type_specifier(found),
                is_typedef: specs.is_typedef || is_typedef(found),
            };
        }
        Ok(specs)
    }

    /// A list of one specifier at least.
    #[tactic(auto, unfolding(crate::specs::Specifiers::some_specs, c_input::specs::Parser::refuse))]
    pub fn some_specs(
        &self,
        words: &[Word],
        place: &mut Place,
        allowed: Allowed,
    ) -> Result<Specs, SyntaxStop>
        requires nests { Nests self.now.room (F.pre self.now.node) (F.post self.now.node) }
        requires short { length words.now ≤ 1048576 }
        ensures gives { Gives (spec.some_specs (nest self.now.room) (spec.allows allowed) (words_of words.now) place.old) result place.new }
        ensures within { Within (λ e. e.height) self.now.room result }
    {
        if !goes_on(allowed, false, sign(words, place)) {
            return Err(refuse(words, place));
        }
        let none = Specs {
            list: Items::new(self.alloc),
            height: 0,
            is_typed: false,
            is_typedef: false,
        };
        self.specs(words, place, allowed, none)
    }

    /// The declaration specifiers that begin with the typedef name at the place, which was taken.
    #[tactic(auto, unfolding(crate::specs::Specifiers::specs_after_name))]
    pub fn specs_after_name(
        &self,
        words: &[Word],
        place: &mut Place,
        at: u32,
    ) -> Result<Specs, SyntaxStop>
        requires nests { Nests self.now.room (F.pre self.now.node) (F.post self.now.node) }
        requires short { length words.now ≤ 1048576 }
        ensures gives { Gives (spec.specs_after_name (nest self.now.room) at (words_of words.now) place.old) result place.new }
        ensures within { Within (λ e. e.height) self.now.room result }
    {
        let mut list = Items::new(self.alloc);
        list.push(Spec::Named { at })?;
        let named = Specs {
            list,
            height: 0,
            is_typed: true,
            is_typedef: false,
        };
        self.specs(words, place, Allowed::All, named)
    }

    /// A bit-field, at the colon behind its declarator.
    #[tactic(auto, unfolding(crate::specs::Specifiers::bit_field))]
    fn bit_field(
        &self,
        words: &[Word],
        place: &mut Place,
        d: Declares,
    ) -> Result<Measured<MemberPart>, SyntaxStop>
        requires nests { Nests self.now.room (F.pre self.now.node) (F.post self.now.node) }
        requires short { length words.now ≤ 1048576 }
        requires seen { input.look_at (words_of words.now) place.old ≢ Sign.Eof }
        requires fits { d.height ≤ self.now.room }
        ensures gives { Gives (spec.bit_field (nest self.now.room) d (words_of words.now) place.old) result place.new }
        ensures within { Within (λ e. e.height) self.now.room result }
    {
        skip(words, place);
        let width = self.expr(words, place, 3)?;
        Ok(Measured {
            tree: MemberPart {
                declarator: d.tree,
                width: Some(width.tree),
            },
            height: d.height.max(width.height),
        })
    }

    /// A struct declarator (C11 6.7.2.1). That of a bit-field without a name is a node at its colon.
    #[tactic(auto, unfolding(crate::specs::Specifiers::member, c_input::specs::Parser::too_deep_here))]
    fn member(&self, words: &[Word], place: &mut Place) -> Result<Measured<MemberPart>, SyntaxStop>
        requires nests { Nests self.now.room (F.pre self.now.node) (F.post self.now.node) }
        requires short { length words.now ≤ 1048576 }
        ensures gives { Gives (spec.member (nest self.now.room) (suc self.now.room) (words_of words.now) place.old) result place.new }
        ensures within { Within (λ e. e.height) self.now.room result }
    {
        if sign(words, place) == Sign::Colon {
            if self.room == 0 {
                return Err(too_deep(words, place));
            }
            let nameless = leaf(place.at, DeclForm::Abstract, None);
            return self.bit_field(words, place, nameless);
        }
        let d = self.declarator(words, place, Mode::Named)?;
        if sign(words, place) == Sign::Colon {
            return self.bit_field(words, place, d);
        }
        Ok(Measured {
            tree: MemberPart {
                declarator: d.tree,
                width: None,
            },
            height: d.height,
        })
    }

    fn member_list(
        &self,
        words: &[Word],
        place: &mut Place,
    ) -> Result<Measured<Items<MemberPart>>, SyntaxStop>
        requires nests { Nests self.now.room (F.pre self.now.node) (F.post self.now.node) }
        requires short { length words.now ≤ 1048576 }
        ensures gives { Gives (parser.gathered (parser.separated signs.is_comma (spec.member (nest self.now.room) (suc self.now.room))) (words_of words.now) place.old) result place.new }
        ensures within { Within (λ e. e.height) self.now.room result }
    {
        let mut all = Items::new(self.alloc);
        let member = self.member(words, place)?;
        let mut height = member.height;
        all.push(member.tree)?;
        for _turn in place.at..MOST_WORDS {
            if !is_comma(sign(words, place)) {
                break;
            }
            skip(words, place);
            let member = self.member(words, place)?;
            height = member.height.max(height);
            all.push(member.tree)?;
        }
        Ok(Measured { tree: all, height })
    }

    #[tactic(auto, unfolding(crate::specs::Specifiers::members))]
    fn members(
        &self,
        words: &[Word],
        place: &mut Place,
    ) -> Result<Measured<Items<MemberPart>>, SyntaxStop>
        requires nests { Nests self.now.room (F.pre self.now.node) (F.post self.now.node) }
        requires short { length words.now ≤ 1048576 }
        ensures gives { Gives (spec.members (nest self.now.room) (suc self.now.room) (words_of words.now) place.old) result place.new }
        ensures within { Within (λ e. e.height) self.now.room result }
    {
        match sign(words, place) {
            Sign::Semicolon => Ok(Measured {
                tree: Items::new(self.alloc),
                height: 0,
            }),
            _ => self.member_list(words, place),
        }
    }

    /// A struct declaration (C11 6.7.2.1).
    #[tactic(auto, unfolding(crate::specs::Specifiers::member_line))]
    pub fn member_line(
        &self,
        words: &[Word],
        place: &mut Place,
    ) -> Result<Measured<MemberLine>, SyntaxStop>
        requires nests { Nests self.now.room (F.pre self.now.node) (F.post self.now.node) }
        requires short { length words.now ≤ 1048576 }
        ensures gives { Gives (spec.member_line (nest self.now.room) (suc self.now.room) (words_of words.now) place.old) result place.new }
        ensures within { Within (λ e. e.height) (suc self.now.room) result }
    {
        let at = place.at;
        let specs = self.some_specs(words, place, Allowed::Qualifiers)?;
        let parts = self.members(words, place)?;
        expect(words, place, Sign::Semicolon)?;
        Ok(Measured {
            tree: MemberLine {
                at,
                specs: specs.list,
                parts: parts.tree,
            },
            height: specs.height.max(parts.height) + 1,
        })
    }
}
