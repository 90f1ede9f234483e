//! Declarators, parameters and type names (C11 6.7.6, 6.7.7).

ghost use Rattle.std.specs.Prelude.{◌≡◌, ◌≢◌, ◌≤◌, suc, length, IfOk, IfErr, Ok, true};
ghost use Rattle.c_expressions.specs.Declarators as spec;
ghost use Rattle.c_input.specs.Parser as parser;
ghost use Rattle.c_input.specs.Input as input;
ghost use Rattle.c_expressions.specs.Levels.{nest};
ghost use Rattle.c_input.specs.Words.{words_of};
ghost use Rattle.c_input.specs.Gives.{Gives, Within};
ghost use Rattle.c_expressions.specs.Nests.{Nests};

use crate::grown::{Declares, Grown, Mode};
use crate::nest::{Grammar, Node, Wanted};
use crate::specifiers::Allowed;
use c_input::{
    MOST_WORDS, Measured, Place, Sign, SyntaxStop, Word, expect, is_comma, is_name, left_out,
    refuse, sign, skip, specifies, take_name, too_deep,
};
use c_tree::{DeclForm, Declarator, Param};
use sqlite_items::{Boxed, Items};
use std::alloc::{AllocError, Global};

/// A list of parameters, and the names that it declares.
#[derive(Drop)]
struct Listed {
    params: Items<Param>,
    height: u32,
    variadic: bool,
    names: Items<(u32, bool)>,
}

pub fn leaf(at: u32, form: DeclForm, name: Option<u32>) -> Declares
    ensures { result ≡ spec.leaf at form name }
{
    Declares {
        tree: Declarator { at, form },
        height: 1,
        name,
        params: None,
    }
}

fn enclosed(mode: Mode) -> Mode
    ensures { result ≡ spec.enclosed mode }
{
    match mode {
        Mode::Parameter => Mode::Enclosed,
        _ => mode,
    }
}

/// Whether the word begins a declarator, or may stand behind an abstract one without words.
pub fn begins_declarator(mode: Mode, sign: Sign) -> bool
    ensures { result ≡ spec.begins_declarator mode sign }
{
    match sign {
        Sign::Star | Sign::OpenParen => true,
        Sign::OpenBracket | Sign::CloseParen => mode != Mode::Named,
        Sign::Comma => mode == Mode::Parameter,
        _ => mode != Mode::Abstract && is_name(sign),
    }
}

/// The first list of parameters that is complete declares the names of a definition (C11 6.9.1).
fn or_first(
    first: Option<Items<(u32, bool)>>,
    names: Items<(u32, bool)>,
) -> Option<Items<(u32, bool)>>
    ensures { result ≡ spec.or_first first names }
{
    Some(first.unwrap_or(names))
}

fn is_qualifier(sign: Sign) -> bool
    ensures { result ≡ spec.is_qualifier sign }
{
    match sign {
        Sign::Qualifier => true,
        _ => false,
    }
}

fn is_ellipsis(sign: Sign) -> bool
    ensures { result ≡ spec.is_ellipsis sign }
{
    match sign {
        Sign::Ellipsis => true,
        _ => false,
    }
}

/// Whether the word goes on a declarator.
fn goes_on(sign: Sign) -> bool
    ensures { result ≡ spec.goes_on sign }
{
    match sign {
        Sign::OpenParen | Sign::OpenBracket => true,
        _ => false,
    }
}

impl<F: Fn(Global, &[Word], &mut Place, u32, Wanted) -> Result<Node, SyntaxStop>> Grammar<F> {
    fn qualifiers(&self, words: &[Word], place: &mut Place) -> Result<Items<u32>, AllocError>
        requires nests { Nests self.now.room (F.pre self.now.node) (F.post self.now.node) }
        requires short { length words.now ≤ 1048576 }
        ensures gives { IfOk result (λ xs. spec.qualifiers (words_of words.now) place.old ≡ Ok (xs, place.new)) }
    {
        let mut all = Items::new(self.alloc);
        for _turn in place.at..MOST_WORDS {
            if !is_qualifier(sign(words, place)) {
                break;
            }
            all.push(place.at)?;
            skip(words, place);
        }
        Ok(all)
    }

    /// A pointer: one node for each `*`.
    #[tactic(auto, unfolding(crate::specs::Declarators::pointer))]
    fn pointer(&self, words: &[Word], place: &mut Place, mode: Mode) -> Result<Declares, SyntaxStop>
        requires nests { Nests self.now.room (F.pre self.now.node) (F.post self.now.node) }
        requires short { length words.now ≤ 1048576 }
        requires seen { input.look_at (words_of words.now) place.old ≢ Sign.Eof }
        ensures gives { Gives (spec.pointer (nest self.now.room) mode place.old.at (words_of words.now) place.old) result place.new }
        ensures within { Within (λ e. e.height) (suc self.now.room) result }
    {
        let at = place.at;
        skip(words, place);
        let qualifiers = self.qualifiers(words, place)?;
        let d = self.declarator(words, place, mode)?;
        Ok(Declares {
            tree: Declarator {
                at,
                form: DeclForm::Pointer {
                    words: qualifiers,
                    inner: Boxed::new(self.alloc, d.tree)?,
                },
            },
            height: d.height + 1,
            name: d.name,
            params: d.params,
        })
    }

    #[tactic(auto, unfolding(crate::specs::Declarators::parameter, c_input::specs::Parser::declare))]
    fn parameter(&self, words: &[Word], place: &mut Place) -> Result<Measured<Param>, SyntaxStop>
        requires nests { Nests self.now.room (F.pre self.now.node) (F.post self.now.node) }
        requires short { length words.now ≤ 1048576 }
        ensures gives { Gives (spec.parameter (nest self.now.room) (words_of words.now) place.old) result place.new }
        ensures within { Within (λ e. e.height) self.now.room result }
    {
        let at = place.at;
        let specs = self.some_specs(words, place, Allowed::All)?;
        let d = self.declarator(words, place, Mode::Parameter)?;
        if let Some(name) = d.name {
            place.names.declare(name, specs.is_typedef)?;
        }
        Ok(Measured {
            tree: Param {
                at,
                specs: specs.list,
                declarator: d.tree,
            },
            height: specs.height.max(d.height),
        })
    }

    /// A type name (C11 6.7.7).
    #[tactic(auto, unfolding(crate::specs::Declarators::type_name))]
    pub fn type_name(
        &self,
        words: &[Word],
        place: &mut Place,
    ) -> Result<Measured<Param>, SyntaxStop>
        requires nests { Nests self.now.room (F.pre self.now.node) (F.post self.now.node) }
        requires short { length words.now ≤ 1048576 }
        ensures gives { Gives (spec.type_name (nest self.now.room) (words_of words.now) place.old) result place.new }
        ensures within { Within (λ e. e.height) self.now.room result }
    {
        let at = place.at;
        let specs = self.some_specs(words, place, Allowed::Qualifiers)?;
        let d = self.declarator(words, place, Mode::Abstract)?;
        Ok(Measured {
            tree: Param {
                at,
                specs: specs.list,
                declarator: d.tree,
            },
            height: specs.height.max(d.height),
        })
    }

    fn parameters(
        &self,
        words: &[Word],
        place: &mut Place,
    ) -> Result<(Measured<Items<Param>>, bool), SyntaxStop>
        requires nests { Nests self.now.room (F.pre self.now.node) (F.post self.now.node) }
        requires short { length words.now ≤ 1048576 }
        ensures gives { Gives (spec.parameters (nest self.now.room) (words_of words.now) place.old) result place.new }
        ensures within { Within (λ e. e.0.height) self.now.room result }
    {
        let mut all = Items::new(self.alloc);
        let mut height = 0;
        let mut variadic = false;
        for _turn in place.at..MOST_WORDS {
            let param = self.parameter(words, place)?;
            height = param.height.max(height);
            all.push(param.tree)?;
            if !is_comma(sign(words, place)) {
                break;
            }
            skip(words, place);
            if is_ellipsis(sign(words, place)) {
                skip(words, place);
                variadic = true;
                break;
            }
        }
        Ok((Measured { tree: all, height }, variadic))
    }

    /// A list of parameters. Their scope ends with the list (C11 6.2.1p4).
    #[tactic(auto, unfolding(crate::specs::Declarators::some_listed))]
    fn some_listed(&self, words: &[Word], place: &mut Place) -> Result<Listed, SyntaxStop>
        requires nests { Nests self.now.room (F.pre self.now.node) (F.post self.now.node) }
        requires short { length words.now ≤ 1048576 }
        ensures gives { Gives (spec.some_listed (nest self.now.room) (words_of words.now) place.old) result place.new }
        ensures within { Within (λ e. e.height) self.now.room result }
    {
        let outer = place.names.len();
        let (params, variadic) = self.parameters(words, place)?;
        let names = place.names.newest(self.alloc, outer)?;
        place.names.leave(outer);
        Ok(Listed {
            params: params.tree,
            height: params.height,
            variadic,
            names,
        })
    }

    /// What stands between the brackets of a function declarator. An identifier list is left out at its first name.
    #[tactic(auto, unfolding(crate::specs::Declarators::listed, c_input::specs::Parser::left_out_here))]
    fn listed(&self, words: &[Word], place: &mut Place, named: bool) -> Result<Listed, SyntaxStop>
        requires nests { Nests self.now.room (F.pre self.now.node) (F.post self.now.node) }
        requires short { length words.now ≤ 1048576 }
        ensures gives { Gives (spec.listed (nest self.now.room) named (words_of words.now) place.old) result place.new }
        ensures within { Within (λ e. e.height) self.now.room result }
    {
        match sign(words, place) {
            Sign::CloseParen => Ok(Listed {
                params: Items::new(self.alloc),
                height: 0,
                variadic: false,
                names: Items::new(self.alloc),
            }),
            Sign::Name => {
                if named {
                    Err(left_out(place))
                } else {
                    self.some_listed(words, place)
                }
            }
            _ => self.some_listed(words, place),
        }
    }

    /// A function declarator behind its bracket (C11 6.7.6.3).
    #[tactic(auto, unfolding(crate::specs::Declarators::function_rest))]
    fn function_rest(
        &self,
        words: &[Word],
        place: &mut Place,
        at: u32,
        d: Declares,
    ) -> Result<Declares, SyntaxStop>
        requires nests { Nests self.now.room (F.pre self.now.node) (F.post self.now.node) }
        requires short { length words.now ≤ 1048576 }
        requires fits { d.height ≤ self.now.room }
        ensures gives { Gives (spec.function_rest (nest self.now.room) at d (words_of words.now) place.old) result place.new }
        ensures within { Within (λ e. e.height) (suc self.now.room) result }
    {
        let listed = self.listed(words, place, d.name.is_some())?;
        expect(words, place, Sign::CloseParen)?;
        let params = or_first(d.params, listed.names);
        Ok(Declares {
            tree: Declarator {
                at,
                form: DeclForm::Function {
                    inner: Boxed::new(self.alloc, d.tree)?,
                    params: listed.params,
                    variadic: listed.variadic,
                },
            },
            height: d.height.max(listed.height) + 1,
            name: d.name,
            params,
        })
    }

    fn array_of(
        &self,
        at: u32,
        d: Declares,
        words: Items<u32>,
        length: Option<Grown>,
    ) -> Result<Declares, SyntaxStop>
        requires small { self.now.room ≤ 200 }
        requires fits { d.height ≤ self.now.room }
        requires length_fits { spec.length_height length ≤ self.now.room }
        ensures ok { IfOk result (λ all. all ≡ spec.array_of at d words length) }
        ensures err { IfErr result (λ stop. stop ≡ SyntaxStop.Memory) }
    {
        let (length, height) = match length {
            None => (None, 0),
            Some(e) => (Some(e.tree), e.height),
        };
        Ok(Declares {
            tree: Declarator {
                at,
                form: DeclForm::Array {
                    inner: Boxed::new(self.alloc, d.tree)?,
                    words,
                    length,
                },
            },
            height: d.height.max(height) + 1,
            name: d.name,
            params: d.params,
        })
    }

    /// Behind the first qualifiers of an array declarator.
    fn array_length(
        &self,
        words: &[Word],
        place: &mut Place,
        mut found: Items<u32>,
        named: bool,
    ) -> Result<(Items<u32>, Option<Grown>), SyntaxStop>
        requires nests { Nests self.now.room (F.pre self.now.node) (F.post self.now.node) }
        requires short { length words.now ≤ 1048576 }
        ensures gives { Gives (parser.look (spec.length_by (nest self.now.room) named found) (words_of words.now) place.old) result place.new }
        ensures within { Within (λ found. spec.length_height found.1) self.now.room result }
    {
        match sign(words, place) {
            Sign::CloseBracket => Ok((found, None)),
            Sign::Static => {
                found.push(place.at)?;
                skip(words, place);
                let e = self.expr(words, place, 2)?;
                Ok((found, Some(e)))
            }
            Sign::Star => {
                let alone = found.is_empty() || named;
                let e = self.starred(words, place, alone)?;
                Ok((found, Some(e)))
            }
            _ => {
                let e = self.expr(words, place, 2)?;
                Ok((found, Some(e)))
            }
        }
    }

    /// The words of an array declarator, and its length (C11 6.7.6.2).
    #[tactic(auto, unfolding(crate::specs::Declarators::array_words))]
    fn array_words(
        &self,
        words: &[Word],
        place: &mut Place,
        named: bool,
    ) -> Result<(Items<u32>, Option<Grown>), SyntaxStop>
        requires nests { Nests self.now.room (F.pre self.now.node) (F.post self.now.node) }
        requires short { length words.now ≤ 1048576 }
        ensures gives { Gives (spec.array_words (nest self.now.room) named (words_of words.now) place.old) result place.new }
        ensures within { Within (λ found. spec.length_height found.1) self.now.room result }
    {
        match sign(words, place) {
            Sign::Static => {
                let mut found = Items::new(self.alloc);
                found.push(place.at)?;
                skip(words, place);
                found.append(self.qualifiers(words, place)?)?;
                let e = self.expr(words, place, 2)?;
                Ok((found, Some(e)))
            }
            _ => {
                let found = self.qualifiers(words, place)?;
                self.array_length(words, place, found, named)
            }
        }
    }

    #[tactic(auto, unfolding(crate::specs::Declarators::array_rest))]
    fn array_rest(
        &self,
        words: &[Word],
        place: &mut Place,
        at: u32,
        d: Declares,
    ) -> Result<Declares, SyntaxStop>
        requires nests { Nests self.now.room (F.pre self.now.node) (F.post self.now.node) }
        requires short { length words.now ≤ 1048576 }
        requires seen { input.look_at (words_of words.now) place.old ≢ Sign.Eof }
        requires fits { d.height ≤ self.now.room }
        ensures gives { Gives (spec.array_rest (nest self.now.room) at d (words_of words.now) place.old) result place.new }
        ensures within { Within (λ e. e.height) (suc self.now.room) result }
    {
        skip(words, place);
        let (found, length) = self.array_words(words, place, d.name.is_some())?;
        expect(words, place, Sign::CloseBracket)?;
        self.array_of(at, d, found, length)
    }

    #[tactic(auto, unfolding(crate::specs::Declarators::paren_rest))]
    fn paren_rest_of(
        &self,
        words: &[Word],
        place: &mut Place,
        mode: Mode,
        at: u32,
    ) -> Result<Declares, SyntaxStop>
        requires nests { Nests self.now.room (F.pre self.now.node) (F.post self.now.node) }
        requires short { length words.now ≤ 1048576 }
        ensures gives { Gives (spec.paren_rest (nest self.now.room) mode at (words_of words.now) place.old) result place.new }
        ensures within { Within (λ e. e.height) (suc self.now.room) result }
    {
        let d = self.declarator(words, place, enclosed(mode))?;
        expect(words, place, Sign::CloseParen)?;
        Ok(Declares {
            tree: Declarator {
                at,
                form: DeclForm::Paren(Boxed::new(self.alloc, d.tree)?),
            },
            height: d.height + 1,
            name: d.name,
            params: d.params,
        })
    }

    /// Behind a bracket where a name may be left out: a list of parameters, or a declarator in brackets. A typedef name begins
    /// a parameter (C11 6.7.6.3p11).
    #[tactic(auto, unfolding(c_input::specs::Parser::too_deep_here))]
    fn opened_declarator(
        &self,
        words: &[Word],
        place: &mut Place,
        mode: Mode,
        at: u32,
    ) -> Result<Declares, SyntaxStop>
        requires nests { Nests self.now.room (F.pre self.now.node) (F.post self.now.node) }
        requires short { length words.now ≤ 1048576 }
        ensures gives { Gives (parser.look (spec.open_by (nest self.now.room) (suc self.now.room) mode at) (words_of words.now) place.old) result place.new }
        ensures within { Within (λ e. e.height) (suc self.now.room) result }
    {
        let found = sign(words, place);
        if found != Sign::CloseParen && !specifies(false, found) {
            return self.paren_rest_of(words, place, mode, at);
        }
        if self.room == 0 {
            return Err(too_deep(words, place));
        }
        self.function_rest(words, place, at, leaf(at, DeclForm::Abstract, None))
    }

    /// A declarator without the suffixes behind it.
    #[tactic(auto, unfolding(c_input::specs::Parser::refuse))]
    fn direct(&self, words: &[Word], place: &mut Place, mode: Mode) -> Result<Declares, SyntaxStop>
        requires nests { Nests self.now.room (F.pre self.now.node) (F.post self.now.node) }
        requires short { length words.now ≤ 1048576 }
        ensures gives { Gives (parser.look (spec.direct_by (nest self.now.room) (suc self.now.room) mode place.old.at) (words_of words.now) place.old) result place.new }
        ensures within { Within (λ e. e.height) (suc self.now.room) result }
    {
        let at = place.at;
        let found = sign(words, place);
        if found == Sign::OpenParen {
            skip(words, place);
            return match mode {
                Mode::Named => self.paren_rest_of(words, place, mode, at),
                _ => self.opened_declarator(words, place, mode, at),
            };
        }
        if is_name(found) && mode != Mode::Abstract {
            let name = take_name(words, place);
            return Ok(leaf(at, DeclForm::Name, Some(name.0)));
        }
        match mode {
            Mode::Named => Err(refuse(words, place)),
            _ => Ok(leaf(at, DeclForm::Abstract, None)),
        }
    }

    /// One production more around what was read from the place on.
    #[tactic(auto, unfolding(crate::specs::Declarators::longer))]
    fn longer_declarator(
        &self,
        words: &[Word],
        place: &mut Place,
        at: u32,
        d: Declares,
        found: Sign,
    ) -> Result<Declares, SyntaxStop>
        requires nests { Nests self.now.room (F.pre self.now.node) (F.post self.now.node) }
        requires short { length words.now ≤ 1048576 }
        requires seen { found ≡ input.look_at (words_of words.now) place.old }
        requires goes_on { spec.goes_on found ≡ true }
        requires fits { d.height ≤ self.now.room }
        ensures gives { Gives (spec.longer (nest self.now.room) at d found (words_of words.now) place.old) result place.new }
        ensures within { Within (λ e. e.height) (suc self.now.room) result }
    {
        match found {
            Sign::OpenBracket => self.array_rest(words, place, at, d),
            _ => {
                skip(words, place);
                self.function_rest(words, place, at, d)
            }
        }
    }

    fn suffixes(
        &self,
        words: &[Word],
        place: &mut Place,
        at: u32,
        mut d: Declares,
    ) -> Result<Declares, SyntaxStop>
        requires nests { Nests self.now.room (F.pre self.now.node) (F.post self.now.node) }
        requires short { length words.now ≤ 1048576 }
        requires fits { d.height ≤ suc self.now.room }
        ensures gives { Gives (spec.suffixes (nest self.now.room) (suc self.now.room) (suc self.now.room) at d (words_of words.now) place.old) result place.new }
        ensures within { Within (λ e. e.height) (suc self.now.room) result }
    {
        for _turn in 0..self.room + 1 {
            let found = sign(words, place);
            if !goes_on(found) {
                return Ok(d);
            }
            if d.height > self.room {
                return Err(too_deep(words, place));
            }
            d = self.longer_declarator(words, place, at, d, found)?;
        }
        if goes_on(sign(words, place)) {
            Err(too_deep(words, place))
        } else {
            Ok(d)
        }
    }

    /// A declarator or an abstract declarator. What follows a pointer belongs to what it stands before.
    #[tactic(auto, unfolding(crate::specs::Declarators::declarator, crate::specs::Declarators::direct))]
    pub fn whole_declarator(
        &self,
        words: &[Word],
        place: &mut Place,
        mode: Mode,
    ) -> Result<Declares, SyntaxStop>
        requires nests { Nests self.now.room (F.pre self.now.node) (F.post self.now.node) }
        requires short { length words.now ≤ 1048576 }
        ensures gives { Gives (spec.declarator (nest self.now.room) (suc self.now.room) mode (words_of words.now) place.old) result place.new }
        ensures within { Within (λ e. e.height) (suc self.now.room) result }
    {
        if sign(words, place) == Sign::Star {
            return self.pointer(words, place, mode);
        }
        let at = place.at;
        let d = self.direct(words, place, mode)?;
        self.suffixes(words, place, at, d)
    }
}
