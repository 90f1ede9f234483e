//! The reader of a whole file, piece by piece.

ghost use Rattle.std.specs.Prelude.{◌≡◌, ◌<◌, ◌≤◌, ◌+◌, ◌^◌, ◌++◌, length, IfOk, IfErr, OnOk};
ghost use Rattle.std.specs.Option.{option_to_list};
ghost use Rattle.c_lex.specs.Bytes as bytes;
ghost use Rattle.c_lex.specs.Piece as pieces;
ghost use Rattle.c_lex.specs.Reading as spec;
ghost use Rattle.c_lex.specs.Source.{longest};

use crate::class::{Class, byte, is_blank, is_plain, past};
use crate::error::LexStop;
use crate::number::{integer_value, is_floating, is_integer};
use crate::piece::{Piece, piece_at};
use crate::token::{Place, Token, TokenKind};
use crate::vocabulary::{is_attribute, is_keyword, is_skipped};
use std::alloc::Global;

/// A bracket of an attribute's list, or the one that is to begin it.
#[derive(Clone, Copy, Debug)]
pub struct Bracket {
    /// The first byte of the word `__attribute__`, and its place.
    pub attribute: u32,
    pub place: Place,
    pub begun: bool,
}

/// Where a reader stands.
#[derive(Drop)]
pub struct Scanner {
    at: u32,
    /// Nothing but white space stands before in the line.
    fresh: bool,
    place: Place,
    /// The brackets of attributes that are open, the newest last.
    brackets: Vec<Bracket>,
}

#[tactic(auto, unfolding(crate::specs::Bytes::fresh_past))]
fn fresh_past(mut fresh: bool, text: &[u8]) -> bool
    ensures { result ≡ bytes.fresh_past fresh text.now }
{
    for b in text {
        fresh = *b == b'\n' || (fresh && is_blank(*b));
    }
    fresh
}

#[tactic(auto, unfolding(crate::specs::Bytes::lines_in))]
fn lines_in(text: &[u8]) -> usize
    ensures value { result ≡ bytes.lines_in text.now }
    ensures within { result ≤ length text.now }
{
    text.iter().filter(|b| **b == b'\n').count()
}

/// A place some bytes further on.
fn further(text: &[u8], place: Place) -> Place
    requires { place.line + length text.now < 2 ^ 32 }
    ensures value { result ≡ spec.further text.now place }
    ensures line { result.line ≤ place.line + length text.now }
{
    Place {
        line: place.line + lines_in(text) as u32,
        ..place
    }
}

/// The length of what is skipped at the front of a text, 0 where nothing is.
#[tactic(auto, unfolding(crate::specs::Reading::skipped_len))]
fn skipped_len(fresh: bool, text: &[u8]) -> usize
    requires { 0 < length text.now }
    ensures value { result ≡ spec.skipped_len (pieces.piece fresh text.now) }
    ensures within { result ≤ length text.now }
{
    match piece_at(fresh, text) {
        Some((Piece::Blank | Piece::Comment | Piece::Marker(_) | Piece::Pragma, len)) => len,
        _ => 0,
    }
}

/// The text behind white space, comments and lines that begin with `#`.
fn behind(mut fresh: bool, mut text: &[u8]) -> &[u8]
    ensures { result.now ≡ spec.behind fresh text.entry.now }
{
    'skip: while !text.is_empty() {
        let len = skipped_len(fresh, text);
        if len == 0 {
            return text;
        }
        let (skipped, rest) = text.split_at(len);
        fresh = fresh_past(fresh, skipped);
        text = rest;
    }
    text
}

#[tactic(auto, unfolding(crate::specs::Reading::list_follows))]
fn list_follows(text: &[u8]) -> bool
    ensures { result ≡ spec.list_follows text.now }
{
    byte(behind(false, text), 0) == b'('
}

fn allowed(piece: Piece) -> Class
    ensures { result ≡ spec.allowed piece }
{
    match piece {
        Piece::Pragma => Class::Plain,
        _ => Class::Inner,
    }
}

#[tactic(auto, unfolding(crate::specs::Reading::kind_of))]
fn kind_of(piece: Piece, text: &[u8]) -> Option<TokenKind>
    ensures { result ≡ spec.kind_of piece text.now }
{
    match piece {
        Piece::Word => {
            if is_attribute(text) || is_skipped(text) {
                None
            } else if is_keyword(text) {
                Some(TokenKind::Keyword)
            } else {
                Some(TokenKind::Name)
            }
        }
        Piece::Number => Some(if is_integer(text) {
            TokenKind::Int
        } else {
            TokenKind::Float
        }),
        Piece::Char => Some(TokenKind::Char),
        Piece::Str => Some(TokenKind::Str),
        Piece::Punct => Some(TokenKind::Punct),
        Piece::Blank | Piece::Comment | Piece::Marker(_) | Piece::Pragma => None,
    }
}

fn open_bracket(brackets: &mut Vec<Bracket>) -> Result<(), LexStop>
    ensures ok { OnOk result (brackets.new.items ≡ spec.on_newest spec.one_more brackets.old.items) }
    ensures err { IfErr result (λ e. e ≡ LexStop.Memory) }
{
    let Some(newest) = brackets.pop() else {
        return Ok(());
    };
    if newest.begun {
        brackets.push(newest)?;
    }
    brackets.push(Bracket {
        begun: true,
        ..newest
    })?;
    Ok(())
}

fn close_bracket(brackets: &mut Vec<Bracket>)
    ensures { brackets.new.items ≡ spec.on_newest spec.one_less brackets.old.items }
{
    brackets.pop();
}

impl Scanner {
    /// The stop of a number that is no constant or too large, or of an attribute without its list.
    #[tactic(auto, unfolding(crate::specs::Reading::own_stop))]
    fn own_stop(&self, piece: Piece, text: &[u8], rest: &[u8]) -> Option<LexStop>
        ensures { result ≡ spec.own_stop (spec.state_of self.now) piece text.now rest.now }
    {
        let (at, place) = (self.at, self.place);
        match piece {
            Piece::Number => {
                if is_integer(text) {
                    match integer_value(text) {
                        Some(_) => None,
                        None => Some(LexStop::LiteralTooWide { at, place }),
                    }
                } else if is_floating(text) {
                    None
                } else {
                    Some(LexStop::BadToken { at, place })
                }
            }
            Piece::Word if is_attribute(text) && !list_follows(rest) => {
                Some(LexStop::BadToken { at, place })
            }
            _ => None,
        }
    }

    /// The stop in a piece: the first byte that may not stand in it, or else its own.
    #[tactic(auto, unfolding(crate::specs::Reading::piece_stop))]
    fn piece_stop(&self, piece: Piece, text: &[u8], rest: &[u8]) -> Option<LexStop>
        requires at { self.now.at + length text.now < 2 ^ 32 }
        requires line { self.now.place.line + length text.now < 2 ^ 32 }
        ensures { result ≡ spec.piece_stop (spec.state_of self.now) piece text.now rest.now }
    {
        let good = past(allowed(piece), text, 0);
        if good < text.len() {
            Some(LexStop::BadByte {
                at: self.at + good as u32,
                place: further(&text[..good], self.place),
            })
        } else {
            self.own_stop(piece, text, rest)
        }
    }

    #[tactic(auto, unfolding(crate::specs::Reading::token_of))]
    fn token_of(&self, piece: Piece, text: &[u8]) -> Option<Token>
        requires { length text.now < 2 ^ 32 }
        ensures { result ≡ spec.token_of (spec.state_of self.now) piece text.now }
    {
        if !self.brackets.is_empty() {
            return None;
        }
        let kind = kind_of(piece, text)?;
        Some(Token {
            kind,
            at: self.at,
            len: text.len() as u32,
            place: self.place,
        })
    }

    #[tactic(auto, unfolding(crate::specs::Reading::place_past))]
    fn place_past(&self, piece: Piece, text: &[u8]) -> Place
        requires within { pieces.MarkerWithin piece (length text.now) }
        requires at { self.now.at + length text.now ≤ 1048576 }
        requires line { self.now.place.line ≤ 2 ^ 31 + self.now.at }
        ensures value { result ≡ spec.place_past (spec.state_of self.now) piece text.now }
        ensures line { result.line ≤ 2 ^ 31 + (self.now.at + length text.now) }
    {
        match piece {
            Piece::Marker(marker) => Place {
                name_at: self.at + marker.name_at as u32,
                name_len: marker.name_len as u32,
                line: marker.number,
            },
            _ => further(text, self.place),
        }
    }

    #[tactic(auto, unfolding(crate::specs::Reading::brackets_past))]
    fn track(&mut self, piece: Piece, text: &[u8]) -> Result<(), LexStop>
        ensures ok { OnOk result (self.new.brackets.items ≡ spec.brackets_past (spec.state_of self.old) piece text.now) }
        ensures same { (self.new.at ≡ self.old.at) × (self.new.fresh ≡ self.old.fresh) × (self.new.place ≡ self.old.place) }
        ensures err { IfErr result (λ e. e ≡ LexStop.Memory) }
    {
        match piece {
            Piece::Word if is_attribute(text) => self.brackets.push(Bracket {
                attribute: self.at,
                place: self.place,
                begun: false,
            })?,
            Piece::Punct if text == b"(".as_slice() => open_bracket(&mut self.brackets)?,
            Piece::Punct if text == b")".as_slice() => close_bracket(&mut self.brackets),
            _ => {}
        }
        Ok(())
    }

    /// Goes past a piece.
    #[tactic(auto, unfolding(crate::specs::Reading::past_piece))]
    fn pass(&mut self, piece: Piece, text: &[u8]) -> Result<(), LexStop>
        requires within { pieces.MarkerWithin piece (length text.now) }
        requires at { self.old.at + length text.now ≤ 1048576 }
        requires line { self.old.place.line ≤ 2 ^ 31 + self.old.at }
        ensures ok { OnOk result (spec.state_of self.new ≡ spec.past_piece (spec.state_of self.old) piece text.now) }
        ensures at { OnOk result (self.new.at ≡ self.old.at + length text.now) }
        ensures line { OnOk result (self.new.place.line ≤ 2 ^ 31 + self.new.at) }
        ensures err { IfErr result (λ e. e ≡ LexStop.Memory) }
    {
        let place = self.place_past(piece, text);
        self.track(piece, text)?;
        self.place = place;
        self.fresh = fresh_past(self.fresh, text);
        self.at += text.len() as u32;
        Ok(())
    }

    /// Reads the piece at the front, and answers its token, if it is one, and the text behind it.
    #[tactic(auto, unfolding(crate::specs::Reading::stop_at))]
    fn step<'t>(&mut self, text: &'t [u8]) -> Result<(Option<Token>, &'t [u8]), LexStop>
        requires some { 0 < length text.now }
        requires at { self.old.at + length text.now ≤ 1048576 }
        requires line { self.old.place.line ≤ 2 ^ 31 + self.old.at }
        ensures ok { IfOk result (λ r. spec.Passes (spec.state_of self.old) text.now r.0 r.1.now (spec.state_of self.new)) }
        ensures shorter { IfOk result (λ r. length r.1.now < length text.now) }
        ensures at { IfOk result (λ r. self.new.at + length r.1.now ≡ self.old.at + length text.now) }
        ensures line { OnOk result (self.new.place.line ≤ 2 ^ 31 + self.new.at) }
        ensures err { IfErr result (λ e. spec.Stands (spec.state_of self.old) text.now e) }
    {
        let (at, place) = (self.at, self.place);
        let Some((piece, len)) = piece_at(self.fresh, text) else {
            return Err(if is_plain(text[0]) {
                LexStop::BadToken { at, place }
            } else {
                LexStop::BadByte { at, place }
            });
        };
        let (front, rest) = text.split_at(len);
        if let Some(stop) = self.piece_stop(piece, front, rest) {
            return Err(stop);
        }
        let token = self.token_of(piece, front);
        self.pass(piece, front)?;
        Ok((token, rest))
    }

    #[tactic(auto, unfolding(crate::specs::Reading::end_stop))]
    fn end_stop(&self) -> Option<LexStop>
        ensures { result ≡ spec.end_stop (spec.state_of self.now) }
    {
        let newest = self.brackets.last()?;
        Some(LexStop::BadToken {
            at: newest.attribute,
            place: newest.place,
        })
    }
}

fn keep(tokens: &mut Vec<Token>, token: Option<Token>) -> Result<(), LexStop>
    ensures ok { OnOk result (tokens.new.items ≡ tokens.old.items ++ option_to_list token) }
    ensures err { IfErr result (λ e. e ≡ LexStop.Memory) }
{
    if let Some(token) = token {
        tokens.push(token)?;
    }
    Ok(())
}

/// The tokens of a preprocessed file of at most 2^20 bytes, in order, or the first stop.
pub fn tokens(alloc: Global, file: &[u8]) -> Result<Vec<Token>, LexStop>
    requires { length file.now ≤ longest }
    ensures lexed { IfOk result (λ v. spec.Lexed file.now v.items) }
    ensures refused { IfErr result (λ e. spec.Refused file.now e) }
{
    let mut tokens = Vec::new(alloc);
    let mut scanner = Scanner {
        at: 0,
        fresh: true,
        place: Place {
            name_at: 0,
            name_len: 0,
            line: 1,
        },
        brackets: Vec::new(alloc),
    };
    let mut text = file;
    'pieces: while !text.is_empty() {
        let (token, rest) = scanner.step(text)?;
        keep(&mut tokens, token)?;
        text = rest;
    }
    match scanner.end_stop() {
        Some(stop) => Err(stop),
        None => Ok(tokens),
    }
}
