ghost use Rattle.std.specs.Prelude.{◌≡◌, IfOk, map, option_map, string_bytes};
ghost use Rattle.clap.specs.Lexer.{long_of, name_and_value, strip_byte};
ghost use Rattle.command_line.specs.Parts as spec;
ghost use Rattle.command_line.specs.Parts.{long_text, open_text, seen};

use std::alloc::{AllocError, Global};

/// The options that are given, each with its value, and the other words.
#[derive(Drop)]
pub struct ReadParts<'a> {
    pub given: Vec<(&'a str, &'a str)>,
    pub others: Vec<&'a str>,
}

fn strip_dash(word: &str) -> Option<&str>
    ensures { open_text result ≡ strip_byte 45 word.now }
{
    word.strip_prefix('-')
}

fn split_value(text: &str) -> (&str, Option<&str>)
    ensures { (result.0.now, open_text result.1) ≡ name_and_value text.now }
{
    match text.split_once('=') {
        Some((name, value)) => (name, Some(value)),
        None => (text, None),
    }
}

/// The name of an option behind `--`, and its value where it follows behind `=`.
fn long_option(word: &str) -> Option<(&str, Option<&str>)>
    ensures { long_text result ≡ long_of word.now }
{
    let rest = strip_dash(strip_dash(word)?)?;
    if rest.is_empty() {
        return None;
    }
    Some(split_value(rest))
}

fn is_dashed(word: &str) -> bool
    ensures { result ≡ spec.is_dashed word.now }
{
    match word.as_bytes() {
        [] => false,
        [first, ..] => *first == b'-',
    }
}

/// The options and the other words of a command line; `None` where a word stands for nothing.
pub fn read_parts<'a>(
    alloc: Global,
    words: &'a [String],
) -> Result<Option<ReadParts<'a>>, AllocError>
    ensures { IfOk result (λ r. option_map seen r ≡ spec.parts (map string_bytes words.now)) }
{
    let mut given = Vec::new(alloc);
    let mut others = Vec::new(alloc);
    let mut waiting: Option<&'a str> = None;
    let mut has_ended = false;
    for text in words {
        let word = text.as_str();
        if has_ended {
            others.push(word)?;
        } else if let Some(name) = waiting {
            given.push((name, word))?;
            waiting = None;
        } else if word == "--" {
            has_ended = true;
        } else if let Some((name, value)) = long_option(word) {
            match value {
                Some(value) => given.push((name, value))?,
                None => waiting = Some(name),
            }
        } else if is_dashed(word) {
            return Ok(None);
        } else {
            others.push(word)?;
        }
    }
    if waiting.is_some() && !has_ended {
        return Ok(None);
    }
    Ok(Some(ReadParts { given, others }))
}
