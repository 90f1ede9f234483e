ghost use Rattle.std.specs.Prelude.{◌≡◌, length, map, slice_get, IfOk, string_bytes};
ghost use Rattle.eva_front.specs.FileNames.{shown_name};
ghost use Rattle.eva_front.specs.Report.{alarm_line, end_lines, ended, first_line, kind_text, last_line, node_place, report_text, text_of_lines, value_text};

use crate::refusals::file_name;
use iterate::{EntryResult, State};
use program::{Function, Kind, Place, Site};
use std::alloc::{AllocError, Global};

/// The name of the kind in a report.
fn kind_name(kind: Kind) -> &'static str
    ensures { result.now ≡ kind_text kind }
{
    match kind {
        Kind::DivisionByZero => "division_by_zero",
        Kind::SignedOverflow => "signed_overflow",
        Kind::Shift => "shift",
        Kind::IndexBound => "index_bound",
        Kind::PointerArithmetic => "pointer_arithmetic",
        Kind::MemAccess => "mem_access",
        Kind::DifferingBlocks => "differing_blocks",
        Kind::PointerComparison => "pointer_comparison",
        Kind::Initialization => "initialization",
        Kind::Dangling => "dangling",
        Kind::PointerBytes => "pointer_bytes",
        Kind::MissingReturn => "missing_return",
    }
}

/// A file's name with each byte from 128 on as `\x` and two hexadecimal digits.
pub fn show_name(alloc: Global, name: &[u8]) -> Result<String, AllocError>
    ensures { IfOk result (λ shown. string_bytes shown ≡ shown_name name.now) }
{
    let mut shown = String::new(alloc);
    for byte in name {
        let b = *byte;
        if b < 128 {
            shown.push(b as char)?;
        } else {
            shown.push_str(format!(in alloc; "\\x{b:x}")?.as_str())?;
        }
    }
    Ok(shown)
}

/// The place of a node's statement.
fn place_at(f: &Function, n: u32) -> Place
    ensures { result ≡ node_place (slice_get f.now.nodes n) }
{
    match f.nodes.get(n as usize) {
        Some(node) => node.place,
        None => Place {
            name_at: 0,
            name_len: 0,
            line: 0,
        },
    }
}

/// What a report is on: a file's bytes and its name on the command line, and a function of it with its name as text.
#[derive(Clone, Copy, Drop)]
pub struct Reported<'a> {
    pub file: &'a [u8],
    pub word: &'a str,
    pub name: &'a str,
    pub function: &'a Function,
}

fn write_alarm(alloc: Global, on: &Reported<'_>, site: &Site) -> Result<String, AllocError>
    requires { on.now.name.now ≡ on.now.function.now.name }
    ensures { IfOk result (λ text. string_bytes text ≡ ended (alarm_line on.now.file.now on.now.word.now on.now.function.now site.now)) }
{
    let place = place_at(on.function, site.node);
    let named = file_name(on.file, on.word, place.name_at, place.name_len);
    let file = show_name(alloc, named)?;
    let kind = kind_name(site.kind);
    let line = place.line;
    let name = on.name;
    let Site { node, sub, .. } = *site;
    let text = format!(in alloc; "alarm {file}:{line} {kind} in {name} {node}.{sub}\n")?;
    Ok(text)
}

/// The lines of the alarms.
fn write_alarms(alloc: Global, on: &Reported<'_>, alarms: &[Site]) -> Result<String, AllocError>
    requires { on.now.name.now ≡ on.now.function.now.name }
    ensures { IfOk result (λ text. string_bytes text ≡ text_of_lines (map (alarm_line on.now.file.now on.now.word.now on.now.function.now) alarms.now)) }
{
    let mut text = String::new(alloc);
    for site in alarms {
        let line = write_alarm(alloc, on, site)?;
        text.push_str(line.as_str())?;
    }
    Ok(text)
}

/// What is known of the result where the function ends.
fn write_value(alloc: Global, outcome: Option<i32>) -> Result<String, AllocError>
    ensures { IfOk result (λ text. string_bytes text ≡ value_text outcome) }
{
    match outcome {
        None => String::from_str(alloc, "UNINITIALIZED"),
        Some(value) => {
            let text = format!(in alloc; "{{{value}}}")?;
            Ok(text)
        }
    }
}

fn write_end(alloc: Global, name: &str, end: State) -> Result<String, AllocError>
    ensures { IfOk result (λ text. string_bytes text ≡ text_of_lines (end_lines name.now end)) }
{
    match end {
        State::Bottom => {
            let text = format!(in alloc; "end of {name}: none\n")?;
            Ok(text)
        }
        State::Live(outcome) => {
            let value = write_value(alloc, outcome)?;
            let text = format!(in alloc; "end of {name}:\n  \\result = {value}\n")?;
            Ok(text)
        }
    }
}

fn write_first(alloc: Global, name: &str, turns: u64) -> Result<String, AllocError>
    ensures { IfOk result (λ text. string_bytes text ≡ ended (first_line name.now turns)) }
{
    let text = format!(in alloc; "entry {name}: complete, {turns} turns\n")?;
    Ok(text)
}

fn write_last(alloc: Global, alarms: usize, turns: u64) -> Result<String, AllocError>
    ensures { IfOk result (λ text. string_bytes text ≡ ended (last_line alarms turns)) }
{
    let text = format!(in alloc; "entries 1, complete 1, alarms {alarms}, turns {turns}\n")?;
    Ok(text)
}

/// The report on one entry. `Err` only for want of memory.
pub fn write_report(alloc: Global, on: &Reported<'_>, r: &EntryResult) -> Result<String, AllocError>
    requires { on.now.name.now ≡ on.now.function.now.name }
    ensures { IfOk result (λ text. string_bytes text ≡ report_text on.now.file.now on.now.word.now on.now.function.now r.now) }
{
    let mut text = write_first(alloc, on.name, r.turns)?;
    let alarms = write_alarms(alloc, on, r.alarms.as_slice())?;
    text.push_str(alarms.as_str())?;
    let end = write_end(alloc, on.name, r.end)?;
    text.push_str(end.as_str())?;
    let last = write_last(alloc, r.alarms.len(), r.turns)?;
    text.push_str(last.as_str())?;
    Ok(text)
}
