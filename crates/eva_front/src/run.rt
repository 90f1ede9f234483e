ghost use Rattle.std.specs.Prelude.{◌≡◌, ◌<◌, ◌^◌, length, map, slice_get, All, IfOk, IfSome, MatchOption, Some, bytes_eq, position, string_bytes};
ghost use Rattle.normal_form.specs.ConstantForm.{IsReturning};
ghost use Rattle.eva_front.specs.Answer.{AnalysesEntries, HasCauses, HasEntry, IsAnswered, IsPrinted, IsVerdict, code, verdict};
ghost use Rattle.eva_front.specs.Command.{meaning};

use crate::command::{Command, read_command};
use crate::front_end::{FileStop, read_definitions};
use crate::outside::{Sink, Source};
use crate::refusals::{write_refusal, write_unknown};
use crate::report::{Reported, write_report};
use crate::streams::{ReadStop, put_all, read_file};
use iterate::analyse_entry;
use normal_form::{Returning, normalise};
use program::Site;
use sqlite_items::Items;
use std::alloc::{AllocError, Global};

const USAGE: &str = "usage: eva [--workers N] [--cache N] [--rows N] [--steps N] FILE ENTRY...\n";

const OUT_OF_MEMORY: &str = "out of memory\n";

/// How the program ends.
#[derive(Clone, Copy, Debug, Drop, PartialEq, Eq)]
pub enum Status {
    /// The entry is complete, without an alarm.
    Clean,
    /// The entry is complete, with an alarm.
    Alarms,
    /// The words have no meaning.
    Usage,
    /// The file is refused.
    Refused,
    /// A call of the source failed.
    ReadFault,
    /// A call of the sink failed.
    WriteFault,
    OutOfMemory,
    /// The file has no function of the entry's name.
    UnknownEntry,
}

impl Status {
    /// The exit status.
    pub fn code(self) -> u8
        ensures { result ≡ code self }
    {
        match self {
            Status::Clean => 0,
            Status::Alarms => 1,
            Status::Usage => 2,
            Status::Refused => 3,
            Status::ReadFault => 5,
            Status::WriteFault => 6,
            Status::OutOfMemory => 7,
            Status::UnknownEntry => 8,
        }
    }
}

/// What is answered: a status, and the text that is printed.
#[derive(Drop)]
struct Verdict {
    status: Status,
    text: String,
}

/// A function of a file, with its number in the file.
#[derive(Drop)]
struct Entry {
    number: u32,
    definition: Returning,
}

/// The number of the first definition of this name.
fn number_of(definitions: &[Returning], name: &str) -> Option<usize>
    ensures { result ≡ position (λ d. bytes_eq d.name name.now) definitions.now }
{
    definitions
        .iter()
        .position(|definition| definition.name.as_slice() == name.as_bytes())
}

/// The definition of this name, if any.
fn find_entry(definitions: Items<Returning>, name: &str) -> Option<Entry>
    requires { length definitions < 2 ^ 32 }
    ensures { MatchOption result (All (λ d. d.name ≡ name.now → ⊥) definitions) (λ e. (slice_get definitions e.number ≡ Some e.definition) × (e.definition.name ≡ name.now)) }
{
    let number = number_of(definitions.as_slice(), name)?;
    let mut definitions = definitions;
    Some(Entry {
        number: number as u32,
        definition: definitions.remove(number),
    })
}

/// How a run with these alarms ends.
fn status_of(alarms: &[Site]) -> Status
    ensures { result ≡ verdict alarms.now }
{
    match alarms {
        [] => Status::Clean,
        _ => Status::Alarms,
    }
}

/// The report on the lone run of the entry.
fn report_on(
    alloc: Global,
    bytes: &[u8],
    command: Command<'_>,
    entry: Entry,
) -> Result<Verdict, AllocError>
    requires lawful { IsReturning entry.definition }
    requires found { HasEntry bytes.now command.entry.now entry.number entry.definition }
    ensures { IfOk result (λ a. IsVerdict bytes.now command.entry.file.now command.entry.entry.now a.status (string_bytes a.text)) }
{
    let Entry { number, definition } = entry;
    let function = normalise(alloc, definition)?;
    let result = analyse_entry(alloc, number, &function)?;
    let on = Reported {
        file: bytes,
        word: command.file,
        name: command.entry,
        function: &function,
    };
    Ok(Verdict {
        status: status_of(result.alarms.as_slice()),
        text: write_report(alloc, &on, &result)?,
    })
}

/// What is answered on a file of these bytes.
fn judge(alloc: Global, bytes: &[u8], command: Command<'_>) -> Result<Verdict, AllocError>
    ensures { IfOk result (λ a. IsVerdict bytes.now command.entry.file.now command.entry.entry.now a.status (string_bytes a.text)) }
{
    let definitions = match read_definitions(alloc, bytes) {
        Ok(definitions) => definitions,
        Err(FileStop::Refused(refusal)) => {
            return Ok(Verdict {
                status: Status::Refused,
                text: write_refusal(alloc, bytes, command.file, refusal)?,
            });
        }
        Err(FileStop::Memory) => return Err(AllocError),
    };
    match find_entry(definitions, command.entry) {
        Some(entry) => report_on(alloc, bytes, command, entry),
        None => Ok(Verdict {
            status: Status::UnknownEntry,
            text: write_unknown(alloc, command.entry)?,
        }),
    }
}

/// Prints the text: the status, or that of a fault of the sink.
fn print<K: Sink>(sink: &mut K, text: &str, status: Status) -> u8
    ensures { IsPrinted text.now status result (K.written sink.old) (K.written sink.new) (K.faults sink.old) (K.faults sink.new) }
{
    match put_all(sink, text.as_bytes()) {
        Ok(()) => status.code(),
        Err(_) => Status::WriteFault.code(),
    }
}

/// Says what there is to say, and prints it.
fn say<S: Source, K: Sink>(alloc: Global, words: &[String], source: &mut S, sink: &mut K) -> u8
    requires { IfSome (meaning (map string_bytes words.now)) (λ c. S.open_to source.old c.file) }
    ensures { IsAnswered (record { words = map string_bytes words.now; content = S.content source.old; read_before = S.faults source.old; read_after = S.faults source.new; written_before = K.written sink.old; written_after = K.written sink.new; write_before = K.faults sink.old; write_after = K.faults sink.new; status = result }) }
{
    let Some(command) = read_command(words) else {
        return print(sink, USAGE, Status::Usage);
    };
    match read_file(alloc, source, command.file) {
        Ok(bytes) => match judge(alloc, bytes.as_slice(), command) {
            Ok(verdict) => print(sink, verdict.text.as_str(), verdict.status),
            Err(_) => print(sink, OUT_OF_MEMORY, Status::OutOfMemory),
        },
        Err(ReadStop::Fault) => print(sink, "read fault\n", Status::ReadFault),
        Err(ReadStop::Memory) => print(sink, OUT_OF_MEMORY, Status::OutOfMemory),
    }
}

/// The whole program: reads FILE, analyses ENTRY, prints the report, and answers the exit status.
///
/// - 0 and 1: the file is a list of functions `int NAME(void) { return E; }` with constant expressions, and ENTRY is one of
///   them; the report on its lone run is printed, without and with an alarm.
/// - 2: the words are not FILE and ENTRY.
/// - 3: the file is too long, its tokens or its grammar stop, or it isn't of the form.
/// - 5 and 6: a call of the source, or of the sink, failed; at 6 a prefix of the text went out.
/// - 7: memory is wanting.
/// - 8: the file is of the form, and ENTRY is none of its functions.
pub fn run_eva<S: Source, K: Sink>(
    alloc: Global,
    words: &[String],
    source: &mut S,
    sink: &mut K,
) -> u8
    requires { IfSome (meaning (map string_bytes words.now)) (λ c. S.open_to source.old c.file) }
    ensures answered { IsAnswered (record { words = map string_bytes words.now; content = S.content source.old; read_before = S.faults source.old; read_after = S.faults source.new; written_before = K.written sink.old; written_after = K.written sink.new; write_before = K.faults sink.old; write_after = K.faults sink.new; status = result }) }
    ensures causes { HasCauses (record { words = map string_bytes words.now; content = S.content source.old; read_before = S.faults source.old; read_after = S.faults source.new; written_before = K.written sink.old; written_after = K.written sink.new; write_before = K.faults sink.old; write_after = K.faults sink.new; status = result }) }
    ensures analysed { AnalysesEntries (record { words = map string_bytes words.now; content = S.content source.old; read_before = S.faults source.old; read_after = S.faults source.new; written_before = K.written sink.old; written_after = K.written sink.new; write_before = K.faults sink.old; write_after = K.faults sink.new; status = result }) }
{
    say(alloc, words, source, sink)
}
