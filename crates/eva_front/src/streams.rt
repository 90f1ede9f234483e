ghost use Rattle.std.specs.Prelude.{◌≡◌, ℕ, ◌≤◌, ◌<◌, take, length, IfOk, IfSome, OnOk, OnErr, IsErrOf};
ghost use Rattle.eva_front.specs.Outside.{Appends, HasCause, Rose};
ghost use Rattle.eva_front.specs.declared.streams.ReadStop.TheVariants.{Fault as ReadFault};

use crate::outside::{Failed, Sink, Source};
use c_lex::LONGEST;
use std::alloc::{AllocError, Global};

/// Why a file wasn't read.
#[derive(Clone, Copy, Debug, Drop, PartialEq, Eq)]
pub enum ReadStop {
    /// A call of the source failed.
    Fault,
    Memory,
}

/// The bytes of a file, or its first 1,048,577 where it has more.
pub fn read_file<S: Source>(alloc: Global, source: &mut S, name: &str) -> Result<Vec<u8>, ReadStop>
    requires { S.open_to source.old name.now }
    ensures bytes { IfOk result (λ file. IfSome (S.content source.old name.now) (λ all. file.items ≡ take 1048577 all)) }
    ensures fault { IsErrOf result ReadFault → Rose (S.faults source.old) (S.faults source.new) }
{
    match source.open(name) {
        Ok(()) => read_rest(alloc, source),
        Err(Failed) => Err(ReadStop::Fault),
    }
}

/// What the open file has left, or its first 1,048,577 bytes where it has more.
fn read_rest<S: Source>(alloc: Global, source: &mut S) -> Result<Vec<u8>, ReadStop>
    requires { S.is_open source.old }
    ensures bytes { IfOk result (λ file. IfSome (S.left source.old) (λ all. file.items ≡ take 1048577 all)) }
    ensures fault { IsErrOf result ReadFault → Rose (S.faults source.old) (S.faults source.new) }
{
    let mut file = Vec::new(alloc);
    let mut buffer = [0u8; 4096];
    'reading: while file.len() <= LONGEST {
        let room = buffer.len().min(LONGEST + 1 - file.len());
        let count = match source.read(&mut buffer[..room]) {
            Ok(count) => count,
            Err(Failed) => return Err(ReadStop::Fault),
        };
        if count == 0 {
            return Ok(file);
        }
        if file.extend_from_slice(&buffer[..count]).is_err() {
            return Err(ReadStop::Memory);
        }
    }
    Ok(file)
}

/// Writes the whole text.
pub fn put_all<K: Sink>(sink: &mut K, text: &[u8]) -> Result<(), Failed>
    ensures whole { OnOk result (Appends (K.written sink.old) (K.written sink.new) text.now) }
    ensures part { OnErr result ((n : ℕ) × (n ≤ length text.now) × Appends (K.written sink.old) (K.written sink.new) (take n text.now)) }
    ensures cause { HasCause (K.faults sink.old) (K.faults sink.new) result }
{
    let mut done = 0;
    'writing: while done < text.len() {
        match sink.put(&text[done..]) {
            Ok(count) => done += count,
            Err(Failed) => return Err(Failed),
        }
    }
    Ok(())
}
