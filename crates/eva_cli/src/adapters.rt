ghost use Rattle.std.specs.Prelude.{List, ℕ, ◌<◌, ◌≤◌, None, length, IsSome, IfSome};

use eva_front::{Failed, Sink, Source};
use std::fs::File;
use std::io::{Read, Write};

/// Files of the system, open to every name. What they hold isn't told.
#[derive(Drop)]
pub struct FileSource<'a> {
    rt: &'a HostRuntime,
    file: Option<File>,
    faults: u64,
}

impl<'a> FileSource<'a> {
    pub fn new(rt: &'a HostRuntime) -> FileSource<'a> {
        FileSource {
            rt,
            file: None,
            faults: 0,
        }
    }
}

impl<'a> Source for FileSource<'a> {
    ghost content = { λ s name. None };

    ghost left = { λ s. None };

    ghost faults = { λ s. s.faults };

    ghost open_to = { λ s name. Unit {0} };

    ghost is_open = { λ s. IsSome s.file };

    fn open(&mut self, name: &str) -> Result<(), Failed> {
        match File::open(self.rt, name) {
            Ok(file) => {
                self.file = Some(file);
                Ok(())
            }
            Err(_) => {
                self.faults = self.faults.saturating_add(1);
                Err(Failed)
            }
        }
    }

    fn read(&mut self, to: &mut [u8]) -> Result<usize, Failed> {
        let Some(file) = &mut self.file else {
            return Ok(0);
        };
        match file.read(to) {
            Ok(count) => Ok(count),
            Err(_) => {
                self.faults = self.faults.saturating_add(1);
                Err(Failed)
            }
        }
    }
}

/// A writer, flushed after each piece. What was written isn't told.
#[derive(Drop)]
pub struct WriterSink<W> {
    writer: W,
    faults: u64,
}

impl<W: Write> WriterSink<W> {
    pub fn new(writer: W) -> WriterSink<W> {
        WriterSink { writer, faults: 0 }
    }
}

/// How many bytes were written and flushed; `None` where the writer failed, or took none of a piece that isn't empty.
fn write_flushed<W: Write>(writer: &mut W, piece: &[u8]) -> Option<usize>
    ensures within { IfSome result (λ n. n ≤ length piece.now) }
    ensures some { IfSome result (λ n. 0 < length piece.now → 0 < n) }
{
    match writer.write(piece) {
        Ok(count) if count > 0 || piece.is_empty() => match writer.flush() {
            Ok(()) => Some(count),
            Err(_) => None,
        },
        _ => None,
    }
}

impl<W: Write> Sink for WriterSink<W> {
    ghost written = { λ s. None };

    ghost faults = { λ s. s.faults };

    fn put(&mut self, piece: &[u8]) -> Result<usize, Failed> {
        match write_flushed(&mut self.writer, piece) {
            Some(count) => Ok(count),
            None => {
                self.faults = self.faults.saturating_add(1);
                Err(Failed)
            }
        }
    }
}

#[cfg(test)]
mod tests {
    use super::*;
    use std::fs;
    use std::test::Fail;

    #[test]
    fn reads_a_file(rt: HostRuntime) -> Result<(), Fail> {
        fs::write(&rt, "a.c", "int")?;
        let mut source = FileSource::new(&rt);
        let mut bytes = [0u8; 4];
        assert!(rt; source.open("b.c").is_err());
        assert_eq!(rt; source.faults, 1);
        assert!(rt; source.open("a.c").is_ok());
        if source.file.is_some() {
            assert_eq!(rt; source.read(&mut bytes), Ok(3));
        }
        assert_eq!(rt; bytes, *b"int\0");
        if source.file.is_some() {
            assert_eq!(rt; source.read(&mut bytes), Ok(0));
        }
        assert_eq!(rt; source.faults, 1);
        Ok(())
    }

    #[test]
    fn writes_to_a_writer(rt: HostRuntime) -> Result<(), Fail> {
        let mut sink = WriterSink::new(Vec::new(rt.alloc()));
        assert_eq!(rt; sink.put(b"end"), Ok(3));
        assert_eq!(rt; sink.put(b""), Ok(0));
        assert_eq!(rt; sink.writer.as_slice(), b"end".as_slice());
        assert_eq!(rt; sink.faults, 0);
        let mut room = [0u8; 2];
        let mut short = WriterSink::new(room.as_mut_slice());
        assert_eq!(rt; short.put(b"end"), Ok(2));
        assert_eq!(rt; short.put(b"d"), Err(Failed));
        assert_eq!(rt; short.faults, 1);
        Ok(())
    }
}
