ghost use Rattle.std.specs.Prelude.{◌≡◌, List, ℕ, [], Some, IsSome, IfSome};
ghost use Rattle.eva_front.specs.Outside.{bytes_of, held, kept_whole};

use crate::outside::{Failed, Sink, Source};
use std::alloc::Global;

/// Files in memory, each a name and its bytes; the first entry of a name counts. It is open to its own names alone, and
/// never fails.
#[derive(Drop)]
pub struct SureFiles<'a> {
    files: &'a [(&'a str, &'a [u8])],
    left: Option<&'a [u8]>,
}

impl<'a> SureFiles<'a> {
    pub fn new(files: &'a [(&'a str, &'a [u8])]) -> SureFiles<'a>
        ensures { result.files.now ≡ files.now }
    {
        SureFiles { files, left: None }
    }
}

/// The bytes of a name: its first entry counts.
pub fn find<'a>(files: &'a [(&'a str, &'a [u8])], name: &str) -> Option<&'a [u8]>
    ensures { held result ≡ bytes_of files.now name.now }
{
    let ((first, bytes), rest) = files.split_first()?;
    if *first == name {
        Some(*bytes)
    } else {
        find(rest, name)
    }
}

impl<'a> Source for SureFiles<'a> {
    ghost content = { λ s name. bytes_of s.files.now name };

    ghost left = { λ s. held s.left };

    ghost faults = { λ s. 0 };

    ghost open_to = { λ s name. IsSome (bytes_of s.files.now name) };

    ghost is_open = { λ s. IsSome s.left };

    fn open(&mut self, name: &str) -> Result<(), Failed> {
        self.left = find(self.files, name);
        Ok(())
    }

    fn read(&mut self, to: &mut [u8]) -> Result<usize, Failed> {
        let Some(left) = self.left else {
            return Ok(0);
        };
        let count = left.len().min(to.len());
        let (front, rest) = left.split_at(count);
        to[..count].copy_from_slice(front);
        self.left = Some(rest);
        Ok(count)
    }
}

/// A page in memory that never fails. Where memory is wanting it goes on, and no longer tells what is written.
#[derive(Drop)]
pub struct SurePage {
    bytes: Vec<u8>,
    whole: bool,
}

impl SurePage {
    /// An empty page.
    pub fn new(alloc: Global) -> SurePage
        ensures { kept_whole result.whole result.bytes.items ≡ Some [] }
    {
        SurePage {
            bytes: Vec::new(alloc),
            whole: true,
        }
    }

    /// What is written, where it was all kept.
    pub fn written(&self) -> Option<&[u8]>
        ensures { held result ≡ kept_whole self.now.whole self.now.bytes.items }
    {
        if self.whole {
            Some(self.bytes.as_slice())
        } else {
            None
        }
    }
}

impl Sink for SurePage {
    ghost written = { λ s. kept_whole s.whole s.bytes.items };

    ghost faults = { λ s. 0 };

    fn put(&mut self, piece: &[u8]) -> Result<usize, Failed> {
        if self.bytes.extend_from_slice(piece).is_err() {
            self.whole = false;
        }
        Ok(piece.len())
    }
}
