ghost use Rattle.std.specs.Prelude.{◌≡◌, ◌+◌, ◌-◌, ◌<◌, ◌≤◌, ◌^◌, ◌==◌, ℕ, min, List, [], IsSome, Some};
ghost use Rattle.std.specs.List.{list_any};
ghost use Rattle.eva_front.specs.Outside.{Rose, bytes_of, held};

use crate::memory::find;
use crate::outside::{Failed, Sink, Source};
use std::alloc::Global;

/// The calls that are to fail, by their numbers from 1 on; how many calls were made, and how many failed.
#[derive(Drop)]
struct Calls<'a> {
    failing: &'a [u64],
    made: u64,
    faults: u64,
}

impl<'a> Calls<'a> {
    fn new(failing: &'a [u64]) -> Calls<'a>
        ensures failing { result.failing.now ≡ failing.now }
        ensures made { result.made ≡ 0 }
        ensures faults { result.faults ≡ 0 }
    {
        Calls {
            failing,
            made: 0,
            faults: 0,
        }
    }

    /// Counts a call, and says whether it is to fail.
    fn fails(&mut self) -> bool
        ensures fails { result ≡ list_any (λ n. n == self.new.made) self.old.failing.now }
        ensures made { self.new.made ≡ min (self.old.made + 1) (2 ^ 64 - 1) }
        ensures faults { self.new.faults ≡ self.old.faults }
        ensures failing { self.new.failing.now ≡ self.old.failing.now }
    {
        let made = self.made.saturating_add(1);
        self.made = made;
        self.failing.iter().any(|number| *number == made)
    }

    /// Counts a fault.
    fn fault(&mut self) -> Failed
        ensures rose { Rose self.old.faults self.new.faults }
        ensures later { self.old.faults ≤ self.new.faults }
        ensures made { self.new.made ≡ self.old.made }
        ensures failing { self.new.failing.now ≡ self.old.failing.now }
    {
        self.faults = self.faults.saturating_add(1);
        Failed
    }
}

/// Files in memory, each a name and its bytes; the first entry of a name counts. The calls of the given numbers fail, where
/// 1 is the first call of all, and so does opening a name that isn't there.
#[derive(Drop)]
pub struct FileMap<'a> {
    files: &'a [(&'a str, &'a [u8])],
    left: Option<&'a [u8]>,
    calls: Calls<'a>,
}

impl<'a> FileMap<'a> {
    pub fn new(files: &'a [(&'a str, &'a [u8])], failing: &'a [u64]) -> FileMap<'a>
        ensures files { result.files.now ≡ files.now }
        ensures failing { result.calls.failing.now ≡ failing.now }
        ensures made { result.calls.made ≡ 0 }
        ensures faults { result.calls.faults ≡ 0 }
    {
        FileMap {
            files,
            left: None,
            calls: Calls::new(failing),
        }
    }
}

impl<'a> Source for FileMap<'a> {
    ghost content = { λ s name. bytes_of s.files.now name };

    ghost left = { λ s. held s.left };

    ghost faults = { λ s. s.calls.faults };

    ghost open_to = { λ s name. Unit {0} };

    ghost is_open = { λ s. IsSome s.left };

    fn open(&mut self, name: &str) -> Result<(), Failed> {
        let fails = self.calls.fails();
        match find(self.files, name) {
            Some(bytes) if !fails => {
                self.left = Some(bytes);
                Ok(())
            }
            _ => Err(self.calls.fault()),
        }
    }

    fn read(&mut self, to: &mut [u8]) -> Result<usize, Failed> {
        let Some(left) = self.left else {
            return Err(self.calls.fault());
        };
        if self.calls.fails() {
            return Err(self.calls.fault());
        }
        let count = left.len().min(to.len());
        let (front, rest) = left.split_at(count);
        to[..count].copy_from_slice(front);
        self.left = Some(rest);
        Ok(count)
    }
}

/// A page in memory that takes at most so many bytes a call. The calls of the given numbers fail, where 1 is the first call
/// of all, and so does a call that could take no byte, for want of memory too.
#[derive(Drop)]
pub struct Page<'a> {
    bytes: Vec<u8>,
    most: usize,
    calls: Calls<'a>,
}

impl<'a> Page<'a> {
    /// An empty page.
    pub fn new(alloc: Global, most: usize, failing: &'a [u64]) -> Page<'a>
        ensures bytes { result.bytes.items ≡ [] }
        ensures most { result.most ≡ most }
        ensures failing { result.calls.failing.now ≡ failing.now }
        ensures made { result.calls.made ≡ 0 }
        ensures faults { result.calls.faults ≡ 0 }
    {
        Page {
            bytes: Vec::new(alloc),
            most,
            calls: Calls::new(failing),
        }
    }

    /// What is written.
    pub fn written(&self) -> &[u8]
        ensures { result.now ≡ self.now.bytes.items }
    {
        self.bytes.as_slice()
    }
}

impl<'a> Sink for Page<'a> {
    ghost written = { λ s. Some s.bytes.items };

    ghost faults = { λ s. s.calls.faults };

    fn put(&mut self, piece: &[u8]) -> Result<usize, Failed> {
        let count = piece.len().min(self.most);
        if self.calls.fails() || count == 0 && !piece.is_empty() {
            return Err(self.calls.fault());
        }
        if self.bytes.extend_from_slice(&piece[..count]).is_err() {
            return Err(self.calls.fault());
        }
        Ok(count)
    }
}
