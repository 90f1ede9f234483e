ghost use Rattle.std.specs.Prelude.{◌≡◌};
ghost use Rattle.elab_findings.specs.Findings as spec;

use crate::fault::Fault;
use crate::uses::Uses;
use sqlite_items::Items;
use std::alloc::Global;

/// A fault that counts where its declaration is used.
#[derive(Clone, Copy, Debug, Drop, PartialEq, Eq)]
pub struct Held {
    pub declaration: u32,
    pub fault: Fault,
}

/// What was noted on the way through a file.
#[derive(Drop)]
pub struct Findings {
    /// Those that count everywhere.
    pub faults: Items<Fault>,
    pub held: Items<Held>,
    /// The declarations that are used by themselves.
    pub roots: Items<u32>,
    pub uses: Uses,
}

impl Findings {
    /// Nothing, of a file that declares nothing yet.
    pub fn new(alloc: Global) -> Findings
        ensures { result ≡ spec.nothing_found }
    {
        Findings {
            faults: Items::new(alloc),
            held: Items::new(alloc),
            roots: Items::new(alloc),
            uses: Uses::new(alloc),
        }
    }
}
