//! One worker: it draws an index and does the work on it, until no index is left.
ghost use Rattle.std.specs.Prelude.{◌≡◌, ℕ, ◌<◌, []};
ghost use Rattle.entry_workers.specs.Drawing.{hand};
ghost use Rattle.entry_workers.specs.Working.{Labored};

use crate::draws::{Counter, Drawer, draw};
use crate::error::Memory;
use crate::job::{Gate, Job, Moment};
use std::alloc::Global;
use store_api::Store;

/// A worker with its pass and its seat at the counter.
#[derive(Drop)]
pub struct Worker<S> {
    pub number: u32,
    pub pass: S,
    pub drawer: Drawer,
}

/// An index that was drawn, with its result.
#[derive(Drop)]
pub struct Drawn<R> {
    pub index: u32,
    pub result: R,
}

/// What a worker brings home.
#[derive(Drop)]
pub struct Home<S, R> {
    pub pass: S,
    pub drawer: Drawer,
    pub drawn: Vec<Drawn<R>>,
}

/// Draws and works until the counter has passed `n`.
pub fn work<S: Store + Drop, J: Job<S>, G: Gate>(
    counter: &Counter,
    alloc: Global,
    worker: Worker<S>,
    n: u32,
    job: &J,
    gate: &G,
) -> Result<Home<S, J::R>, Memory>
    requires counter { (worker.drawer.table_id ≡ counter.now.table_id) × (counter.now.table_id.words ≡ 1) }
    requires idle { worker.drawer.me ≡ (hand 1 [], []) }
    requires ready { (i : ℕ) → i < n → J.ready job.now (S.bag worker.pass).about i }
    ensures { Labored J.held (J.promised job.now) J.halted S.bag counter.now.table_id n worker result }
{
    let Worker {
        number,
        mut pass,
        mut drawer,
    } = worker;
    let mut drawn = Vec::new(alloc);
    let mut next = draw(counter, &mut drawer);
    while next < u64::from(n) {
        let index = next as u32;
        gate.pass(number, index, Moment::Drawn);
        let result = job.run(&mut pass, index);
        gate.pass(number, index, Moment::Answered);
        drawn.push(Drawn { index, result })?;
        next = draw(counter, &mut drawer);
    }
    Ok(Home {
        pass,
        drawer,
        drawn,
    })
}
