//! The workers together: each has a thread of its own where one can be made.
ghost use Rattle.std.specs.Prelude.{◌≡◌, ℕ, ◌+◌, ◌-◌, ◌<◌, ◌≤◌, [], IfOk, All, length, map, slice_index_or};
ghost use Rattle.entry_workers.specs.Drawing.{hand, all_parts};
ghost use Rattle.entry_workers.specs.Working.{CameHome, Gathered, Idle, Labored, Worked};

use crate::draws::{Counter, Drawer, count_draws, open_counter, split_off, take_in};
use crate::error::Memory;
use crate::job::{Gate, Job};
use crate::work::{Drawn, Home, Worker, work};
use std::alloc::Global;
use std::thread::{Threads, map_vec};
use store_api::Store;

/// A worker for each pass.
fn hire<S: Drop>(
    counter: &Counter,
    maker: &mut Drawer,
    alloc: Global,
    passes: Vec<S>,
) -> Result<Vec<Worker<S>>, Memory>
    requires counter { (maker.old.table_id ≡ counter.now.table_id) × (counter.now.table_id.words ≡ 1) }
    requires maker { maker.old.me ≡ (hand all_parts [], []) }
    requires few { length passes.items ≤ all_parts }
    ensures counter { maker.new.table_id ≡ maker.old.table_id }
    ensures maker { IfOk result (λ v. maker.new.me ≡ (hand (all_parts - length passes.items) [], [])) }
    ensures passes { IfOk result (λ v. map (λ w. w.pass) v.items ≡ passes.items) }
    ensures idle { IfOk result (λ v. All (Idle counter.now.table_id) v.items) }
{
    let mut workers = Vec::new(alloc);
    for pass in passes {
        let number = workers.len() as u32;
        let drawer = split_off(counter, maker);
        workers.push(Worker {
            number,
            pass,
            drawer,
        })?;
    }
    Ok(workers)
}

/// Each worker's work, in a thread of its own where one can be made.
fn put_to_work<T: Threads + Sync, S: Store + Send + Drop, J: Job<S> + Sync, G: Gate + Sync>(
    rt: &T,
    counter: &Counter,
    workers: Vec<Worker<S>>,
    n: u32,
    job: &J,
    gate: &G,
) -> Result<Vec<Result<Home<S, J::R>, Memory>>, Memory>
where
    S::Hold: Send,
    S::Rule: Send,
    J::R: Send,
    requires counter { counter.now.table_id.words ≡ 1 }
    requires idle { All (Idle counter.now.table_id) workers.items }
    requires ready { All (λ w. (i : ℕ) → i < n → J.ready job.now (S.bag w.pass).about i) workers.items }
    ensures len { IfOk result (λ v. length v.items ≡ length workers.items) }
    ensures each { IfOk result (λ v. (i : ℕ) (w : _) (d : _) → i < length workers.items → Labored J.held (J.promised job.now) J.halted S.bag counter.now.table_id n (slice_index_or workers.items i w) (slice_index_or v.items i d)) }
{
    let alloc = *workers.allocator();
    let labor = |worker: Worker<S>| -> Result<Home<S, J::R>, Memory>
        requires { Idle counter.now.table_id worker × (counter.now.table_id.words ≡ 1) × ((i : ℕ) → i < n → J.ready job.now (S.bag worker.pass).about i) }
        ensures { Labored J.held (J.promised job.entry.now) J.halted S.bag counter.entry.now.table_id n worker result }
    { work(counter, alloc, worker, n, job, gate) };
    Ok(map_vec(rt, workers, &labor)?)
}

/// What all workers brought home; the maker has their parts and draws again.
fn gather<S: Drop, R: Drop>(
    counter: &Counter,
    maker: &mut Drawer,
    alloc: Global,
    homes: Vec<Result<Home<S, R>, Memory>>,
) -> Result<(Vec<S>, Vec<Drawn<R>>), Memory>
    requires counter { (maker.old.table_id ≡ counter.now.table_id) × (counter.now.table_id.words ≡ 1) }
    requires homes { All (CameHome counter.now.table_id) homes.items }
    ensures counter { maker.new.table_id ≡ maker.old.table_id }
    ensures gathered { IfOk result (λ r. Gathered homes.items maker.old.me.0 maker.new.me.0 r.0.items r.1.items) }
{
    let mut passes = Vec::new(alloc);
    let mut all = Vec::new(alloc);
    for home in homes {
        let Home {
            pass,
            drawer,
            mut drawn,
        } = home?;
        take_in(counter, maker, drawer);
        passes.push(pass)?;
        all.append(&mut drawn)?;
    }
    Ok((passes, all))
}

/// The results alone.
fn results<R: Drop>(alloc: Global, drawn: Vec<Drawn<R>>) -> Result<Vec<R>, Memory>
    ensures { IfOk result (λ v. v.items ≡ map (λ d. d.result) drawn.items) }
{
    let mut results = Vec::new(alloc);
    for each in drawn {
        let Drawn { index: _, result } = each;
        results.push(result)?;
    }
    Ok(results)
}

/// Does the work on each index below `n`, by a worker for each pass, and gives the passes back in their order
/// and the results in the order of the indexes. After want of memory the passes and all results are gone.
pub fn run_all<T: Threads + Sync, S: Store + Send + Drop, J: Job<S> + Sync, G: Gate + Sync>(
    rt: &T,
    passes: Vec<S>,
    n: u32,
    job: &J,
    gate: &G,
) -> Result<(Vec<S>, Vec<J::R>), Memory>
where
    S::Hold: Send,
    S::Rule: Send,
    J::R: Send,
    requires passes { (0 < length passes.items) × (length passes.items ≤ 64) }
    requires ready { All (λ s. (i : ℕ) → i < n → J.ready job.now (S.bag s).about i) passes.items }
    ensures { IfOk result (λ r. Worked J.held (J.promised job.now) J.halted n (map S.bag passes.items) (map S.bag r.0.items) r.1.items) }
{
    let alloc = *passes.allocator();
    let (table, mut maker) = open_counter(alloc)?;
    let counter = &table.shared;
    let workers = hire(counter, &mut maker, alloc, passes)?;
    let homes = put_to_work(rt, counter, workers, n, job, gate)?;
    let (passes, mut drawn) = gather(counter, &mut maker, alloc, homes)?;
    count_draws(counter, &mut maker);
    drawn.sort_unstable_by_key(|each| each.index);
    Ok((passes, results(alloc, drawn)?))
}
