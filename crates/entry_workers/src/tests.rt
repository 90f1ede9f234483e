// Workers over plain stores.
ghost use Rattle.std.specs.Prelude.{◌≡◌, ◌*◌, ◌<◌, ◌≤◌, [], false};
ghost use Rattle.store_api.specs.Holds.{some_hold};

use crate::{Gate, Job, Memory, Moment, run_all};
use plain_store::{PlainStore, plain};
use std::alloc::Global;
use std::sync::atomic::{AtomicU64, Ordering};
use std::test::Fail;
use std::thread::Threads;
use store_api::{Relate, Shape, Store, intern_leaf};

#[derive(Drop)]
struct NoRule;

impl Relate for NoRule {
    ghost about = { λ _. [] };

    ghost related = { λ _ _ _ _ _. Unit {0} };
}

/// The square of each index, and a leaf that has it.
struct Squares;

#[derive(Drop)]
struct Square<H> {
    value: u64,
    leaf: Option<H>,
}

impl<S: Store> Job<S> for Squares
where
    S::Hold: Send,
{
    type R = Square<S::Hold>;

    ghost ready = { λ _ _ _. Unit {0} };

    ghost promised = { λ _ i r _. r.value ≡ i * i };

    ghost held = { λ r. some_hold S.name r.leaf };

    ghost halted = { λ _. false };

    fn run(&self, s: &mut S, index: u32) -> Square<S::Hold> {
        let value = u64::from(index) * u64::from(index);
        let leaf = intern_leaf(
            s,
            &Shape {
                head: value,
                body: [0; 8],
                kids: 0,
            },
        );
        Square {
            value,
            leaf: leaf.ok(),
        }
    }
}

struct Open;

impl Gate for Open {
    fn pass(&self, _: u32, _: u32, _: Moment) {}
}

/// Whoever drew index 0 waits until index 1 was answered, for so many turns of a loop.
#[derive(Drop)]
struct Meeting {
    answered: AtomicU64,
    failed: AtomicU64,
}

impl Gate for Meeting {
    fn pass(&self, _: u32, entry: u32, at: Moment) {
        match (entry, at) {
            (0, Moment::Drawn) => {
                for _ in 0..100_000_000u64 {
                    if self.answered.load(Ordering::SeqCst) == 1 {
                        return;
                    }
                }
                self.failed.store(1, Ordering::SeqCst);
            }
            (1, Moment::Answered) => self.answered.store(1, Ordering::SeqCst),
            _ => {}
        }
    }
}

/// The squares of the indexes below `n`, by so many workers.
fn squares_below<T: Threads + Sync, G: Gate + Sync>(
    rt: &T,
    alloc: Global,
    workers: u32,
    n: u32,
    gate: &G,
) -> Result<(usize, Vec<u64>), Memory>
    requires { (0 < workers) × (workers ≤ 64) }
{
    let mut passes: Vec<PlainStore<NoRule>> = Vec::new(alloc);
    for _worker in 0..workers {
        passes.push(plain(alloc, NoRule))?;
    }
    let (passes, results) = run_all(rt, passes, n, &Squares, gate)?;
    let mut values = Vec::new(alloc);
    for result in &results {
        values.push(result.value)?;
    }
    Ok((passes.len(), values))
}

#[test]
fn two_workers_run_at_once(rt: HostRuntime) -> Result<(), Fail> {
    let meeting = Meeting {
        answered: AtomicU64::new(0),
        failed: AtomicU64::new(0),
    };
    let (passes, values) = squares_below(&rt, rt.alloc(), 2, 2, &meeting)?;
    assert!(rt; passes == 2 && values.as_slice() == [0, 1].as_slice());
    assert!(rt; meeting.failed.load(Ordering::SeqCst) == 0);
    Ok(())
}

#[test]
fn results_stand_in_the_order_of_the_indexes(rt: HostRuntime) -> Result<(), Fail> {
    for (workers, n) in [(3, 0), (1, 3), (5, 3), (64, 3), (2, 200)] {
        let (passes, values) = squares_below(&rt, rt.alloc(), workers, n, &Open)?;
        assert!(rt; passes == workers as usize && values.len() == n as usize);
        for i in 0..n as u64 {
            assert!(rt; values[i as usize] == i * i);
        }
    }
    Ok(())
}
