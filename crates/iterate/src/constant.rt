//! The lone run of a function of `program` that sets its result to constant expressions.

ghost use Rattle.std.specs.Prelude.{◌≡◌, ◌<◌, [], ◌∷◌, length, slice_get, IfOk, Some};
ghost use Rattle.constant_meaning.specs.ConstantExecution.{IsResultFunction};
ghost use Rattle.iterate.specs.ConstantRun.{LoneRun};
ghost use Rattle.iterate.specs.ConstantSound.{IsSound};

use constant_meaning::{Undefined, evaluate};
use program::{Function, Instr, Node, Site};
use sqlite_items::Items;
use std::alloc::{AllocError, Global};

/// What is known of the memory at a node.
#[derive(Clone, Copy, Debug, Drop, PartialEq, Eq)]
pub enum State {
    /// No execution comes here.
    Bottom,
    /// The number of the function's result, `None` before it is set.
    Live(Option<i32>),
}

/// What the run of an entry gives.
#[derive(Drop)]
pub struct EntryResult {
    /// The state at the exit.
    pub end: State,
    pub alarms: Items<Site>,
    /// How many nodes were taken.
    pub turns: u64,
}

fn node_at(f: &Function, n: u32) -> &Node
    requires { n < length f.now.nodes }
    ensures { slice_get f.now.nodes n ≡ Some result.now }
{
    f.nodes.get(n as usize).unwrap()
}

/// The one node that follows.
fn next_of(node: &Node) -> u32
    requires { length node.now.edges ≡ 1 }
    ensures { node.now.edges ≡ result ∷ [] }
{
    node.edges.as_slice()[0]
}

/// The lone run from the entry of the function, which has the number `fun`. `Err` only for want of memory.
pub fn analyse_entry(alloc: Global, fun: u32, f: &Function) -> Result<EntryResult, AllocError>
    requires { IsResultFunction f.now }
    ensures run { IfOk result (λ r. LoneRun fun f.now r) }
    ensures sound { IfOk result (λ r. IsSound fun f.now r) }
{
    let mut alarms = Items::new(alloc);
    let mut at = f.entry;
    let mut outcome = None;
    let mut taken = 0u64;
    loop {
        let node = node_at(f, at);
        match &node.instr {
            Instr::Set(_, value) => match evaluate(value, 1) {
                Ok(v) => {
                    outcome = Some(v);
                    at = next_of(node);
                    taken += 1;
                }
                Err(Undefined { sub, kind }) => {
                    alarms.push(Site {
                        fun,
                        node: at,
                        sub,
                        kind,
                    })?;
                    return Ok(EntryResult {
                        end: State::Bottom,
                        alarms,
                        turns: taken + 1,
                    });
                }
            },
            Instr::Return => {
                return Ok(EntryResult {
                    end: State::Live(outcome),
                    alarms,
                    turns: taken + 1,
                });
            }
            _ => unreachable!(),
        }
    }
}
