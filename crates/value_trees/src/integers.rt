// Integer sets read back from their trees.
ghost use Rattle.std.specs.Prelude.{◌≡◌, ℕ, ◌<◌, ◌≤◌, IfOk, IfErr};
ghost use Rattle.ival.specs.Forms.{IsWellFormed};
ghost use Rattle.memory_trees.specs.Values.{IsIvalTree, ival_of, number_at};
ghost use Rattle.store_api.specs.Bag.{Same, Stops, none};
ghost use Rattle.store_api.specs.Tree.{shape_is};
ghost use Rattle.value_trees.specs.Integers as spec;
ghost use Rattle.value_trees.specs.Integers.{SpellsSet};

use ival::Ival;
use memory_trees::number_in;
use store_api::{Got, Shape, Store};

const EMPTY: u64 = 10;

const RANGE: u64 = 11;

const ALL: u64 = 12;

const SET: u64 = 20;

/// Number i of a node, 0 to 3.
fn number_at(node: &Shape, i: usize) -> i128
    requires { i < 4 }
    ensures { result ≡ number_at node.now i }
{
    number_in(node.body[2 * i], node.body[2 * i + 1])
}

/// The range of a node's numbers.
fn range_in(node: &Shape) -> Ival
    ensures { result ≡ spec.range_in node.now }
{
    Ival::Range {
        lo: number_at(node, 0),
        hi: number_at(node, 1),
        r: number_at(node, 2),
        m: number_at(node, 3),
    }
}

/// The set of the first n numbers of a node.
fn small_set(node: &Shape, n: usize) -> Ival
    requires few { n ≤ 4 }
    requires formed { IsWellFormed (spec.small_set node.now n) }
    ensures { result ≡ spec.small_set node.now n }
{
    let xs = [
        number_at(node, 0),
        number_at(node, 1),
        number_at(node, 2),
        number_at(node, 3),
    ];
    Ival::of_set(&xs[..n])
}

/// The set of the first n numbers of two nodes.
fn large_set(node: &Shape, more: &Shape, n: usize) -> Ival
    requires few { n ≤ 8 }
    requires formed { IsWellFormed (spec.large_set node.now more.now n) }
    ensures { result ≡ spec.large_set node.now more.now n }
{
    let xs = [
        number_at(node, 0),
        number_at(node, 1),
        number_at(node, 2),
        number_at(node, 3),
        number_at(more, 0),
        number_at(more, 1),
        number_at(more, 2),
        number_at(more, 3),
    ];
    Ival::of_set(&xs[..n])
}

/// The set of numbers that a tree with this node spells.
#[tactic(auto, using(store_api::specs::Bag::one_self, crate::proofs::Sets::set_facts))]
fn take_set<S: Store>(s: &mut S, h: &S::Hold, node: &Shape) -> Got<Ival>
    requires held { 0 < (S.bag s.old).count (S.name h.now) }
    requires tree { IsIvalTree ((S.bag s.old).tree (S.name h.now)) }
    requires node { shape_is ((S.bag s.old).tree (S.name h.now)) node.now }
    requires set { SpellsSet ((S.bag s.old).tree (S.name h.now)) node.now }
    ensures ok { IfOk result (λ _. Same (S.bag s.old) (S.bag s.new)) }
    ensures value { IfOk result (λ x. x ≡ ival_of ((S.bag s.old).tree (S.name h.now))) }
    ensures err { IfErr result (Stops (S.bag s.old) (S.bag s.new) none) }
{
    let n = (node.head - SET) as usize;
    if n <= 4 {
        return Ok(small_set(node, n));
    }
    let rest = s.kid(h, 0)?;
    let more = s.look(&rest);
    s.give_back(rest);
    Ok(large_set(node, &more, n))
}

/// The integer set that a tree spells.
#[tactic(auto, using(store_api::specs::Bag::one_self, crate::proofs::Sets::node_facts))]
pub fn take_ival<S: Store>(s: &mut S, h: &S::Hold) -> Got<Ival>
    requires held { 0 < (S.bag s.old).count (S.name h.now) }
    requires tree { IsIvalTree ((S.bag s.old).tree (S.name h.now)) }
    ensures ok { IfOk result (λ _. Same (S.bag s.old) (S.bag s.new)) }
    ensures value { IfOk result (λ x. x ≡ ival_of ((S.bag s.old).tree (S.name h.now))) }
    ensures err { IfErr result (Stops (S.bag s.old) (S.bag s.new) none) }
{
    let node = s.look(h);
    if node.head == EMPTY {
        return Ok(Ival::Empty);
    }
    if node.head == RANGE {
        return Ok(range_in(&node));
    }
    if node.head == ALL {
        return Ok(Ival::All);
    }
    take_set(s, h, &node)
}
