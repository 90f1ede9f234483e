// Values as trees, and back.
ghost use Rattle.std.specs.Prelude.{◌≡◌, ℕ, ◌<◌, ◌≤◌, IfOk, IfErr};
ghost use Rattle.avalue.specs.Values.{IsWellFormedValue};
ghost use Rattle.hptmap.specs.Trie.{IsTrie};
ghost use Rattle.memory_trees.specs.Values.{IsValueTree, ival_of, value_of, value_shape};
ghost use Rattle.store_api.specs.Bag.{Same, Stops, Trades, none, one};
ghost use Rattle.store_api.specs.Tree.{Nil, kid, shape_is};
ghost use Rattle.value_trees.specs.Pointers.{Spells};

use crate::integers::take_ival;
use crate::pointers::{put_pointers, take_pointers};
use avalue::Value;
use ival::Ival;
use memory_trees::put_ival;
use sqlite_items::Items;
use std::alloc::Global;
use store_api::{Got, Shape, Store, intern_one, intern_two};

const VALUE: u64 = 30;

/// The node of a value with its flags.
fn value_node(v: &Value, kids: u8) -> Shape
    ensures { result ≡ value_shape v.now.uninit v.now.dangling kids }
{
    Shape {
        head: VALUE,
        body: [u64::from(v.uninit), u64::from(v.dangling), 0, 0, 0, 0, 0, 0],
        kids,
    }
}

/// A new hold of the tree of a value without pointers.
fn put_plain<S: Store>(s: &mut S, v: &Value) -> Got<S::Hold>
    requires formed { IsWellFormedValue v.now }
    requires none { Spells v.now.ptrs Nil }
    ensures ok { IfOk result (λ r. Trades (S.bag s.old) (S.bag s.new) none (one (S.name r))) }
    ensures tree { IfOk result (λ r. IsValueTree ((S.bag s.new).tree (S.name r))) }
    ensures value { IfOk result (λ r. value_of ((S.bag s.new).tree (S.name r)) ≡ v.now) }
    ensures err { IfErr result (Stops (S.bag s.old) (S.bag s.new) none) }
{
    let ints = put_ival(s, &v.ints)?;
    intern_one(s, &value_node(v, 1), ints)
}

/// A new hold of the tree of a value with the trie of its pointers, which is given back.
fn put_pointing<S: Store>(s: &mut S, v: &Value, map: S::Hold) -> Got<S::Hold>
    requires owned { (x : ℕ) → one (S.name map) x ≤ (S.bag s.old).count x }
    requires formed { IsWellFormedValue v.now }
    requires trie { IsTrie ((S.bag s.old).tree (S.name map)) }
    requires spells { Spells v.now.ptrs ((S.bag s.old).tree (S.name map)) }
    ensures ok { IfOk result (λ r. Trades (S.bag s.old) (S.bag s.new) (one (S.name map)) (one (S.name r))) }
    ensures tree { IfOk result (λ r. IsValueTree ((S.bag s.new).tree (S.name r))) }
    ensures value { IfOk result (λ r. value_of ((S.bag s.new).tree (S.name r)) ≡ v.now) }
    ensures err { IfErr result (Stops (S.bag s.old) (S.bag s.new) (one (S.name map))) }
{
    match put_ival(s, &v.ints) {
        Ok(ints) => intern_two(s, &value_node(v, 2), ints, map),
        Err(stop) => {
            s.give_back(map);
            Err(stop)
        }
    }
}

/// A new hold of the tree of a value.
#[tactic(auto, using(store_api::specs::Bag::one_self, crate::proofs::Maps::root_facts))]
pub fn put_value<S: Store>(s: &mut S, v: &Value) -> Got<S::Hold>
    requires { IsWellFormedValue v.now }
    ensures ok { IfOk result (λ r. Trades (S.bag s.old) (S.bag s.new) none (one (S.name r))) }
    ensures tree { IfOk result (λ r. IsValueTree ((S.bag s.new).tree (S.name r))) }
    ensures value { IfOk result (λ r. value_of ((S.bag s.new).tree (S.name r)) ≡ v.now) }
    ensures err { IfErr result (Stops (S.bag s.old) (S.bag s.new) none) }
{
    let m = put_pointers(s, v.ptrs.as_slice())?;
    match m.root {
        None => put_plain(s, v),
        Some(map) => put_pointing(s, v, map),
    }
}

/// The pointers of a value's tree.
#[tactic(auto, using(store_api::specs::Bag::one_self, crate::proofs::Trees::take_facts))]
fn pointers_in<S: Store>(
    alloc: Global,
    s: &mut S,
    h: &S::Hold,
    node: &Shape,
) -> Got<Vec<(u32, Ival)>>
    requires held { 0 < (S.bag s.old).count (S.name h.now) }
    requires tree { IsValueTree ((S.bag s.old).tree (S.name h.now)) }
    requires node { shape_is ((S.bag s.old).tree (S.name h.now)) node.now }
    ensures ok { IfOk result (λ _. Same (S.bag s.old) (S.bag s.new)) }
    ensures value { IfOk result (λ v. v.items ≡ (value_of ((S.bag s.old).tree (S.name h.now))).ptrs) }
    ensures err { IfErr result (Stops (S.bag s.old) (S.bag s.new) none) }
{
    let empty = Vec::new(alloc);
    if node.kids == 1 {
        return Ok(empty);
    }
    let map = s.kid(h, 1)?;
    let taken = take_pointers(s, &map, empty);
    s.give_back(map);
    taken
}

/// The integers of a value's tree.
#[tactic(auto, using(store_api::specs::Bag::one_self, crate::proofs::Trees::take_facts))]
fn ints_in<S: Store>(s: &mut S, h: &S::Hold) -> Got<Ival>
    requires held { 0 < (S.bag s.old).count (S.name h.now) }
    requires tree { IsValueTree ((S.bag s.old).tree (S.name h.now)) }
    ensures ok { IfOk result (λ _. Same (S.bag s.old) (S.bag s.new)) }
    ensures value { IfOk result (λ x. x ≡ ival_of (kid ((S.bag s.old).tree (S.name h.now)) 0)) }
    ensures err { IfErr result (Stops (S.bag s.old) (S.bag s.new) none) }
{
    let below = s.kid(h, 0)?;
    let ints = take_ival(s, &below);
    s.give_back(below);
    ints
}

/// The value that a tree spells.
pub fn take_value<S: Store>(alloc: Global, s: &mut S, h: &S::Hold) -> Got<Value>
    requires held { 0 < (S.bag s.old).count (S.name h.now) }
    requires tree { IsValueTree ((S.bag s.old).tree (S.name h.now)) }
    ensures ok { IfOk result (λ _. Same (S.bag s.old) (S.bag s.new)) }
    ensures value { IfOk result (λ v. v ≡ value_of ((S.bag s.old).tree (S.name h.now))) }
    ensures formed { IfOk result IsWellFormedValue }
    ensures err { IfErr result (Stops (S.bag s.old) (S.bag s.new) none) }
{
    let node = s.look(h);
    let ints = ints_in(s, h)?;
    let ptrs = pointers_in(alloc, s, h, &node)?;
    Ok(Value {
        uninit: node.body[0] == 1,
        dangling: node.body[1] == 1,
        ints,
        ptrs: Items::from_vec(ptrs),
    })
}
