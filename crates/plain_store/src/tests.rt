// Each public call once, with ample memory.
ghost use Rattle.std.specs.Prelude.{◌≡◌, ℕ, ◌+◌, ◌<◌, ◌≤◌, IfOk, IfErr, []};
ghost use Rattle.store_api.specs.Bag.{Gains, Same, Stops, Trades, none, one};
ghost use Rattle.store_api.specs.Holds.{all};
ghost use Rattle.store_api.specs.Tree.{Nil, Node, depth};

use crate::plain;
use crate::store::sent;
use std::alloc::Global;
use store_api::{
    Found, Got, Op, Relate, Shape, Store, StoreStop, give_all, intern_leaf, intern_one, intern_two,
    keep, pair,
};

#[derive(Drop)]
struct NoRule;

impl Relate for NoRule {
    ghost about = { λ _. [] };

    ghost related = { λ _ _ _ _ _. Unit {0} };
}

fn shape(head: u64, kids: u8) -> Shape
    ensures { result.kids ≡ kids }
{
    Shape {
        head,
        body: [0; 8],
        kids,
    }
}

/// Leaves and nodes over them, all given back.
fn churn<S: Store>(s: &mut S, turns: u64) -> Got<()>
    ensures ok { IfOk result (λ _. Same (S.bag s.old) (S.bag s.new)) }
    ensures err { IfErr result (Stops (S.bag s.old) (S.bag s.new) none) }
{
    for i in 0..turns {
        turn(s, i)?;
    }
    Ok(())
}

fn turn<S: Store>(s: &mut S, i: u64) -> Got<()>
    ensures ok { IfOk result (λ _. Same (S.bag s.old) (S.bag s.new)) }
    ensures err { IfErr result (Stops (S.bag s.old) (S.bag s.new) none) }
{
    let left = intern_leaf(s, &shape(i, 0))?;
    let right = s.again(&left);
    let (left, right) = pair(s, left, right)?;
    let node = intern_two(s, &shape(i, 2), left, right)?;
    s.give_back(node);
    Ok(())
}

/// A tree without branches, of depth 128.
fn tower<S: Store>(s: &mut S) -> Got<S::Hold>
    ensures ok { IfOk result (λ h. Trades (S.bag s.old) (S.bag s.new) none (one (S.name h))) }
    ensures err { IfErr result (Stops (S.bag s.old) (S.bag s.new) none) }
{
    let mut top = intern_leaf(s, &shape(0, 0))?;
    for i in 1..128 {
        top = intern_one(s, &shape(i, 1), top)?;
    }
    Ok(top)
}

#[test]
fn equal_leaves_are_same(rt: HostRuntime) -> Result<(), StoreStop> {
    let mut s = plain(rt.alloc(), NoRule);
    let a = intern_leaf(&mut s, &shape(7, 0))?;
    let b = intern_leaf(&mut s, &shape(7, 0))?;
    let c = intern_leaf(&mut s, &shape(8, 0))?;
    assert!(rt; s.same(&a, &b));
    assert!(rt; !s.same(&a, &c));
    assert!(rt; s.recall(Op::Join, &a, &b).is_none());
    assert_eq!(rt; s.look(&c).head, 8);
    assert_eq!(rt; (s.stops(), s.looks(), s.misses()), (0, 1, 1));
    Ok(())
}

#[test]
fn slots_are_used_again(rt: HostRuntime) -> Result<(), StoreStop> {
    let mut s = plain(rt.alloc(), NoRule);
    churn(&mut s, 10000)?;
    assert_eq!(rt; s.slot_count(), 2);
    Ok(())
}

#[test]
fn trees_are_deep(rt: HostRuntime) -> Result<(), StoreStop> {
    let mut s = plain(rt.alloc(), NoRule);
    let top = tower(&mut s)?;
    let beside = tower(&mut s)?;
    assert!(rt; s.same(&top, &beside));
    s.give_back(top);
    s.give_back(beside);
    churn(&mut s, 100)?;
    assert_eq!(rt; s.slot_count(), 256);
    Ok(())
}

/// The second subtree of a node, which is the first of another.
fn subtrees<S: Store>(s: &mut S) -> Got<bool>
    ensures ok { IfOk result (λ _. Same (S.bag s.old) (S.bag s.new)) }
    ensures err { IfErr result (Stops (S.bag s.old) (S.bag s.new) none) }
{
    let left = intern_leaf(s, &shape(1, 0))?;
    let right = intern_leaf(s, &shape(2, 0));
    let (left, right) = pair(s, left, right)?;
    let node = intern_two(s, &shape(3, 2), left, right)?;
    let second = s.kid(&node, 1);
    let (node, second) = pair(s, node, second)?;
    let same = s.look(&second).head == 2;
    s.give_back(node);
    s.give_back(second);
    Ok(same)
}

/// So many holds of one tree.
#[tactic(auto, using(store_api::specs::Bag::one_self, store_api::specs::Holds::hold_facts))]
fn copies<S: Store>(alloc: Global, s: &mut S, h: &S::Hold, count: u64) -> Got<Vec<S::Hold>>
    requires { 0 < (S.bag s.old).count (S.name h.now) }
    ensures ok { IfOk result (λ v. Trades (S.bag s.old) (S.bag s.new) none (all S.name v.items)) }
    ensures err { IfErr result (Stops (S.bag s.old) (S.bag s.new) none) }
{
    let mut made = Vec::new(alloc);
    for _ in 0..count {
        let next = s.again(h);
        made = keep(s, made, next)?;
    }
    Ok(made)
}

#[test]
fn each_call_answers(rt: HostRuntime) -> Result<(), StoreStop> {
    let mut s = sent(plain(rt.alloc(), NoRule));
    assert!(rt; subtrees(&mut s)?);
    let leaf = intern_leaf(&mut s, &shape(2, 0))?;
    let other = s.again(&leaf)?;
    s.note(Op::Included, &leaf, &other, Found::Truth(true));
    s.note(Op::Join, &leaf, &other, Found::Tree(&leaf));
    let holds = copies(rt.alloc(), &mut s, &leaf, 10)?;
    assert_eq!(rt; holds.len(), 10);
    give_all(&mut s, holds);
    assert_eq!(rt; s.slot_count(), 3);
    Ok(())
}
