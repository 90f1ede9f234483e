// Over a plain store, with ample memory.
ghost use Rattle.std.specs.Prelude.{◌≡◌, ℕ, ◌+◌, ◌<◌, ◌≤◌, IfErr, IfOk, nat_lt, []};
ghost use Rattle.hptmap.specs.Leaves.{RisesWith};
ghost use Rattle.hptmap.specs.Payloads.{greatest, greatest_idempotent, head_of, numbered};
ghost use Rattle.hptmap.specs.Trie.{MapIn, map_out};
ghost use Rattle.store_api.specs.Tree.{Nil, Node, depth};
ghost use Rattle.store_api.specs.Bag.{Gains, Same, Stops, Trades, both, none, one};

use crate::{
    LeafMap, LeafRule, Map, add, empty, find, included, join, map_leaves, remove, same, walk, widen,
};
use plain_store::plain;
use std::alloc::Global;
use std::collections::BTreeMap;
use store_api::{Got, Relate, Shape, Store, StoreStop, intern_leaf};

#[derive(Drop)]
struct NoRule;

impl Relate for NoRule {
    ghost about = { λ _. [] };

    ghost related = { λ _ _ _ _ _. Unit {0} };
}

/// Of two payloads the one with the greater head, and the second where they are widened.
#[derive(Drop)]
struct Greatest {
    looked: u64,
}

impl Greatest {
    /// Whether the first head is less.
    fn less<S: Store>(&mut self, s: &mut S, a: &S::Hold, b: &S::Hold) -> bool
        requires held { 0 < (S.bag s.old).count (S.name a.now) }
        requires held_second { 0 < (S.bag s.old).count (S.name b.now) }
        ensures told { result ≡ nat_lt (head_of ((S.bag s.old).tree (S.name a.now))) (head_of ((S.bag s.old).tree (S.name b.now))) }
        ensures bag { Same (S.bag s.old) (S.bag s.new) }
        ensures inner { RisesWith self.old.looked self.new.looked (S.bag s.old) (S.bag s.new) }
    {
        let first = s.look(a).head;
        let second = s.look(b).head;
        self.looked = self.looked.saturating_add(2);
        first < second
    }
}

impl<S: Store> LeafRule<S> for Greatest {
    ghost meaning = { λ _. greatest };

    ghost inner = { λ r. r.looked };

    fn join(&mut self, _alloc: Global, s: &mut S, a: &S::Hold, b: &S::Hold) -> Got<S::Hold> {
        if self.less(s, a, b) {
            s.again(b)
        } else {
            s.again(a)
        }
    }

    fn widen(&mut self, _alloc: Global, s: &mut S, _a: &S::Hold, b: &S::Hold) -> Got<S::Hold> {
        s.again(b)
    }

    fn included(&mut self, _alloc: Global, s: &mut S, a: &S::Hold, b: &S::Hold) -> Got<bool> {
        Ok(!self.less(s, b, a))
    }

    ghost idempotent = { λ _. greatest_idempotent };
}

/// A payload that says its key.
#[derive(Drop)]
struct Numbered;

impl<S: Store> LeafMap<S> for Numbered {
    ghost meaning = { λ _. numbered };

    fn replace(&mut self, _alloc: Global, s: &mut S, key: u32, payload: S::Hold) -> Got<S::Hold> {
        s.give_back(payload);
        head_leaf(s, u64::from(key))
    }
}

/// The node with this head.
fn head_leaf<S: Store>(s: &mut S, head: u64) -> Got<S::Hold>
    ensures ok { IfOk result (λ h. Gains (S.bag s.old) (S.bag s.new) (S.name h) (numbered.replace head Nil)) }
    ensures err { IfErr result (Stops (S.bag s.old) (S.bag s.new) none) }
{
    intern_leaf(
        s,
        &Shape {
            head,
            body: [0; 8],
            kids: 0,
        },
    )
}

/// The map with a new payload at a key.
fn put<S: Store>(s: &mut S, m: Map<S::Hold>, key: u32, head: u64) -> Got<Map<S::Hold>>
    requires owned { (x : ℕ) → map_out S.name m.root x ≤ (S.bag s.old).count x }
    requires map { MapIn S.name (S.bag s.old) m.root }
    ensures ok { IfOk result (λ r. Trades (S.bag s.old) (S.bag s.new) (map_out S.name m.root) (map_out S.name r.root)) }
    ensures map { IfOk result (λ r. MapIn S.name (S.bag s.new) r.root) }
{
    let h = head_leaf(s, head)?;
    add(s, m, key, h)
}

/// The head of a key's payload.
fn head_at<S: Store>(s: &mut S, m: &Map<S::Hold>, key: u32) -> Got<Option<u64>>
    requires owned { (x : ℕ) → map_out S.name m.now.root x ≤ (S.bag s.old).count x }
    requires map { MapIn S.name (S.bag s.old) m.now.root }
    ensures { IfOk result (λ _. Same (S.bag s.old) (S.bag s.new)) }
{
    match find(s, m, key)? {
        Some(h) => {
            let head = s.look(&h).head;
            s.give_back(h);
            Ok(Some(head))
        }
        None => Ok(None),
    }
}

/// Whether two maps are equal.
fn equal<S: Store>(s: &S, a: &Map<S::Hold>, b: &Map<S::Hold>) -> bool
    requires first { (x : ℕ) → map_out S.name a.now.root x ≤ (S.bag s.now).count x }
    requires second { (x : ℕ) → map_out S.name b.now.root x ≤ (S.bag s.now).count x }
    requires map { MapIn S.name (S.bag s.now) a.now.root }
    requires map_second { MapIn S.name (S.bag s.now) b.now.root }
{
    same(s, a, b)
}

/// The join of two maps, or their widening.
fn merged<S: Store>(
    alloc: Global,
    s: &mut S,
    widens: bool,
    a: &Map<S::Hold>,
    b: &Map<S::Hold>,
) -> Got<Map<S::Hold>>
    requires first { (x : ℕ) → map_out S.name a.now.root x ≤ (S.bag s.old).count x }
    requires second { (x : ℕ) → map_out S.name b.now.root x ≤ (S.bag s.old).count x }
    requires map { MapIn S.name (S.bag s.old) a.now.root }
    requires map_second { MapIn S.name (S.bag s.old) b.now.root }
    ensures ok { IfOk result (λ r. Trades (S.bag s.old) (S.bag s.new) none (map_out S.name r.root)) }
    ensures map { IfOk result (λ r. MapIn S.name (S.bag s.new) r.root) }
{
    let mut rule = Greatest { looked: 0 };
    if widens {
        widen(alloc, s, &mut rule, a, b)
    } else {
        join(alloc, s, &mut rule, a, b)
    }
}

/// Whether a map has exactly the keys of an ordered map, in its order, and payloads with its heads.
#[tactic(auto, using(store_api::specs::Bag::one_self, crate::specs::Pairs::pair_facts))]
fn agrees<S: Store>(
    alloc: Global,
    s: &mut S,
    m: &Map<S::Hold>,
    want: &BTreeMap<u32, u64>,
) -> Got<bool>
    requires owned { (x : ℕ) → map_out S.name m.now.root x ≤ (S.bag s.old).count x }
    requires map { MapIn S.name (S.bag s.old) m.now.root }
{
    let mut pairs = walk(alloc, s, m)?;
    for (key, head) in want.iter().rev() {
        match pairs.pop() {
            Some((found, h)) => {
                let there = s.look(&h).head;
                s.give_back(h);
                if found != *key || there != *head {
                    return Ok(false);
                }
            }
            None => return Ok(false),
        }
    }
    Ok(pairs.is_empty())
}

/// The map of two keys, put in this order, and a third removed.
fn of_two<S: Store>(s: &mut S, first: u32, second: u32) -> Got<Map<S::Hold>>
    ensures ok { IfOk result (λ r. Trades (S.bag s.old) (S.bag s.new) none (map_out S.name r.root)) }
    ensures map { IfOk result (λ r. MapIn S.name (S.bag s.new) r.root) }
{
    let m = put(s, empty(), first, 7)?;
    let m = put(s, m, second, 7)?;
    remove(s, m, 9)
}

/// The same map in both orders.
fn both_orders<S: Store>(s: &mut S, first: u32, second: u32) -> Got<(Map<S::Hold>, Map<S::Hold>)>
    ensures ok { IfOk result (λ r. Trades (S.bag s.old) (S.bag s.new) none (both (map_out S.name r.0.root) (map_out S.name r.1.root))) }
    ensures map { IfOk result (λ r. MapIn S.name (S.bag s.new) r.0.root) }
    ensures map_second { IfOk result (λ r. MapIn S.name (S.bag s.new) r.1.root) }
{
    let up = of_two(s, first, second)?;
    let down = of_two(s, second, first)?;
    Ok((up, down))
}

/// Two keys put in both orders give one map, which is what their join is, without a look.
fn orders_agree<S: Store>(alloc: Global, s: &mut S, first: u32, second: u32) -> Got<bool> {
    let mut want = BTreeMap::new(alloc);
    want_head(&mut want, first, 7)?;
    want_head(&mut want, second, 7)?;
    let (up, down) = both_orders(s, first, second)?;
    let alike = equal(s, &up, &down);
    let looks = s.looks();
    let joined = merged(alloc, s, false, &up, &down)?;
    let unseen = looks == s.looks();
    let absent = head_at(s, &joined, 9)?;
    let there = head_at(s, &joined, second)?;
    Ok(alike && unseen && absent.is_none() && there == Some(7) && agrees(alloc, s, &joined, &want)?)
}

#[test]
fn keys_in_both_orders(rt: HostRuntime) -> Result<(), StoreStop> {
    for (first, second) in [(5, 1), (0, 4294967295)] {
        let mut s = plain(rt.alloc(), NoRule);
        assert!(rt; orders_agree(rt.alloc(), &mut s, first, second)?);
    }
    Ok(())
}

/// Keys in scattered order, no two alike.
fn scattered(number: u32) -> u32 {
    let turned = number.wrapping_mul(2654435769);
    turned ^ (turned >> 15)
}

/// The head of the payload of such a key.
fn head_of_key(number: u32, falls: bool) -> u64 {
    if falls {
        1500u64.saturating_sub(u64::from(number))
    } else {
        u64::from(number)
    }
}

fn want_head(want: &mut BTreeMap<u32, u64>, key: u32, head: u64) -> Got<()> {
    match want.insert(key, head) {
        Ok(_) => Ok(()),
        Err(_) => Err(StoreStop::Memory),
    }
}

/// The map of the scattered keys of so many numbers.
fn fill<S: Store>(s: &mut S, first: u32, end: u32, falls: bool) -> Got<Map<S::Hold>>
    ensures ok { IfOk result (λ r. Trades (S.bag s.old) (S.bag s.new) none (map_out S.name r.root)) }
    ensures map { IfOk result (λ r. MapIn S.name (S.bag s.new) r.root) }
{
    let mut m = empty();
    for i in first..end {
        m = put(s, m, scattered(i), head_of_key(i, falls))?;
    }
    Ok(m)
}

/// The same with an ordered map.
fn want_filled(want: &mut BTreeMap<u32, u64>, first: u32, end: u32, falls: bool) -> Got<()> {
    for i in first..end {
        want_head(want, scattered(i), head_of_key(i, falls))?;
    }
    Ok(())
}

/// The map of a thousand scattered keys, and one of others.
fn two_maps<S: Store>(
    s: &mut S,
    first: u32,
    end: u32,
    falls: bool,
) -> Got<(Map<S::Hold>, Map<S::Hold>)>
    ensures ok { IfOk result (λ r. Trades (S.bag s.old) (S.bag s.new) none (both (map_out S.name r.0.root) (map_out S.name r.1.root))) }
    ensures map { IfOk result (λ r. MapIn S.name (S.bag s.new) r.0.root) }
    ensures map_second { IfOk result (λ r. MapIn S.name (S.bag s.new) r.1.root) }
{
    let a = fill(s, 0, 1000, false)?;
    let b = fill(s, first, end, falls)?;
    Ok((a, b))
}

/// The first map joined with the second, or widened by it.
fn want_merged(want: &mut BTreeMap<u32, u64>, other: &BTreeMap<u32, u64>, widens: bool) -> Got<()> {
    for (key, head) in other.iter() {
        let mut made = *head;
        if let Some(old) = want.get(key)
            && !widens
            && *old > made
        {
            made = *old;
        }
        want_head(want, *key, made)?;
    }
    Ok(())
}

fn merges_agree<S: Store>(alloc: Global, s: &mut S, widens: bool) -> Got<bool> {
    let mut want = BTreeMap::new(alloc);
    let mut other = BTreeMap::new(alloc);
    want_filled(&mut want, 0, 1000, false)?;
    want_filled(&mut other, 500, 1500, true)?;
    want_merged(&mut want, &other, widens)?;
    let (a, b) = two_maps(s, 500, 1500, true)?;
    let made = merged(alloc, s, widens, &a, &b)?;
    agrees(alloc, s, &made, &want)
}

#[test]
fn merges_are_as_ordered_maps_have_them(rt: HostRuntime) -> Result<(), StoreStop> {
    for widens in [false, true] {
        let mut s = plain(rt.alloc(), NoRule);
        assert!(rt; merges_agree(rt.alloc(), &mut s, widens)?);
    }
    Ok(())
}

/// Whether each key of the first is in the second, with no lesser head.
fn want_included(a: &BTreeMap<u32, u64>, b: &BTreeMap<u32, u64>) -> bool {
    for (key, head) in a.iter() {
        match b.get(key) {
            Some(other) => {
                if *other < *head {
                    return false;
                }
            }
            None => return false,
        }
    }
    true
}

/// Whether one map is included in the other.
fn contained<S: Store>(alloc: Global, s: &mut S, a: &Map<S::Hold>, b: &Map<S::Hold>) -> Got<bool>
    requires first { (x : ℕ) → map_out S.name a.now.root x ≤ (S.bag s.old).count x }
    requires second { (x : ℕ) → map_out S.name b.now.root x ≤ (S.bag s.old).count x }
    requires map { MapIn S.name (S.bag s.old) a.now.root }
    requires map_second { MapIn S.name (S.bag s.old) b.now.root }
{
    let mut rule = Greatest { looked: 0 };
    included(alloc, s, &mut rule, a, b)
}

fn inclusion_agrees<S: Store>(
    alloc: Global,
    s: &mut S,
    first: u32,
    end: u32,
    falls: bool,
) -> Got<bool> {
    let mut want = BTreeMap::new(alloc);
    let mut other = BTreeMap::new(alloc);
    want_filled(&mut want, 0, 1000, false)?;
    want_filled(&mut other, first, end, falls)?;
    let (a, b) = two_maps(s, first, end, falls)?;
    Ok(contained(alloc, s, &a, &b)? == want_included(&want, &other))
}

#[test]
fn inclusion_is_as_ordered_maps_have_it(rt: HostRuntime) -> Result<(), StoreStop> {
    for (first, end, falls) in [
        (0, 1000, false),
        (0, 1500, false),
        (0, 999, false),
        (0, 1500, true),
        (500, 1500, false),
    ] {
        let mut s = plain(rt.alloc(), NoRule);
        assert!(rt; inclusion_agrees(rt.alloc(), &mut s, first, end, falls)?);
    }
    Ok(())
}

/// The map without each third key.
fn thin<S: Store>(s: &mut S, mut m: Map<S::Hold>, count: u32) -> Got<Map<S::Hold>>
    requires owned { (x : ℕ) → map_out S.name m.root x ≤ (S.bag s.old).count x }
    requires map { MapIn S.name (S.bag s.old) m.root }
    ensures ok { IfOk result (λ r. Trades (S.bag s.old) (S.bag s.new) (map_out S.name m.root) (map_out S.name r.root)) }
    ensures map { IfOk result (λ r. MapIn S.name (S.bag s.new) r.root) }
{
    for i in 0..count {
        m = remove(s, m, scattered(i.wrapping_mul(3)))?;
    }
    Ok(m)
}

fn removals_agree<S: Store>(alloc: Global, s: &mut S) -> Got<bool> {
    let mut want = BTreeMap::new(alloc);
    want_filled(&mut want, 0, 1000, false)?;
    for i in 0u32..400 {
        let _ = want.remove(&scattered(i.wrapping_mul(3)));
    }
    let m = fill(s, 0, 1000, false)?;
    let m = thin(s, m, 400)?;
    agrees(alloc, s, &m, &want)
}

fn changes_agree<S: Store>(alloc: Global, s: &mut S) -> Got<bool> {
    let mut want = BTreeMap::new(alloc);
    for i in 0..1000 {
        want_head(&mut want, scattered(i), u64::from(scattered(i)))?;
    }
    let m = fill(s, 0, 1000, false)?;
    let m = map_leaves(alloc, s, m, &mut Numbered)?;
    agrees(alloc, s, &m, &want)
}

#[test]
fn removals_and_changes_are_as_ordered_maps_have_them(rt: HostRuntime) -> Result<(), StoreStop> {
    let mut s = plain(rt.alloc(), NoRule);
    assert!(rt; removals_agree(rt.alloc(), &mut s)?);
    assert!(rt; changes_agree(rt.alloc(), &mut s)?);
    Ok(())
}
