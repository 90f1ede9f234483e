// Aligned blocks of an object's bits, in any store.
ghost use Rattle.std.specs.Prelude.{◌≡◌, ℕ, suc, ◌+◌, ◌-◌, ◌*◌, ◌<◌, ◌≤◌, ◌^◌, IfOk, IfErr};
ghost use Rattle.memory_trees.specs.Blocks.{Decides, IsBlock, IsBlocksTree, Joins, Puts, branch_shape, leaf_shape, lower_tree, out_shape, piece, upper_tree};
ghost use Rattle.memory_trees.specs.Values.{IsValueTree};
ghost use Rattle.store_api.specs.Tree.{Nil, Node};
ghost use Rattle.store_api.specs.Bag.{Gains, Same, Stops, Trades, none, one};

use store_api::{Got, Shape, Store, intern_leaf, pair};

const LEAF: u64 = 40;

const BRANCH: u64 = 41;

const OUT: u64 = 42;

/// The lower half of a block.
#[tactic(auto, using(store_api::specs::Bag::one_self, crate::proofs::Halves::object_laws))]
pub fn lower<S: Store>(s: &mut S, h: &S::Hold) -> Got<S::Hold>
    requires held { 0 < (S.bag s.old).count (S.name h.now) }
    requires coded { IsBlocksTree ((S.bag s.old).tree (S.name h.now)) }
    ensures ok { IfOk result (λ r. Gains (S.bag s.old) (S.bag s.new) (S.name r) (lower_tree ((S.bag s.old).tree (S.name h.now)))) }
    ensures err { IfErr result (Stops (S.bag s.old) (S.bag s.new) none) }
{
    let node = s.look(h);
    if node.head == BRANCH {
        s.kid(h, 0)
    } else {
        s.again(h)
    }
}

/// A leaf: one run of groups with a value, of which its first bit has this place.
pub fn leaf<S: Store>(s: &mut S, value: &S::Hold, width: u32, place: u32) -> Got<S::Hold>
    requires held { 0 < (S.bag s.old).count (S.name value.now) }
    requires value_tree { IsValueTree ((S.bag s.old).tree (S.name value.now)) }
    ensures ok { IfOk result (λ r. Gains (S.bag s.old) (S.bag s.new) (S.name r) (Node (leaf_shape width place) ((S.bag s.old).tree (S.name value.now)) Nil)) }
    ensures err { IfErr result (Stops (S.bag s.old) (S.bag s.new) none) }
{
    let node = Shape {
        head: LEAF,
        body: [u64::from(width), u64::from(place), 0, 0, 0, 0, 0, 0],
        kids: 1,
    };
    let empty: Option<S::Hold> = None;
    s.intern(&node, Some(value), empty.as_ref())
}

/// What stands past the object's end.
pub fn out<S: Store>(s: &mut S) -> Got<S::Hold>
    ensures ok { IfOk result (λ r. Gains (S.bag s.old) (S.bag s.new) (S.name r) (Node out_shape Nil Nil)) }
    ensures err { IfErr result (Stops (S.bag s.old) (S.bag s.new) none) }
{
    let node = Shape {
        head: OUT,
        body: [0, 0, 0, 0, 0, 0, 0, 0],
        kids: 0,
    };
    let empty: Option<S::Hold> = None;
    s.intern(&node, empty.as_ref(), empty.as_ref())
}

/// The bits of a block of this level.
pub fn block(level: u32) -> u32
    requires { level ≤ 24 }
    ensures value { result ≡ 2 ^ level }
    ensures bound { result ≤ 2 ^ 24 }
    ensures some { 0 < result }
{
    let mut size = 1;
    for _step in 0..level {
        size *= 2;
    }
    size
}

/// The upper half of a block.
#[tactic(auto, using(store_api::specs::Bag::one_self, crate::proofs::Halves::object_laws, crate::proofs::Halves::leaf_width))]
pub fn upper<S: Store>(s: &mut S, h: &S::Hold, level: u32, n: u32) -> Got<S::Hold>
    requires held { 0 < (S.bag s.old).count (S.name h.now) }
    requires level { level ≤ 23 }
    requires coded { IsBlocksTree ((S.bag s.old).tree (S.name h.now)) }
    requires object { IsBlock (suc level) n ((S.bag s.old).tree (S.name h.now)) }
    requires some { 0 < n }
    ensures ok { IfOk result (λ r. Gains (S.bag s.old) (S.bag s.new) (S.name r) (upper_tree level n ((S.bag s.old).tree (S.name h.now)))) }
    ensures err { IfErr result (Stops (S.bag s.old) (S.bag s.new) none) }
{
    let node = s.look(h);
    if node.head == BRANCH {
        return s.kid(h, 1);
    }
    let half = block(level);
    if n <= half {
        return out(s);
    }
    let width = node.body[0] as u32;
    let place = node.body[1] as u32;
    let value = s.kid(h, 0)?;
    let made = leaf(s, &value, width, (place + half) % width);
    s.give_back(value);
    made
}

/// Whether two halves are one run.
#[tactic(auto, using(store_api::specs::Bag::one_self, crate::proofs::Halves::object_laws, crate::proofs::Halves::leaf_width, crate::proofs::Halves::decides_branch, crate::proofs::Halves::decides_other, crate::proofs::Halves::decides_ends, crate::proofs::Halves::decides_width, crate::proofs::Halves::decides_place, crate::proofs::Halves::decides_same))]
pub fn one_run<S: Store>(s: &mut S, l: &S::Hold, r: &S::Hold, level: u32, n: u32) -> Got<bool>
    requires first { 0 < (S.bag s.old).count (S.name l.now) }
    requires second { 0 < (S.bag s.old).count (S.name r.now) }
    requires level { level ≤ 23 }
    requires coded_low { IsBlocksTree ((S.bag s.old).tree (S.name l.now)) }
    requires coded_high { IsBlocksTree ((S.bag s.old).tree (S.name r.now)) }
    requires some { 0 < n }
    requires low { IsBlock level n ((S.bag s.old).tree (S.name l.now)) }
    requires high { IsBlock level (n - 2 ^ level) ((S.bag s.old).tree (S.name r.now)) }
    ensures ok { IfOk result (λ b. Same (S.bag s.old) (S.bag s.new)) }
    ensures decides { IfOk result (λ b. Decides level ((S.bag s.old).tree (S.name l.now)) ((S.bag s.old).tree (S.name r.now)) b) }
    ensures err { IfErr result (Stops (S.bag s.old) (S.bag s.new) none) }
{
    let a = s.look(l);
    let b = s.look(r);
    if a.head != LEAF || b.head == BRANCH {
        return Ok(false);
    }
    if b.head == OUT {
        return Ok(true);
    }
    let half = block(level);
    if a.body[0] != b.body[0] || (a.body[1] + u64::from(half)) % a.body[0] != b.body[1] {
        return Ok(false);
    }
    let first = s.kid(l, 0)?;
    let second = s.kid(r, 0);
    let (first, second) = pair(s, first, second)?;
    let same = s.same(&first, &second);
    s.give_back(first);
    s.give_back(second);
    Ok(same)
}

/// The tree of two halves.
#[tactic(auto, using(store_api::specs::Bag::one_self, crate::proofs::Halves::depth_of, crate::proofs::Halves::one_object, crate::proofs::Halves::one_joins, crate::proofs::Halves::two_object, crate::proofs::Halves::two_coded, crate::proofs::Halves::two_joins))]
pub fn link<S: Store>(s: &mut S, l: &S::Hold, r: &S::Hold, level: u32, n: u32) -> Got<S::Hold>
    requires first { 0 < (S.bag s.old).count (S.name l.now) }
    requires second { 0 < (S.bag s.old).count (S.name r.now) }
    requires level { level ≤ 23 }
    requires coded_low { IsBlocksTree ((S.bag s.old).tree (S.name l.now)) }
    requires coded_high { IsBlocksTree ((S.bag s.old).tree (S.name r.now)) }
    requires some { 0 < n }
    requires low { IsBlock level n ((S.bag s.old).tree (S.name l.now)) }
    requires high { IsBlock level (n - 2 ^ level) ((S.bag s.old).tree (S.name r.now)) }
    ensures ok { IfOk result (λ h. Trades (S.bag s.old) (S.bag s.new) none (one (S.name h))) }
    ensures coded { IfOk result (λ h. IsBlocksTree ((S.bag s.new).tree (S.name h))) }
    ensures object { IfOk result (λ h. IsBlock (suc level) n ((S.bag s.new).tree (S.name h))) }
    ensures joins { IfOk result (λ h. Joins level n ((S.bag s.old).tree (S.name l.now)) ((S.bag s.old).tree (S.name r.now)) ((S.bag s.new).tree (S.name h))) }
    ensures err { IfErr result (Stops (S.bag s.old) (S.bag s.new) none) }
{
    if one_run(s, l, r, level, n)? {
        return s.again(l);
    }
    let node = Shape {
        head: BRANCH,
        body: [0, 0, 0, 0, 0, 0, 0, 0],
        kids: 2,
    };
    s.intern(&node, Some(l), Some(r))
}

/// The tree whose bits from lo to hi - 1 are those of one run.
#[tactic(auto, using(store_api::specs::Bag::one_self, crate::proofs::Halves::lower_coded, crate::proofs::Halves::upper_coded, crate::proofs::Halves::lower_object, crate::proofs::Halves::upper_object, crate::proofs::Halves::leaf_coded, crate::proofs::Halves::leaf_object, crate::proofs::Halves::puts_before, crate::proofs::Halves::puts_past, crate::proofs::Halves::puts_empty, crate::proofs::Halves::puts_all, crate::proofs::Halves::puts_rest, crate::proofs::Halves::puts_step))]
pub fn put_range<S: Store>(
    s: &mut S,
    h: &S::Hold,
    level: u32,
    n: u32,
    base: u32,
    lo: u32,
    hi: u32,
    value: &S::Hold,
    width: u32,
    place: u32,
) -> Got<S::Hold>
    requires held { 0 < (S.bag s.old).count (S.name h.now) }
    requires value { 0 < (S.bag s.old).count (S.name value.now) }
    requires value_tree { IsValueTree ((S.bag s.old).tree (S.name value.now)) }
    requires level { level ≤ 24 }
    requires size { n ≤ 2 ^ 24 }
    requires base { base ≤ 2 ^ 30 }
    requires top { base + 2 ^ level ≤ 2 ^ 30 }
    requires width { width ≤ 64 }
    requires place { place < width }
    requires coded { IsBlocksTree ((S.bag s.old).tree (S.name h.now)) }
    requires object { IsBlock level n ((S.bag s.old).tree (S.name h.now)) }
    ensures ok { IfOk result (λ r. Trades (S.bag s.old) (S.bag s.new) none (one (S.name r))) }
    ensures coded { IfOk result (λ r. IsBlocksTree ((S.bag s.new).tree (S.name r))) }
    ensures object { IfOk result (λ r. IsBlock level n ((S.bag s.new).tree (S.name r))) }
    ensures puts { IfOk result (λ r. Puts level n base lo hi (piece ((S.bag s.old).tree (S.name value.now)) width place) ((S.bag s.old).tree (S.name h.now)) ((S.bag s.new).tree (S.name r))) }
    ensures err { IfErr result (Stops (S.bag s.old) (S.bag s.new) none) }
{
    let size = block(level);
    if n == 0 || hi <= base || base + size <= lo {
        return s.again(h);
    }
    if lo <= base && (base + size <= hi || base + n <= hi) {
        return leaf(s, value, width, (place + (base - lo)) % width);
    }
    let level = level - 1;
    let half = block(level);
    let rest = n.saturating_sub(half);
    let old_low = lower(s, h)?;
    let low = put_range(s, &old_low, level, n, base, lo, hi, value, width, place);
    s.give_back(old_low);
    let low = low?;
    let old_high = upper(s, h, level, n);
    let (low, old_high) = pair(s, low, old_high)?;
    let high = put_range(
        s,
        &old_high,
        level,
        rest,
        base + half,
        lo,
        hi,
        value,
        width,
        place,
    );
    s.give_back(old_high);
    let (low, high) = pair(s, low, high)?;
    let made = link(s, &low, &high, level, n);
    s.give_back(low);
    s.give_back(high);
    made
}
