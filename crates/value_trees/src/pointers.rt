// Pointers as tries, and back.
ghost use Rattle.std.specs.Prelude.{◌≡◌, ℕ, ◌<◌, ◌≤◌, ◌++◌, IfOk, IfErr};
ghost use Rattle.std.specs.List.{All};
ghost use Rattle.avalue.specs.Pointers.{IsPointer};
ghost use Rattle.ival.specs.Forms.{HasEnds};
ghost use Rattle.hptmap.specs.Trie.{IsTrie, MapIn, is_leaf, map_of, map_out, map_tree};
ghost use Rattle.memory_trees.specs.Values.{ival_tree, pointers_of};
ghost use Rattle.value_trees.specs.Pointers.{HasOffsets, Spells};
ghost use Rattle.store_api.specs.Bag.{Same, Stops, Trades, none, one};
ghost use Rattle.store_api.specs.Tree.{depth, kid, shape_is};
ghost use Rattle.store_api.specs.declared.Shape.{Shape};
ghost use Rattle.std.specs.Prelude.{Some, cond, eqb, true};

use crate::integers::take_ival;
use hptmap::{Map, add, empty};
use ival::Ival;
use memory_trees::put_ival;
use store_api::{Got, Shape, Store, StoreStop};

const LEAF: u64 = 1;

/// Gives a map back.
#[tactic(auto, using(store_api::specs::Bag::one_self, crate::proofs::Maps::give_facts))]
fn give_map<S: Store>(s: &mut S, m: Map<S::Hold>)
    requires { (x : ℕ) → map_out S.name m.root x ≤ (S.bag s.old).count x }
    ensures { Trades (S.bag s.old) (S.bag s.new) (map_out S.name m.root) none }
{
    match m.root {
        None => {}
        Some(root) => s.give_back(root),
    }
}

/// The map with the offsets of a base more, in place of the map.
#[tactic(auto, using(store_api::specs::Bag::one_self, crate::proofs::Depths::ival_depth, crate::proofs::Depths::ends_formed))]
fn put_pointer<S: Store>(s: &mut S, m: Map<S::Hold>, base: u32, offsets: &Ival) -> Got<Map<S::Hold>>
    requires owned { (x : ℕ) → map_out S.name m.root x ≤ (S.bag s.old).count x }
    requires map { MapIn S.name (S.bag s.old) m.root }
    requires offsets { HasEnds offsets.now }
    ensures ok { IfOk result (λ r. Trades (S.bag s.old) (S.bag s.new) (map_out S.name m.root) (map_out S.name r.root)) }
    ensures map { IfOk result (λ r. MapIn S.name (S.bag s.new) r.root) }
    ensures pairs { IfOk result (λ r. (x : ℕ) → map_of (map_tree S.name (S.bag s.new) r.root) x ≡ cond (eqb x base) (Some (ival_tree offsets.now)) (map_of (map_tree S.name (S.bag s.old) m.root) x)) }
    ensures err { IfErr result (Stops (S.bag s.old) (S.bag s.new) (map_out S.name m.root)) }
{
    match put_ival(s, offsets) {
        Ok(payload) => add(s, m, base, payload),
        Err(stop) => {
            give_map(s, m);
            Err(stop)
        }
    }
}

/// The map of the pointers of a list.
#[tactic(auto, using(store_api::specs::Bag::one_self, crate::proofs::Spelling::spell_facts))]
pub fn put_pointers<S: Store>(s: &mut S, ptrs: &[(u32, Ival)]) -> Got<Map<S::Hold>>
    requires { All IsPointer ptrs.now }
    ensures ok { IfOk result (λ m. Trades (S.bag s.old) (S.bag s.new) none (map_out S.name m.root)) }
    ensures map { IfOk result (λ m. MapIn S.name (S.bag s.new) m.root) }
    ensures pairs { IfOk result (λ m. Spells ptrs.now (map_tree S.name (S.bag s.new) m.root)) }
    ensures err { IfErr result (Stops (S.bag s.old) (S.bag s.new) none) }
{
    let mut m = empty();
    let mut i = ptrs.len();
    while 0 < i {
        i -= 1;
        let p = ptrs[i];
        m = put_pointer(s, m, p.0, &p.1)?;
    }
    Ok(m)
}

/// The pointers, and behind them that of a leaf.
#[tactic(auto, using(store_api::specs::Bag::one_self, crate::proofs::Spelling::leaf_rules))]
fn take_leaf<S: Store>(
    s: &mut S,
    at: &S::Hold,
    node: &Shape,
    mut taken: Vec<(u32, Ival)>,
) -> Got<Vec<(u32, Ival)>>
    requires held { 0 < (S.bag s.old).count (S.name at.now) }
    requires trie { IsTrie ((S.bag s.old).tree (S.name at.now)) }
    requires offsets { HasOffsets ((S.bag s.old).tree (S.name at.now)) }
    requires node { shape_is ((S.bag s.old).tree (S.name at.now)) node.now }
    requires leaf { is_leaf node.now ≡ true }
    ensures ok { IfOk result (λ _. Same (S.bag s.old) (S.bag s.new)) }
    ensures value { IfOk result (λ v. v.items ≡ taken.items ++ pointers_of ((S.bag s.old).tree (S.name at.now))) }
    ensures err { IfErr result (Stops (S.bag s.old) (S.bag s.new) none) }
{
    let payload = s.kid(at, 0)?;
    let offsets = take_ival(s, &payload);
    s.give_back(payload);
    match taken.push((node.body[0] as u32, offsets?)) {
        Ok(()) => Ok(taken),
        Err(_) => Err(StoreStop::Memory),
    }
}

/// The pointers, and behind them those of a side, 0 or 1, of a branch.
#[cycle(take)]
fn take_side<S: Store>(
    s: &mut S,
    at: &S::Hold,
    side: u8,
    taken: Vec<(u32, Ival)>,
) -> Got<Vec<(u32, Ival)>>
    requires held { 0 < (S.bag s.old).count (S.name at.now) }
    requires trie { IsTrie (kid ((S.bag s.old).tree (S.name at.now)) side) }
    requires offsets { HasOffsets (kid ((S.bag s.old).tree (S.name at.now)) side) }
    requires falls { depth (kid ((S.bag s.old).tree (S.name at.now)) side) < depth ((S.bag s.old).tree (S.name at.now)) }
    requires kids { (z : Shape) → shape_is ((S.bag s.old).tree (S.name at.now)) z → side < z.kids }
    ensures ok { IfOk result (λ _. Same (S.bag s.old) (S.bag s.new)) }
    ensures value { IfOk result (λ v. v.items ≡ taken.items ++ pointers_of (kid ((S.bag s.old).tree (S.name at.now)) side)) }
    ensures err { IfErr result (Stops (S.bag s.old) (S.bag s.new) none) }
{
    let below = s.kid(at, side)?;
    let taken = take_pointers(s, &below, taken);
    s.give_back(below);
    taken
}

/// The pointers, and behind them those of a trie.
#[cycle(take)]
#[tactic(auto, using(store_api::specs::Bag::one_self, crate::proofs::Spelling::take_facts))]
pub fn take_pointers<S: Store>(
    s: &mut S,
    at: &S::Hold,
    taken: Vec<(u32, Ival)>,
) -> Got<Vec<(u32, Ival)>>
    requires held { 0 < (S.bag s.old).count (S.name at.now) }
    requires trie { IsTrie ((S.bag s.old).tree (S.name at.now)) }
    requires offsets { HasOffsets ((S.bag s.old).tree (S.name at.now)) }
    ensures ok { IfOk result (λ _. Same (S.bag s.old) (S.bag s.new)) }
    ensures value { IfOk result (λ v. v.items ≡ taken.items ++ pointers_of ((S.bag s.old).tree (S.name at.now))) }
    ensures err { IfErr result (Stops (S.bag s.old) (S.bag s.new) none) }
{
    let node = s.look(at);
    if node.head == LEAF {
        return take_leaf(s, at, &node, taken);
    }
    let taken = take_side(s, at, 0, taken)?;
    take_side(s, at, 1, taken)
}
