// What callers say of payloads.
ghost use Rattle.std.specs.Prelude.{◌≡◌, ℕ, ◌+◌, ◌<◌, ◌≤◌, IfOk, IfErr, IsTrue};
ghost use Rattle.hptmap.specs.Leaves.{Idempotent, LeafMeaning, PairMeaning, RisesWith};
ghost use Rattle.store_api.specs.Tree.{depth};
ghost use Rattle.store_api.specs.Bag.{Gains, Same, Stops, Trades, none, one};

use std::alloc::Global;
use store_api::{Got, Store};

/// What is done with the two payloads of a common key.
///
/// The holds that are handed to a call are held in the store, and the payload trees are ones that the
/// rule takes in a store about this list. A payload that is answered has depth at most 95. After a
/// stop the store has the holds that it had. No call changes the rule's meaning.
pub trait LeafRule<S: Store> {
    /// Which payload trees it takes, and what it makes of them.
    ghost meaning: { Self → LeafMeaning };

    /// How many shapes its calls have looked at.
    ghost inner: { Self → ℕ };

    /// The join.
    fn join(&mut self, alloc: Global, s: &mut S, a: &S::Hold, b: &S::Hold) -> Got<S::Hold>
        requires held { 0 < (S.bag s.old).count (S.name a.now) }
        requires held_second { 0 < (S.bag s.old).count (S.name b.now) }
        requires takes { IsTrue ((meaning self.old).takes (S.bag s.old).about ((S.bag s.old).tree (S.name a.now)) ((S.bag s.old).tree (S.name b.now))) }
        ensures ok { IfOk result (λ r. Gains (S.bag s.old) (S.bag s.new) (S.name r) ((meaning self.old).join ((S.bag s.old).tree (S.name a.now)) ((S.bag s.old).tree (S.name b.now)))) }
        ensures depth { IfOk result (λ r. depth ((S.bag s.new).tree (S.name r)) ≤ 95) }
        ensures err { IfErr result (Stops (S.bag s.old) (S.bag s.new) none) }
        ensures rule { meaning self.new ≡ meaning self.old }
        ensures inner { RisesWith (inner self.old) (inner self.new) (S.bag s.old) (S.bag s.new) };

    /// The widening of the first by the second.
    fn widen(&mut self, alloc: Global, s: &mut S, a: &S::Hold, b: &S::Hold) -> Got<S::Hold>
        requires held { 0 < (S.bag s.old).count (S.name a.now) }
        requires held_second { 0 < (S.bag s.old).count (S.name b.now) }
        requires takes { IsTrue ((meaning self.old).takes (S.bag s.old).about ((S.bag s.old).tree (S.name a.now)) ((S.bag s.old).tree (S.name b.now))) }
        ensures ok { IfOk result (λ r. Gains (S.bag s.old) (S.bag s.new) (S.name r) ((meaning self.old).widen ((S.bag s.old).tree (S.name a.now)) ((S.bag s.old).tree (S.name b.now)))) }
        ensures depth { IfOk result (λ r. depth ((S.bag s.new).tree (S.name r)) ≤ 95) }
        ensures err { IfErr result (Stops (S.bag s.old) (S.bag s.new) none) }
        ensures rule { meaning self.new ≡ meaning self.old }
        ensures inner { RisesWith (inner self.old) (inner self.new) (S.bag s.old) (S.bag s.new) };

    /// Whether the first is included in the second.
    fn included(&mut self, alloc: Global, s: &mut S, a: &S::Hold, b: &S::Hold) -> Got<bool>
        requires held { 0 < (S.bag s.old).count (S.name a.now) }
        requires held_second { 0 < (S.bag s.old).count (S.name b.now) }
        requires takes { IsTrue ((meaning self.old).takes (S.bag s.old).about ((S.bag s.old).tree (S.name a.now)) ((S.bag s.old).tree (S.name b.now))) }
        ensures ok { IfOk result (λ _. Same (S.bag s.old) (S.bag s.new)) }
        ensures told { IfOk result (λ r. r ≡ (meaning self.old).included ((S.bag s.old).tree (S.name a.now)) ((S.bag s.old).tree (S.name b.now))) }
        ensures err { IfErr result (Stops (S.bag s.old) (S.bag s.new) none) }
        ensures rule { meaning self.new ≡ meaning self.old }
        ensures inner { RisesWith (inner self.old) (inner self.new) (S.bag s.old) (S.bag s.new) };

    /// A tree with itself gives that tree, and is included in itself.
    ghost idempotent: { (r : Self) → Idempotent (meaning r) };
}

/// What is done with each pair of a map.
pub trait LeafMap<S: Store> {
    /// Which pairs it takes, and the new payload of each.
    ghost meaning: { Self → PairMeaning };

    /// The new payload of a key, in place of the old one; it has depth at most 95.
    fn replace(&mut self, alloc: Global, s: &mut S, key: u32, payload: S::Hold) -> Got<S::Hold>
        requires owned { (x : ℕ) → one (S.name payload) x ≤ (S.bag s.old).count x }
        requires takes { IsTrue ((meaning self.old).takes key ((S.bag s.old).tree (S.name payload))) }
        ensures ok { IfOk result (λ r. Trades (S.bag s.old) (S.bag s.new) (one (S.name payload)) (one (S.name r))) }
        ensures tree { IfOk result (λ r. (S.bag s.new).tree (S.name r) ≡ (meaning self.old).replace key ((S.bag s.old).tree (S.name payload))) }
        ensures depth { IfOk result (λ r. depth ((S.bag s.new).tree (S.name r)) ≤ 95) }
        ensures err { IfErr result (Stops (S.bag s.old) (S.bag s.new) (one (S.name payload))) }
        ensures map { meaning self.new ≡ meaning self.old };
}
