// Lookup.
ghost use Rattle.std.specs.Prelude.{◌≡◌, ℕ, ◌+◌, ◌<◌, ◌≤◌, IfOk, IfErr};
ghost use Rattle.hptmap.specs.Trie.{IsTrie, map_of};
ghost use Rattle.store_api.specs.Bag.{GainsOption, Stops, none};

use crate::nodes::LEAF;
use store_api::{Got, Store};

/// The payload of a key in a trie.
#[tactic(auto, using(store_api::specs::Bag::one_self, crate::proofs::Tries::find_facts))]
pub fn find_in<S: Store>(s: &mut S, at: &S::Hold, key: u32) -> Got<Option<S::Hold>>
    requires held { 0 < (S.bag s.old).count (S.name at.now) }
    requires trie { IsTrie ((S.bag s.old).tree (S.name at.now)) }
    ensures ok { IfOk result (λ o. GainsOption S.name (S.bag s.old) (S.bag s.new) (map_of ((S.bag s.old).tree (S.name at.now)) key) o) }
    ensures err { IfErr result (Stops (S.bag s.old) (S.bag s.new) none) }
{
    let node = s.look(at);
    if node.head == LEAF {
        if node.body[0] == u64::from(key) {
            let payload = s.kid(at, 0)?;
            return Ok(Some(payload));
        }
        return Ok(None);
    }
    let side = if u64::from(key) < node.body[0] { 0 } else { 1 };
    let below = s.kid(at, side)?;
    let found = find_in(s, &below, key);
    s.give_back(below);
    found
}
