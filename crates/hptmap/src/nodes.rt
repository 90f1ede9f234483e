// The nodes of a trie: leaves, branches, and the bits of keys.
ghost use Rattle.std.specs.Prelude.{◌≡◌, ◌≢◌, ℕ, ◌+◌, ◌*◌, ◌/◌, ◌^◌, ◌<◌, ◌≤◌, IfOk, IfErr, IsTrue, ◌↔◌, Bool};
ghost use Rattle.hptmap.specs.Trie.{key_of, leaf, leaf_shape, split_at, branch_shape, top_of, is_leaf, level_of};
ghost use Rattle.store_api.specs.Tree.{depth};
ghost use Rattle.store_api.specs.Bag.{Gains, Stops, none};

use store_api::{Got, Shape, Store, intern_one};

pub const LEAF: u64 = 1;

pub const BRANCH: u64 = 2;

/// The bits of a key from number n on.
pub fn prefix(key: u64, n: u64) -> u64
    requires { n < 64 }
    ensures { result ≡ key / 2 ^ n }
{
    key >> n
}

/// The bit from which on all keys of a node agree.
pub fn top(node: &Shape) -> u64
    requires { is_leaf node.now ≡ Bool.false → level_of node.now < 32 }
    ensures is { result ≡ top_of node.now }
    ensures small { result ≤ 32 }
{
    if node.head == LEAF {
        0
    } else {
        node.body[1] + 1
    }
}

/// Whether a key has the prefix that all keys of a node have.
pub fn has_prefix(node: &Shape, key: u64) -> bool
    requires { is_leaf node.now ≡ Bool.false → level_of node.now < 32 }
    ensures { IsTrue result ↔ (key / 2 ^ top_of node.now ≡ key_of node.now / 2 ^ top_of node.now) }
{
    let top = top(node);
    prefix(key, top) == prefix(node.body[0], top)
}

/// The number of the highest bit that tells two keys apart.
pub fn branching_bit(k: u64, j: u64) -> u64
    requires differ { k ≢ j }
    requires k { k < 2 ^ 32 }
    requires j { j < 2 ^ 32 }
    ensures small { result < 32 }
    ensures apart { k / 2 ^ result ≢ j / 2 ^ result }
    ensures together { k / 2 ^ (result + 1) ≡ j / 2 ^ (result + 1) }
{
    let mut n = 0;
    while n < 31 {
        if prefix(k, n + 1) == prefix(j, n + 1) {
            return n;
        }
        n += 1;
    }
    n
}

/// The split of a branch over a key: its prefix behind the bit, then 1, then zeros.
#[tactic(auto, using(crate::proofs::Changes::split_small), unfolding(crate::specs::Trie::split_at))]
pub fn split(key: u64, bit: u64) -> u64
    requires key { key < 2 ^ 32 }
    requires bit { bit < 32 }
    ensures { result ≡ split_at key bit }
{
    (2 * prefix(key, bit + 1) + 1) << bit
}

/// The shape of a leaf.
pub fn leaf_node(key: u32) -> Shape
    ensures { result ≡ leaf_shape key }
{
    Shape {
        head: LEAF,
        body: [u64::from(key), 0, 0, 0, 0, 0, 0, 0],
        kids: 1,
    }
}

/// The shape of the branch that tells two keys apart.
pub fn branch_node(key: u64, bit: u64) -> Shape
    requires key { key < 2 ^ 32 }
    requires bit { bit < 32 }
    ensures { result ≡ branch_shape (split_at key bit) bit }
{
    Shape {
        head: BRANCH,
        body: [split(key, bit), bit, 0, 0, 0, 0, 0, 0],
        kids: 2,
    }
}

/// The trie of one key.
pub fn make_leaf<S: Store>(s: &mut S, key: u32, payload: &S::Hold) -> Got<S::Hold>
    requires held { 0 < (S.bag s.old).count (S.name payload.now) }
    requires depth { depth ((S.bag s.old).tree (S.name payload.now)) ≤ 95 }
    ensures ok { IfOk result (λ r. Gains (S.bag s.old) (S.bag s.new) (S.name r) (leaf key ((S.bag s.old).tree (S.name payload.now)))) }
    ensures err { IfErr result (Stops (S.bag s.old) (S.bag s.new) none) }
{
    let node = leaf_node(key);
    let nothing: Option<S::Hold> = None;
    s.intern(&node, Some(payload), nothing.as_ref())
}
