// How the blocks of two nodes lie.
ghost use Rattle.std.specs.Prelude.{◌≡◌, ◌<◌, Bool};
ghost use Rattle.hptmap.specs.Merges.{Lies};
ghost use Rattle.hptmap.specs.Trie.{is_leaf, level_of};

use crate::nodes::{has_prefix, top};
use crate::order::Blocks;
use store_api::Shape;

/// How the block of a node lies to that of another.
pub fn compare(first: &Shape, second: &Shape) -> Blocks
    requires first { is_leaf first.now ≡ Bool.false → level_of first.now < 32 }
    requires second { is_leaf second.now ≡ Bool.false → level_of second.now < 32 }
    ensures { Lies result first.now second.now }
{
    let first_top = top(first);
    let second_top = top(second);
    if first_top < second_top {
        if has_prefix(second, first.body[0]) {
            Blocks::Inside
        } else {
            Blocks::Apart
        }
    } else if !has_prefix(first, second.body[0]) {
        Blocks::Apart
    } else if second_top < first_top {
        Blocks::Around
    } else {
        Blocks::Equal
    }
}
