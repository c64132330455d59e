//! The tree of a score as records.

ghost use Rattle.std.specs.Prelude.{◌≡◌, map, IfOk, OnErr};
ghost use Rattle.gregorio_c.specs.Answers.{IsPut};
ghost use Rattle.gregorio_c.specs.Tree.{TreeAnswer, record_of};

use crate::engines::hasher_of;
use crate::tree_node::TreeNode;
use gabc_nodes::Node;
use gabc_places::Limits;
use gabc_tree::tree_of_with_hasher;
use std::alloc::{AllocError, Global};

/// Copies the records of `nodes` to the head of `to`, if there is room for all of them. Else `to`
/// stays as it was.
fn put_nodes(nodes: &[Node], to: &mut [TreeNode])
    ensures { IsPut (map record_of nodes.now) to.old to.new }
{
    if nodes.len() <= to.len() {
        for (at, node) in nodes.iter().enumerate() {
            to[at] = TreeNode::of(*node);
        }
    }
}

/// Reads `score`, and puts the nodes of its tree into `nodes`, if there is room for all, and their
/// number into `count`. It fails only if memory runs out, and writes nothing then.
pub(crate) fn tell_tree(
    alloc: Global,
    key: &[u64],
    score: &[u8],
    nodes: &mut [TreeNode],
    count: &mut usize,
) -> Result<(), AllocError>
    ensures answered { IfOk result (λ _. TreeAnswer score.now nodes.old nodes.new count.new) }
    ensures unchanged { OnErr result (nodes.new ≡ nodes.old) }
    ensures count_unchanged { OnErr result (count.new ≡ count.old) }
{
    let tree = tree_of_with_hasher(alloc, score, Limits::default(), hasher_of(key))?;
    put_nodes(tree.nodes(), nodes);
    *count = tree.nodes().len();
    Ok(())
}
