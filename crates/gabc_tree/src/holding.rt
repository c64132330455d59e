//! A node that holds those after it.

ghost use Rattle.std.specs.Prelude.{◌≡◌, ◌<◌, List, ◌∷◌, ◌++◌, length};
ghost use Rattle.gabc_nodes.specs.declared.node.Node.{Node};
ghost use Rattle.gabc_tree.specs.SyllableNodes.{around};

use crate::placing::offset;
use gabc_nodes::Node;

/// Sets the count of the node at the index `at` so that all nodes after it lie in it.
pub(crate) fn hold(nodes: &mut Vec<Node>, at: usize)
    requires { at < length nodes.old.items }
    ensures { (front : List Node) (node : Node) (inside : List Node)
        → nodes.old.items ≡ front ++ node ∷ inside → length front ≡ at
        → nodes.new.items ≡ front ++ around node inside }
{
    let len = nodes.as_slice().len();
    nodes[at].inner = offset(len - at - 1);
}
