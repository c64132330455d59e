//! A node of a tree as a record.

ghost use Rattle.std.specs.Prelude.{◌≡◌};
ghost use Rattle.gregorio_c.specs.Tree.{record_of};

use gabc_nodes::Node;

/// A node of a tree: its bytes, the number of nodes that lie in it, the number of its kind, and
/// three numbers whose meaning depends on the kind.
#[repr(C)]
#[derive(Clone, Copy, Debug, PartialEq, Eq)]
pub struct TreeNode {
    /// Its first byte, from 0.
    pub begin: u32,
    /// The byte after its last one.
    pub end: u32,
    /// The number of nodes that lie in it. They come directly after it.
    pub inner: u32,
    /// The number of its kind, which never changes.
    pub kind: u16,
    /// The first of its numbers.
    pub a: u16,
    /// The second one.
    pub b: u16,
    /// The third one.
    pub c: u16,
}

impl TreeNode {
    /// Returns the record of `node`.
    pub(crate) fn of(node: Node) -> TreeNode
        ensures { result ≡ record_of node }
    {
        TreeNode {
            begin: node.begin,
            end: node.end,
            inner: node.inner,
            kind: node.kind.number(),
            a: node.a,
            b: node.b,
            c: node.c,
        }
    }
}
