//! The nodes of a tree.

use crate::kind::Kind;

/// A node: its bytes, the number of nodes that lie in it, its kind, and three numbers whose meaning
/// depends on the kind.
///
/// Those of its bytes that lie in no node inside it are its own. In a tree `begin` and `end` count
/// bytes of the input, from 0. While a tree is built they count bytes of a kept text.
#[derive(Clone, Copy, Debug, PartialEq, Eq)]
pub struct Node {
    /// Its first byte.
    pub begin: u32,
    /// The byte after its last one.
    pub end: u32,
    /// The number of nodes that lie in it. They come directly after it.
    pub inner: u32,
    /// Its kind.
    pub kind: Kind,
    /// The first of its numbers.
    pub a: u16,
    /// The second one.
    pub b: u16,
    /// The third one.
    pub c: u16,
}

impl Node {
    ghost use Rattle.std.specs.Prelude.{◌≡◌};
    ghost use Rattle.gabc_nodes.specs.Node.{leaf};

    /// Returns a node of this `kind` with the bytes from `begin` up to before `end`, in which no
    /// other lies. Its first number is `number`, and the others are 0.
    pub fn leaf(kind: Kind, number: u16, begin: u32, end: u32) -> Node
        ensures { result ≡ leaf kind number begin end }
    {
        Node {
            begin,
            end,
            inner: 0,
            kind,
            a: number,
            b: 0,
            c: 0,
        }
    }
}
