//! Moves nodes of kept texts to their places in the input.

ghost use Rattle.std.specs.Prelude.{◌≡◌, ◌+◌, ◌<◌, ◌≤◌, ◌^◌, ◌∷◌, ◌++◌, length, drop, [], OnOk, IfOk, IsTrue};
ghost use Rattle.gabc_tree.specs.Tree.{rest_of};
ghost use Rattle.gabc_tree.specs.Placed.{offset as offset_of, bytes_in, before_byte, is_snippet as is_a_snippet, up_to, reach_to, byte_at, is_between as is_between_marks, moved as moved_by, placed_from, reach_after, inside_of, end_by, nodes_at, reach_past, begin_of, first_of};

use crate::code_number::number_of_code;
use gabc_nodes::{Kind, Node};
use gabc_places::Fault;
use std::alloc::{AllocError, Global};
use std::marker::Model;

/// Returns `n` as an offset or a count of a node, bounded by 4,294,967,295.
pub(crate) fn offset(n: usize) -> u32
    ensures { result ≡ offset_of n }
{
    if n < 4_294_967_295 {
        n as u32
    } else {
        4_294_967_295
    }
}

/// Returns `node`, which counts the bytes of a text whose first byte is the kept byte `base`, with
/// its bytes counted among all kept bytes.
pub(crate) fn moved(base: u32, node: Node) -> Node
    ensures { result ≡ moved_by base node }
{
    Node {
        begin: base.saturating_add(node.begin),
        end: base.saturating_add(node.end),
        ..node
    }
}

/// Returns whether a node of this `kind` is a snippet.
fn is_snippet(kind: Kind) -> bool
    ensures { result ≡ is_a_snippet kind }
{
    match kind {
        Kind::Snippet => true,
        _ => false,
    }
}

/// Returns whether `node` is a snippet after a mark, so that whatever is between its marks belongs
/// to it.
fn is_between(node: Node) -> bool
    ensures { result ≡ is_between_marks node }
{
    is_snippet(node.kind) && 0 < node.begin
}

/// Returns the number of the nodes `out`, which are not kept, before a byte that would be the byte
/// `n` without them, and the number of bytes that they have.
fn before(out: &[Node], n: usize) -> (usize, usize)
    requires { n + bytes_in out.now < 2 ^ 63 }
    ensures count { result.0 ≡ length (before_byte n out.now) }
    ensures bytes { result.1 ≡ bytes_in (before_byte n out.now) }
    ensures few { result.0 ≤ length out.now }
    ensures rest { result.1 + bytes_in (drop result.0 out.now) ≡ bytes_in out.now }
{
    let mut count = 0;
    let mut bytes = 0;
    for node in out {
        if n + bytes < node.begin as usize {
            break;
        }
        bytes += node.end.saturating_sub(node.begin) as usize;
        count += 1;
    }
    (count, bytes)
}

/// A list of nodes that are moved to their places in an input, one after the other, with those of
/// what is not kept between them.
#[derive(Drop)]
pub(crate) struct Placing<'a> {
    nodes: Vec<Node>,
    /// The nodes of what is not kept after the last node's first byte.
    out: &'a [Node],
    /// The number of bytes before that are not kept.
    passed: usize,
}

impl<'a> Model for Placing<'a> {
    ghost use Rattle.std.specs.Prelude.{◌+◌, ◌<◌, ◌^◌};
    ghost use Rattle.gabc_tree.specs.machine.Placing.{PlacingState};
    ghost use Rattle.gabc_tree.specs.Tree.{rest_of};
    ghost use Rattle.gabc_tree.specs.Placed.{bytes_in};

    ghost Value = { PlacingState };

    ghost view = { λ p. record {
      nodes = p.nodes.items;
      reach = record { out = p.out.now; passed = p.passed };
    } };

    ghost invariant = { λ p. p.passed + bytes_in p.out.now < 2 ^ 32 };
}

impl<'a> Placing<'a> {
    /// Returns a list of the node `first` alone, before all of `out`, which is not kept. It has a
    /// capacity of `room` nodes.
    pub(crate) fn new(
        alloc: Global,
        first: Node,
        out: &'a [Node],
        room: usize,
    ) -> Result<Placing<'a>, AllocError>
        requires { bytes_in out.now < 2 ^ 32 }
        ensures { IfOk result (λ placing. placing ≡ record {
          nodes = first ∷ [];
          reach = record { out = out.now; passed = 0 };
        }) }
    {
        let mut nodes = Vec::with_capacity(alloc, room)?;
        nodes.push(first)?;
        Ok(Placing {
            nodes,
            out,
            passed: 0,
        })
    }

    /// Adds what is not kept before the kept byte `kept`, and returns the place of that byte in the
    /// input.
    #[tactic(auto, using(crate::proofs::placed_nodes::Fronts::is_front))]
    fn pass(&mut self, kept: usize) -> Result<usize, AllocError>
        requires { kept < 2 ^ 62 }
        ensures passed { OnOk result (self.new ≡ record {
          nodes = self.old.nodes ++ up_to self.old.reach kept;
          reach = reach_to self.old.reach kept;
        }) }
        ensures byte { IfOk result (λ byte. byte ≡ byte_at self.old.reach kept) }
        ensures near { IfOk result (λ byte. byte < kept + 2 ^ 32) }
    {
        let (count, bytes) = before(self.out, kept + self.passed);
        let (front, rest) = self.out.split_at(count);
        self.nodes.extend_from_slice(front)?;
        self.out = rest;
        self.passed += bytes;
        Ok(kept + self.passed)
    }

    /// Adds what is not kept before `node`, whose bytes are kept bytes, and returns the byte of the
    /// input at which it begins. Whatever is between its marks belongs to a snippet.
    fn begin(&mut self, node: Node) -> Result<usize, AllocError>
        ensures passed { OnOk result (self.new ≡ record {
          nodes = self.old.nodes ++ up_to self.old.reach (first_of node);
          reach = reach_to self.old.reach (first_of node);
        }) }
        ensures byte { IfOk result (λ byte. byte ≡ begin_of self.old.reach node) }
    {
        if is_between(node) {
            let before = self.pass(node.begin as usize - 1)?;
            Ok(before + 1)
        } else {
            self.pass(node.begin as usize)
        }
    }

    /// Returns the number of nodes of what is not kept that lie in `node`, and the byte of the
    /// input before which it ends. Its bytes are kept bytes, and it begins at the byte `begin` of
    /// the input, after all that was passed.
    fn end(&self, node: Node, begin: usize) -> (usize, usize)
        ensures inside { result.0 ≡ length (inside_of self.now.reach node) }
        ensures end { result.1 ≡ end_by self.now.reach begin node }
        ensures few { result.0 < 2 ^ 63 }
    {
        let to = node.end as usize;
        if is_snippet(node.kind) {
            let (count, bytes) = before(self.out, to + self.passed);
            return (count, to + (self.passed + bytes));
        }
        if node.begin < node.end {
            let (count, bytes) = before(self.out, to - 1 + self.passed);
            return (count, to - 1 + (self.passed + bytes) + 1);
        }
        (0, begin)
    }

    /// Returns whether all of what is not kept and was not passed comes after `node`, whose bytes
    /// are kept bytes.
    #[tactic(auto, using(crate::proofs::placed_nodes::Ahead::none_left, crate::proofs::placed_nodes::Ahead::first_later, crate::proofs::placed_nodes::Ahead::ahead_nodes, crate::proofs::placed_nodes::Ahead::ahead_reach))]
    fn is_ahead(&self, node: Node) -> bool
        ensures nodes { IsTrue result →
            nodes_at self.now.reach node ≡ moved_by self.now.reach.passed node ∷ [] }
        ensures reach { IsTrue result → reach_past self.now.reach node ≡ self.now.reach }
    {
        node.begin <= node.end
            && match self.out {
                [first, ..] => node.end as usize + self.passed < first.begin as usize,
                [] => true,
            }
    }

    /// Adds `node`, whose bytes are kept bytes, with what is not kept before it and in it.
    fn place_among(&mut self, node: Node) -> Result<(), AllocError>
        ensures { OnOk result (self.new ≡ record {
          nodes = self.old.nodes ++ nodes_at self.old.reach node;
          reach = reach_past self.old.reach node;
        }) }
    {
        let begin = self.begin(node)?;
        let (inside, end) = self.end(node, begin);
        self.add(Node {
            begin: offset(begin),
            end: offset(end),
            inner: offset(node.inner as usize + inside),
            ..node
        })
    }

    /// Adds `node`, whose bytes are kept bytes.
    fn place(&mut self, node: Node) -> Result<(), AllocError>
        ensures { OnOk result (self.new ≡ record {
          nodes = self.old.nodes ++ nodes_at self.old.reach node;
          reach = reach_past self.old.reach node;
        }) }
    {
        if self.is_ahead(node) {
            return self.add(moved(self.passed as u32, node));
        }
        self.place_among(node)
    }

    /// Adds `nodes`, whose bytes are kept bytes.
    pub(crate) fn place_all(&mut self, nodes: &[Node]) -> Result<(), AllocError>
        ensures { OnOk result (self.new ≡ record {
          nodes = self.old.nodes ++ placed_from self.old.reach nodes.now;
          reach = reach_after self.old.reach nodes.now;
        }) }
    {
        for node in nodes {
            self.place(*node)?;
        }
        Ok(())
    }

    /// Adds the last nodes: after the first `kept` kept bytes what is not kept, or if a `fault`
    /// ended the reading, what is not read of an input of `len` bytes.
    pub(crate) fn finish(
        &mut self,
        kept: u32,
        len: usize,
        fault: Option<Fault>,
    ) -> Result<(), AllocError>
        ensures { OnOk result (self.new.nodes
            ≡ self.old.nodes ++ rest_of self.old.reach kept len fault) }
    {
        let Some(fault) = fault else {
            self.nodes.extend_from_slice(self.out)?;
            return Ok(());
        };
        let begin = if 0 < kept {
            self.pass(kept as usize - 1)? + 1
        } else {
            0
        };
        let number = number_of_code(fault.code);
        self.add(Node::leaf(Kind::Unread, number, offset(begin), offset(len)))
    }

    /// Adds `node`, whose bytes are those of the input.
    fn add(&mut self, node: Node) -> Result<(), AllocError>
        ensures { OnOk result (self.new
            ≡ record self.old { nodes = self.old.nodes ++ node ∷ [] }) }
    {
        self.nodes.push(node)?;
        Ok(())
    }

    /// Moves the nodes to `out`, which is empty.
    pub(crate) fn give(&mut self, out: &mut Vec<Node>)
        ensures { out.new.items ≡ self.old.nodes }
    {
        std::mem::swap(&mut self.nodes, out);
    }
}
