//! Nodes that follow one another, joined if they are of one run.

ghost use Rattle.std.specs.Prelude.{◌≡◌, ◌∷◌, ◌&&◌, ◌==◌, List, [], OnOk};
ghost use Rattle.gabc_nodes.specs.declared.node.Node.{Node};
ghost use Rattle.gabc_tree.specs.NotKept.{is_run as runs, joins as join};
ghost use Rattle.gabc_tree.specs.machine.NotKept.{joined_after};

use gabc_nodes::{Kind, Node};
use std::alloc::{AllocError, Global};
use std::marker::Model;

/// Returns whether nodes of this `kind` become one if they follow one another.
fn is_run(kind: Kind) -> bool
    ensures { result ≡ runs kind }
{
    match kind {
        Kind::Comment | Kind::FurtherBlank => true,
        _ => false,
    }
}

/// Returns whether a node of the kind `next` may become one with a node of this `kind` before it.
fn is_joined(kind: Kind, next: Kind) -> bool
    ensures { result ≡ join kind next }
{
    is_run(kind) && kind.number() == next.number()
}

/// Returns whether `next`, which is added after `node`, becomes one with it.
fn goes_on(node: Node, next: Node) -> bool
    ensures { result ≡ (join node.kind next.kind && (node.end == next.begin)) }
{
    is_joined(node.kind, next.kind) && node.end == next.begin
}

/// Nodes that are added one after the other. Comments that follow one another become one node, and
/// so do further blanks.
#[derive(Drop)]
pub(crate) struct Joining {
    done: Vec<Node>,
    /// The last node, which may be extended.
    last: Option<Node>,
}

impl Model for Joining {
    ghost use Rattle.gabc_tree.specs.machine.NotKept.{JoiningState};

    ghost Value = { JoiningState };

    ghost view = { λ j. record { done = j.done.items; last = j.last } };
}

impl Joining {
    ghost use Rattle.std.specs.Prelude.{None, IfOk};

    /// Returns a list of no nodes.
    pub(crate) fn new(alloc: Global) -> Joining
        ensures { result ≡ record { done = []; last = None } }
    {
        Joining {
            done: Vec::new(alloc),
            last: None,
        }
    }

    /// Adds `node`, or extends the last node to its end if both become one.
    #[tactic(auto, using(crate::proofs::not_kept_nodes::Joins::goes_on_joined, crate::proofs::not_kept_nodes::Joins::stays_joined))]
    pub(crate) fn add(&mut self, node: Node) -> Result<(), AllocError>
        ensures { OnOk result ((more : List Node) →
            joined_after self.new more ≡ joined_after self.old (node ∷ more)) }
    {
        let Some(last) = self.last else {
            self.last = Some(node);
            return Ok(());
        };
        if goes_on(last, node) {
            self.last = Some(Node {
                end: node.end,
                ..last
            });
            return Ok(());
        }
        self.done.push(last)?;
        self.last = Some(node);
        Ok(())
    }

    /// Returns the nodes.
    pub(crate) fn into_nodes(self) -> Result<Vec<Node>, AllocError>
        ensures { IfOk result (λ nodes. nodes.items ≡ joined_after self []) }
    {
        let mut nodes = self.done;
        if let Some(last) = self.last {
            nodes.push(last)?;
        }
        Ok(nodes)
    }
}
