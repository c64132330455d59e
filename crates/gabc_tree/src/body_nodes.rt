//! The nodes of the syllables of a body, one after the other.

ghost use Rattle.std.specs.Prelude.{◌≡◌, ◌++◌, [], ◌∷◌, map, string_bytes, OnOk, OnErr};
ghost use Rattle.std.specs.Str.{chars};
ghost use Rattle.gabc_neumes.specs.InForce.{nothing_in_force};
ghost use Rattle.gabc_body.specs.Syllable.{PlacedSyllable};
ghost use Rattle.gabc_tree.specs.Placed.{moved as moved_by};
ghost use Rattle.gabc_tree.specs.machine.BodyNodes.{past_syllables};
ghost use Rattle.gabc_tree.specs.machine.SyllableSlices.{Shows};

use crate::placing::{moved, offset};
use crate::syllable_nodes::{SyllableSlices, syllable_nodes};
use gabc_neumes::Alterations;
use gabc_nodes::Node;
use std::alloc::{AllocError, Global};
use std::marker::Model;

/// The nodes of headers and, after them, of syllables. They count the kept bytes of an input.
#[derive(Drop)]
pub(crate) struct BodyNodes {
    nodes: Vec<Node>,
    /// The kept texts of the syllables, one after the other.
    kept: String,
    /// The number of the next kept byte.
    base: u32,
    /// The alterations in force there.
    alterations: Alterations,
    /// Room for the nodes of one syllable.
    of_one: Vec<Node>,
}

impl Model for BodyNodes {
    ghost use Rattle.std.specs.Prelude.{string_bytes};
    ghost use Rattle.std.specs.Str.{chars};
    ghost use Rattle.gabc_tree.specs.machine.BodyNodes.{BodyState};

    ghost Value = { BodyState };

    ghost view = { λ b. record {
      nodes = b.nodes.items;
      kept = chars (string_bytes b.kept);
      base = b.base;
      force = b.alterations;
    } };
}

/// Moves `nodes`, which count the bytes of a text whose first byte is the kept byte `base`, so that
/// they count all kept bytes.
fn move_each(base: u32, nodes: &mut [Node])
    ensures { nodes.new ≡ map (moved_by base) nodes.old }
{
    for node in nodes.iter_mut() {
        *node = moved(base, *node);
    }
}

/// Moves all of `nodes` as `move_each` does.
fn move_all(base: u32, nodes: &mut Vec<Node>)
    ensures { nodes.new.items ≡ map (moved_by base) nodes.old.items }
{
    move_each(base, nodes.as_mut_slice());
}

/// Adds `made` to `nodes` and `text` to `kept`. If memory runs out, neither changes.
fn append(
    nodes: &mut Vec<Node>,
    made: &[Node],
    kept: &mut String,
    text: &str,
) -> Result<(), AllocError>
    ensures nodes { OnOk result (nodes.new.items ≡ nodes.old.items ++ made.now) }
    ensures kept { OnOk result (chars (string_bytes kept.new)
        ≡ chars (string_bytes kept.old) ++ chars text.now) }
    ensures same_nodes { OnErr result (nodes.new.items ≡ nodes.old.items) }
    ensures same_kept { OnErr result (string_bytes kept.new ≡ string_bytes kept.old) }
{
    // The proof reads off this call that the kept text is UTF-8.
    let _ = kept.as_str();
    let len = nodes.len();
    nodes.extend_from_slice(made)?;
    if let Err(error) = kept.push_str(text) {
        nodes.truncate(len);
        return Err(error);
    }
    Ok(())
}

impl BodyNodes {
    /// Returns the nodes `heads` of headers of which `base` bytes are kept.
    pub(crate) fn after(alloc: Global, heads: Vec<Node>, base: u32) -> BodyNodes
        ensures { result ≡ record {
          nodes = map (moved_by 0) heads.items;
          kept = [];
          base = base;
          force = nothing_in_force;
        } }
    {
        let mut nodes = heads;
        move_all(0, &mut nodes);
        BodyNodes {
            nodes,
            kept: String::new(alloc),
            base,
            alterations: Alterations::new(),
            of_one: Vec::new(alloc),
        }
    }

    /// Returns the nodes.
    pub(crate) fn nodes(&self) -> &[Node]
        ensures { result.now ≡ self.now.nodes }
    {
        self.nodes.as_slice()
    }

    /// Returns the kept texts of the syllables, one after the other.
    pub(crate) fn kept(&self) -> &str
        ensures { chars result.now ≡ self.now.kept }
    {
        self.kept.as_str()
    }

    /// Returns the number of the next kept byte.
    pub(crate) fn base(&self) -> u32
        ensures { result ≡ self.now.base }
    {
        self.base
    }

    /// Adds the nodes of `syllable` and its kept text. If memory runs out, nothing changes. A kept
    /// text of 2^32 bytes or more is refused too: no limit allows one.
    pub(crate) fn add(&mut self, syllable: SyllableSlices<'_>) -> Result<(), AllocError>
        ensures added { OnOk result ((s : PlacedSyllable) → Shows syllable.entry s →
            self.new ≡ past_syllables self.old (s ∷ [])) }
        ensures unchanged { OnErr result (self.new ≡ self.old) }
    {
        let kept = syllable.kept;
        if kept.len() > 4_294_967_295 {
            return Err(AllocError);
        }
        let mut alterations = self.alterations;
        self.of_one.clear();
        syllable_nodes(syllable, &mut alterations, &mut self.of_one)?;
        move_all(self.base, &mut self.of_one);
        append(
            &mut self.nodes,
            self.of_one.as_slice(),
            &mut self.kept,
            kept,
        )?;
        self.base = offset(self.base as usize + kept.len());
        self.alterations = alterations;
        Ok(())
    }
}
