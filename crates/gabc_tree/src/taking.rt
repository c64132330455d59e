//! Takes the syllables of a score and makes their nodes.

ghost use Rattle.std.specs.Prelude.{◌≡◌, ◌+◌, ◌++◌, [], ◌∷◌, map, length, string_bytes, OnOk, OnErr};
ghost use Rattle.gabc_neumes.specs.InForce.{nothing_in_force};
ghost use Rattle.gabc_body.specs.Canonical.{starts_word};
ghost use Rattle.gabc_body.specs.Syllable.{PlacedSyllable};
ghost use Rattle.gabc_score.specs.RegularSyllable.{spans_from, with_lines};
ghost use Rattle.gabc_score.specs.SpelledSyllable.{IsSpelling, Spells};
ghost use Rattle.gabc_tree.specs.Placed.{moved as moved_by};
ghost use Rattle.gabc_tree.specs.machine.BodyNodes.{past_syllables};
ghost use Rattle.gabc_tree.specs.machine.SyllableSlices.{gap_of};

use crate::body_nodes::BodyNodes;
use crate::syllable_nodes::SyllableSlices;
use gabc_body::{LentSyllable, Snippet, Syllable};
use gabc_nodes::Node;
use gabc_places::Span;
use gabc_score::{Collect, Give, SpelledSyllable};
use std::alloc::{AllocError, Global};
use std::marker::Model;

/// A taker of syllables that makes their nodes. Contracts see these nodes and what is kept.
#[derive(Drop)]
pub(crate) struct NodeTaker {
    body: BodyNodes,
    /// Room for the kept text of one syllable.
    text: String,
    /// Room for the snippets of one syllable.
    snippets: Vec<Snippet>,
}

impl Model for NodeTaker {
    ghost use Rattle.gabc_tree.specs.machine.BodyNodes.{BodyState};

    ghost Value = { BodyState };

    ghost view = { λ t. t.body };
}

/// Sets `text` to the kept text of `syllable`: a blank if it begins a word, and its canonical text.
fn spell_kept(syllable: SpelledSyllable<'_>, text: &mut String) -> Result<(), AllocError>
    ensures { OnOk result (string_bytes text.new
        ≡ gap_of (starts_word syllable.entry.position) ++ syllable.entry.canonical.now) }
{
    text.clear();
    if syllable.position.starts_word() {
        text.push(' ')?;
    }
    text.push_str(syllable.canonical)
}

/// Returns the byte of the kept text of `syllable` at which its first snippet begins.
fn notes_from(syllable: SpelledSyllable<'_>) -> usize
    requires { IsSpelling syllable }
    ensures { result ≡ length (gap_of (starts_word syllable.entry.position))
        + syllable.entry.opening + 1 }
{
    let from = syllable.opening + 1;
    if syllable.position.starts_word() {
        from + 1
    } else {
        from
    }
}

/// Sets `snippets` to those of `syllable`, with their bytes in its kept text.
fn spell_snippets(
    syllable: SpelledSyllable<'_>,
    snippets: &mut Vec<Snippet>,
) -> Result<(), AllocError>
    requires { IsSpelling syllable }
    ensures { OnOk result ((is : IsSpelling syllable.entry) → snippets.new.items ≡ spans_from
        (length (gap_of (starts_word syllable.entry.position)) + syllable.entry.opening + 1)
        (with_lines syllable.entry.lines 0 is.parts.nexts is.parts.final)) }
{
    snippets.clear();
    let mut from = notes_from(syllable);
    let mut rest = syllable.snippets();
    while let Some(snippet) = rest.next() {
        let len = snippet.text.len();
        let to = from + len;
        snippets.push(Snippet {
            line: snippet.line,
            span: Span { from, to },
        })?;
        from = to + 1;
    }
    Ok(())
}

impl NodeTaker {
    /// Returns a taker with the nodes `heads` of headers of which `base` bytes are kept.
    pub(crate) fn new(alloc: Global, heads: Vec<Node>, base: u32) -> NodeTaker
        ensures { result ≡ record {
          nodes = map (moved_by 0) heads.items;
          kept = [];
          base = base;
          force = nothing_in_force;
        } }
    {
        NodeTaker {
            body: BodyNodes::after(alloc, heads, base),
            text: String::new(alloc),
            snippets: Vec::new(alloc),
        }
    }

    /// Returns the nodes of the headers and of the syllables that it took.
    pub(crate) fn into_body(self) -> BodyNodes
        ensures { result ≡ self }
    {
        self.body
    }

    /// Adds the nodes of the syllable that these slices spell. If memory runs out, the taker stays
    /// as it was.
    fn add_spelled(&mut self, syllable: SpelledSyllable<'_>) -> Result<(), AllocError>
        requires { IsSpelling syllable }
        ensures added { OnOk result ((s : PlacedSyllable) → Spells syllable.entry s →
            self.new ≡ past_syllables self.old (s ∷ [])) }
        ensures unchanged { OnErr result (self.new ≡ self.old) }
    {
        spell_kept(syllable, &mut self.text)?;
        spell_snippets(syllable, &mut self.snippets)?;
        self.body.add(SyllableSlices {
            kept: self.text.as_str(),
            snippets: self.snippets.as_slice(),
            position: syllable.position,
            spans: syllable.spans,
            word_start: syllable.position.starts_word(),
        })?;
        Ok(())
    }
}

impl Give for NodeTaker {
    ghost use Rattle.std.specs.Prelude.{◌≡◌};
    ghost use Rattle.gabc_tree.specs.machine.BodyNodes.{past_syllables};
    ghost use Rattle.gabc_tree.specs.machine.NodesOfBodies.{past_both, past_none};

    ghost given = { past_syllables };

    // it takes no text but one of no bytes
    ghost TakesJoined = { λ t n. n ≡ 1 };

    ghost given_none = { past_none };

    ghost given_both = { past_both };

    fn give(&mut self, lent: LentSyllable<'_>, _most: usize) -> bool {
        self.collect(lent.syllable).is_ok()
    }

    fn give_spelled(&mut self, syllable: SpelledSyllable<'_>) -> bool {
        self.add_spelled(syllable).is_ok()
    }

    fn joins(&self) -> usize {
        0
    }

    fn give_joined(&mut self, _starts: bool, _text: &str, _count: u64) {}
}

impl Collect for NodeTaker {
    fn collect(&mut self, syllable: &Syllable) -> Result<(), AllocError> {
        self.body.add(SyllableSlices::of(syllable))?;
        Ok(())
    }

    fn takes_runs(&self) -> bool {
        true
    }
}
