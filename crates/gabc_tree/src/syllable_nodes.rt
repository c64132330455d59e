//! The nodes of a syllable in its kept text.

ghost use Rattle.std.specs.Prelude.{◌≡◌, ◌<◌, ◌^◌, ◌++◌, ◌∷◌, [], length, OnOk};
ghost use Rattle.gabc_body.specs.Syllable.{placed_of};
ghost use Rattle.gabc_tree.specs.SyllableNodes.{position_number as number_of_position, flags_of as flags, text_len as len_of_text, force_at, force_past_notes, force_past_syllable, force_past, inside_nodes, syllable_node, force_after, snippet_nodes as nodes_of_snippet, notes_nodes, syllable_nodes as nodes_of_syllable, around};
ghost use Rattle.gabc_tree.specs.machine.SyllableSlices.{Shows, placed_by};

use crate::holding::hold;
use crate::nabc_nodes::nabc_nodes;
use crate::note_nodes::gabc_nodes;
use crate::placing::offset;
use crate::text_nodes::text_nodes;
use gabc_body::{Position, Snippet, Spans, Syllable, text_in};
use gabc_neumes::Alterations;
use gabc_nodes::{Kind, Node};
use gabc_places::Span;
use std::alloc::AllocError;

/// The slices of a syllable of which its nodes are made.
#[derive(Clone, Copy)]
pub(crate) struct SyllableSlices<'a> {
    /// Its kept text.
    pub kept: &'a str,
    /// Its snippets, in order.
    pub snippets: &'a [Snippet],
    /// Its position in its word.
    pub position: Position,
    /// The spans that are open after it.
    pub spans: Spans,
    /// Whether blanks come before its text.
    pub word_start: bool,
}

impl<'a> SyllableSlices<'a> {
    /// Returns the slices of `syllable`.
    pub(crate) fn of(syllable: &'a Syllable) -> SyllableSlices<'a>
        ensures { Shows result (placed_of syllable.now) }
    {
        SyllableSlices {
            kept: syllable.kept.as_str(),
            snippets: syllable.snippets.as_slice(),
            position: syllable.position,
            spans: Spans {
                eu: syllable.eu,
                nlba: syllable.nlba,
            },
            word_start: syllable.text.word_start,
        }
    }
}

/// Returns the number of `position`: 0 of a whole word, 1 of a word's beginning, 2 of its middle, 3
/// of its end.
fn position_number(position: Position) -> u16
    ensures { result ≡ number_of_position position }
{
    match position {
        Position::One => 0,
        Position::Beginning => 1,
        Position::Middle => 2,
        Position::End => 3,
    }
}

/// Returns 1 if the span of `eu` is open after the text of `syllable`, 2 if that of `nlba` is, and
/// 4 if blanks come before its text, in one sum.
fn flags_of(syllable: SyllableSlices<'_>) -> u16
    ensures { result ≡ flags (placed_by syllable.entry) }
{
    let eu = if syllable.spans.eu { 1 } else { 0 };
    let nlba = if syllable.spans.nlba { 2 } else { 0 };
    let word_start = if syllable.word_start { 4 } else { 0 };
    eu + nlba + word_start
}

/// Returns the number of bytes of the text of `syllable` in its kept text: those before its `(`, or
/// all of them if it has no notes.
fn text_len(syllable: SyllableSlices<'_>) -> usize
    ensures { result ≡ len_of_text syllable.entry.kept.now syllable.entry.snippets.now }
{
    let len = syllable.kept.len();
    match syllable.snippets {
        [first, ..] if 0 < first.span.from && first.span.from < len => first.span.from - 1,
        _ => len,
    }
}

/// Appends the nodes of `snippet`, which is in the kept text `kept`, to `out`. These `alterations`
/// are in force before it, and are changed to those after it.
#[tactic(auto, using(crate::proofs::syllables::TextsFit::text_fits))]
fn snippet_nodes(
    kept: &str,
    snippet: Snippet,
    alterations: &mut Alterations,
    out: &mut Vec<Node>,
) -> Result<(), AllocError>
    requires { length kept.now < 2 ^ 32 }
    ensures nodes { OnOk result (out.new.items ≡ out.old.items
        ++ nodes_of_snippet alterations.old kept.now snippet) }
    ensures force { OnOk result (alterations.new
        ≡ force_past alterations.old kept.now snippet) }
{
    let at = out.len();
    out.push(Node {
        begin: offset(snippet.span.from),
        end: offset(snippet.span.to),
        inner: 0,
        kind: Kind::Snippet,
        a: u16::from(snippet.line),
        b: 0,
        c: 0,
    })?;
    let text = text_in(kept, snippet.span);
    let base = offset(snippet.span.from) as usize;
    if snippet.line == 0 {
        gabc_nodes(text, base, alterations, out)?;
    } else {
        nabc_nodes(text, base, out)?;
    }
    hold(out, at);
    Ok(())
}

/// Appends the nodes of `snippets`, which are in the kept text `kept`, to `out`. These
/// `alterations` are in force before them, and are changed to those after them.
fn add_notes(
    kept: &str,
    snippets: &[Snippet],
    alterations: &mut Alterations,
    out: &mut Vec<Node>,
) -> Result<(), AllocError>
    requires { length kept.now < 2 ^ 32 }
    ensures nodes { OnOk result (out.new.items ≡ out.old.items
        ++ notes_nodes alterations.old kept.now snippets.now) }
    ensures force { OnOk result (alterations.new
        ≡ force_after alterations.old kept.now snippets.now) }
{
    for snippet in snippets {
        snippet_nodes(kept, *snippet, alterations, out)?;
    }
    Ok(())
}

/// Appends the nodes of the text and of the notes of `syllable` to `out`. These `alterations` are
/// in force before the notes, and are changed to those after them.
#[tactic(auto, using(crate::proofs::syllables::TextsFit::text_short))]
fn add_inside(
    syllable: SyllableSlices<'_>,
    alterations: &mut Alterations,
    out: &mut Vec<Node>,
) -> Result<(), AllocError>
    requires { length syllable.kept.now < 2 ^ 32 }
    ensures nodes { OnOk result (out.new.items ≡ out.old.items
        ++ inside_nodes alterations.old (placed_by syllable.entry)) }
    ensures force { OnOk result (alterations.new
        ≡ force_past_notes alterations.old (placed_by syllable.entry)) }
{
    let SyllableSlices { kept, snippets, .. } = syllable;
    let to = text_len(syllable);
    text_nodes(text_in(kept, Span { from: 0, to }), out)?;
    if to < kept.len() {
        return add_notes(kept, snippets, alterations, out);
    }
    Ok(())
}

/// Ends the `alterations` before `syllable` if it begins a word.
fn begin_word(syllable: SyllableSlices<'_>, alterations: &mut Alterations)
    ensures { alterations.new ≡ force_at alterations.old (placed_by syllable.entry) }
{
    if syllable.position.starts_word() {
        alterations.start_word();
    }
}

/// Returns the node of `syllable` without those that lie in it.
fn node_of(syllable: SyllableSlices<'_>) -> Node
    ensures { result ≡ syllable_node (placed_by syllable.entry) }
{
    Node {
        begin: 0,
        end: offset(syllable.kept.len()),
        inner: 0,
        kind: Kind::Syllable,
        a: position_number(syllable.position),
        b: flags_of(syllable),
        c: 0,
    }
}

/// Appends the nodes of `syllable` to `out`; they count the bytes of its kept text. These
/// `alterations` are in force before it, and are changed to those after it.
pub(crate) fn syllable_nodes(
    syllable: SyllableSlices<'_>,
    alterations: &mut Alterations,
    out: &mut Vec<Node>,
) -> Result<(), AllocError>
    requires { length syllable.kept.now < 2 ^ 32 }
    ensures nodes { OnOk result (out.new.items ≡ out.old.items
        ++ nodes_of_syllable alterations.old (placed_by syllable.entry)) }
    ensures force { OnOk result (alterations.new
        ≡ force_past_syllable alterations.old (placed_by syllable.entry)) }
{
    begin_word(syllable, alterations);
    let at = out.as_slice().len();
    out.push(node_of(syllable))?;
    add_inside(syllable, alterations, out)?;
    hold(out, at);
    Ok(())
}
