//! The score of a whole text.

ghost use Rattle.std.specs.Prelude.{◌≡◌, IfOk};
ghost use Rattle.gabc_headers.specs.Heads.{body_byte};
ghost use Rattle.gabc_body.specs.Score.{body_in, with_body, head_fault_by, score_of};
ghost use Rattle.gabc_score.specs.SaysScore.{SaysScore};

use crate::body_stage::BodyStage;
use crate::build_body::build_body;
use crate::collecting::Said;
use crate::context::BodyContext;
use crate::give::{Collect, Give};
use crate::spelled::SpelledSyllable;
use crate::text_places::place_past;
use gabc_body::{InputEnding, LentSyllable, Score, Syllable, Syllables};
use gabc_headers::{HeadFault, HeaderBook, Heads, headers_whole_with_hasher};
use gabc_places::{Fault, Findings, Limits, Memory, Place, Text};
use std::alloc::{AllocError, Global};
use std::hash::DefaultHasher;

/// Reads the score of `text`, whose input ended as `ending` says, under `limits` (GregorioRef,
/// "Headers" and "Syllable Text Syntax"). Returns the book of its headers, if they are whole; its
/// whole syllables, each with its text, kept text, snippets, position and flags; the findings; and
/// the fault, the earliest that a rule gives. Findings whose point is at the stop are hidden.
/// `gabc_places::text_of` gives the text, and the fault of an `InputEnding::At`. Fails only if
/// memory cannot be allocated. The names of headers are hashed with a fixed key: if strangers write
/// the text and `limits.header` is large, use `score_whole_with_hasher`.
pub fn score_whole(
    alloc: Global,
    text: &Text,
    ending: InputEnding,
    limits: Limits,
) -> Result<Score, AllocError>
    ensures { IfOk result (λ score. score ≡ score_of limits ending text.now) }
{
    score_whole_with_hasher(alloc, text, ending, limits, DefaultHasher::new())
}

/// Reads the score of `text` as `score_whole` does, and hashes the names of its headers from
/// `hasher` on. What it returns does not depend on `hasher`.
pub fn score_whole_with_hasher(
    alloc: Global,
    text: &Text,
    ending: InputEnding,
    limits: Limits,
    hasher: DefaultHasher,
) -> Result<Score, AllocError>
    ensures { IfOk result (λ score. score ≡ score_of limits ending text.now) }
{
    let mut whole = WholeSyllables {
        memory: Memory::with_capacity(alloc, 0)?,
        syllables: Syllables::new(alloc),
    };
    let ScoreRest {
        book,
        findings,
        fault,
    } = score_given(alloc, text, ending, limits, hasher, &mut whole)?;
    Ok(Score {
        book,
        syllables: whole.syllables,
        findings,
        fault,
    })
}

/// A score without its syllables.
#[derive(Debug, Drop)]
pub struct ScoreRest {
    /// The headers that count; none if a fault lies in the headers.
    pub book: Option<HeaderBook>,
    /// The findings before the stop, in the order of places.
    pub findings: Findings,
    /// The fault that stopped the reading, if there is one.
    pub fault: Option<Fault>,
}

/// Reads the score of `text` as `score_whole_with_hasher` does, passes its syllables to `taker`,
/// and returns the rest. If memory cannot be allocated, it fails, and `taker` may have taken some
/// of them.
pub fn score_given<C: Collect>(
    alloc: Global,
    text: &Text,
    ending: InputEnding,
    limits: Limits,
    hasher: DefaultHasher,
    taker: &mut C,
) -> Result<ScoreRest, AllocError>
    ensures { IfOk result (λ rest. SaysScore C.given taker.old taker.new rest
        (score_of limits ending text.now)) }
{
    gabc_headers::laws::heads_are_of_groups();
    match headers_whole_with_hasher(alloc, text, limits, hasher)? {
        Ok(heads) => score_after(alloc, text, ending, limits, heads, taker),
        Err(stop) => Ok(stopped_in_heads(ending, stop)),
    }
}

/// Returns the rest of a score whose headers have the fault `stop`, of an input that ended as
/// `ending` says.
fn stopped_in_heads(ending: InputEnding, stop: HeadFault) -> ScoreRest
    ensures { result ≡ record {
      book = None;
      findings = stop.findings;
      fault = head_fault_by ending stop.at_end stop.fault;
    } }
{
    let HeadFault {
        fault,
        findings,
        at_end,
    } = stop;
    ScoreRest {
        book: None,
        findings,
        fault: head_fault(ending, at_end, fault),
    }
}

/// Returns the fault of a score whose headers have the fault `fault`: if its point is the end, as
/// `at_end` says, how the input ended comes first.
fn head_fault(ending: InputEnding, at_end: bool, fault: Fault) -> Option<Fault>
    ensures { result ≡ head_fault_by ending at_end fault }
{
    if !at_end {
        return Some(fault);
    }
    match ending {
        InputEnding::Whole => Some(fault),
        InputEnding::Broken => None,
        InputEnding::At(other) => Some(other),
    }
}

/// Reads the score of a text with these headers, and gives its syllables to `taker`.
fn score_after<C: Collect>(
    alloc: Global,
    text: &Text,
    ending: InputEnding,
    limits: Limits,
    heads: Heads,
    taker: &mut C,
) -> Result<ScoreRest, AllocError>
    requires { heads.body ≡ body_byte text.now }
    ensures { IfOk result (λ rest. SaysScore C.given taker.old taker.new rest
        (with_body heads (body_in limits ending text.now heads))) }
{
    gabc_body::by_kept_laws::a_score_says_what_is_kept();
    let Heads {
        book,
        body,
        findings,
    } = heads;
    let (prefix, after) = text.as_str().split_at(body);
    let memory = Memory::with_capacity(alloc, 0)?;
    let stage = BodyStage::new(&memory, book.nabc_lines(), book.macros())?;
    let start = BodyContext {
        at: place_past(Place::START, prefix),
        head: book.canonical_len(),
        findings,
    };
    let Said { findings, fault } = build_body(&memory, stage, after, start, limits, ending, taker)?;
    Ok(ScoreRest {
        book: Some(book),
        findings,
        fault,
    })
}

/// The syllables of a score, whose kept texts lie in `memory`.
#[derive(Drop)]
struct WholeSyllables {
    memory: Memory,
    syllables: Syllables,
}

impl Give for WholeSyllables {
    ghost use Rattle.std.proofs.Common.{append_assoc, append-nil, rules, sym};
    ghost use Rattle.std.specs.Prelude.{◌≡◌, ◌++◌};

    ghost given = { λ w ss. record w { syllables = w.syllables ++ ss } };

    // it takes no text but one of no bytes
    ghost TakesJoined = { λ w n. n ≡ 1 };

    ghost given_none = { Prim.search (rules, append-nil) };

    ghost given_both = { Prim.search (rules, append_assoc) };

    fn give(&mut self, lent: LentSyllable<'_>, _most: usize) -> bool {
        self.collect(lent.syllable).is_ok()
    }

    fn give_spelled(&mut self, _syllable: SpelledSyllable<'_>) -> bool {
        false
    }

    fn joins(&self) -> usize {
        0
    }

    fn give_joined(&mut self, _starts: bool, _text: &str, _count: u64) {}
}

impl Collect for WholeSyllables {
    fn collect(&mut self, syllable: &Syllable) -> Result<(), AllocError> {
        self.syllables.push(syllable.copy(&self.memory)?)
    }

    fn takes_runs(&self) -> bool {
        false
    }
}
