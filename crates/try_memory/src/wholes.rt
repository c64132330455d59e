//! Calls of whole forms over the file of a score.

use crate::digest::digest_of;
use crate::positions::Positions;
use crate::trial::{Trial, try_call};
use gabc_body::Syllables;
use gabc_draw::{Mark, Options, draw};
use gabc_headers::{headers_whole, headers_whole_with_hasher};
use gabc_places::{ByteCounter, Code, Limits, Memory, Text, text_of};
use gabc_score::{InputEnding, score_given, score_whole, score_whole_with_hasher};
use gabc_tree::{read_score, tree_of, tree_of_with_hasher};
use gregorio::{Outcome, SourceEnding};
use std::alloc::{AllocError, Global};
use std::hash::DefaultHasher;
use std::{fs, io};

/// A call on the bytes or the text of a score.
#[derive(Clone, Copy)]
enum Whole {
    TextOf,
    Headers,
    HashedHeaders,
    Score,
    HashedScore,
    Given,
    Syllables,
    Read,
    Tree,
    HashedTree,
    Drawing,
    Outcome,
    HashedOutcome,
}

/// Returns the call with this name, if it is one on a score.
fn named(name: &str) -> Option<Whole> {
    Some(match name {
        "gabc_places::text_of" => Whole::TextOf,
        "gabc_headers::headers_whole" => Whole::Headers,
        "gabc_headers::headers_whole_with_hasher" => Whole::HashedHeaders,
        "gabc_score::score_whole" => Whole::Score,
        "gabc_score::score_whole_with_hasher" => Whole::HashedScore,
        "gabc_score::score_given" => Whole::Given,
        "gabc_body::Syllable::copy" | "gabc_body::Syllables::push" => Whole::Syllables,
        "gabc_tree::read_score" => Whole::Read,
        "gabc_tree::tree_of" => Whole::Tree,
        "gabc_tree::tree_of_with_hasher" => Whole::HashedTree,
        "gabc_draw::draw" | "gabc_draw::picture_of" => Whole::Drawing,
        name if name.starts_with("gabc_lettering::") => Whole::Drawing,
        name if name.starts_with("gabc_pen::") => Whole::Drawing,
        "gregorio::Outcome::of" => Whole::Outcome,
        "gregorio::Outcome::of_with_hasher" => Whole::HashedOutcome,
        _ => return None,
    })
}

/// Returns a digest of the text of `bytes`.
fn decoded(alloc: Global, bytes: &[u8]) -> Result<u64, AllocError> {
    Ok(digest_of(&text_of(alloc, bytes, true, Limits::DEFAULT)?))
}

/// Returns a digest of the headers of a text.
fn headers(alloc: Global, text: &Text) -> Result<u64, AllocError> {
    Ok(digest_of(&headers_whole(alloc, text, Limits::DEFAULT)?))
}

/// Returns a digest of the headers of a text, whose names are hashed by a hasher from outside.
fn hashed_headers(alloc: Global, text: &Text) -> Result<u64, AllocError> {
    let hasher = DefaultHasher::new();
    let read = headers_whole_with_hasher(alloc, text, Limits::DEFAULT, hasher)?;
    Ok(digest_of(&read))
}

/// Returns a digest of the score of a text.
fn score(alloc: Global, text: &Text) -> Result<u64, AllocError> {
    let score = score_whole(alloc, text, InputEnding::Whole, Limits::DEFAULT)?;
    let digest = digest_of(&score);
    drop(score);
    Ok(digest)
}

/// Returns a digest of the score of a text, the names of whose headers are hashed by a hasher from
/// outside.
fn hashed_score(alloc: Global, text: &Text) -> Result<u64, AllocError> {
    let hasher = DefaultHasher::new();
    let score = score_whole_with_hasher(alloc, text, InputEnding::Whole, Limits::DEFAULT, hasher)?;
    let digest = digest_of(&score);
    drop(score);
    Ok(digest)
}

/// Returns a digest of the positions that a taker took of a text's syllables, and of the rest of
/// its score.
fn given(alloc: Global, text: &Text) -> Result<u64, AllocError> {
    let hasher = DefaultHasher::new();
    let mut taken = Positions::new(alloc);
    let rest = score_given(
        alloc,
        text,
        InputEnding::Whole,
        Limits::DEFAULT,
        hasher,
        &mut taken,
    )?;
    let digest = digest_of(&(digest_of(&rest), digest_of(&taken)));
    drop(rest);
    drop(taken);
    Ok(digest)
}

/// Returns a digest of the syllables of a text, each of which was copied and added to a list.
fn syllables(alloc: Global, text: &Text) -> Result<u64, AllocError> {
    let score = score_whole(alloc, text, InputEnding::Whole, Limits::DEFAULT)?;
    let memory = Memory::with_capacity(alloc, 0)?;
    let mut copies = Syllables::new(alloc);
    for syllable in &score.syllables {
        copies.push(syllable.copy(&memory)?)?;
    }
    let digest = digest_of(&copies);
    drop(copies);
    drop(score);
    Ok(digest)
}

/// Returns a digest of the tree of `bytes`.
fn tree(alloc: Global, bytes: &[u8]) -> Result<u64, AllocError> {
    Ok(digest_of(&tree_of(alloc, bytes, Limits::DEFAULT)?))
}

/// Returns a digest of the tree of `bytes`, the names of whose headers are hashed by a hasher from
/// outside.
fn hashed_tree(alloc: Global, bytes: &[u8]) -> Result<u64, AllocError> {
    let hasher = DefaultHasher::new();
    let tree = tree_of_with_hasher(alloc, bytes, Limits::DEFAULT, hasher)?;
    Ok(digest_of(&tree))
}

/// Returns a digest of the tree of `bytes`, of their findings and of their fault.
fn read(alloc: Global, bytes: &[u8]) -> Result<u64, AllocError> {
    let hasher = DefaultHasher::new();
    Ok(digest_of(&read_score(alloc, bytes, Limits::DEFAULT, hasher)?))
}

/// The messages in a picture: one before all syllables, and one of a syllable.
const MARKS: [Mark; 2] = [
    Mark {
        at: 0,
        code: Code::W1,
    },
    Mark {
        at: 110,
        code: Code::E1,
    },
];

/// Returns a digest of the number of bytes of the picture of `bytes`.
fn drawing(alloc: Global, bytes: &[u8]) -> Result<u64, AllocError> {
    let tree = tree_of(alloc, bytes, Limits::DEFAULT)?;
    let mut picture = ByteCounter::new();
    let options = Options {
        marks: &MARKS,
        ..Options::usual()
    };
    draw(alloc, tree.nodes(), bytes, options, &mut picture)?;
    Ok(digest_of(&picture.count()))
}

/// Returns a digest of the score of an outcome, and drops it.
fn digest_of_outcome(outcome: Outcome) -> u64 {
    let digest = digest_of(&outcome.score);
    drop(outcome);
    digest
}

/// Returns a digest of the outcome of `bytes`.
fn outcome(alloc: Global, bytes: &[u8]) -> Result<u64, AllocError> {
    let outcome = Outcome::of(alloc, bytes, SourceEnding::Whole, Limits::DEFAULT)?;
    Ok(digest_of_outcome(outcome))
}

/// Returns a digest of the outcome of `bytes`, whose names of headers are hashed by a hasher from
/// outside.
fn hashed_outcome(alloc: Global, bytes: &[u8]) -> Result<u64, AllocError> {
    let hasher = DefaultHasher::new();
    let outcome = Outcome::of_with_hasher(
        alloc,
        bytes,
        SourceEnding::Whole,
        Limits::DEFAULT,
        hasher,
    )?;
    Ok(digest_of_outcome(outcome))
}

/// A call and its score.
#[derive(Drop)]
struct OfScore {
    call: Whole,
    text: Text,
}

impl Trial for OfScore {
    fn call(&mut self, alloc: Global) -> Result<u64, AllocError> {
        let bytes = self.text.as_str().as_bytes();
        match self.call {
            Whole::TextOf => decoded(alloc, bytes),
            Whole::Headers => headers(alloc, &self.text),
            Whole::HashedHeaders => hashed_headers(alloc, &self.text),
            Whole::Score => score(alloc, &self.text),
            Whole::HashedScore => hashed_score(alloc, &self.text),
            Whole::Given => given(alloc, &self.text),
            Whole::Syllables => syllables(alloc, &self.text),
            Whole::Read => read(alloc, bytes),
            Whole::Tree => tree(alloc, bytes),
            Whole::HashedTree => hashed_tree(alloc, bytes),
            Whole::Drawing => drawing(alloc, bytes),
            Whole::Outcome => outcome(alloc, bytes),
            Whole::HashedOutcome => hashed_outcome(alloc, bytes),
        }
    }

    fn arguments(&self) -> u64 {
        digest_of(&self.text)
    }
}

/// Tries a call on the score in the file with the name `input`. Returns whether there is such a
/// call.
pub(crate) fn is_tried(rt: &HostRuntime, name: &str, input: &str) -> io::Result<bool> {
    let Some(call) = named(name) else {
        return Ok(false);
    };
    let score = fs::read_to_string(rt, input)?;
    let text = Text::from_str(rt.alloc(), score.as_str())?;
    try_call(rt, &mut OfScore { call, text })?;
    Ok(true)
}
