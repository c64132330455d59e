//! Calls on a text.

use crate::digest::digest_of;
use crate::trial::{Trial, try_call};
use gabc_nabc::{descriptors_whole, nabc_whole};
use gabc_notes::{NoteStage, items_whole, kept_chars_by, snippet_whole};
use gabc_places::{Place, Text, outputs_of};
use gabc_text::{TextStage, text_whole};
use gregorio::Name;
use std::alloc::{AllocError, Global};
use std::io;

/// Returns a digest of a text with the characters of `input`.
fn text(alloc: Global, input: &str) -> Result<u64, AllocError> {
    Ok(digest_of(&Text::from_str(alloc, input)?))
}

/// Returns a digest of the name `input`.
fn name(alloc: Global, input: &str) -> Result<u64, AllocError> {
    Ok(digest_of(&Name::new(alloc, input)?))
}

/// Returns a digest of the events that a stage emits for a text of a syllable.
fn outputs(alloc: Global, input: &str) -> Result<u64, AllocError> {
    let mut stage = TextStage::new(Place::START);
    Ok(digest_of(&outputs_of(alloc, &mut stage, input, Place::START)?))
}

/// Returns a digest of a text of a syllable.
fn syllable(alloc: Global, input: &str) -> Result<u64, AllocError> {
    Ok(digest_of(&text_whole(alloc, input, Place::START)?))
}

/// Returns a digest of the characters that are kept of a text of a syllable.
fn syllable_chars(alloc: Global, input: &str) -> Result<u64, AllocError> {
    Ok(digest_of(&gabc_text::kept_chars(alloc, input, Place::START)?))
}

/// Returns a digest of a snippet of notes.
fn snippet(alloc: Global, input: &str) -> Result<u64, AllocError> {
    Ok(digest_of(&snippet_whole(alloc, input, Place::START, true, 0)?))
}

/// Returns a digest of the characters that are kept of a snippet of notes.
fn snippet_chars(alloc: Global, input: &str) -> Result<u64, AllocError> {
    Ok(digest_of(&gabc_notes::kept_chars(alloc, input, Place::START, true, 0)?))
}

/// Returns a digest of the characters that a stage of notes keeps.
fn chars_by_stage(alloc: Global, input: &str) -> Result<u64, AllocError> {
    let stage = NoteStage::new(true, 0);
    Ok(digest_of(&kept_chars_by(alloc, stage, input, Place::START, input)?))
}

/// Returns a digest of the items of a snippet of notes.
fn items(alloc: Global, input: &str) -> Result<u64, AllocError> {
    Ok(digest_of(&items_whole(alloc, input)?))
}

/// Returns a digest of an NABC snippet.
fn nabc(alloc: Global, input: &str) -> Result<u64, AllocError> {
    Ok(digest_of(&nabc_whole(alloc, input, Place::START)?))
}

/// Returns a digest of the characters that are kept of an NABC snippet.
fn nabc_chars(alloc: Global, input: &str) -> Result<u64, AllocError> {
    Ok(digest_of(&gabc_nabc::kept_chars(alloc, input, Place::START)?))
}

/// Returns a digest of the descriptors of an NABC snippet.
fn descriptors(alloc: Global, input: &str) -> Result<u64, AllocError> {
    Ok(digest_of(&descriptors_whole(alloc, input)?))
}

/// A call on a text.
#[derive(Clone, Copy)]
enum TextCall {
    Text,
    Name,
    Outputs,
    Syllable,
    SyllableChars,
    Snippet,
    SnippetChars,
    CharsByStage,
    Items,
    Nabc,
    NabcChars,
    Descriptors,
}

/// Returns the call with this name, if it is one on a text.
fn named(name: &str) -> Option<TextCall> {
    Some(match name {
        "gabc_places::Text::from_str" => TextCall::Text,
        "gregorio_jobs::Name::new" => TextCall::Name,
        "gabc_places::outputs_of" => TextCall::Outputs,
        "gabc_text::text_whole" => TextCall::Syllable,
        "gabc_text::kept_chars" => TextCall::SyllableChars,
        "gabc_notes::snippet_whole" => TextCall::Snippet,
        "gabc_notes::kept_chars" => TextCall::SnippetChars,
        "gabc_notes::kept_chars_by" => TextCall::CharsByStage,
        "gabc_notes::items_whole" => TextCall::Items,
        "gabc_nabc::nabc_whole" => TextCall::Nabc,
        "gabc_nabc::kept_chars" => TextCall::NabcChars,
        "gabc_nabc::descriptors_whole" => TextCall::Descriptors,
        _ => return None,
    })
}

/// A call and its text.
#[derive(Drop)]
struct OfText<'a> {
    call: TextCall,
    input: &'a str,
}

impl Trial for OfText<'_> {
    fn call(&mut self, alloc: Global) -> Result<u64, AllocError> {
        let input = self.input;
        match self.call {
            TextCall::Text => text(alloc, input),
            TextCall::Name => name(alloc, input),
            TextCall::Outputs => outputs(alloc, input),
            TextCall::Syllable => syllable(alloc, input),
            TextCall::SyllableChars => syllable_chars(alloc, input),
            TextCall::Snippet => snippet(alloc, input),
            TextCall::SnippetChars => snippet_chars(alloc, input),
            TextCall::CharsByStage => chars_by_stage(alloc, input),
            TextCall::Items => items(alloc, input),
            TextCall::Nabc => nabc(alloc, input),
            TextCall::NabcChars => nabc_chars(alloc, input),
            TextCall::Descriptors => descriptors(alloc, input),
        }
    }

    fn arguments(&self) -> u64 {
        digest_of(&self.input)
    }
}

/// Tries a call on a text. Returns whether there is such a call.
pub(crate) fn is_tried(rt: &HostRuntime, name: &str, input: &str) -> io::Result<bool> {
    let Some(call) = named(name) else {
        return Ok(false);
    };
    try_call(rt, &mut OfText { call, input })?;
    Ok(true)
}
