//! Calls that make a list, a text, words or a view longer, or that copy it.

use crate::digest::digest_of;
use crate::trial::{Trial, try_call};
use gabc_body::Syllables;
use gabc_places::{Sequence, Text};
use gabc_text::{Piece, TextPart, TextView};
use gregorio::Words;
use std::alloc::{AllocError, Global};
use std::io;

/// A call that adds an item to a list whose memory is used up.
#[derive(Drop)]
struct Push {
    list: Sequence<u64>,
}

impl Trial for Push {
    fn call(&mut self, _alloc: Global) -> Result<u64, AllocError> {
        self.list.push(5)?;
        Ok(digest_of(&self.list))
    }

    fn arguments(&self) -> u64 {
        digest_of(&self.list)
    }
}

/// A call that adds items to a list.
#[derive(Drop)]
struct Append {
    list: Sequence<u64>,
}

impl Trial for Append {
    fn call(&mut self, _alloc: Global) -> Result<u64, AllocError> {
        self.list.append(&[5; 100])?;
        Ok(digest_of(&self.list))
    }

    fn arguments(&self) -> u64 {
        digest_of(&self.list)
    }
}

/// Returns a list of four items.
fn four(alloc: Global) -> Result<Sequence<u64>, AllocError> {
    let mut list = Sequence::new(alloc);
    list.append(&[1, 2, 3, 4])?;
    Ok(list)
}

/// A call that adds an argument to a command line.
#[derive(Drop)]
struct PushWord {
    words: Words,
}

impl Trial for PushWord {
    fn call(&mut self, _alloc: Global) -> Result<u64, AllocError> {
        self.words.push("gabc")?;
        Ok(digest_of(&self.words))
    }

    fn arguments(&self) -> u64 {
        digest_of(&self.words)
    }
}

/// A call that adds a piece to a view of pieces, which then has to allocate.
#[derive(Drop)]
struct AddPart {
    view: TextView,
}

impl Trial for AddPart {
    fn call(&mut self, _alloc: Global) -> Result<u64, AllocError> {
        self.view.add(TextPart::Piece(Piece::default()))?;
        Ok(digest_of(&self.view))
    }

    fn arguments(&self) -> u64 {
        digest_of(&self.view)
    }
}

/// A call that copies a view.
#[derive(Drop)]
struct CopyView {
    view: TextView,
}

impl Trial for CopyView {
    fn call(&mut self, alloc: Global) -> Result<u64, AllocError> {
        Ok(digest_of(&self.view.copy(alloc)?))
    }

    fn arguments(&self) -> u64 {
        digest_of(&self.view)
    }
}

/// Returns a view of `pieces` pieces.
fn view_of(alloc: Global, pieces: u8) -> Result<TextView, AllocError> {
    let mut view = TextView::new(alloc);
    for _ in 0..pieces {
        view.add(TextPart::Piece(Piece::default()))?;
    }
    Ok(view)
}

/// A call that makes something empty, which does not allocate.
#[derive(Clone, Copy)]
enum Empty {
    List,
    Syllables,
    Text,
    View,
    Words,
}

impl Trial for Empty {
    fn call(&mut self, alloc: Global) -> Result<u64, AllocError> {
        Ok(match self {
            Empty::List => digest_of(&Sequence::<u64>::new(alloc)),
            Empty::Syllables => digest_of(&Syllables::new(alloc)),
            Empty::Text => digest_of(&Text::new(alloc)),
            Empty::View => digest_of(&TextView::new(alloc)),
            Empty::Words => digest_of(&Words::new(alloc)),
        })
    }

    fn arguments(&self) -> u64 {
        0
    }
}

/// Tries a call that makes something empty. Returns whether there is such a call.
fn is_empty_tried(rt: &HostRuntime, name: &str) -> io::Result<bool> {
    let mut empty = match name {
        "gabc_body::Syllables::new" => Empty::Syllables,
        "gabc_places::Sequence::new" => Empty::List,
        "gabc_places::Text::new" => Empty::Text,
        "gabc_text::TextView::new" => Empty::View,
        "gregorio_jobs::Words::new" => Empty::Words,
        _ => return Ok(false),
    };
    try_call(rt, &mut empty)?;
    Ok(true)
}

/// Tries a call on a view. Returns whether there is such a call.
fn is_view_tried(rt: &HostRuntime, name: &str) -> io::Result<bool> {
    match name {
        "gabc_text::TextView::add" => {
            let view = view_of(rt.alloc(), 4)?;
            try_call(rt, &mut AddPart { view })?;
        }
        "gabc_text::TextView::copy" => {
            let view = view_of(rt.alloc(), 5)?;
            try_call(rt, &mut CopyView { view })?;
        }
        _ => return Ok(false),
    }
    Ok(true)
}

/// Tries a call that makes a list or words longer. Returns whether there is such a call.
fn is_longer_tried(rt: &HostRuntime, name: &str) -> io::Result<bool> {
    match name {
        "gabc_places::Sequence::push" => {
            let list = four(rt.alloc())?;
            try_call(rt, &mut Push { list })?;
        }
        "gabc_places::Sequence::append" => {
            let list = four(rt.alloc())?;
            try_call(rt, &mut Append { list })?;
        }
        "gregorio_jobs::Words::push" => {
            let words = Words::new(rt.alloc());
            try_call(rt, &mut PushWord { words })?;
        }
        _ => return Ok(false),
    }
    Ok(true)
}

/// Tries a call of this file. Returns whether there is such a call.
pub(crate) fn is_tried(rt: &HostRuntime, name: &str) -> io::Result<bool> {
    Ok(is_empty_tried(rt, name)? || is_view_tried(rt, name)? || is_longer_tried(rt, name)?)
}
