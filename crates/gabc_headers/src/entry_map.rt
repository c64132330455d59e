//! The headers in the order of their first lines.

ghost use Rattle.std.specs.Prelude.{◌≡◌, ◌≤◌, ◌<◌, ◌-◌, ◌^◌, [], length, take, min, slice_get, IfOk, IsSomeAnd, IsCharBoundary};
ghost use Rattle.std.specs.Str.{chars};
ghost use Rattle.gabc_headers.specs.Canonical.{header_lines};
ghost use Rattle.gabc_headers.specs.Entries.{key_name, spelled_entries};
ghost use Rattle.gabc_headers.specs.machine.EntryMap.{HasPlace, IsKeyOf, named_entries, comes_again, AreWithin, values_end};
ghost use Rattle.gabc_headers.specs.EntryMap.{put_entry};
ghost use Rattle.gabc_headers.specs.Lines.{bytes_len};

use crate::canonical::put_header;
use crate::name_hashers::NameHashers;
use arrayvec::ArrayString;
use gabc_places::{ByteCounter, Span};
use indexmap::IndexMap;
use std::alloc::{AllocError, Global};
use std::hash::DefaultHasher;
use std::marker::Model;

/// The key of a header: its name; or, since each annotation has a place of its own, the number of
/// headers before it.
#[derive(Clone, Copy, PartialEq, Eq, Hash)]
pub(crate) enum Key {
    Name(ArrayString<64>),
    Annotation(usize),
}

impl Key {
    /// Returns the key of a header with the name `name`, after `before` headers.
    fn of(name: &str, before: usize) -> Key
        requires { length name.now ≤ 64 }
        ensures { IsKeyOf name.now before result }
    {
        if name == "annotation" {
            return Key::Annotation(before);
        }
        let Ok(text) = ArrayString::from(name) else {
            unreachable!()
        };
        Key::Name(text)
    }

    /// Returns the name of the header.
    fn name(&self) -> &str
        ensures { chars result.now ≡ key_name self.now }
    {
        match self {
            Key::Name(name) => name.as_str(),
            Key::Annotation(_) => "annotation",
        }
    }
}

/// Headers with the spans of their values, each name at the place of its first and with the value
/// of its last; each annotation has a place of its own.
#[derive(Drop)]
pub(crate) struct EntryMap {
    map: IndexMap<Key, Span, NameHashers>,
    limit: usize,
}

impl Model for EntryMap {
    ghost use Rattle.std.specs.Prelude.{ℕ, List};
    ghost use Rattle.std.specs.declared.hash.DefaultHasher.{DefaultHasher};
    ghost use Rattle.indexmap.specs.IndexMap.{hasher_of, spare};
    ghost use Rattle.gabc_places.specs.declared.place.Span.{Span};
    ghost use Rattle.gabc_headers.specs.declared.entry_map.Key.{Key};
    ghost use Rattle.gabc_headers.specs.machine.EntryMap.{IsEntryRoom};

    ghost Value = { List (Key × Span) × ℕ × DefaultHasher };

    ghost view = { λ g. (g.map.entries, g.limit, (hasher_of g.map).first) };

    ghost invariant = { λ g. IsEntryRoom g.limit (spare g.map) g.map.entries };
}

impl EntryMap {
    /// Returns an empty map, with room for `limit` headers, whose names are hashed from `hasher`
    /// on.
    pub(crate) fn with_limit(
        alloc: Global,
        limit: usize,
        hasher: DefaultHasher,
    ) -> Result<EntryMap, AllocError>
        ensures { IfOk result (λ map. map ≡ ([], limit, hasher)) }
    {
        Ok(EntryMap {
            map: IndexMap::with_capacity_and_hasher(alloc, limit, NameHashers { first: hasher })?,
            limit,
        })
    }

    /// Removes the headers. Their memory stays reserved.
    pub(crate) fn clear(&mut self)
        ensures { self.new ≡ ([], self.old.1, self.old.2) }
    {
        self.map.clear();
    }

    /// Puts the header with the name `name` and the span `value`, and returns whether its name
    /// comes again. An annotation never does. It does not allocate.
    pub(crate) fn put(&mut self, name: &str, value: Span) -> bool
        requires short { length name.now ≤ 64 }
        requires room { HasPlace self.old }
        ensures put { named_entries self.new.0
            ≡ put_entry (named_entries self.old.0) (chars name.now) value }
        ensures limit { self.new.1 ≡ self.old.1 }
        ensures hasher { self.new.2 ≡ self.old.2 }
        ensures again { result ≡ comes_again (named_entries self.old.0) (chars name.now) }
    {
        let key = Key::of(name, self.map.len());
        if let Some(index) = self.map.get_index_of(&key) {
            self.map[index] = value;
            return true;
        }
        let Ok(_) = self.map.insert(key, value) else {
            unreachable!()
        };
        false
    }

    /// Returns the number of headers.
    pub(crate) fn len(&self) -> usize
        ensures { result ≡ length self.now.0 }
    {
        self.map.len()
    }

    /// Returns the name of the header with the index `index`, from 0.
    pub(crate) fn name(&self, index: usize) -> &str
        requires { index < length self.now.0 }
        ensures { IsSomeAnd (slice_get self.now.0 index) (λ entry. chars result.now ≡ key_name entry.0) }
    {
        match self.map.get_index(index) {
            Some((key, _)) => key.name(),
            None => "",
        }
    }

    /// Returns the span of the value of the header with the index `index`, from 0.
    fn value(&self, index: usize) -> Span
        requires { index < length self.now.0 }
        ensures { IsSomeAnd (slice_get self.now.0 index) (λ entry. entry.1 ≡ result) }
    {
        self.map[index]
    }

    /// Returns the value of the header with the index `index`, from 0, of `text`.
    pub(crate) fn value_in<'a>(&self, text: &'a str, index: usize) -> &'a str
        requires within { AreWithin text.now self.now.0 }
        requires index { index < length self.now.0 }
        ensures { IsSomeAnd (slice_get (spelled_entries text.now self.now.0) index)
            (λ entry. chars result.now ≡ entry.1) }
    {
        let value = self.value(index);
        &text[value.from..value.to]
    }

    /// Returns the number of bytes of the canonical lines of these headers of `text`; it saturates
    /// at the last value of a `usize`.
    pub(crate) fn canonical_len(&self, text: &str) -> usize
        requires { AreWithin text.now self.now.0 }
        ensures { result ≡ min (bytes_len (header_lines (spelled_entries text.now self.now.0)))
            (2 ^ 64 - 1) }
    {
        let mut counter = ByteCounter::new();
        for index in 0..self.len() {
            put_header(self.name(index), self.value_in(text, index), &mut counter);
        }
        counter.count()
    }

    /// Returns the byte of `text` after the last of these values, or 0 if there are none.
    pub(crate) fn end(&self, text: &str) -> usize
        requires { AreWithin text.now self.now.0 }
        ensures exact { result ≡ values_end self.now.0 }
        ensures last { IsCharBoundary text.now result }
        ensures within { AreWithin (take result text.now) self.now.0 }
    {
        let mut end = 0;
        for index in 0..self.len() {
            end = end.max(self.value(index).to);
        }
        end
    }
}
