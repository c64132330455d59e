//! The headers that count, and their findings.

ghost use Rattle.std.specs.Prelude.{◌≡◌, ◌≤◌, [], ◌∷◌, length, OnOk, IfOk};
ghost use Rattle.std.specs.Str.{chars};
ghost use Rattle.gabc_headers.specs.Book as book;
ghost use Rattle.gabc_headers.specs.machine.Collected as spec;
ghost use Rattle.gabc_headers.specs.machine.Collected.{IsGoodEvent, AreGoodEvents, collected_with, collected_with_all, found_with, found_list, of_headers};
ghost use Rattle.gabc_headers.specs.machine.EntryMap.{HasPlace, named_entries};
ghost use Rattle.gabc_headers.specs.machine.Shown.{shown};

use crate::entry_map::EntryMap;
use crate::events::HeaderEvent;
use crate::nabc_lines::NABC_LINES;
use gabc_places::{Code, Finding, Findings, Place};
use std::alloc::{AllocError, Global};
use std::hash::DefaultHasher;

/// The headers so far that count, and the findings.
#[derive(Drop)]
pub(crate) struct Collected {
    pub headers: EntryMap,
    pub findings: Findings,
}

/// Returns whether a header counts: of `nabc-lines` only one whose value is in range.
fn is_kept(name: &str, value: &str) -> bool
    ensures { result ≡ book.is_kept (chars name.now) (chars value.now) }
{
    name != "nabc-lines" || NABC_LINES.contains(&value)
}

/// Returns a finding at the first character of the line `line`.
fn finding_at(line: u64, code: Code) -> Finding
    ensures { result ≡ spec.finding_at line code }
{
    let place = Place { line, column: 1 };
    Finding { place, code }
}

/// Takes an event of `text` to `headers`, and returns its finding, if it has one. It does not
/// allocate.
pub(crate) fn take_event(headers: &mut EntryMap, text: &str, event: HeaderEvent) -> Option<Finding>
    requires good { IsGoodEvent text.now event }
    requires room { HasPlace headers.old }
    ensures headers { named_entries headers.new.0
        ≡ (collected_with text.now event (of_headers (named_entries headers.old.0))).headers }
    ensures limit { headers.new.1 ≡ headers.old.1 }
    ensures hasher { headers.new.2 ≡ headers.old.2 }
    ensures found { found_list result
        ≡ found_with text.now event (of_headers (named_entries headers.old.0)) }
{
    match event {
        HeaderEvent::LeftOut { line, point: _ } => Some(finding_at(line, Code::E4)),
        HeaderEvent::Header {
            line,
            name,
            value,
            point: _,
        } => {
            let written = &text[name.from..name.to];
            if !is_kept(written, &text[value.from..value.to]) {
                return Some(finding_at(line, Code::E5));
            }
            if headers.put(written, value) {
                return Some(finding_at(line, Code::W2));
            }
            None
        }
    }
}

impl Collected {
    /// Takes an event of `text`.
    fn take(&mut self, text: &str, event: HeaderEvent) -> Result<(), AllocError>
        requires good { IsGoodEvent text.now event }
        requires room { HasPlace self.old.headers }
        ensures taken { OnOk result
            (shown self.new ≡ collected_with text.now event (shown self.old)) }
        ensures limit { self.new.headers.1 ≡ self.old.headers.1 }
        ensures hasher { self.new.headers.2 ≡ self.old.headers.2 }
    {
        if let Some(finding) = take_event(&mut self.headers, text, event) {
            self.findings.push(finding)?;
        }
        Ok(())
    }
}

/// Returns the headers and findings of `events` of `text`. Names are hashed from `hasher` on.
pub(crate) fn collect(
    alloc: Global,
    text: &str,
    events: &[HeaderEvent],
    hasher: DefaultHasher,
) -> Result<Collected, AllocError>
    requires { AreGoodEvents text.now events.now }
    ensures all { IfOk result (λ collected. shown collected
        ≡ collected_with_all text.now events.now (record { headers = []; findings = [] })) }
    ensures hasher { IfOk result (λ collected. collected.headers.2 ≡ hasher) }
{
    let mut collected = Collected {
        headers: EntryMap::with_limit(alloc, events.len(), hasher)?,
        findings: Findings::new(alloc),
    };
    for event in events {
        collected.take(text, *event)?;
    }
    Ok(collected)
}
