//! The tags that open and close a span of several syllables.

ghost use Rattle.std.specs.Prelude.{◌≡◌, ◌≤◌, length};
ghost use Rattle.gabc_text.specs.RegularText.{mark_at, tag_of};
ghost use Rattle.gabc_text.specs.machine.RegularBytes.{name_of_tag};

/// A tag that opens or closes a span of several syllables (GregorioRef, "Syllable Text Syntax").
#[derive(Clone, Copy)]
pub enum SpanMark {
    /// `<eu>`
    OpensEu,
    /// `</eu>`
    ClosesEu,
    /// `<nlba>`
    OpensNlba,
    /// `</nlba>`
    ClosesNlba,
}

impl SpanMark {
    /// Returns its spelling.
    pub(crate) fn tag(self) -> &'static str
        ensures { result.now ≡ tag_of self }
    {
        match self {
            SpanMark::OpensEu => "<eu>",
            SpanMark::ClosesEu => "</eu>",
            SpanMark::OpensNlba => "<nlba>",
            SpanMark::ClosesNlba => "</nlba>",
        }
    }
}

/// Returns the first byte of the name of the tag that `bytes` begin with, if they begin with a tag:
/// a `/` may come before it.
#[inline(always)]
fn name_of_tag(bytes: &[u8]) -> u8
    requires { 3 ≤ length bytes.now }
    ensures { result ≡ name_of_tag bytes.now }
{
    if bytes[1] == b'/' { bytes[2] } else { bytes[1] }
}

/// Returns the span mark that `bytes` begin with, if they begin with one. Few tags are one.
#[inline(always)]
pub fn mark_at(bytes: &[u8]) -> Option<SpanMark>
    ensures { result ≡ mark_at bytes.now }
{
    if bytes.len() < 3 || bytes[0] != b'<' {
        return None;
    }
    match name_of_tag(bytes) {
        b'e' | b'n' => tag_at(bytes),
        _ => None,
    }
}

/// Returns the span mark that `bytes` begin with, if they begin with one.
#[inline(never)]
fn tag_at(bytes: &[u8]) -> Option<SpanMark>
    ensures { result ≡ mark_at bytes.now }
{
    if bytes.starts_with(b"<eu>") {
        Some(SpanMark::OpensEu)
    } else if bytes.starts_with(b"</eu>") {
        Some(SpanMark::ClosesEu)
    } else if bytes.starts_with(b"<nlba>") {
        Some(SpanMark::OpensNlba)
    } else if bytes.starts_with(b"</nlba>") {
        Some(SpanMark::ClosesNlba)
    } else {
        None
    }
}
