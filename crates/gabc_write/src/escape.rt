//! Texts of the input in the lines of a dump.

ghost use Rattle.std.specs.Prelude.{◌≡◌, ◌≤◌, ◌++◌, [], ◌∷◌, IsTrue, false, length, take, drop};
ghost use Rattle.gabc_write.specs.DumpLines.{escaped, escaped_byte};
ghost use Rattle.gabc_write.specs.machine.TextLine.{line_part, begun_after, line_end};

use gabc_places::Put;

/// Puts `byte`; a backslash as `\\`, and an LF as `\n`.
fn put_escaped_byte<S: Put>(byte: u8, out: &mut S)
    ensures { out.new ≡ S.taken out.old (escaped_byte byte) }
{
    match byte {
        b'\\' => out.put(b"\\\\"),
        b'\n' => out.put(b"\\n"),
        _ => out.put(&[byte]),
    }
}

/// Returns `true` only for a byte that is put as it is: no backslash and no LF.
fn is_plain(byte: u8) -> bool
    ensures { IsTrue result → escaped_byte byte ≡ byte ∷ [] }
{
    byte != b'\\' && byte != b'\n'
}

/// Returns the number of bytes of `text` before its first backslash or LF: all, if it has none.
fn plain_len(text: &[u8]) -> usize
    ensures within { result ≤ length text.now }
    ensures plain { escaped text.now ≡ take result text.now ++ escaped (drop result text.now) }
{
    for (i, byte) in text.iter().enumerate() {
        if !is_plain(*byte) {
            return i;
        }
    }
    text.len()
}

/// Puts `text`, with each backslash as `\\` and each LF as `\n`, and the bytes between them at
/// once. Few texts have any, so it stays out of line.
#[inline(never)]
fn put_escaped_bytes<S: Put>(text: &[u8], out: &mut S)
    ensures { out.new ≡ S.taken out.old (escaped text.now) }
{
    let mut rest = text;
    while let [byte, more @ ..] = rest {
        put_escaped_byte(*byte, out);
        let len = plain_len(more);
        out.put(&more[..len]);
        rest = &more[len..];
    }
}

/// Puts `text`, with each backslash as `\\` and each LF as `\n`.
pub(crate) fn put_escaped<S: Put>(text: &[u8], out: &mut S)
    ensures { out.new ≡ S.taken out.old (escaped text.now) }
{
    if plain_len(text) == text.len() {
        out.put(text);
    } else {
        put_escaped_bytes(text, out);
    }
}

/// Puts `text`, with each backslash as `\\` and each LF as `\n`, and the byte `end` after it. Most
/// texts have at most four bytes, so these are put at once.
#[inline(always)]
pub(crate) fn put_ended<S: Put>(text: &[u8], end: u8, out: &mut S)
    ensures { out.new ≡ S.taken out.old (escaped text.now ++ end ∷ []) }
{
    match text {
        [a] if is_plain(*a) => out.put(&[*a, end]),
        [a, b] if is_plain(*a) && is_plain(*b) => out.put(&[*a, *b, end]),
        [a, b, c] if is_plain(*a) && is_plain(*b) && is_plain(*c) => {
            out.put(&[*a, *b, *c, end]);
        }
        [a, b, c, d] if is_plain(*a) && is_plain(*b) && is_plain(*c) && is_plain(*d) => {
            out.put(&[*a, *b, *c, *d, end]);
        }
        _ => {
            put_escaped(text, out);
            out.put(&[end]);
        }
    }
}

/// Passes the text of a syllable on, with each backslash as `\\` and each LF as `\n`, and `text:`
/// before its first byte.
#[derive(Drop)]
pub(crate) struct TextLine<'a, S: Put> {
    out: &'a mut S,
    begun: bool,
}

impl<'a, S: Put> TextLine<'a, S> {
    /// Returns a line that passes on to `out`, before its first byte.
    pub(crate) fn new(out: &'a mut S) -> TextLine<'a, S>
        ensures same { result.out.ghost_name ≡ out.entry.ghost_name }
        ensures now { result.out.now ≡ out.old }
        ensures fresh { result.begun ≡ false }
    {
        TextLine { out, begun: false }
    }

    /// Puts the LF after the text, if there is one.
    pub(crate) fn end(&mut self)
        ensures { self.new ≡ record self.old {
          out = record self.old.out {
            now = S.taken self.old.out.now (line_end self.old.begun);
          };
        } }
    {
        if self.begun {
            self.out.put(b"\n");
        }
    }
}

impl<S: Put> Put for TextLine<'_, S> {
    ghost use Rattle.std.proofs.Common.{rules};
    ghost use Rattle.gabc_write.specs.machine.TextLine.{parts_are_one, begun_is_one};

    ghost taken = { λ l bytes. record l {
      out = record l.out { now = S.taken l.out.now (line_part l.begun bytes) };
      begun = begun_after l.begun bytes;
    } };

    ghost taken_nothing = { Prim.search rules };

    ghost taken_both = { Prim.search (rules, parts_are_one, begun_is_one) };

    fn put(&mut self, bytes: &[u8]) {
        if bytes.is_empty() {
            return;
        }
        if !self.begun {
            self.out.put(b"text:");
            self.begun = true;
        }
        put_escaped(bytes, self.out);
    }
}
