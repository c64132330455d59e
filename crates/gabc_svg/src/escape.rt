//! Texts escaped for XML.

ghost use Rattle.std.specs.Prelude.{◌≡◌, ◌<◌, encode_utf8};
ghost use Rattle.std.specs.Fmt.{decimal, signed_decimal};
ghost use Rattle.std.specs.List.{list_all};
ghost use Rattle.gabc_svg.specs.Escape.{escaped, escaped_char, escaped_control, is_hidden as hides};
ghost use Rattle.gabc_svg.specs.machine.Plain.{is_plain};

use gabc_places::Put;
use itoa::Buffer;

/// Returns whether `c` is shown as U+FFFD: no XML may hold it, or it steers a terminal, or turns
/// the direction of a text.
fn is_hidden(c: u32) -> bool
    ensures { result ≡ hides c }
{
    127 <= c && c <= 159
        || 8206 <= c && c <= 8207
        || 8232 <= c && c <= 8238
        || 8294 <= c && c <= 8297
        || 64976 <= c && c <= 65007
        || c == 1564
        || c == 65279
        || 65534 <= c && c <= 65535
}

/// Puts `c` in UTF-8.
fn put_char<S: Put>(c: char, out: &mut S)
    ensures { out.new ≡ S.taken out.old (encode_utf8 c) }
{
    let mut buffer = [0; 4];
    out.put(c.encode_utf8(&mut buffer).as_bytes());
}

/// Puts the picture of the control character `c`, which is below the blank; a blank for a tab or an
/// LF.
fn put_control<S: Put>(c: u8, out: &mut S)
    requires { c < 32 }
    ensures { out.new ≡ S.taken out.old (escaped_control c) }
{
    if c == b'\t' || c == b'\n' {
        out.put(b" ");
    } else {
        out.put(&[0xe2, 0x90, 0x80 + c]);
    }
}

/// Puts `c` escaped, as a text or the value of an attribute may have it.
fn put_escaped_char<S: Put>(c: char, out: &mut S)
    ensures { out.new ≡ S.taken out.old (escaped_char c) }
{
    match c {
        '\0'..='\u{1f}' => put_control(c as u8, out),
        '&' => out.put(b"&amp;"),
        '<' => out.put(b"&lt;"),
        '>' => out.put(b"&gt;"),
        '"' => out.put(b"&quot;"),
        _ if is_hidden(c as u32) => put_char('\u{fffd}', out),
        _ => put_char(c, out),
    }
}

/// Returns whether `byte` is a character of ASCII that escaping leaves as it is.
fn is_plain(byte: u8) -> bool
    ensures { result ≡ is_plain byte }
{
    32 <= byte && byte <= 126 && !(byte == b'&' || byte == b'<' || byte == b'>' || byte == b'"')
}

/// Returns whether all bytes of `text` are such characters.
fn are_plain(text: &str) -> bool
    ensures { result ≡ list_all is_plain text.now }
{
    text.bytes().all(|byte| is_plain(byte))
}

/// Puts the characters of `text`, each escaped.
fn put_chars<S: Put>(text: &str, out: &mut S)
    ensures { out.new ≡ S.taken out.old (escaped text.now) }
{
    for c in text.chars() {
        put_escaped_char(c, out);
    }
}

/// Puts `text` escaped, as a text or the value of an attribute may have it.
#[tactic(auto, using(crate::proofs::PlainTexts::plain_stays))]
pub(crate) fn put_escaped<S: Put>(text: &str, out: &mut S)
    ensures { out.new ≡ S.taken out.old (escaped text.now) }
{
    if are_plain(text) {
        out.put(text.as_bytes());
    } else {
        put_chars(text, out);
    }
}

/// Puts `number` in decimal digits.
#[tactic(auto, using(crate::proofs::PlainTexts::decimal_stays))]
pub(crate) fn put_decimal<S: Put>(number: u32, out: &mut S)
    ensures { out.new ≡ S.taken out.old (escaped (decimal number)) }
{
    out.put(Buffer::new().format(number).as_bytes());
}

/// Puts `number` in decimal digits, with its sign if it is below 0.
#[tactic(auto, using(crate::proofs::PlainTexts::signed_stays))]
pub(crate) fn put_signed<S: Put>(number: i32, out: &mut S)
    ensures { out.new ≡ S.taken out.old (escaped (signed_decimal number)) }
{
    out.put(Buffer::new().format(number).as_bytes());
}
