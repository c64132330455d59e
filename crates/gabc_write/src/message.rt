//! The lines that report findings and faults.

ghost use Rattle.std.specs.Prelude.{◌≡◌, ◌++◌, ◌+◌, ◌≤◌, length, codes};
ghost use Rattle.std.specs.Fmt.{decimal};
ghost use Rattle.gabc_places.specs.Code.{name_of, text_of};
ghost use Rattle.gabc_places.specs.Message.{place_text, code_text};
ghost use Rattle.gabc_write.specs.Message.{line_of};

use gabc_places::{ByteCounter, Code, Place, Put};
use itoa::Buffer;

/// Puts `number` in decimal digits, and `after`.
fn put_number<S: Put>(number: u64, after: &str, out: &mut S)
    ensures put { out.new ≡ S.taken out.old (decimal number ++ after.now) }
    ensures short { length (decimal number) ≤ 20 }
{
    out.put(Buffer::new().format(number).as_bytes());
    out.put(after.as_bytes());
}

/// Puts `LINE:COLUMN: `.
fn put_place<S: Put>(place: Place, out: &mut S)
    ensures put { out.new ≡ S.taken out.old (place_text place ++ codes ": ") }
    ensures short { length (place_text place) ≤ 41 }
{
    put_number(place.line, ":", out);
    put_number(place.column, ": ", out);
}

/// Puts `text` and `after`.
fn put_both<S: Put>(text: &str, after: &str, out: &mut S)
    ensures { out.new ≡ S.taken out.old (text.now ++ after.now) }
{
    out.put(text.as_bytes());
    out.put(after.as_bytes());
}

/// Puts `CODE: TEXT` and LF.
fn put_code<S: Put>(code: Code, out: &mut S)
    ensures put { out.new
        ≡ S.taken out.old (name_of code ++ (codes ": " ++ (text_of code ++ codes "\n"))) }
    ensures name { length (name_of code) ≤ 3 }
    ensures text { length (text_of code) ≤ 64 }
{
    put_both(code.name(), ": ", out);
    put_both(code.text(), "\n", out);
}

/// Puts `KIND: CODE: TEXT` and LF.
fn put_kind<S: Put>(code: Code, out: &mut S)
    ensures put { out.new ≡ S.taken out.old (code_text code ++ codes "\n") }
    ensures short { length (code_text code) ≤ 78 }
{
    put_both(code.severity().as_str(), ": ", out);
    put_code(code, out);
}

/// Puts the line that reports `code` at `place` of the input `name`: `NAME:LINE:COLUMN: KIND: CODE:
/// TEXT` and LF, as many bytes as `message_len` returns. A room with fewer bytes left takes as many
/// of them as fit.
pub fn message_line<S: Put>(name: &str, place: Place, code: Code, out: &mut S)
    ensures put { out.new ≡ S.taken out.old (line_of name.now place code) }
    ensures short { length (line_of name.now place code) ≤ length name.now + 128 }
{
    put_both(name, ":", out);
    put_place(place, out);
    put_kind(code, out);
}

/// Returns the number of bytes of the line that reports `code` at `place` of the input `name`, with
/// its LF: at most the bytes of `name` and 128.
pub fn message_len(name: &str, place: Place, code: Code) -> usize
    ensures len { result ≡ length (line_of name.now place code) }
    ensures short { result ≤ length name.now + 128 }
{
    let mut counter = ByteCounter::new();
    message_line(name, place, code, &mut counter);
    counter.count()
}
