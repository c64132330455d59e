//! Lines of one small pitch: that of its note is put at once, and so are those before it.

ghost use Rattle.std.specs.Prelude.{◌≡◌, ◌≢◌, ◌≤◌, [], ◌∷◌, codes, Some, true};
ghost use Rattle.gabc_patterns.specs.Pattern.{is_in};
ghost use Rattle.gabc_write.specs.DumpOfNotes.{degree_word, line_of_note};
ghost use Rattle.gabc_write.specs.machine.NoteLines.{lines_of_pitch, lines_of_signed};

use gabc_neumes::Alter;
use gabc_places::Put;

/// Returns the letters of the name of `degree`, if it has two: `sol` alone has three.
fn two_letters(degree: u8) -> (u8, u8)
    ensures { degree ≢ 4 → degree_word (Some degree) ≡ result.0 ∷ result.1 ∷ [] }
{
    match degree {
        0 => (b'u', b't'),
        1 => (b'r', b'e'),
        2 => (b'm', b'i'),
        3 => (b'f', b'a'),
        5 => (b'l', b'a'),
        _ => (b's', b'i'),
    }
}

/// Puts the line of a note that is `pitch`, a small pitch from `a` to `n`, of degree `degree`, and
/// that nothing alters.
#[inline(always)]
pub(crate) fn put_pitch<S: Put>(pitch: u8, degree: Option<u8>, out: &mut S)
    requires { (97 ≤ pitch) × (pitch ≤ 110) }
    ensures { out.new ≡ S.taken out.old
        (line_of_note (record { degree = degree; alter = Alter.None }) (pitch ∷ [])) }
{
    match degree {
        None => {
            let mut line = *b"note ? punctum - none ?\n";
            line[5] = pitch;
            line[22] = pitch;
            out.put(&line);
        }
        Some(4) => {
            let mut line = *b"note ? punctum sol none ?\n";
            line[5] = pitch;
            line[24] = pitch;
            out.put(&line);
        }
        Some(degree) => {
            let (first, second) = two_letters(degree);
            let mut line = *b"note ? punctum ?? none ?\n";
            line[5] = pitch;
            line[15] = first;
            line[16] = second;
            line[23] = pitch;
            out.put(&line);
        }
    }
}

/// Puts the line of a note that is `pitch`, a small pitch from `a` to `n`, with `sign` after it, of
/// degree `degree`, and that nothing alters.
#[inline(always)]
pub(crate) fn put_signed<S: Put>(pitch: u8, sign: u8, degree: Option<u8>, out: &mut S)
    requires pitch { (97 ≤ pitch) × (pitch ≤ 110) }
    requires sign { is_in sign (codes "._'") ≡ true }
    ensures { out.new ≡ S.taken out.old
        (line_of_note (record { degree = degree; alter = Alter.None }) (pitch ∷ sign ∷ [])) }
{
    match degree {
        None => {
            let mut line = *b"note ? punctum - none ??\n";
            line[5] = pitch;
            line[22] = pitch;
            line[23] = sign;
            out.put(&line);
        }
        Some(4) => {
            let mut line = *b"note ? punctum sol none ??\n";
            line[5] = pitch;
            line[24] = pitch;
            line[25] = sign;
            out.put(&line);
        }
        Some(degree) => {
            let (first, second) = two_letters(degree);
            let mut line = *b"note ? punctum ?? none ??\n";
            line[5] = pitch;
            line[15] = first;
            line[16] = second;
            line[23] = pitch;
            line[24] = sign;
            out.put(&line);
        }
    }
}

/// Puts the lines of a snippet that is `pitch`, a small pitch from `a` to `n`, of degree `degree`,
/// and that nothing alters.
pub(crate) fn put_snippet_of<S: Put>(pitch: u8, degree: Option<u8>, out: &mut S)
    requires { (97 ≤ pitch) × (pitch ≤ 110) }
    ensures { out.new ≡ S.taken out.old
        (lines_of_pitch (record { degree = degree; alter = Alter.None }) pitch) }
{
    let mut lines = *b"notes:?\nelement\nglyph punctum 1\n";
    lines[6] = pitch;
    out.put(&lines);
    put_pitch(pitch, degree, out);
}

/// Puts the lines of a snippet that is `pitch`, a small pitch from `a` to `n`, with `sign` after
/// it, of that degree, and that nothing alters.
pub(crate) fn put_signed_snippet<S: Put>(pitch: u8, sign: u8, degree: Option<u8>, out: &mut S)
    requires pitch { (97 ≤ pitch) × (pitch ≤ 110) }
    requires sign { is_in sign (codes "._'") ≡ true }
    ensures { out.new ≡ S.taken out.old
        (lines_of_signed (record { degree = degree; alter = Alter.None }) pitch sign) }
{
    let mut lines = *b"notes:??\nelement\nglyph punctum 1\n";
    lines[6] = pitch;
    lines[7] = sign;
    out.put(&lines);
    put_signed(pitch, sign, degree, out);
}
