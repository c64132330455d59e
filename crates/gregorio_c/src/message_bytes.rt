//! The bytes of a score at the places of messages.

ghost use Rattle.std.specs.Prelude.{map};
ghost use Rattle.gregorio_c.specs.Answers.{IsPut};
ghost use Rattle.gregorio_c.specs.MessageBytes.{BytesAnswer, byte_in_text};

use crate::message::Message;
use gabc_places::{Limits, Place};
use gabc_tree::PlaceReader;

/// Puts the byte at the place of each of `messages` into `bytes`, if there is room for all. Else
/// `bytes` stays as it was.
fn put_all(reader: &mut PlaceReader<'_>, messages: &[Message], bytes: &mut [u32])
    ensures { IsPut (map (byte_in_text reader.old) messages.now) bytes.old bytes.new }
{
    if messages.len() <= bytes.len() {
        for (at, message) in messages.iter().enumerate() {
            bytes[at] = reader.byte_of(Place {
                line: message.line,
                column: message.column,
            });
        }
    }
}

/// Puts the byte of `score` at the place of each of `messages` into `bytes`, if there is room for
/// all. Else `bytes` stays as it was.
pub(crate) fn put_bytes(score: &[u8], messages: &[Message], bytes: &mut [u32])
    ensures { BytesAnswer score.now messages.now bytes.old bytes.new }
{
    let mut reader = PlaceReader::new(score, Limits::default());
    put_all(&mut reader, messages, bytes);
}
