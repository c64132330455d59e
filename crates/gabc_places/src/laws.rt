//! Laws of the definitions that contracts use. Each function is there for its clauses: two run a
//! fresh decoder, one asks a decoder for its reports, one returns the default limits, and all
//! others do nothing.

ghost use Rattle.std.specs.Prelude.{◌≡◌, ◌≢◌, ℕ, ◌<◌, List, [], ◌∷◌, ◌++◌, map, length, take, Bool, false, ◌≤◌, Some, None, IsSome, slice_index, encode_utf8_all};
ghost use Rattle.std.specs.Char.{IsScalar};
ghost use Rattle.std.specs.List.{slice_get, Contains, All};
ghost use Rattle.gabc_places.specs.Place.{place_after, placed_characters, placed_characters_after};
ghost use Rattle.gabc_places.specs.Text.{text_of_bytes, decoded_of};
ghost use Rattle.gabc_places.specs.Findings.{Stop, earliest, IsNoLater};
ghost use Rattle.std.specs.Prelude.{◌+◌};
ghost use Rattle.gabc_places.specs.declared.limits.Limits.{Limits};
ghost use Rattle.gabc_places.specs.BoundedList.{Fits, extended_by};
ghost use Rattle.gabc_places.specs.Decoder.{known_of, known_at_end};
ghost use Rattle.gabc_places.specs.StageLaw.{concat_of};
ghost use Rattle.gabc_places.specs.Chain.{chain_events};
ghost use Rattle.gabc_places.specs.witness.DecoderEvents.{events_left};
ghost use Rattle.gabc_places.specs.DecoderMachine.{DecoderState, IsPartial};
ghost use Rattle.gabc_places.specs.DecoderReports.{ReportTheSame, MayBeReported, is_after_cr};
ghost use Rattle.gabc_places.specs.Code.{severity_of, severity_by_kind};
ghost use Rattle.gabc_places.specs.declared.code.Code.{Code};
ghost use Rattle.gabc_places.specs.declared.codes.TheConstants.{CODES};
ghost use Rattle.gabc_places.specs.CodesSpelled.{codes_spelled};
ghost use Rattle.gabc_places.specs.Limits.{AreUsual};

use crate::chain::push_all;
use crate::code::Fault;
use crate::decoder::Decoder;
use crate::limits::Limits;
use crate::place::{Char, Place};
use crate::room::Room;
use crate::stage::drive;

/// Law: the text of an input has no CR and no U+FEFF.
pub fn texts_are_plain()
    ensures { (limit : ℕ) (bytes : List ℕ) →
        All (λ c. (c ≢ 13) × (c ≢ 0xFEFF)) (text_of_bytes limit bytes) }
{}

/// Law: the characters of the text of an input are Unicode scalar values, and have no more bytes
/// than the input may have.
pub fn texts_are_scalars_within_the_limit()
    ensures scalars { (limit : ℕ) (bytes : List ℕ) → All IsScalar (text_of_bytes limit bytes) }
    ensures short { (limit : ℕ) (bytes : List ℕ) →
        length (encode_utf8_all (text_of_bytes limit bytes)) ≤ limit }
{}

/// Law: a text without CR and U+FEFF is read again from its own bytes, with no fault, if they are
/// within the limit.
pub fn text_again()
    ensures { (limits : Limits) (ended : Bool) (text : List ℕ) → All IsScalar text →
        All (λ c. (c ≢ 13) × (c ≢ 0xFEFF)) text →
        length (encode_utf8_all text) ≤ limits.input →
        decoded_of limits ended (encode_utf8_all text) ≡ record { text = text; fault = None } }
{}

/// Law: each prefix of the text of an input is the text of a prefix of its bytes, which is read
/// without a fault.
pub fn a_prefix_of_a_text_is_read_of_a_prefix_of_its_bytes()
    ensures { (limits : Limits) (ended whole : Bool) (bytes : List ℕ) (n : ℕ) → (count : ℕ)
        × (decoded_of limits whole (take count bytes)
        ≡ record { text = take n (decoded_of limits ended bytes).text; fault = None }) }
{}

/// Law: the first character of a text is at line 1 and column 1.
pub fn first_place()
    ensures { Place.START ≡ place_after [] }
{}

/// Law: the place of each character follows from the text before it.
pub fn characters_come_after_the_text_before()
    ensures len { (text : List ℕ) → length (placed_characters text) ≡ length text }
    ensures at { (text : List ℕ) (i : ℕ) → i < length text →
        slice_get (placed_characters text) i
        ≡ Some (record { c = slice_index text i; place = place_after (take i text) }) }
{}

/// Law: the places of a text do not depend on what follows it.
pub fn places_need_nothing_after()
    ensures { (xs : List ℕ) (ys : List ℕ) →
        placed_characters (xs ++ ys) ≡ placed_characters xs ++ placed_characters_after xs ys }
{}

/// Law: the earliest of some stops is one of them, and none of them is earlier. At one point the
/// lower code is the earlier.
pub fn earliest_is_least()
    ensures some { (s : Stop) (stops : List Stop) → IsSome (earliest (s ∷ stops)) }
    ensures found { (stops : List Stop) (s : Stop) → earliest stops ≡ Some s → Contains stops s }
    ensures least { (stops : List Stop) (s : Stop) → earliest stops ≡ Some s →
        All (IsNoLater s) stops }
{}

/// Law: two stages in a row emit in all what the second emits for all that the first emits; there
/// is a list of events for each input and one for the end.
pub fn a_chain_emits_what_its_second_emits<I, M, O>()
    ensures all { (first : List I → List (List M)) (second : List M → List (List O)) (xs : List I) →
        concat_of (chain_events first second xs) ≡ concat_of (second (concat_of (first xs))) }
    ensures one_each { (first : List I → List (List M)) (second : List M → List (List O))
        (xs : List I) → length (chain_events first second xs) ≡ length xs + 1 }
{}

/// Law: a fresh decoder, driven over all the bytes of an input that ended, emits the text and the
/// fault that `text_of` returns.
pub fn a_fresh_decoder_emits_the_text(
    limits: Limits,
    bytes: Vec<u8>,
    out: &mut Room<Result<Char, Fault>>,
)
    requires { Fits out.old (length bytes.items + 1) }
    ensures { out.new ≡ extended_by out.old (known_at_end limits bytes.items) }
{
    let mut decoder = Decoder::new(limits);
    drive(&mut decoder, bytes, out);
}

/// Law: a decoder has emitted all that is known of the bytes so far, whatever follows them. Nothing
/// is held back, and nothing guessed.
pub fn a_decoder_emits_what_is_known(
    limits: Limits,
    bytes: &[u8],
    out: &mut Room<Result<Char, Fault>>,
)
    requires { Fits out.old (length bytes.now) }
    ensures { out.new ≡ extended_by out.old (known_of limits bytes.now) }
{
    let mut decoder = Decoder::new(limits);
    push_all(&mut decoder, bytes, out);
}

/// Law: two decoders that run, under one limit, and report the same emit the same of whatever
/// follows. The bytes that they report of a character that is not whole are a part of one.
pub fn decoders_that_report_the_same_agree()
    ensures { (one other : DecoderState) → one.ended ≡ false → other.ended ≡ false →
        one.limit ≡ other.limit → IsPartial one.pending → ReportTheSame one other →
        (bytes : List ℕ) → events_left one bytes ≡ events_left other bytes }
{}

/// Law: the reports of a decoder are possible ones: a decoder can be made from them.
pub fn what_a_decoder_reports_may_be_reported(decoder: &Decoder)
    ensures { MayBeReported decoder.now.limit decoder.now.taken decoder.now.place
        decoder.now.pending (is_after_cr decoder.now) }
{
    decoder.taken();
    decoder.place();
    decoder.pending();
    decoder.after_cr();
}

/// Law: the severity of each code is the one of its letter: E an error, W a warning, F a fatal
/// fault.
pub fn codes_are_graded_by_their_letters()
    ensures { (code : Code) → severity_of code ≡ severity_by_kind code }
{}

/// Law: the table `CODES` has these names and texts, in this order.
pub fn codes_are_these()
    ensures { map (λ row. (row.1.now, row.2.now)) CODES ≡ codes_spelled }
{}

/// Law: the default limits are 65,536 bytes of headers, 16,384 bytes of a syllable and
/// 4,294,967,295 bytes of input.
pub fn usual_limits() -> Limits
    ensures { AreUsual result.header result.syllable result.input }
{
    Limits::DEFAULT
}
