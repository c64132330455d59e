//! Laws of a stage of headers. Each function's contract is a law. Its body drives a stage, gives it
//! one input, calls other laws, or does nothing.

ghost use Rattle.std.specs.Prelude.{◌≡◌, ℕ, ◌+◌, ◌*◌, ◌≤◌, List, [], ◌∷◌, ◌++◌, true, false, length, map, None, Ok, OnErr, OnOk, Result, encode_utf8_all};
ghost use Rattle.std.specs.Char.{IsScalar};
ghost use Rattle.std.specs.List.{All};
ghost use Rattle.std.specs.declared.hash.DefaultHasher.{DefaultHasher};
ghost use Rattle.gabc_places.specs.declared.place.Char.{Char};
ghost use Rattle.gabc_places.specs.declared.code.Fault.{Fault};
ghost use Rattle.gabc_places.specs.BoundedList.{Fits, extended_by};
ghost use Rattle.gabc_places.specs.Decoder.{known_at_end};
ghost use Rattle.gabc_places.specs.StageLaw.{concat_of};
ghost use Rattle.gabc_places.specs.Text.{decoded_of};
ghost use Rattle.gabc_headers.specs.declared.head_event.HeadEvent.TheVariants.{Body, Found};
ghost use Rattle.gabc_headers.specs.Heads.{heads_of};
ghost use Rattle.gabc_headers.specs.declared.heads.Heads.{Heads};
ghost use Rattle.gabc_headers.specs.HeldText.{IsHeld, IsWithinHeaders, findings_held, holding, inputs_of, text_in};
ghost use Rattle.gabc_headers.specs.HeadEvents.{emitted_by, events_of_heads};
ghost use Rattle.gabc_headers.specs.witness.HeadEvents.{HeaderStageState, reading, over, IsAfterHeaders, fresh_stage, stage_past, events_left, events_of_input, events_of_end, new_findings, stage_after, stage_at, text_held};

use crate::head_event::HeadEvent;
use crate::header_stage::HeaderStage;
use gabc_places::{Chain, Char, Decoder, Fault, Limits, Room, Stage, drive};
use std::alloc::{AllocError, Global};

/// Law: a fresh stage of headers, driven over `inputs`, emits what the definition says of them. If
/// memory cannot be allocated, nothing is emitted.
pub fn a_fresh_stage_emits(
    alloc: Global,
    limits: Limits,
    inputs: Vec<Result<Char, Fault>>,
    out: &mut Room<HeadEvent>,
) -> Result<(), AllocError>
    requires { Fits out.old (2 * (length inputs.items + 1)) }
    ensures emitted { OnOk result (out.new
        ≡ extended_by out.old (concat_of (events_left limits (reading []) inputs.items))) }
    ensures unchanged { OnErr result (out.new ≡ out.old) }
{
    let mut stage = HeaderStage::with_limits(alloc, limits)?;
    drive(&mut stage, inputs, out);
    Ok(())
}

/// Law: a fresh stage of headers after a fresh decoder, driven over the `bytes` of an input that
/// ended, emits what the definition says of the characters and the fault that `text_of` returns.
/// Without a fault that is what `headers_whole` returns for the text, then the characters of its
/// body and the end. If memory cannot be allocated, nothing is emitted.
pub fn a_fresh_stage_reads_bytes(
    alloc: Global,
    limits: Limits,
    bytes: Vec<u8>,
    out: &mut Room<HeadEvent>,
) -> Result<(), AllocError>
    requires { Fits out.old (4 * (length bytes.items + 1)) }
    ensures all { OnOk result (out.new ≡ extended_by out.old
        (concat_of (events_left limits (reading []) (known_at_end limits bytes.items)))) }
    ensures text { OnOk result ((decoded_of limits true bytes.items).fault ≡ None →
        let t = (decoded_of limits true bytes.items).text in
        out.new ≡ extended_by out.old (events_of_heads t (heads_of limits t))) }
    ensures unchanged { OnErr result (out.new ≡ out.old) }
{
    let between = Room::with_limit(alloc, 1)?;
    let stage = HeaderStage::with_limits(alloc, limits)?;
    let mut chain = Chain::new(Decoder::new(limits), stage, between);
    drive(&mut chain, bytes, out);
    Ok(())
}

/// Law: after its headers a stage passes on each character as it is, and stays after them: a run
/// may leave the stage out there.
pub fn the_body_is_passed_on(stage: &mut HeaderStage, c: Char, out: &mut Room<HeadEvent>)
    requires after { IsAfterHeaders stage.old.progress }
    requires room { Fits out.old 2 }
    ensures limits { stage.new.limits ≡ stage.old.limits }
    ensures progress { stage.new.progress ≡ stage.old.progress }
    ensures out { out.new ≡ extended_by out.old (Body c ∷ []) }
{
    stage.push(Ok(c), out);
}

/// Law: an input moves a stage to its next state, and with it the book that the stage shows: from
/// the event `Heads` on it is that of the headers.
pub fn an_input_is_taken(
    stage: &mut HeaderStage,
    input: Result<Char, Fault>,
    out: &mut Room<HeadEvent>,
)
    requires { Fits out.old 2 }
    ensures state { stage.new ≡ stage_after stage.old input }
    ensures out { out.new ≡ extended_by out.old
        (events_of_input stage.old.limits stage.old.progress input) }
{
    stage.push(input, out);
}

/// Law: the end is the last that a stage takes. It keeps its book.
pub fn the_end_is_taken(stage: &mut HeaderStage, out: &mut Room<HeadEvent>)
    requires { Fits out.old 2 }
    ensures state { stage.new ≡ stage_at stage.old over }
    ensures out { out.new ≡ extended_by out.old
        (events_of_end stage.old.limits stage.old.progress) }
{
    stage.finish(out);
}

/// Law: two stages with the same limits and the same pending headers emit the same of whatever
/// follows.
pub fn stages_of_one_text_agree()
    ensures { (one other : HeaderStageState) → one.limits ≡ other.limits →
        one.progress ≡ reading (text_held one.progress) →
        other.progress ≡ reading (text_held other.progress) →
        text_held one.progress ≡ text_held other.progress →
        (xs : List (Result Char Fault)) → events_left one.limits one.progress xs
        ≡ events_left other.limits other.progress xs }
{}

/// Law: the pending headers of a stage restore it: pushed into a fresh stage, whatever the places
/// of their characters, they are those of that stage then. The events are their findings.
pub fn a_held_text_is_held_again()
    ensures state { (limits : Limits) (hasher : DefaultHasher) (xs : List Char) →
        All IsScalar (text_in xs) → IsHeld limits (text_in xs) →
        stage_past (fresh_stage limits hasher) (inputs_of xs)
        ≡ holding limits hasher (text_in xs) }
    ensures found { (limits : Limits) (xs : List Char) → All IsScalar (text_in xs) →
        IsHeld limits (text_in xs) →
        emitted_by false (inputs_of xs) (events_left limits (reading []) (inputs_of xs))
        ≡ map (λ f. Found f) (findings_held limits (text_in xs)) }
{}

/// Law: empty headers are pending. If headers are pending, and still are with a character more,
/// their findings stay, and further findings come after them.
pub fn a_held_text_grows()
    ensures begins { (limits : Limits) → IsHeld limits [] }
    ensures found { (limits : Limits) (t : List ℕ) (c : ℕ) → All IsScalar t → IsScalar c →
        IsHeld limits t → IsHeld limits (t ++ c ∷ []) → findings_held limits (t ++ c ∷ [])
        ≡ findings_held limits t ++ new_findings limits t (t ++ c ∷ []) }
{}

/// Law: the pending headers of a stage are within their limit, or one `%` that begins a line is
/// above it: the next character shows whether that belongs to the line `%%`.
pub fn a_held_text_is_within_its_limit()
    ensures { (limits : Limits) (t : List ℕ) → 1 ≤ limits.header → IsHeld limits t →
        IsWithinHeaders limits.header (encode_utf8_all t) }
{
    gabc_places::laws::earliest_is_least();
}

/// Law: two stages after their headers emit the same of whatever follows, whatever the headers
/// were.
pub fn stages_after_headers_agree()
    ensures { (one other : HeaderStageState) → IsAfterHeaders one.progress → IsAfterHeaders other.progress →
        (xs : List (Result Char Fault)) → events_left one.limits one.progress xs
        ≡ events_left other.limits other.progress xs }
{}

/// Law: the character with which the headers of a stage are whole is a `%`, the second one of their
/// line.
pub fn a_percent_ends_the_headers(stage: &HeaderStage)
    ensures { (t : List ℕ) (c : ℕ) (heads : Heads) → stage.now.progress ≡ reading t →
        heads_of stage.now.limits (t ++ c ∷ []) ≡ Ok heads → c ≡ 37 }
{
    stage.text();
}
