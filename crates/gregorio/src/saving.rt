//! The saved state of a run.

ghost use Rattle.std.specs.Prelude.{◌≡◌, ◌++◌, ◌+◌, ◌-◌, ◌*◌, ◌^◌, ◌<◌, ◌≤◌, ◌||◌, [], length, drop, encode_utf8_all, max, min, true, IfOk, IsOk, OnErr, OnOk};
ghost use Rattle.std.specs.Option.{option_map, unwrap_or};
ghost use Rattle.std.specs.Str.{chars};
ghost use Rattle.gabc_headers.specs.witness.HeadEvents.{IsInHeaders};
ghost use Rattle.gabc_body.specs.Canonical.{canonical};
ghost use Rattle.gabc_body.specs.Syllable.{unplaced_of};
ghost use Rattle.gabc_score.specs.ScoreReports.{held_of};
ghost use Rattle.gabc_score.specs.declared.score_machine.ScorePart.TheVariants.{Body};
ghost use Rattle.gregorio_state.specs.Conditions.{AreStateFields};
ghost use Rattle.gregorio_state.specs.Fields.{InHeaders, fields_of, holding, phase_holding, phase_of, score_of, with_held};
ghost use Rattle.gregorio_state.specs.StateBytes.{state_bytes};
ghost use Rattle.gregorio.specs.Engine.{NothingWaits, is_running};
ghost use Rattle.gregorio.specs.Saved.{held_count, held_text, score_fields, state_of};
ghost use Rattle.gregorio.specs.SavedState.{AreOfState};
ghost use Rattle.gregorio.specs.machine.Saving.{text_when_held};

use crate::engine::Engine;
use crate::engine_laws;
use gabc_places::{ByteCounter, Put};
use gabc_score::{ScoreStage, Syllable, canon_starting};
use gregorio_state::{Phase, PutText, ScoreFields, StateFields, TooShort};

/// The pending syllable of a stage, if there is one.
#[derive(Clone, Copy)]
pub(crate) struct HeldSyllable<'a> {
    syllable: Option<&'a Syllable>,
    /// Whether it is the first one of the score.
    first: bool,
}

/// Puts its canonical text, or nothing.
impl PutText for HeldSyllable<'_> {
    ghost text = { λ h. text_when_held h.first (option_map (λ s. unplaced_of s.now) h.syllable) };

    fn put_into<S: Put>(&self, out: &mut S) {
        if let Some(syllable) = self.syllable {
            canon_starting(syllable, self.first || syllable.text.word_start, out);
        }
    }
}

impl<'a> HeldSyllable<'a> {
    /// Returns the pending syllable of `stage`.
    pub(crate) fn of(stage: &'a ScoreStage) -> HeldSyllable<'a>
        ensures { text_when_held result.first (option_map (λ s. unplaced_of s.now) result.syllable)
            ≡ held_text stage.now.before (held_of stage.now) }
    {
        HeldSyllable {
            syllable: stage.held(),
            first: stage.before().is_some_and(|before| before.syllables == 0),
        }
    }
}

impl HeldSyllable<'_> {
    /// Returns the number of bytes of its canonical text, which saturates at the last value of a
    /// `usize`.
    fn len(&self) -> usize
        ensures { result
            ≡ min (length (text_when_held self.now.first
            (option_map (λ s. unplaced_of s.now) self.now.syllable))) (2 ^ 64 - 1) }
    {
        let mut counter = ByteCounter::new();
        self.put_into(&mut counter);
        counter.count()
    }
}

/// Returns the phase of a run that has read the text `headers` of its headers.
fn in_headers(headers: &str) -> Phase<'_>
    ensures { phase_of result ≡ InHeaders (encode_utf8_all (chars headers.now)) }
{
    Phase::Headers(headers)
}

impl Engine {
    /// Returns the number of pending syllables, 0 or 1.
    fn held_count(&self) -> u32
        ensures { result ≡ held_count (held_of self.now.score) }
    {
        match self.score().held() {
            Some(_) => 1,
            None => 0,
        }
    }

    /// Returns the fields of the score, without the pending text, which has `held` bytes.
    fn score_fields(&self, held: usize) -> ScoreFields<'_>
        requires body { self.now.score.part ≡ Body }
        requires syllables { (score_fields self.now.written.force self.now.score).syllables
            < 2 ^ 32 }
        requires canonical { (score_fields self.now.written.force self.now.score).canonical
            < 2 ^ 32 }
        requires held { held ≡ length (held_text self.now.score.before (held_of self.now.score)) }
        ensures { score_of result
            ≡ with_held [] (score_fields self.now.written.force self.now.score) }
    {
        let score = self.score();
        let Some(before) = score.before() else {
            unreachable!()
        };
        let Some(openers) = score.openers() else {
            unreachable!()
        };
        let Some(in_comment) = score.in_comment() else {
            unreachable!()
        };
        let alterations = self.run_writer().alterations();
        ScoreFields {
            nabc_lines: before.nabc_lines,
            macros: before.macros,
            syllables: before.syllables as u32 + self.held_count(),
            canonical: (before.canonical + held) as u32,
            in_eu: before.spans.eu,
            in_nlba: before.spans.nlba,
            sounded: before.sounded,
            clef: alterations.clef(),
            alters: alterations.alters(),
            held: "",
            in_comment,
            notes_opener: openers.notes,
            inner_opener: openers.inner,
            kept: score.reading(),
        }
    }

    /// Returns the phase of the run, without the pending text, which has `held` bytes.
    fn phase(&self, held: usize) -> Phase<'_>
        requires runs { is_running self.now ≡ true }
        requires state { AreStateFields (state_of self.now) }
        requires held { held ≡ min (length (held_text self.now.score.before
            (held_of self.now.score))) (2 ^ 64 - 1) }
        ensures { phase_of result ≡ phase_holding [] (state_of self.now).phase }
    {
        match self.heads().text() {
            Some(text) => in_headers(text),
            None => {
                engine_laws::the_body_comes_after_the_headers(self);
                Phase::Score(self.score_fields(held))
            }
        }
    }

    /// Returns the fields of its state, without the pending text, which has `held` bytes.
    fn state_fields(&self, held: usize) -> StateFields<'_>
        requires runs { is_running self.now ≡ true }
        requires state { AreStateFields (state_of self.now) }
        requires held { held ≡ min (length (held_text self.now.score.before
            (held_of self.now.score))) (2 ^ 64 - 1) }
        ensures { fields_of result ≡ holding [] (state_of self.now) }
    {
        let decoder = self.decoder();
        let writer = self.run_writer();
        StateFields {
            format: writer.format(),
            all_warnings: writer.all_warnings(),
            limits: self.score().limits(),
            taken: decoder.taken(),
            place: decoder.place(),
            pending: decoder.pending(),
            after_cr: decoder.after_cr(),
            has_error: writer.has_error(),
            phase: self.phase(held),
        }
    }

    /// Returns the length of the saved state of the run in bytes. The run may not be over, and
    /// nothing may wait.
    pub fn state_len(&self) -> usize
        requires runs { is_running self.now ≡ true }
        requires waits { NothingWaits self.now }
        ensures len { result ≡ length (state_bytes (state_of self.now)) }
        ensures short { result
            ≤ max self.now.score.limits.header (2 * self.now.score.limits.syllable) + 128 }
    {
        engine_laws::what_is_saved_is_a_state(self);
        let held = HeldSyllable::of(self.score());
        let fields = self.state_fields(held.len());
        fields.len_holding(&held)
    }

    /// Writes the saved state of the run to the front of `buf`, and returns its length in bytes;
    /// the rest of `buf` is unchanged. Fails if `buf` has fewer bytes than the state, and then
    /// `buf` is unchanged. It does not fail if `buf` has 128 bytes more than the limit of the
    /// headers, and than twice the limit of a syllable. The bytes written are a state: its fields
    /// meet their conditions, and its texts are read as it says. Its headers have the place and the
    /// errors that it reports; or the pending text, read by itself, is one syllable of which it is
    /// the canonical text, and the kept text is kept again, with the brackets and the comment open
    /// after it that the state reports. The run may not be over, and nothing may wait.
    pub fn save_into(&self, buf: &mut [u8]) -> Result<usize, TooShort>
        requires runs { is_running self.now ≡ true }
        requires waits { NothingWaits self.now }
        ensures state { AreOfState (state_of self.now) }
        ensures written { OnOk result (buf.new ≡ state_bytes (state_of self.now)
            ++ drop (length (state_bytes (state_of self.now))) buf.old) }
        ensures len { IfOk result (λ len. len ≡ length (state_bytes (state_of self.now))) }
        ensures longer { OnErr result (length buf.old
            < length (state_bytes (state_of self.now))) }
        ensures unchanged { OnErr result (buf.new ≡ buf.old) }
        ensures short { max self.now.score.limits.header (2 * self.now.score.limits.syllable) + 128
            ≤ length buf.old → IsOk result }
    {
        engine_laws::what_is_saved_is_a_state(self);
        let held = HeldSyllable::of(self.score());
        let fields = self.state_fields(held.len());
        fields.save_holding(&held, buf)
    }
}
