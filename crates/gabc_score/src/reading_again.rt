//! The reading of a text that emits nothing: of the texts of a state, and of the last syllable of a
//! run.

ghost use Rattle.std.specs.Prelude.{◌≡◌, ◌&&◌, ℕ, [], ◌∷◌, ◌++◌, true, false, cond, None, is_some};
ghost use Rattle.std.specs.List.{list_any};
ghost use Rattle.std.specs.Str.{chars};
ghost use Rattle.gabc_score.specs.ReadAgain.{ComesBefore, ReportsReading, ReportsTheSameBut};
ghost use Rattle.gabc_score.specs.ScoreReports.{before_of, openers_of, reading_of};
ghost use Rattle.gabc_places.specs.TextOfAnInput.{IsText};
ghost use Rattle.gabc_score.specs.ReportedWithin.{AreOpenersBefore, IsPlace, ReportsText};
ghost use Rattle.gabc_score.specs.witness.ReadAgain.{CanBeReadAgain};
ghost use Rattle.gabc_score.specs.witness.ScoreStage.{ScoreStageState};
ghost use Rattle.gabc_score.specs.machine.PartKeeps.{KeptParts, PartKeeps};
ghost use Rattle.gabc_score.specs.machine.ReadsSilently.{ReadsTextSilently, ReadsSilently, ReadsKept};
ghost use Rattle.gabc_score.specs.machine.ReadAgain.{opened_part};
ghost use Rattle.gabc_score.specs.machine.ReadAlone.{is_error};
ghost use Rattle.gabc_score.specs.machine.ReadsChar.{StandsInBody};
ghost use Rattle.gabc_score.specs.machine.ScoreMachine.{IsScore};

use crate::body_stage::{BodyPart, BodyStage};
use crate::body_tells::Openers;
use crate::kept_laws;
use crate::score_machine::{ScoreMachine, ScorePart};
use crate::score_stage::ScoreStage;
use gabc_places::{Char, Finding, Place, Severity};

/// What became of the current syllable, of which characters were read without emitting events.
#[derive(Clone, Copy)]
pub(crate) enum SyllableRead {
    /// It is not whole.
    Open,
    /// It is whole, and pending from then on.
    Whole,
    /// It was given up.
    GivenUp,
}

impl BodyStage {
    /// Sets the places of the open brackets to those of `openers`, or to 1:1 if it has none.
    fn open_at(&mut self, openers: Openers)
        ensures opened { self.new ≡ record self.old { part = opened_part openers self.old.part } }
        ensures keeps { (lines macros : ℕ) (p : KeptParts) →
            PartKeeps lines macros self.old.part p → PartKeeps lines macros self.new.part p }
    {
        let inner = openers.inner.unwrap_or(Place::START);
        let outer = openers.notes.unwrap_or(Place::START);
        match &mut self.part {
            BodyPart::Comment => {}
            BodyPart::Text(stage) => stage.open_at(inner),
            BodyPart::Notes { opened, stage } => {
                *opened = outer;
                stage.open_at(inner);
            }
            BodyPart::Nabc { opened, .. } => *opened = outer,
        }
    }
}

/// Returns whether `finding` is an error.
fn is_error(finding: Finding) -> bool
    ensures { result ≡ is_error finding }
{
    match finding.code.severity() {
        Severity::Warning => false,
        Severity::Error | Severity::Fatal => true,
    }
}

/// Returns whether an error is among `found`.
fn has_error(found: &[Finding]) -> bool
    ensures { result ≡ list_any is_error found.now }
{
    found.iter().any(|finding| is_error(*finding))
}

/// Returns whether `is_strict` and an error is among `found`.
fn is_refused(is_strict: bool, found: &[Finding]) -> bool
    ensures { result ≡ (is_strict && list_any is_error found.now) }
{
    is_strict && has_error(found)
}

impl ScoreMachine {
    /// Reads the character `c` at the next place, and emits nothing. The syllable is given up if a
    /// limit is passed, or if `is_strict` and an error is found; other findings are dropped.
    fn read_silently(&mut self, c: char, is_strict: bool) -> SyllableRead
        requires { StandsInBody self.old }
        ensures { ReadsSilently is_strict self.old c result self.new }
    {
        let place = self.next;
        self.gather(Char { c, place });
        self.next = place.saturating_after(c);
        if self.pair.reads_on() && self.found.slice().is_empty() {
            return SyllableRead::Open;
        }
        let is_refused = is_refused(is_strict, self.found.slice());
        self.found.clear();
        if is_refused || self.pair.code(self.limits).is_some() {
            return SyllableRead::GivenUp;
        }
        if !self.pair.is_whole() {
            return SyllableRead::Open;
        }
        self.pair.rotate();
        SyllableRead::Whole
    }

    /// Reads the characters of `text`, each as `read_silently` does. The syllable is given up too
    /// if a character follows once it is whole.
    pub(crate) fn read_text_silently(&mut self, text: &str, is_strict: bool) -> SyllableRead
        requires { StandsInBody self.old }
        ensures { ReadsTextSilently is_strict SyllableRead.Open self.old (chars text.now)
            result self.new }
    {
        let mut syllable = SyllableRead::Open;
        for c in text.chars() {
            let SyllableRead::Open = syllable else {
                return SyllableRead::GivenUp;
            };
            syllable = self.read_silently(c, is_strict);
        }
        syllable
    }

    /// Reads the kept text `kept` again, and the `%` of a comment after it if `in_comment`.
    fn read_reported(&mut self, kept: &str, in_comment: bool) -> SyllableRead
        requires { StandsInBody self.old }
        ensures { ReadsTextSilently false SyllableRead.Open self.old
            (chars kept.now ++ cond in_comment (37 ∷ []) []) result self.new }
    {
        let syllable = self.read_text_silently(kept, false);
        if !in_comment {
            return syllable;
        }
        let SyllableRead::Open = syllable else {
            return SyllableRead::GivenUp;
        };
        self.read_silently('%', false)
    }

    /// Reads `kept` again, the kept text of a syllable of which nothing is read yet. After it the
    /// brackets at `openers` are open, a comment is open if `in_comment`, and the next character is
    /// at `next`. Returns whether no syllable became whole, and no limit was passed; if not, the
    /// reading is over. Outside the body it changes nothing and returns `false`.
    pub(crate) fn read_again(
        &mut self,
        kept: &str,
        openers: Openers,
        in_comment: bool,
        next: Place,
    ) -> bool
        requires rests { IsScore self.old }
        ensures rests { IsScore self.new }
        ensures reads { ReadsKept self.old kept.now openers in_comment next result self.new }
    {
        let ScorePart::Body = self.part else {
            return false;
        };
        let SyllableRead::Open = self.read_reported(kept, in_comment) else {
            self.part = ScorePart::Over;
            return false;
        };
        self.body.open_at(openers);
        self.go_to(next);
        true
    }
}

impl ScoreStage {
    /// Reads `kept` again, the kept text of a syllable that is not whole. The stage is before this
    /// syllable, of which nothing is read, and in no comment. After the text the brackets at
    /// `openers` are open, a comment is open if `in_comment`, and the next character is at `next`.
    /// Nothing is emitted, and findings are left out. Returns whether no syllable became whole and
    /// no limit was passed. If so, what comes before and the pending syllable are unchanged; else
    /// the stage is over. If some stage past the comment in front, after the same and under the
    /// same limits, reports this of the syllable that it reads, then the answer is `true`, and this
    /// stage reports the same. What it reports stays that of a text, if `kept` is one of an input
    /// and the places of `openers` are in order and before `next`. Outside the body it changes
    /// nothing and returns `false`.
    pub fn read_again(
        &mut self,
        kept: &str,
        openers: Openers,
        in_comment: bool,
        next: Place,
    ) -> bool
        ensures limits { self.new.limits ≡ self.old.limits }
        ensures same { result ≡ true → ReportsTheSameBut self.old self.new next }
        ensures over { result ≡ false → before_of self.new ≡ None }
        ensures ends { result ≡ false → self.old.part ≡ ScorePart.Body →
            self.new.part ≡ ScorePart.Over }
        ensures outside { (self.old.part ≡ ScorePart.Body → ⊥) →
            (result ≡ false) × (self.new ≡ self.old) }
        ensures told { result ≡ true → IsPlace next →
            AreOpenersBefore next (openers_of self.new.body.part) →
            IsText (reading_of self.new) → ReportsText self.old → ReportsText self.new }
        ensures again { (told : ScoreStageState) → CanBeReadAgain told →
            told.limits ≡ self.old.limits → before_of told ≡ before_of self.old →
            ReportsReading told kept.now openers in_comment → ComesBefore self.old →
            (result ≡ true) × ReportsReading self.new kept.now openers in_comment }
    {
        kept_laws::laws_of_stages();
        gabc_text::laws::what_is_open_stays_open_elsewhere();
        self.machine.read_again(kept, openers, in_comment, next)
    }
}
