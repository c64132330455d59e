//! The writer of a run, with reserved rooms for its output and its messages.

ghost use Rattle.std.specs.Prelude.{◌≡◌, ◌+◌, ◌*◌, ◌^◌, ◌<◌, ◌≤◌, ℕ, [], IfOk, Some, true, length, string_bytes, encode_utf8_all};
ghost use Rattle.gabc_headers.specs.Canonical.{canonical_heads};
ghost use Rattle.gabc_body.specs.Canonical.{canonical_in_place, StandsFrom};
ghost use Rattle.gabc_write.specs.Message.{line_of};
ghost use Rattle.gabc_places.specs.BoundedList.{Fits};
ghost use Rattle.gabc_score.specs.GivesSyllables.{spelled_canonical};
ghost use Rattle.gabc_body.specs.ScoreEvents.{Found, Stop, Syllable as SyllableGiven, End};
ghost use Rattle.gabc_score.specs.NoNotes.{has_no_notes};
ghost use Rattle.gabc_score.specs.SpelledSyllable.{AreTextsOf, IsSpelling, Spells};
ghost use Rattle.gabc_body.specs.Syllable.{PlacedSyllable, placed_of, unplaced_of};
ghost use Rattle.gregorio_jobs.specs.declared.job.Format.TheVariants.{Gabc, Dump};
ghost use Rattle.gregorio.specs.Streams.{last_text};
ghost use Rattle.gregorio.specs.Outcome.{shown_line};
ghost use Rattle.gregorio.specs.witness.Engine.{if_headed, is_before_heads, text_of_heads, text_of_output};
ghost use Rattle.gregorio.specs.machine.ScoreWriter.{begun_again, fresh_writer};
ghost use Rattle.gregorio.specs.machine.RunWriter.{TakesJoinedText, TakesRuns, TakesText, syllable_len, out_room, heads_len, line_room, last_room, most_waiting, with_heads, with_joined, with_last, past_output, past_end};

use crate::findings::{input_name, is_error, put_finding};
use crate::rooms::{message_room, most_waiting as most_before_a_step, output_room};
use crate::run_ending::RunEnding;
use gabc_headers::Headers;
use gabc_neumes::Alterations;
use gabc_places::{Fault, Finding, Limits, Memory, Room};
use gabc_score::{Give, LentSyllable, SpelledSyllable};
use gabc_write::{
    canon_header, canon_lent, dump_end, dump_header, dump_laws, dump_spelled, dump_syllable,
    message_line,
};
use gregorio_jobs::{Format, Job};
use std::alloc::AllocError;
use std::marker::Model;

/// Writes the headers, syllables and messages of a run.
#[derive(Drop)]
pub(crate) struct RunWriter {
    format: Format,
    name: String<Memory>,
    all_warnings: bool,
    /// Whether the headers were written.
    headed: bool,
    /// The number of syllables written, which saturates.
    count: u64,
    /// The clef and the alterations in force after these syllables, in a dump.
    alterations: Alterations,
    /// Whether an error was found.
    errors: bool,
    /// The ending of the run, if it is over.
    ended: Option<RunEnding>,
    out: Room<u8>,
    messages: Room<u8>,
}

impl Model for RunWriter {
    ghost use Rattle.gregorio.specs.machine.RunWriter.{RunWriterState};
    ghost use Rattle.std.specs.Prelude.{string_bytes};

    ghost Value = { RunWriterState };

    ghost view = { λ w. record {
      written = record {
        format = w.format;
        name = string_bytes w.name;
        all_warnings = w.all_warnings;
        headed = w.headed;
        count = w.count;
        force = w.alterations;
        errors = w.errors;
        ended = w.ended;
      };
      out = w.out;
      messages = w.messages;
    } };
}

impl RunWriter {
    /// Returns a writer that has written nothing, and reserves in `memory` all the memory that it
    /// needs.
    pub(crate) fn with_limits(
        memory: &Memory,
        job: &Job,
        limits: Limits,
    ) -> Result<RunWriter, AllocError>
        ensures fresh { IfOk result (λ writer. writer.written ≡ fresh_writer job.now) }
        ensures empty { IfOk result (λ writer. (writer.out.items ≡ [])
            × (writer.messages.items ≡ [])) }
        ensures out { IfOk result (λ writer.
            out_room writer.written.format limits + most_waiting limits ≤ writer.out.limit) }
        ensures messages { IfOk result (λ writer.
            128 * line_room writer.written.name + most_waiting limits
            ≤ writer.messages.limit) }
    {
        let out = output_room(job.format, limits);
        let name = input_name(&job.input);
        Ok(RunWriter {
            format: job.format,
            name: String::from_str(memory.share()?, name)?,
            all_warnings: job.all_warnings,
            headed: false,
            count: 0,
            alterations: Alterations::new(),
            errors: false,
            ended: None,
            out: Room::in_memory(memory, out)?,
            messages: message_room(memory, name.len(), most_before_a_step(limits))?,
        })
    }

    /// Begins again as a new writer, which has written nothing, and drops the bytes that wait. The
    /// memory stays reserved.
    pub(crate) fn restart(&mut self)
        ensures { self.new ≡ record self.old {
          written = begun_again self.old.written;
          out = record self.old.out { items = [] };
          messages = record self.old.messages { items = [] };
        } }
    {
        self.headed = false;
        self.count = 0;
        self.alterations = Alterations::new();
        self.errors = false;
        self.ended = None;
        self.clear();
    }

    /// Resumes in the headers. `errors` says whether an error was found in them.
    pub(crate) fn go_on_in_headers(&mut self, errors: bool)
        ensures { self.new
            ≡ record self.old { written = record self.old.written { errors = errors } } }
    {
        self.errors = errors;
    }

    /// Resumes after the headers and `count` syllables that were written, after which `alterations`
    /// are in force. `errors` says whether an error was found.
    pub(crate) fn go_on_after(&mut self, count: u64, alterations: Alterations, errors: bool)
        ensures { self.new ≡ record self.old {
          written = record self.old.written {
            headed = true;
            count = count;
            force = alterations;
            errors = errors;
          };
        } }
    {
        self.headed = true;
        self.count = count;
        self.alterations = alterations;
        self.errors = errors;
    }

    /// Returns the format of the output.
    pub(crate) fn format(&self) -> Format
        ensures { result ≡ self.now.written.format }
    {
        self.format
    }

    /// Returns whether warnings are reported.
    pub(crate) fn all_warnings(&self) -> bool
        ensures { result ≡ self.now.written.all_warnings }
    {
        self.all_warnings
    }

    /// Returns the clef and the alterations in force after the syllables that were written, in a
    /// dump.
    pub(crate) fn alterations(&self) -> &Alterations
        ensures { result.now ≡ self.now.written.force }
    {
        &self.alterations
    }

    /// Returns whether an error was found.
    pub(crate) fn has_error(&self) -> bool
        ensures { result ≡ self.now.written.errors }
    {
        self.errors
    }

    /// Returns whether the headers were written.
    pub(crate) fn headed(&self) -> bool
        ensures { result ≡ self.now.written.headed }
    {
        self.headed
    }

    /// Returns the ending of the run, if it is over.
    pub(crate) fn ended(&self) -> Option<RunEnding>
        ensures { result ≡ self.now.written.ended }
    {
        self.ended
    }

    /// Writes `headers`, unless they were written or the run is over.
    pub(crate) fn heads(&mut self, headers: Headers<'_>)
        requires { is_before_heads self.old.written ≡ true →
            Fits self.old.out (heads_len self.old.written.format
            (length (encode_utf8_all (canonical_heads headers)))) }
        ensures writes { self.new ≡ with_heads self.old headers.entry }
        ensures short { length
            (text_of_heads self.old.written headers.entry (is_before_heads self.old.written))
            ≤ heads_len self.old.written.format
            (length (encode_utf8_all (canonical_heads headers.entry))) }
    {
        if self.headed || self.ended.is_some() {
            return;
        }
        self.headed = true;
        match self.format {
            Format::Gabc => canon_header(headers, &mut self.out),
            Format::Dump => dump_header(headers, &mut self.out),
        }
    }

    /// Writes the message of `finding`, if it is shown, and notes whether it is an error.
    pub(crate) fn found(&mut self, finding: Finding)
        requires { Fits self.old.messages (line_room self.old.written.name) }
        ensures writes { self.new ≡ past_output self.old (Found finding) }
        ensures short { length
            (shown_line self.old.written.name self.old.written.all_warnings finding)
            ≤ line_room self.old.written.name }
    {
        put_finding(
            self.name.as_str(),
            self.all_warnings,
            finding,
            &mut self.messages,
        );
        self.errors = self.errors || is_error(finding);
    }

    /// Ends the run at `fault`: writes its message, and the text after the syllables.
    pub(crate) fn fault(&mut self, fault: Fault)
        requires line { Fits self.old.messages (line_room self.old.written.name) }
        requires last { Fits self.old.out last_room }
        ensures writes { self.new ≡ past_output self.old (Stop fault) }
        ensures short { length (line_of self.old.written.name fault.place fault.code)
            ≤ line_room self.old.written.name }
        ensures last { length (text_of_output self.old.written (Stop fault)) ≤ last_room }
    {
        message_line(
            self.name.as_str(),
            fault.place,
            fault.code,
            &mut self.messages,
        );
        self.last(false);
        self.ended = Some(RunEnding::Fatal(fault));
    }

    /// Writes the syllable `lent`, if the headers were written.
    pub(crate) fn syllable(&mut self, lent: LentSyllable<'_>)
        requires fits { Fits self.old.out (syllable_len self.old.written.format
            (has_no_notes (unplaced_of lent.syllable.now))
            (length (canonical_in_place (placed_of lent.syllable.now)))) }
        requires stands { StandsFrom lent.kept_from (unplaced_of lent.syllable.now) }
        ensures writes { self.new ≡ past_output self.old (SyllableGiven (placed_of lent.entry.syllable.now)) }
        ensures short { length
            (text_of_output self.old.written (SyllableGiven (placed_of lent.entry.syllable.now)))
            ≤ syllable_len self.old.written.format
            (has_no_notes (unplaced_of lent.entry.syllable.now))
            (length (canonical_in_place (placed_of lent.entry.syllable.now))) }
    {
        dump_laws::a_dump_without_notes_is_shorter();
        if !self.headed {
            return;
        }
        self.count = self.count.saturating_add(1);
        match self.format {
            Format::Gabc => canon_lent(lent, &mut self.out),
            Format::Dump => dump_syllable(
                self.count,
                lent.syllable,
                &mut self.alterations,
                &mut self.out,
            ),
        }
    }

    /// Returns whether the writer takes the syllables of a run: after the headers and before the
    /// end.
    #[inline(always)]
    pub(crate) fn takes_runs(&self) -> bool
        ensures { result ≡ true → TakesRuns self.now.written }
    {
        self.headed && self.ended.is_none()
    }

    /// Returns whether there is room for a syllable of a run whose canonical text has at most `len`
    /// bytes.
    #[inline(always)]
    fn has_room(&self, len: usize) -> bool
        ensures { result ≡ true → (n : ℕ) → n ≤ len → TakesText self.now n }
    {
        if !self.takes_runs() {
            return false;
        }
        let left = self.out.left();
        match self.format {
            Format::Gabc => len <= left,
            Format::Dump => left >= 256 && len <= (left - 256) / 64,
        }
    }

    /// Writes `count` syllables, whose canonical texts are one after another in `text`, but for the
    /// LF before the first, if that begins a word, as `starts` says.
    #[inline(always)]
    fn put_joined(&mut self, starts: bool, text: &[u8], count: u64)
        requires { TakesJoinedText self.old (length text.now + 1) }
        ensures writes { self.new ≡ with_joined self.old (spelled_canonical starts text.now) count }
        ensures counts { self.old.written.count < 2 ^ 64 }
    {
        self.count = self.count.saturating_add(count);
        if starts {
            self.out.push(b'\n');
        }
        self.out.append(text);
    }

    /// Writes the lines of the syllable spelled by `syllable`, in a dump: of its `text`, of its
    /// `translation` with its brackets, and of its snippets.
    fn dump(&mut self, syllable: SpelledSyllable<'_>, text: &[u8], translation: &[u8])
        requires dump { self.old.written.format ≡ Dump }
        requires room { TakesText self.old (length syllable.canonical.now + 1) }
        requires spelling { IsSpelling syllable }
        requires texts { AreTextsOf syllable text.now translation.now }
        ensures { (s : PlacedSyllable) → Spells syllable.entry s →
            self.new ≡ past_output self.old (SyllableGiven s) }
    {
        dump_laws::a_dump_without_notes_is_shorter();
        self.count = self.count.saturating_add(1);
        dump_spelled(
            self.count,
            syllable,
            text,
            translation,
            &mut self.alterations,
            &mut self.out,
        );
    }

    /// Writes the text after the syllables, if the headers were written. `whole` says whether the
    /// syllables are those of the whole score.
    fn last(&mut self, whole: bool)
        requires { Fits self.old.out last_room }
        ensures writes { self.new ≡ with_last self.old whole }
        ensures short { length (if_headed self.old.written
            (last_text self.old.written.format whole self.old.written.count)) ≤ last_room }
    {
        if !self.headed {
            return;
        }
        match (self.format, whole) {
            (Format::Gabc, _) => self.out.append(b"\n"),
            (Format::Dump, true) => dump_end(self.count, &mut self.out),
            (Format::Dump, false) => {}
        }
    }

    /// Ends the run of an input that is read to its end: writes the text after the syllables.
    pub(crate) fn end(&mut self)
        requires { Fits self.old.out last_room }
        ensures writes { self.new ≡ past_output self.old End }
        ensures last { length (text_of_output self.old.written End) ≤ last_room }
    {
        self.last(true);
        self.ended = Some(if self.errors {
            RunEnding::Errors
        } else {
            RunEnding::Whole
        });
    }

    /// Ends the run, if it is not over, as one whose source has failed: writes the text after the
    /// syllables. Returns the ending of the run.
    pub(crate) fn cease(&mut self) -> RunEnding
        requires { Fits self.old.out last_room }
        ensures writes { self.new ≡ past_end self.old }
        ensures ended { self.new.written.ended ≡ Some result }
    {
        if let Some(ended) = self.ended {
            return ended;
        }
        self.last(false);
        self.ended = Some(RunEnding::ReadFault);
        RunEnding::ReadFault
    }

    /// Returns the bytes of the output that wait.
    pub(crate) fn out(&self) -> &[u8]
        ensures { result.now ≡ self.now.out.items }
    {
        self.out.slice()
    }

    /// Returns the bytes of the messages that wait.
    pub(crate) fn messages(&self) -> &[u8]
        ensures { result.now ≡ self.now.messages.items }
    {
        self.messages.slice()
    }

    /// Drops the bytes that wait.
    pub(crate) fn clear(&mut self)
        ensures { self.new ≡ record self.old {
          out = record self.old.out { items = [] };
          messages = record self.old.messages { items = [] };
        } }
    {
        self.out.clear();
        self.messages.clear();
    }
}

/// Writes the syllables of a run: joined in canonical form, each by itself in a dump. A dump leaves
/// a syllable if it is not known where its translation begins.
impl Give for RunWriter {
    ghost use Rattle.gregorio.specs.machine.OutputsOfARun.{past_both, past_none};
    ghost use Rattle.gregorio.specs.machine.RunWriter.{TakesJoinedText, past_syllables};

    ghost given = { past_syllables };

    ghost TakesJoined = { TakesJoinedText };

    ghost given_none = { past_none };

    ghost given_both = { past_both };

    fn give(&mut self, lent: LentSyllable<'_>, most: usize) -> bool {
        if !self.has_room(most) {
            return false;
        }
        self.syllable(lent);
        true
    }

    fn give_spelled(&mut self, syllable: SpelledSyllable<'_>) -> bool {
        let Format::Dump = self.format else {
            return false;
        };
        if !self.has_room(syllable.canonical.len() + 1) {
            return false;
        }
        let Some((text, translation)) = syllable.text_and_translation() else {
            return false;
        };
        self.dump(syllable, text, translation);
        true
    }

    fn joins(&self) -> usize {
        match self.format {
            Format::Gabc if self.takes_runs() => self.out.left(),
            _ => 0,
        }
    }

    fn give_joined(&mut self, starts: bool, text: &str, count: u64) {
        self.put_joined(starts, text.as_bytes(), count);
    }
}
