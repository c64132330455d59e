//! Laws of the definitions that contracts use. Each function's contract is a law; its body calls
//! the laws below that it rests on.

ghost use Rattle.std.specs.Prelude.{◌≡◌, ℕ, ◌≤◌, List, [], length, true, false, IsSome, None, Some};
ghost use Rattle.std.specs.Io.KnownBytes.{Appends};
ghost use Rattle.gabc_places.specs.declared.limits.Limits.{Limits};
ghost use Rattle.gabc_places.specs.LargerLimits.{AreNoLess};
ghost use Rattle.gabc_headers.specs.TooLong.{is_stopped_too_long};
ghost use Rattle.gregorio_jobs.specs.declared.job.Job.{Job};
ghost use Rattle.gregorio_jobs.specs.declared.job.Status.{Status};
ghost use Rattle.gregorio_jobs.specs.declared.job.Status.TheVariants.{Whole as RunWhole};
ghost use Rattle.gregorio.specs.declared.source_ending.SourceEnding.{SourceEnding};
ghost use Rattle.gregorio.specs.declared.source_ending.SourceEnding.TheVariants.{Whole};
ghost use Rattle.gregorio_jobs.specs.declared.job.Format.TheVariants.{Gabc};
ghost use Rattle.gregorio.specs.CanonicalAgain.{IsOutcomeAgain};
ghost use Rattle.gregorio.specs.PrefixOfAStop.{IsPrefixBeforeStop};
ghost use Rattle.gregorio.specs.Outcome.{is_read_whole, outcome_of, output_of};
ghost use Rattle.gregorio_jobs.specs.declared.job.Format.{Format};
ghost use Rattle.gregorio.specs.Run.{Use, Done};

/// Law: a canonical output whose headers are whole, also that of a run that was stopped or broken
/// off, is compiled again under the same limits, or larger ones, without a fault and without an
/// error: it has the same book, its syllables say the same, its canonical output is the same, and
/// its dump is that of this book and these syllables. No canonical output has more bytes than the
/// input may have.
pub fn canonical_again()
    ensures again { (limits larger : Limits) (ending : SourceEnding) (bytes : List ℕ) →
        let first = outcome_of limits ending bytes in
        AreNoLess limits larger → IsSome first.score.book →
        IsOutcomeAgain first (outcome_of larger Whole (output_of Gabc first)) }
    ensures short { (limits : Limits) (ending : SourceEnding) (bytes : List ℕ) →
        length (output_of Gabc (outcome_of limits ending bytes)) ≤ limits.input }
{
    gabc_places::laws::texts_are_plain();
    gabc_places::laws::texts_are_scalars_within_the_limit();
    gabc_body::by_kept_laws::a_score_says_what_is_kept();
    gabc_score::laws::snippets_stand_between_characters();
    gabc_write::laws::score_again();
    gabc_write::laws::syllables_that_say_the_same_have_one_dump();
}

/// Law: a run to canonical form over a source that holds a canonical output whose headers are
/// whole, and that does not fail, writes this output again under the same limits or larger ones, if
/// it writes all, and its status is `Whole`.
pub fn a_run_over_an_output_repeats_it()
    ensures { (job : Job) (limits larger : Limits) (ending : SourceEnding) (bytes : List ℕ)
        (source out messages : Use) (status : Status) →
        let first = outcome_of limits ending bytes in
        AreNoLess limits larger → IsSome first.score.book → job.format ≡ Gabc →
        source.old ≡ Some (output_of Gabc first) →
        source.calls_new.failures ≡ source.calls_old.failures →
        Done job larger source out messages status →
        Appends out.old out.new (output_of Gabc first) × (status ≡ RunWhole) }
{
    canonical_again();
}

/// Law: a run that is stopped after its headers, by a fault or by a source that failed, writes what
/// a prefix of its bytes writes when it is read as a whole: the bytes of its text through the `)`
/// of the last whole syllable, or through the `%%`, if there is none. This prefix has no fault, the
/// same book and the same syllables. Only its dump has one line more, the last. A run that is
/// stopped before has no output.
pub fn a_stopped_run_writes_what_its_prefix_writes()
    ensures prefix { (limits : Limits) (ending : SourceEnding) (bytes : List ℕ)
        (book : List (List ℕ × List ℕ)) →
        let first = outcome_of limits ending bytes in
        is_read_whole first ≡ false → first.score.book ≡ Some book →
        (count : ℕ) × IsPrefixBeforeStop limits ending bytes book count }
    ensures none { (limits : Limits) (ending : SourceEnding) (bytes : List ℕ) (format : Format) →
        let first = outcome_of limits ending bytes in
        first.score.book ≡ None → output_of format first ≡ [] }
{
    gabc_places::laws::a_prefix_of_a_text_is_read_of_a_prefix_of_its_bytes();
    gabc_places::laws::texts_are_scalars_within_the_limit();
    gabc_body::by_kept_laws::a_score_says_what_is_kept();
    gabc_score::laws::a_body_has_one_cutting();
    gabc_score::laws::whole_prefixes_are_first_characters();
    gabc_score::laws::the_syllables_are_those_of_the_units();
    gabc_score::laws::a_stopped_score_is_that_of_its_prefix();
}

/// Law: larger limits change nothing if neither the headers nor a syllable were too long: the
/// outcome is the same under limits that are no less, if the limit of the input is the same.
pub fn larger_limits_change_nothing()
    ensures { (limits larger : Limits) (ending : SourceEnding) (bytes : List ℕ) →
        AreNoLess limits larger → limits.input ≡ larger.input →
        is_stopped_too_long (outcome_of limits ending bytes).score.fault ≡ false →
        outcome_of larger ending bytes ≡ outcome_of limits ending bytes }
{
    gabc_places::laws::texts_are_scalars_within_the_limit();
    gabc_body::by_kept_laws::a_score_says_what_is_kept();
    gabc_score::laws::larger_limits_change_no_score();
}
