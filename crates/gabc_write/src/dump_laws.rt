//! A law of the dump of syllables without notes.

ghost use Rattle.std.specs.Prelude.{◌≡◌, ◌≤◌, ◌<◌, ◌+◌, ◌*◌, ◌^◌, ℕ, length, true};
ghost use Rattle.gabc_neumes.specs.InForce.{InForce};
ghost use Rattle.gabc_body.specs.Canonical.{canonical, starts_word};
ghost use Rattle.gabc_score.specs.NoNotes.{has_no_notes};
ghost use Rattle.gabc_body.specs.Syllable.{PlacedSyllable};
ghost use Rattle.gabc_write.specs.DumpOfSyllables.{lines_of_syllable};

/// Law: the lines of a syllable in a dump whose notes are one empty snippet of GABC are at most 2
/// bytes for each byte of its canonical text, and 128, whatever is in force before it.
pub fn a_dump_without_notes_is_shorter()
    ensures { (number : ℕ) (outset : InForce) (s : PlacedSyllable) → number < 2 ^ 64 →
        has_no_notes s.made ≡ true →
        length (lines_of_syllable number outset s)
        ≤ 2 * length (canonical (starts_word s.position) s.made) + 128 }
{}
