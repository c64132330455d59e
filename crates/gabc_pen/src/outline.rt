//! Finds the outline that shows a note, or the first notes of a neume.

ghost use Rattle.std.specs.Prelude.{◌≡◌, IsTrue, IfSome};
ghost use Rattle.gabc_marks.specs.Heads.{pitches_of_family};
ghost use Rattle.gabc_pen.specs.Notes.{pitches_of_planned};

use crate::note::{Liquescence, Note, Shape};
use crate::plan::{
    CLIVIS, GlyphKind, PES, PORRECTUS, PORRECTUS_FLEXUS, Planned, SCANDICUS, TORCULUS,
    TORCULUS_RESUPINUS,
};
use gabc_marks::{Ending, Family, Joined, Single};

/// Returns whether a note has a small head.
fn is_small(note: Note) -> bool {
    note.liquescence == Liquescence::Deminutus || note.is_debilis
}

/// Returns the head of an inclinatum.
fn inclinatum_head(note: Note) -> Single {
    if note.is_hollow {
        Single::InclinatumCavum
    } else if is_small(note) || note.liquescence == Liquescence::Diminished {
        Single::InclinatumDeminutus
    } else {
        Single::Inclinatum
    }
}

/// Returns the head of a note without its stem and its tail.
pub(crate) fn plain_head(planned: Planned) -> Single {
    let note = planned.note;
    match note.shape {
        Shape::Inclinatum => inclinatum_head(note),
        Shape::Oriscus | Shape::OriscusScapus if planned.is_up => Single::OriscusUp,
        Shape::Oriscus | Shape::OriscusScapus => Single::OriscusDown,
        Shape::Quilisma | Shape::QuilismaQuadratum => Single::Quilisma,
        Shape::Stropha | Shape::Distropha | Shape::Tristropha => Single::Stropha,
        Shape::Cavum => Single::Cavum,
        Shape::Linea => Single::Linea,
        _ if is_small(note) => Single::PunctumDeminutus,
        _ => Single::Punctum,
    }
}

/// Returns the outline of an inclinatum with its liquescence, if there is one.
fn whole_inclinatum(note: Note) -> Option<Single> {
    match note.liquescence {
        _ if note.is_hollow => None,
        Liquescence::None => None,
        Liquescence::Augmented => Some(Single::InclinatumAuctus),
        Liquescence::Deminutus | Liquescence::Diminished => Some(Single::InclinatumDeminutus),
    }
}

/// Returns the outline of an oriscus with its stem. Of the liquescent ones only a deminutus without
/// a stem has an outline of its own.
fn whole_oriscus(planned: Planned) -> Single {
    let has_stem = planned.note.shape == Shape::OriscusScapus;
    match (planned.is_up, has_stem) {
        (_, false) if planned.note.liquescence == Liquescence::Deminutus => {
            Single::OriscusDeminutus
        }
        (true, false) => Single::OriscusUp,
        (false, false) => Single::OriscusDown,
        (true, true) => Single::OriscusUpScapus,
        (false, true) => Single::OriscusDownScapus,
    }
}

/// Returns the outline of a punctum with its liquescence.
fn whole_punctum(note: Note) -> Single {
    match note.liquescence {
        _ if note.is_debilis => Single::PunctumDeminutus,
        Liquescence::None => Single::Punctum,
        Liquescence::Deminutus => Single::PunctumDeminutus,
        Liquescence::Augmented => Single::PunctumAscendens,
        Liquescence::Diminished => Single::PunctumDescendens,
    }
}

/// Returns the outline of a virga reversa with its liquescence, if there is one.
fn whole_reversa(note: Note) -> Option<Single> {
    match note.liquescence {
        Liquescence::None => Some(Single::VirgaReversa),
        Liquescence::Augmented => Some(Single::VirgaReversaAscendens),
        Liquescence::Diminished => Some(Single::VirgaReversaDescendens),
        Liquescence::Deminutus => None,
    }
}

/// Returns the one outline that shows a note by itself, with its stem, if there is one. It shows no
/// liquescence of a virga, a quilisma or a lined punctum.
pub(crate) fn whole(planned: Planned) -> Option<Single> {
    let note = planned.note;
    match note.shape {
        Shape::Inclinatum => whole_inclinatum(note),
        Shape::Oriscus | Shape::OriscusScapus => Some(whole_oriscus(planned)),
        Shape::Punctum | Shape::Quadratum => Some(whole_punctum(note)),
        Shape::Virga | Shape::Bivirga | Shape::Trivirga => Some(Single::Virga),
        Shape::VirgaReversa => whole_reversa(note),
        Shape::Stropha | Shape::Distropha | Shape::Tristropha => {
            let is_plain = note.liquescence == Liquescence::None;
            Some(if is_plain {
                Single::Stropha
            } else {
                Single::StrophaAucta
            })
        }
        Shape::Quilisma => Some(Single::Quilisma),
        Shape::Lined => Some(Single::LineaPunctum),
        Shape::QuilismaQuadratum | Shape::Cavum | Shape::Linea => None,
    }
}

/// Returns the index and the shape of the only note of `planned` that is no punctum; nothing if all
/// are puncta, or if several are not.
fn other_shape(planned: &[Planned]) -> Option<(usize, Shape)> {
    let mut found = None;
    for (at, it) in planned.iter().enumerate() {
        if it.note.shape != Shape::Punctum {
            if found.is_some() {
                return None;
            }
            found = Some((at, it.note.shape));
        }
    }
    found
}

/// Returns whether all notes of `planned` are puncta.
fn are_puncta(planned: &[Planned]) -> bool {
    planned.iter().all(|it| it.note.shape == Shape::Punctum)
}

/// Returns the family of the outline for `planned` in a neume of this `kind`, if there is one.
fn family_of(kind: GlyphKind, planned: &[Planned]) -> Option<Family> {
    if are_puncta(planned) {
        return match kind.base {
            PES => Some(Family::Pes),
            CLIVIS => Some(Family::Flexus),
            TORCULUS => Some(Family::Torculus),
            PORRECTUS => Some(Family::Porrectus),
            SCANDICUS => Some(Family::Scandicus),
            TORCULUS_RESUPINUS => Some(Family::TorculusResupinus),
            PORRECTUS_FLEXUS => Some(Family::PorrectusFlexus),
            _ => None,
        };
    }
    match (kind.base, other_shape(planned)?) {
        (PES, (0, Shape::Quilisma)) => Some(Family::QuilismaPes),
        (PES, (0, Shape::Oriscus)) => Some(Family::PesQuassus),
        (PES, (0, Shape::Quadratum)) => Some(Family::PesQuadratum),
        (PES, (0, Shape::QuilismaQuadratum)) => Some(Family::QuilismaPesQuadratum),
        (CLIVIS, (0, Shape::Oriscus)) => Some(Family::FlexusOriscus),
        (TORCULUS, (0, Shape::Quilisma)) => Some(Family::TorculusQuilisma),
        (TORCULUS_RESUPINUS, (0, Shape::Quilisma)) => Some(Family::TorculusResupinusQuilisma),
        (SCANDICUS, (1, Shape::Oriscus)) => Some(Family::Salicus),
        _ => None,
    }
}

/// Returns the number of steps by which the note `at` is higher or lower than the one before; 0 if
/// either is missing.
fn steps_at(planned: &[Planned], at: usize) -> u8 {
    let before = at.checked_sub(1).and_then(|before| planned.get(before));
    match (before, planned.get(at)) {
        (Some(before), Some(it)) => before.note.pitch.abs_diff(it.note.pitch),
        _ => 0,
    }
}

/// Returns the ending of an outline whose last note is `note`.
fn ending_of(note: Note) -> Ending {
    match note.liquescence {
        Liquescence::None => Ending::Plain,
        Liquescence::Deminutus => Ending::Deminutus,
        Liquescence::Augmented => Ending::Ascendens,
        Liquescence::Diminished => Ending::Descendens,
    }
}

/// Returns whether `planned` are notes of these pitches, each of which sounds once.
fn have_pitches(planned: &[Planned], pitches: &[u16]) -> bool
    ensures { IsTrue result → pitches_of_planned planned.now ≡ pitches.now }
{
    if planned.len() != pitches.len() {
        return false;
    }
    for (at, it) in planned.iter().enumerate() {
        if it.note.times != 1 || u16::from(it.note.pitch) != pitches[at] {
            return false;
        }
    }
    true
}

/// Returns whether the outline `joined` shows just the notes of `planned`, of which the first has
/// this `pitch`.
fn shows(joined: Joined, pitch: u8, planned: &[Planned]) -> bool
    ensures { IsTrue result → pitches_of_planned planned.now
        ≡ pitches_of_family joined.family pitch joined.first joined.second joined.third }
{
    let p = u16::from(pitch);
    let a = u16::from(joined.first);
    let b = u16::from(joined.second);
    let c = u16::from(joined.third);
    let falls = p.saturating_sub(a);
    let turns = (p + a).saturating_sub(b);
    match joined.family {
        Family::Flexus | Family::FlexusOriscus => have_pitches(planned, &[p, falls]),
        Family::Torculus | Family::TorculusQuilisma => have_pitches(planned, &[p, p + a, turns]),
        Family::Porrectus => have_pitches(planned, &[p, falls, falls + b]),
        Family::Scandicus | Family::Salicus => have_pitches(planned, &[p, p + a, p + a + b]),
        Family::TorculusResupinus | Family::TorculusResupinusQuilisma => {
            have_pitches(planned, &[p, p + a, turns, turns + c])
        }
        Family::PorrectusFlexus => {
            have_pitches(
                planned,
                &[p, falls, falls + b, (falls + b).saturating_sub(c)],
            )
        }
        Family::Pes
        | Family::PesQuadratum
        | Family::PesQuassus
        | Family::QuilismaPes
        | Family::QuilismaPesQuadratum => have_pitches(planned, &[p, p + a]),
    }
}

/// Returns `joined` if there is an outline of it.
fn known(joined: Joined) -> Option<Joined> {
    if joined.metrics().is_some() {
        Some(joined)
    } else {
        None
    }
}

/// Returns the outline of the notes of `planned`, from `first` to `last`, if the table has one: for
/// a pes with an ending or an initio debilis that of a pes quadratum will do.
fn candidate(kind: GlyphKind, planned: &[Planned], first: Note, last: Note) -> Option<Joined> {
    let joined = Joined {
        family: family_of(kind, planned)?,
        first: steps_at(planned, 1),
        second: steps_at(planned, 2),
        third: steps_at(planned, 3),
        is_debilis: first.is_debilis,
        ending: ending_of(last),
    };
    let is_ended = joined.is_debilis || joined.ending != Ending::Plain;
    let other = if joined.family == Family::Pes && is_ended {
        known(Joined {
            family: Family::PesQuadratum,
            ..joined
        })
    } else {
        None
    };
    known(joined).or(other)
}

/// Returns the one outline that shows all notes of `planned`, the first ones of a neume of this
/// `kind`, if there is one. The first note has this `pitch`.
pub(crate) fn joined_outline(kind: GlyphKind, pitch: u8, planned: &[Planned]) -> Option<Joined>
    ensures { IfSome result (λ joined. pitches_of_planned planned.now
        ≡ pitches_of_family joined.family pitch joined.first joined.second joined.third) }
{
    let (first, last) = (planned.first()?.note, planned.last()?.note);
    let joined = candidate(kind, planned, first, last)?;
    let is_fit = liquescence_is_last(planned) && shows(joined, pitch, planned);
    if is_fit { Some(joined) } else { None }
}

/// Returns whether no note of `planned` but the last one is liquescent.
fn liquescence_is_last(planned: &[Planned]) -> bool {
    match planned {
        [before @ .., _] => before
            .iter()
            .all(|it| it.note.liquescence == Liquescence::None),
        [] => true,
    }
}
