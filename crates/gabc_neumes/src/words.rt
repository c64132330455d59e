//! The words of kinds of glyphs, and of alterations.

ghost use Rattle.std.specs.Prelude.{◌≡◌, Some};
ghost use Rattle.gabc_neumes.specs.Words.{shape_word, base_word, tail_word, kind_word, alter_word};

use crate::glyph::{Base, GlyphKind, Tail};
use crate::sound::Alter;
use gabc_notes::Shape;
use std::fmt;

/// Returns the word of `shape`, such as `virga-reversa`: the kind of a glyph of one such note.
pub fn word_of_shape(shape: Shape) -> &'static str
    ensures { result.now ≡ shape_word shape }
{
    match shape {
        Shape::Punctum => "punctum",
        Shape::Inclinatum => "inclinatum",
        Shape::Virga => "virga",
        Shape::Bivirga => "bivirga",
        Shape::Trivirga => "trivirga",
        Shape::VirgaReversa => "virga-reversa",
        Shape::Stropha => "stropha",
        Shape::Distropha => "distropha",
        Shape::Tristropha => "tristropha",
        Shape::Oriscus => "oriscus",
        Shape::OriscusScapus => "oriscus-scapus",
        Shape::Quilisma => "quilisma",
        Shape::QuilismaQuadratum => "quilisma-quadratum",
        Shape::Quadratum => "quadratum",
        Shape::Cavum => "cavum",
        Shape::Lined => "lined",
        Shape::Linea => "linea",
    }
}

/// Returns the word of `base`, such as `scandicus-flexus`.
pub fn word_of_base(base: Base) -> &'static str
    ensures { result.now ≡ base_word base }
{
    match base {
        Base::Pes => "pes",
        Base::Clivis => "clivis",
        Base::Torculus => "torculus",
        Base::Porrectus => "porrectus",
        Base::Scandicus => "scandicus",
        Base::ScandicusFlexus => "scandicus-flexus",
        Base::TorculusResupinus => "torculus-resupinus",
        Base::PorrectusFlexus => "porrectus-flexus",
        Base::TorculusResupinusFlexus => "torculus-resupinus-flexus",
        Base::Climacus => "climacus",
        Base::Inclinata => "inclinata",
        Base::One(shape) => word_of_shape(shape),
    }
}

/// Returns the word of `tail` after `base`, which is empty for a plain one. A climacus has its
/// falling inclinata already.
pub fn word_of_tail(base: Base, tail: Tail) -> &'static str
    ensures { result.now ≡ tail_word base tail }
{
    match (base, tail) {
        (_, Tail::Plain) => "",
        (_, Tail::Subpunctis) => "-subpunctis",
        (Base::Climacus, Tail::Resupinus) => "-resupinus",
        (_, Tail::Resupinus) => "-subpunctis-resupinus",
    }
}

/// Prints the kind's word, such as `pes-subpunctis-resupinus`.
impl fmt::Display for GlyphKind {
    ghost output = { λ k. Some (kind_word k) };

    fn fmt<W: fmt::Write>(&self, f: &mut fmt::Formatter<W>) -> fmt::Result {
        let GlyphKind { base, tail } = *self;
        write!(f, "{}{}", word_of_base(base), word_of_tail(base, tail))
    }
}

/// Returns the word of `alter`, such as `flat`; that of `Alter::None` is `none`.
pub fn word_of_alter(alter: Alter) -> &'static str
    ensures { result.now ≡ alter_word alter }
{
    match alter {
        Alter::None => "none",
        Alter::Flat => "flat",
        Alter::Natural => "natural",
        Alter::Sharp => "sharp",
    }
}

/// Prints the alteration's word, such as `flat`.
impl fmt::Display for Alter {
    ghost output = { λ a. Some (alter_word a) };

    fn fmt<W: fmt::Write>(&self, f: &mut fmt::Formatter<W>) -> fmt::Result {
        write!(f, "{}", word_of_alter(*self))
    }
}
