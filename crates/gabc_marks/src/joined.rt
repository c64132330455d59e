//! Outlines that show several notes.

use crate::head::Metrics;
use crate::outlines::outline_of;

/// The neume that a joined outline shows, and its form (GregorioRef, "Neume Fusion").
#[derive(Clone, Copy, Debug, PartialEq, Eq)]
pub enum Family {
    Pes,
    PesQuadratum,
    PesQuassus,
    QuilismaPes,
    QuilismaPesQuadratum,
    Flexus,
    FlexusOriscus,
    Torculus,
    TorculusQuilisma,
    Porrectus,
    Scandicus,
    Salicus,
    TorculusResupinus,
    TorculusResupinusQuilisma,
    PorrectusFlexus,
}

/// The ending of the last note of a joined outline.
#[derive(Clone, Copy, Debug, PartialEq, Eq)]
pub enum Ending {
    Plain,
    Deminutus,
    Ascendens,
    Descendens,
}

/// An outline of a neume: its family, the steps between each note and the one before, whether it
/// begins with an initio debilis, and its ending. Steps that the family does not have are 0.
#[derive(Clone, Copy, Debug, PartialEq, Eq)]
pub struct Joined {
    pub family: Family,
    pub first: u8,
    pub second: u8,
    pub third: u8,
    pub is_debilis: bool,
    pub ending: Ending,
}

impl Joined {
    /// Returns its number in the table of outlines.
    fn key(self) -> u16 {
        let family = (self.family as u16).saturating_mul(4096);
        let first = u16::from(self.first).saturating_mul(512);
        let second = u16::from(self.second).saturating_mul(64);
        let third = u16::from(self.third).saturating_mul(8);
        let debilis = if self.is_debilis { 4 } else { 0 };
        [first, second, third, debilis, self.ending as u16]
            .iter()
            .fold(family, |key, more| key.saturating_add(*more))
    }

    /// Returns the width of its outline and its reach up and down from its first note, if the table
    /// has one.
    pub fn metrics(self) -> Option<Metrics> {
        if 7 < self.first || 7 < self.second || 7 < self.third {
            return None;
        }
        outline_of(self.key())
    }
}
