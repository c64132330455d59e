//! The clef and the alterations in force.

ghost use Rattle.std.specs.Prelude.{◌≡◌, ◌↔◌, ◌≤◌, [], ◌∷◌, length, IsSome, IfSome};
ghost use Rattle.gabc_notes.specs.Notes.{height_at};
ghost use Rattle.gabc_neumes.specs.Sound.{line_at, clef_at, sign_of, told};
ghost use Rattle.gabc_neumes.specs.InForce.{WordStart, AnItem, step_of, nothing_in_force, is_virgula, in_force_after, own_alter, sound_of};

use crate::sound::{Alter, Clef, Sound, degree};
use gabc_notes::{Item, ItemKind, height_of};
use std::marker::Model;

/// The number of heights of pitches: from 0 for `a` to 14 for `p`.
const HEIGHTS: usize = 15;

/// The clef and the alterations that are in force at a place of a score. It does not allocate.
///
/// The parts of the score are passed in their order: the start of each word by `start_word`, before
/// the first item of the syllable that begins it, and each item of the notes by `pass`. In
/// contracts it is the clef and the alteration of each height.
#[derive(Clone, Copy, Debug)]
pub struct Alterations {
    clef: Option<Clef>,
    /// The alteration of each height.
    alters: [Alter; HEIGHTS],
}

impl Model for Alterations {
    ghost use Rattle.std.specs.Prelude.{◌≡◌, ◌≤◌, length, IfSome};
    ghost use Rattle.gabc_neumes.specs.InForce.{InForce};

    ghost Value = { InForce };

    ghost view = { λ a. record { clef = a.clef; alters = a.alters } };

    ghost inverse = { λ v. record { clef = v.clef; alters = v.alters } };

    ghost invariant = { λ a. (length a.alters ≡ 15)
        × IfSome a.clef (λ clef. (1 ≤ clef.line) × (clef.line ≤ 5)) };
}

/// Returns the line at the beginning of `text`, which comes after the letters of a clef.
fn line_at(text: &[u8]) -> Option<u8>
    ensures line { result ≡ line_at text.now }
    ensures range { IfSome result (λ line. (1 ≤ line) × (line ≤ 5)) }
{
    match text {
        [line @ b'1'..=b'5', ..] => Some(*line - b'0'),
        _ => None,
    }
}

/// Returns the clef with which `text` begins: of two joined clefs the first.
fn clef_at(text: &[u8]) -> Option<Clef>
    ensures clef { result ≡ clef_at text.now }
    ensures range { IfSome result (λ clef. (1 ≤ clef.line) × (clef.line ≤ 5)) }
{
    let (f, flat, rest) = match text {
        [letter, b'b', rest @ ..] => (*letter == b'f', true, rest),
        [letter, rest @ ..] => (*letter == b'f', false, rest),
        [] => return None,
    };
    let line = line_at(rest)?;
    Some(Clef { f, flat, line })
}

/// Returns the alteration of `text`, by the sign after its pitch: `x` or `X` is a flat, `y` or `Y`
/// a natural, `#` a sharp (GregorioRef, "Additional Symbols").
pub fn sign_of(text: &[u8]) -> Alter
    ensures { result ≡ sign_of text.now }
{
    match text {
        [_, b'x' | b'X', ..] => Alter::Flat,
        [_, b'y' | b'Y', ..] => Alter::Natural,
        _ => Alter::Sharp,
    }
}

/// Returns the height of the pitch with which `text` begins.
fn height_at(text: &[u8]) -> u8
    ensures { result ≡ height_at text.now }
{
    match text {
        [pitch, ..] => height_of(*pitch),
        [] => 0,
    }
}

/// Returns whether the bar `text` is a virgula.
fn is_virgula(text: &[u8]) -> bool
    ensures { result ≡ is_virgula text.now }
{
    match text {
        [b'`', ..] => true,
        _ => false,
    }
}

/// Returns `own`, or if it is none a flat, if the clef has one.
fn told(own: Alter, flat_by_clef: bool) -> Alter
    ensures { result ≡ told own flat_by_clef }
{
    match own {
        Alter::None if flat_by_clef => Alter::Flat,
        _ => own,
    }
}

impl Alterations {
    /// Returns the state before a score: no clef and no alteration is in force.
    pub fn new() -> Alterations
        ensures { result ≡ nothing_in_force }
    {
        Alterations {
            clef: None,
            alters: [Alter::None; HEIGHTS],
        }
    }

    /// Returns the state with the clef `clef`, if there is one, and the alterations `alters` of the
    /// heights from 0 to 14, without the `b` of the clef. Returns `None` if the line of `clef` is
    /// none of 1 to 5.
    pub fn resume(clef: Option<Clef>, alters: [Alter; HEIGHTS]) -> Option<Alterations>
        ensures some { IsSome result ↔ IfSome clef (λ c. (1 ≤ c.line) × (c.line ≤ 5)) }
        ensures made { IfSome result (λ a. a ≡ record { clef = clef; alters = alters }) }
    {
        match clef {
            Some(clef) if clef.line < 1 || 5 < clef.line => None,
            _ => Some(Alterations { clef, alters }),
        }
    }

    /// Passes the start of a word: no alteration is in force after it.
    pub fn start_word(&mut self)
        ensures { self.new ≡ in_force_after self.old (WordStart ∷ []) }
    {
        self.alters = [Alter::None; HEIGHTS];
    }

    /// Passes a clef with the text `text`.
    fn pass_clef(&mut self, text: &[u8])
        ensures { self.new ≡ in_force_after self.old (AnItem ItemKind.Clef text.now ∷ []) }
    {
        if let Some(clef) = clef_at(text) {
            self.clef = Some(clef);
        }
        self.alters = [Alter::None; HEIGHTS];
    }

    /// Passes a bar with the text `text`.
    fn pass_bar(&mut self, text: &[u8])
        ensures { self.new ≡ in_force_after self.old (AnItem ItemKind.Bar text.now ∷ []) }
    {
        // the number of heights is known where a field is used
        let _ = &self.alters;
        if !is_virgula(text) {
            self.alters = [Alter::None; HEIGHTS];
        }
    }

    /// Passes an alteration with the text `text`.
    fn pass_alteration(&mut self, text: &[u8])
        ensures { self.new ≡ in_force_after self.old (AnItem ItemKind.Alteration text.now ∷ []) }
    {
        let height = height_at(text);
        if (height as usize) < HEIGHTS {
            self.alters[height as usize] = sign_of(text);
        }
    }

    /// Passes `item`, an item of `kept`. A clef is in force after it, of two joined clefs the
    /// first, and no alteration (GregorioRef, "Clefs"). An alteration is in force at its own height
    /// ("Additional Symbols"). After a bar that is no virgula no alteration is in force
    /// ("Separation Bars"). After each other item the same is in force as before it. The span of
    /// `item` has to lie within `kept`, as that of each item of `items_whole` does.
    pub fn pass(&mut self, kept: &str, item: Item)
        requires { (item.span.from ≤ item.span.to) × (item.span.to ≤ length kept.now) }
        ensures { self.new ≡ in_force_after self.old (step_of kept.now item ∷ []) }
    {
        // the number of heights is known where a field is used
        let _ = &self.alters;
        let text = &kept.as_bytes()[item.span.from..item.span.to];
        match item.kind {
            ItemKind::Clef => self.pass_clef(text),
            ItemKind::Bar => self.pass_bar(text),
            ItemKind::Alteration => self.pass_alteration(text),
            _ => {}
        }
    }

    /// Returns the clef in force, if there is one.
    pub fn clef(&self) -> Option<Clef>
        ensures clef { result ≡ self.now.clef }
        ensures range { IfSome result (λ clef. (1 ≤ clef.line) × (clef.line ≤ 5)) }
    {
        self.clef
    }

    /// Returns the alterations in force at the heights from 0 to 14, without the `b` of the clef.
    pub fn alters(&self) -> [Alter; HEIGHTS]
        ensures { result ≡ self.now.alters }
    {
        self.alters
    }

    /// Returns the alteration in force at `height`, without the `b` of the clef. A height above 14,
    /// that of `p`, has none.
    pub fn own(&self, height: u8) -> Alter
        ensures { result ≡ own_alter self.now height }
    {
        match self.alters.get(height as usize) {
            Some(alter) => *alter,
            None => Alter::None,
        }
    }

    /// Returns the sound of a note at the height `height`: its degree under the clef in force, and
    /// the alteration in force at `height`; if there is none, the flat by which the clef's `b`
    /// makes a si flat.
    pub fn sound(&self, height: u8) -> Sound
        ensures { result ≡ sound_of self.now height }
    {
        let own = self.own(height);
        let Some(clef) = self.clef else {
            return Sound {
                degree: None,
                alter: own,
            };
        };
        let degree = degree(clef, height);
        Sound {
            degree: Some(degree),
            alter: told(own, clef.flat && degree == 6),
        }
    }
}
