//! The syllables of a run that wait to be given together.

ghost use Rattle.std.specs.Prelude.{◌≡◌, ◌+◌, ◌-◌, ◌<◌, ◌≤◌, ℕ, List, drop, length, nat_lt};
ghost use Rattle.std.specs.String.Boundary.{IsSplitPoint};
ghost use Rattle.gabc_score.specs.GivesSyllables.{AreJoined};
ghost use Rattle.gabc_body.specs.Syllable.{PlacedSyllable};
ghost use Rattle.gabc_score.specs.machine.Run.{HasFront};

use crate::give::Give;

/// Syllables of a run that wait to be given together: each but the first begins no word, so that
/// their canonical texts are one after another in the text.
#[derive(Clone, Copy)]
pub(crate) struct Waiting<'a> {
    /// The text from that of the first of them on; if none waits, from that of the next one on.
    text: &'a str,
    /// Whether the first of them, or else the next one, begins a word.
    starts: bool,
    /// The number of syllables of the run before it.
    earlier: u64,
    /// The least number of bytes that they may not have together.
    most: usize,
}

impl<'a> Waiting<'a> {
    /// Returns the state in which none waits, before the syllable that `text` begins with, which
    /// has a gap of `gap` bytes before its text. `earlier` syllables of the run come before it, and
    /// fewer than `most` bytes may be given together.
    #[inline(always)]
    pub(crate) fn none(text: &'a str, gap: usize, earlier: u64, most: usize) -> Waiting<'a>
        requires { IsSplitPoint text.now gap }
        ensures text { result.text.now ≡ drop gap text.now }
        ensures starts { result.starts ≡ nat_lt 0 gap }
        ensures earlier { result.earlier ≡ earlier }
        ensures most { result.most ≡ most }
    {
        let (_, rest) = text.split_at(gap);
        Waiting {
            text: rest,
            starts: gap > 0,
            earlier,
            most,
        }
    }

    /// Returns whether some wait, if `count` syllables of the run come before the next one.
    #[inline(always)]
    pub(crate) fn is_some(self, count: u64) -> bool
        ensures { result ≡ nat_lt self.entry.earlier count }
    {
        self.earlier < count
    }

    /// Returns whether all but the last `left` bytes of the text may be given together.
    #[inline(always)]
    pub(crate) fn fits(self, left: usize) -> bool
        requires { left ≤ length self.text.now }
        ensures { result ≡ nat_lt (length self.entry.text.now - left) self.entry.most }
    {
        self.text.len() - left < self.most
    }

    /// Passes all but the last `left` bytes of the text to `out` at once: the syllables that wait,
    /// up to the one with `count` syllables of the run before it.
    #[inline(always)]
    pub(crate) fn give<G: Give>(self, count: u64, left: usize, out: &mut G)
        requires front { (front : List ℕ) × HasFront self.text.now front left }
        requires some { self.earlier ≤ count }
        requires fits { length self.text.now - left < self.most }
        requires joins { (n : ℕ) → 0 < n → n ≤ self.most → G.TakesJoined out.old n }
        ensures { (front : List ℕ) (joined : List PlacedSyllable) →
            HasFront self.entry.text.now front left →
            AreJoined self.entry.starts front (count - self.entry.earlier) joined →
            out.new ≡ G.given out.old joined }
    {
        let (joined, _) = self.text.split_at(self.text.len() - left);
        out.give_joined(self.starts, joined, count - self.earlier);
    }
}
