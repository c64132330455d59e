//! The reports of a stage over a text, and how it is restored from them.

ghost use Rattle.std.specs.Prelude.{◌≡◌, ℕ, List, option_map};
ghost use Rattle.gabc_text.specs.witness.Keeps.{Keeps};
ghost use Rattle.gabc_text.specs.StageReports.{opener_of, is_in_comment, IsNext};
ghost use Rattle.gabc_text.specs.machine.StageReports.{is_open};
ghost use Rattle.gabc_text.specs.witness.StageReports.{next_of, moved_to, opened_at};

use crate::stage::TextStage;
use crate::token_state::TokenState;
use gabc_places::Place;

impl TextStage {
    /// Returns whether it is in a tag, a raw part or a translation, or ended there.
    fn is_open(&self) -> bool
        ensures { result ≡ is_open self.now.state }
    {
        match self.state {
            TokenState::Tag(_) | TokenState::Raw { .. } | TokenState::Translation => true,
            TokenState::Plain | TokenState::Dollar | TokenState::Comment => false,
        }
    }

    /// Returns the place of the opener, if there is one: the `<` or `[` of a tag, a raw part or a
    /// translation that has not ended. It is the place at which the text is cut if it ends here;
    /// the law `an_opener_is_where_a_text_is_cut` says which one this is in the text that was read.
    /// A stage that has ended has none.
    pub fn opener(&self) -> Option<Place>
        ensures { result ≡ opener_of self.now }
    {
        if self.is_done() {
            None
        } else if self.is_open() {
            Some(self.progress.place)
        } else {
            None
        }
    }

    /// Returns whether a comment is open: whether a `(` would emit nothing, and the end after it
    /// something. After its end a stage has no open comment.
    pub fn in_comment(&self) -> bool
        ensures { result ≡ is_in_comment self.now }
    {
        match self.state {
            TokenState::Comment => !self.is_done(),
            _ => false,
        }
    }

    /// Returns the place of the next character: the characters to come are kept as in a text that
    /// begins there. It is the place at which the stage began or to which it was moved last, past
    /// the characters since. The end of the stage leaves it as it was.
    pub fn next(&self) -> Place
        ensures next { IsNext self.now result }
        ensures reports { result ≡ next_of self.now }
    {
        self.progress.next
    }

    /// Sets the place of the next character to `place`. The opener keeps its own place, and the
    /// stage keeps the same text.
    pub fn go_to(&mut self, place: Place)
        ensures moved { self.new ≡ moved_to place self.old }
        ensures next { IsNext self.new place }
        ensures opener { opener_of self.new ≡ opener_of self.old }
        ensures keeps { (k : List ℕ) → Keeps self.old k → Keeps self.new k }
    {
        if !self.is_open() {
            self.progress.place = place;
        }
        self.progress.next = place;
    }

    /// Sets the place of the opener to `place`, if there is one. The place of the next character
    /// stays, and the stage keeps the same text.
    pub fn open_at(&mut self, place: Place)
        ensures opened { self.new ≡ opened_at place self.old }
        ensures opener { opener_of self.new ≡ option_map (λ _. place) (opener_of self.old) }
        ensures comment { is_in_comment self.new ≡ is_in_comment self.old }
        ensures next { (p : Place) → IsNext self.old p → IsNext self.new p }
        ensures keeps { (k : List ℕ) → Keeps self.old k → Keeps self.new k }
    {
        if self.is_open() {
            self.progress.place = place;
        }
    }
}
