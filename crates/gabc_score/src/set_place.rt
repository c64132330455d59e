//! The place of the next character of a body.

ghost use Rattle.std.specs.Prelude.{◌≡◌};
ghost use Rattle.gabc_score.specs.ScoreReports.{moved_to};
ghost use Rattle.gabc_score.specs.machine.ScoreMachine.{shown, IsScore};

use crate::score_machine::ScoreMachine;
use gabc_places::Place;

impl ScoreMachine {
    /// Sets the place of the next character to `at`. What is open keeps the place where it began.
    pub(crate) fn go_to(&mut self, at: Place)
        requires rests { IsScore self.old }
        ensures moved { shown self.new ≡ moved_to at (shown self.old) }
        ensures rests { IsScore self.new }
    {
        self.next = at;
        self.body.go_to(at);
    }
}
