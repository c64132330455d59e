//! A run that goes on while there is room for what it writes.

ghost use Rattle.std.specs.Prelude.{◌≡◌, ◌<◌, ◌≤◌, ◌-◌, length, take, drop, true, false};
ghost use Rattle.gregorio.specs.declared.source_ending.SourceEnding.TheVariants.{Broken};
ghost use Rattle.gregorio_jobs.specs.declared.job.Status.TheVariants.{ReadFault};
ghost use Rattle.gregorio.specs.Engine.{TakesFront, is_running};
ghost use Rattle.gregorio.specs.witness.Engine.{streams_left};
ghost use Rattle.gregorio.specs.machine.Engine.{LeavesRoom};
ghost use Rattle.gregorio.specs.machine.Taking.{Takes, TakesFrom};

use crate::engine::Engine;
use crate::engine_laws;
use crate::rooms::most_waiting;
use gabc_places::valid_front;

impl Engine {
    /// Takes bytes of `piece` until it is used up or the waiting bytes leave no room for the output
    /// and messages of one byte more, and returns how many bytes it took: at least one of a piece
    /// with bytes, if nothing waits before. How much room there is, no clause says: if something
    /// waits, it may take none. The output and messages of these bytes wait then, after those that
    /// waited before, and all that is known of them waits, but for the pending syllable. It stops
    /// after the byte that makes a fatal fault known. After such a fault or the end it takes the
    /// whole piece and changes nothing.
    pub fn fill(&mut self, piece: &[u8]) -> usize
        ensures takes { TakesFront self.old piece.now result self.new }
        ensures fault { is_running self.old ≡ true → is_running self.new ≡ false →
            (streams_left self.old Broken (take (result - 1) piece.now)).status ≡ ReadFault }
        ensures hasher { self.new.heads.hasher ≡ self.old.heads.hasher }
    {
        let mut count = 0;
        if self.is_over() {
            return piece.len();
        }
        while count < piece.len() && self.has_room() {
            // As many bytes as may wait are tested for UTF-8 at once.
            let most = most_waiting(self.score().limits()).min(piece.len() - count);
            count += self.fill_part(&piece[count..count + most]);
        }
        engine_laws::nothing_is_kept_back(self);
        count
    }

    /// Takes bytes of `part` until it is used up or the waiting bytes leave no room for the output
    /// and messages of one byte more, and returns how many bytes it took, at least one.
    fn fill_part(&mut self, part: &[u8]) -> usize
        requires room { LeavesRoom self.old }
        requires running { is_running self.old ≡ true }
        requires more { 0 < length part.now }
        ensures some { 0 < result }
        ensures takes { TakesFrom self.old part.now result self.new }
    {
        let text = valid_front(part);
        if text.is_empty() {
            // The part begins within a character, or with bytes that are not UTF-8.
            self.take(part[0]);
            return 1;
        }
        let mut count = 0;
        while count < part.len() && self.has_room() {
            count += self.take_next(part, text, count);
        }
        count
    }

    /// Takes bytes of `piece` after the first `count`, and returns how many: a run of syllables, if
    /// `text`, the front of `piece` that is UTF-8, can be cut there and a run follows, or else one
    /// byte.
    #[inline(always)]
    fn take_next(&mut self, piece: &[u8], text: &str, count: usize) -> usize
        requires room { LeavesRoom self.old }
        requires running { is_running self.old ≡ true }
        requires more { count < length piece.now }
        requires front { text.now ≡ take (length text.now) piece.now }
        ensures some { 0 < result }
        ensures takes { TakesFrom self.old (drop count piece.now) result self.new }
    {
        if self.is_between()
            && let Some((_, rest)) = text.split_at_checked(count)
        {
            let taken = self.take_run(rest);
            if taken > 0 {
                return taken;
            }
        }
        self.take(piece[count]);
        1
    }

    /// Returns whether a syllable is pending, and nothing of the next one is kept: only there a run
    /// begins.
    #[inline(always)]
    fn is_between(&self) -> bool {
        self.score().held().is_some() && self.score().reading().is_empty()
    }

    /// Takes whole syllables from the front of `text`, and returns how many bytes it took. Their
    /// output waits then, after what waited before. It may stop early, and `take` takes the rest.
    #[inline(always)]
    fn take_run(&mut self, text: &str) -> usize
        requires { is_running self.old ≡ true }
        ensures within { result ≤ length text.now }
        ensures room { result ≡ 0 → LeavesRoom self.old → LeavesRoom self.new }
        ensures takes { Takes self.old (take result text.now) self.new }
        ensures running { is_running self.new ≡ true }
    {
        if !self.writer.headed() || self.decoder.after_cr() {
            return 0;
        }
        let most = text.floor_char_boundary(self.decoder.most_skipped());
        let front = &text[..most];
        let run = self.writer.take_run(self.decoder.place(), front);
        self.decoder.skip_text(&front[..run.bytes], run.next);
        run.bytes
    }

    /// Returns whether the run goes on, and there is room for the output and messages of one byte
    /// more.
    #[inline(always)]
    fn has_room(&self) -> bool
        ensures room { result ≡ true → LeavesRoom self.now }
        ensures running { result ≡ true → is_running self.now ≡ true }
        ensures some { LeavesRoom self.now → is_running self.now ≡ true → result ≡ true }
    {
        let most = most_waiting(self.score().limits());
        self.running() && self.out().len() <= most && self.messages().len() <= most
    }
}
