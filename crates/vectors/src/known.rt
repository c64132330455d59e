//! Known runs: their requests, the texts that they have to write, and their exit statuses.

ghost use Rattle.gregorio.specs.Engine.{NothingWaits};

use crate::row::Row;
use crate::run::Request;
use gabc_places::Limits;
use gregorio::Engine;

/// The texts that a run has to write.
#[derive(Clone, Copy)]
pub(crate) struct Wanted<'a> {
    pub output: &'a [u8],
    pub messages: &'a [u8],
}

impl Wanted<'_> {
    /// Takes the bytes that wait in `engine` off the begin of both texts, and returns whether the
    /// texts begin with them. If not, the texts stay as they were.
    pub(crate) fn take(&mut self, engine: &mut Engine) -> bool
        ensures waits { NothingWaits engine.new }
    {
        let output = self.output.strip_prefix(engine.out());
        let messages = self.messages.strip_prefix(engine.messages());
        engine.taken();
        let (Some(output), Some(messages)) = (output, messages) else {
            return false;
        };
        *self = Wanted { output, messages };
        true
    }

    /// Returns whether nothing has to follow.
    pub(crate) fn is_empty(self) -> bool {
        self.output.is_empty() && self.messages.is_empty()
    }
}

/// A run, the texts that it has to write if no source or sink fails, and its exit status.
#[derive(Clone, Copy)]
pub(crate) struct Known<'a> {
    pub asked: Request<'a>,
    pub wanted: Wanted<'a>,
    pub status: u8,
}

/// Returns the run of a row, if there are such limits.
pub(crate) fn known_of(row: &Row) -> Option<Known<'_>> {
    Some(Known {
        asked: Request {
            format: row.format,
            bytes: row.bytes.as_slice(),
            broken: row.broken,
            limits: Limits::new(row.header, row.syllable, row.input)?,
            all_warnings: row.all_warnings,
        },
        wanted: Wanted {
            output: row.output.as_slice(),
            messages: row.messages.as_slice(),
        },
        status: row.status,
    })
}
