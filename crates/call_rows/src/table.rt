//! The tables of rows.

use crate::call::Call;
use crate::printed::Printed;
use crate::{body, fields, headers, jobs, nabc, neumes, notes, places, scores, texts, writes};
use std::alloc::{AllocError, Global};

/// A table of rows, by the crate or the stage whose calls it has.
#[derive(Clone, Copy)]
pub(crate) enum Table {
    /// Calls of `gabc_places`.
    Places,
    /// Calls of `gabc_headers`.
    Headers,
    /// Calls of `gabc_text`.
    Texts,
    /// Calls of `gabc_notes`.
    Notes,
    /// Calls of `gabc_neumes`.
    Neumes,
    /// Calls of `gabc_nabc`.
    Nabc,
    /// Calls of `gabc_score` over whole scores.
    Scores,
    /// Calls of the stage over a score.
    Body,
    /// Calls of `gabc_write`.
    Writes,
    /// Calls of `gregorio_jobs`.
    Jobs,
    /// Calls of `gregorio_state`.
    Fields,
}

impl Table {
    /// Prints the answer of a call.
    pub(crate) fn answer(
        self,
        alloc: Global,
        call: Call,
        out: &mut Printed,
    ) -> Result<(), AllocError> {
        match self {
            Table::Places => places::answer(alloc, call, out),
            Table::Headers => headers::answer(alloc, call, out),
            Table::Texts => texts::answer(alloc, call, out),
            Table::Notes => notes::answer(alloc, call, out),
            Table::Neumes => neumes::answer(alloc, call, out),
            Table::Nabc => nabc::answer(alloc, call, out),
            Table::Scores => scores::answer(alloc, call, out),
            Table::Body => body::answer(alloc, call, out),
            Table::Writes => writes::answer(alloc, call, out),
            Table::Jobs => jobs::answer(alloc, call, out),
            Table::Fields => fields::answer(alloc, call, out),
        }
    }
}
