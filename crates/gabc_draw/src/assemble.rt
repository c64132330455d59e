//! Assembles the parts of a picture from the groups and measures of the layout.

ghost use Rattle.std.specs.Prelude.{◌≡◌, IfOk};
ghost use Rattle.gabc_marks.specs.Heads.{shown_by_part, shown_by_parts};
ghost use Rattle.gabc_draw.specs.machine.Desk.{shown_by_group, shown_by_groups};

use crate::group::Group;
use crate::measures::Measures;
use gabc_marks::{Distance, Part, Sign};
use std::alloc::{AllocError, Global};

/// Returns the part of `group`, with these `signs`, at `x`.
fn part_of<'a>(group: Group, signs: Vec<Sign<'a>>, x: Distance) -> Part<'a>
    ensures { shown_by_part result ≡ shown_by_group group }
{
    Part {
        begin: group.begin,
        end: group.end,
        number: group.number,
        is_first: group.is_first,
        x,
        heads: group.heads,
        signs,
    }
}

/// Removes the signs of the part `at` from `measures`, and returns them.
fn take_signs<'a>(alloc: Global, measures: &mut Vec<Measures<'a>>, at: usize) -> Vec<Sign<'a>> {
    let mut signs = Vec::new(alloc);
    if at < measures.len() {
        std::mem::swap(&mut measures[at].signs, &mut signs);
    }
    signs
}

/// Returns the parts of `groups`, with their signs of `measures`, at these `places`.
#[tactic(auto, using(crate::proofs::PartsJoin::joined))]
pub(crate) fn parts_of<'a>(
    alloc: Global,
    groups: Vec<Group>,
    measures: Vec<Measures<'a>>,
    places: &[Distance],
) -> Result<Vec<Part<'a>>, AllocError>
    ensures { IfOk result (λ parts. shown_by_parts parts.items ≡ shown_by_groups groups.items) }
{
    let mut measures = measures;
    let mut parts = Vec::new(alloc);
    let mut at: usize = 0;
    for group in groups {
        let x = places.get(at).copied().unwrap_or(Distance::ZERO);
        let signs = take_signs(alloc, &mut measures, at);
        parts.push(part_of(group, signs, x))?;
        at = at.saturating_add(1);
    }
    Ok(parts)
}
