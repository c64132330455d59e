//! The desk at which a score is laid out: node by node, each note gets its head, and each syllable
//! its parts.

ghost use Rattle.std.specs.Prelude.{◌≡◌, ◌++◌, [], OnOk, IfOk};
ghost use Rattle.gabc_nodes.specs.declared.kind.Kind.TheVariants as Kind;
ghost use Rattle.gabc_draw.specs.Pitches.{bytes_of_node, bytes_after, shown_of_kind, shown_after, shown_of_nodes};
ghost use Rattle.gabc_draw.specs.machine.Desk.{bytes_of_group, shown_by_group, shown_by_groups, shown_on};

use crate::group::Group;
use crate::measures::{Measures, Place};
use crate::pitches::Pitches;
use crate::sheet::Sheet;
use gabc_nodes::{Kind, Node};
use gabc_pen::{GlyphKind, Note, Planned, plan_notes, write_neume};
use std::alloc::{AllocError, Global};

/// A desk: the groups that are ended and the one that is begun, the notes of the neume that is
/// being read, and the sheet on which all is laid out.
#[derive(Debug, Drop)]
pub(crate) struct Desk<'a> {
    groups: Vec<Group>,
    group: Group,
    pending: Vec<Note>,
    planned: Vec<Planned>,
    pub(crate) sheet: Sheet<'a>,
    pitches: Pitches,
    kind: GlyphKind,
    count: usize,
}

impl<'a> Desk<'a> {
    /// Returns a desk for the tree `nodes`, with nothing on it but this sheet.
    fn new(alloc: Global, nodes: &[Node], sheet: Sheet<'a>) -> Result<Desk<'a>, AllocError>
        ensures shown { IfOk result (λ desk.
            shown_on desk.groups.items desk.group desk.pending.items ≡ []) }
        ensures bytes { IfOk result (λ desk.
            bytes_of_group desk.group ≡ record { begin = 0; end = 0 }) }
    {
        Ok(Desk {
            groups: Vec::new(alloc),
            group: Group::before_all(alloc),
            pending: Vec::new(alloc),
            planned: Vec::new(alloc),
            sheet,
            pitches: Pitches::of(alloc, nodes)?,
            kind: GlyphKind { base: 0, tail: 0 },
            count: 0,
        })
    }

    /// Writes the neume that is being read, if there is one.
    #[tactic(auto, using(crate::proofs::HeadsJoin::joined))]
    fn flush(&mut self, alloc: Global) -> Result<(), AllocError>
        ensures shown { OnOk result (
            shown_on self.new.groups.items self.new.group self.new.pending.items
            ≡ shown_on self.old.groups.items self.old.group self.old.pending.items) }
        ensures bytes { bytes_of_group self.new.group ≡ bytes_of_group self.old.group }
        ensures pending { OnOk result (self.new.pending.items ≡ []) }
    {
        let Some(last) = self.pending.as_slice().last().map(|note| note.pitch) else {
            return Ok(());
        };
        let first = self
            .pending
            .as_slice()
            .first()
            .map_or(last, |note| note.pitch);
        let following = self.pitches.other();
        self.planned.clear();
        plan_notes(
            self.kind,
            self.pending.as_slice(),
            following,
            &mut self.planned,
        )?;
        self.sheet.begin_block();
        let planned = self.planned.as_slice();
        let heads = &mut self.group.heads;
        write_neume(self.kind, planned, &mut self.sheet.pen, heads)?;
        self.pending.clear();
        self.sheet.end_neume(alloc, first, last)
    }

    /// Ends the part that is being laid out, if there is one, with the marks before the byte
    /// `before`, and begins a further part of its syllable.
    #[tactic(auto, using(crate::proofs::HeadsJoin::joined))]
    fn end_part(&mut self, alloc: Global, before: u32) -> Result<(), AllocError>
        ensures shown { OnOk result (
            shown_on self.new.groups.items self.new.group self.new.pending.items
            ≡ shown_on self.old.groups.items self.old.group self.old.pending.items) }
        ensures bytes { bytes_of_group self.new.group ≡ bytes_of_group self.old.group }
        ensures ended { OnOk result (shown_by_group self.new.group ≡ []) }
        ensures pending { OnOk result (self.new.pending.items ≡ []) }
    {
        self.flush(alloc)?;
        if self.group.is_empty() {
            return Ok(());
        }
        self.sheet.pass_marks(before)?;
        self.sheet.end_snippet()?;
        self.sheet.end_part(alloc)?;
        let mut group = self.group.further(alloc);
        std::mem::swap(&mut self.group, &mut group);
        self.groups.push(group)?;
        self.end_text(alloc)
    }

    /// Adds the further lines of a text that is wider than a row, each as a part.
    #[tactic(auto, using(crate::proofs::HeadsJoin::joined))]
    fn end_text(&mut self, alloc: Global) -> Result<(), AllocError>
        ensures shown { OnOk result (shown_by_groups self.new.groups.items
            ≡ shown_by_groups self.old.groups.items) }
        ensures group { self.new.group ≡ self.old.group }
        ensures pending { self.new.pending ≡ self.old.pending }
    {
        for number in 0..self.sheet.further.len() {
            self.sheet.end_further(alloc, number)?;
            self.groups.push(self.group.further(alloc))?;
        }
        self.sheet.further.clear();
        Ok(())
    }

    /// Begins the syllable of `node`.
    #[tactic(auto, using(crate::proofs::HeadsJoin::joined))]
    fn begin_syllable(&mut self, alloc: Global, node: Node) -> Result<(), AllocError>
        ensures shown { OnOk result (
            shown_on self.new.groups.items self.new.group self.new.pending.items
            ≡ shown_on self.old.groups.items self.old.group self.old.pending.items
            ++ shown_of_kind Kind.Syllable node (bytes_of_group self.old.group)) }
        ensures bytes { OnOk result (bytes_of_group self.new.group ≡ bytes_of_node node) }
    {
        self.end_part(alloc, node.begin)?;
        self.sheet.begin(alloc, Place::of(node.a, node.b));
        self.group = Group {
            begin: node.begin,
            end: node.end,
            number: self.group.number.saturating_add(1),
            is_first: true,
            heads: Vec::new(alloc),
        };
        Ok(())
    }

    /// Begins a further part of the syllable before `node`, a neume of this number of `notes` or
    /// another block, if a line ends there or the last part has no room; else passes the marks
    /// before it.
    fn turn(&mut self, alloc: Global, node: Node, notes: i32) -> Result<(), AllocError>
        ensures shown { OnOk result (
            shown_on self.new.groups.items self.new.group self.new.pending.items
            ≡ shown_on self.old.groups.items self.old.group self.old.pending.items) }
        ensures bytes { bytes_of_group self.new.group ≡ bytes_of_group self.old.group }
    {
        if self.sheet.ends_line() || self.sheet.is_full(notes) {
            return self.end_part(alloc, node.begin);
        }
        self.sheet.pass_marks(node.begin)
    }

    /// Adds the note of `node`, and writes its neume if that is complete.
    #[tactic(auto, using(crate::proofs::HeadsJoin::joined))]
    fn add_note(&mut self, alloc: Global, node: Node) -> Result<(), AllocError>
        ensures shown { OnOk result (
            shown_on self.new.groups.items self.new.group self.new.pending.items
            ≡ shown_on self.old.groups.items self.old.group self.old.pending.items
            ++ shown_of_kind Kind.Note node (bytes_of_group self.old.group)) }
        ensures bytes { bytes_of_group self.new.group ≡ bytes_of_group self.old.group }
    {
        if self.pending.is_empty() {
            self.turn(alloc, node, 0)?;
        }
        self.pending.push(Note::of(node))?;
        self.pitches.pass();
        if self.count <= self.pending.len() {
            self.flush(alloc)?;
        }
        Ok(())
    }

    /// Begins the neume of `node`.
    fn begin_neume(&mut self, alloc: Global, node: Node) -> Result<(), AllocError>
        ensures shown { OnOk result (
            shown_on self.new.groups.items self.new.group self.new.pending.items
            ≡ shown_on self.old.groups.items self.old.group self.old.pending.items) }
        ensures bytes { bytes_of_group self.new.group ≡ bytes_of_group self.old.group }
    {
        self.flush(alloc)?;
        let count = node.c % 64;
        self.turn(alloc, node, i32::from(count))?;
        self.kind = GlyphKind {
            base: node.a,
            tail: node.b,
        };
        self.count = usize::from(count);
        Ok(())
    }

    /// Adds `node`, which is no note, no neume and no syllable.
    fn add_other(&mut self, alloc: Global, node: Node) -> Result<(), AllocError>
        ensures shown { OnOk result (
            shown_on self.new.groups.items self.new.group self.new.pending.items
            ≡ shown_on self.old.groups.items self.old.group self.old.pending.items) }
        ensures bytes { bytes_of_group self.new.group ≡ bytes_of_group self.old.group }
    {
        if !self.pending.is_empty() {
            return self.sheet.add_inside(node, self.pending.len());
        }
        if matches!(
            node.kind,
            Kind::Clef | Kind::Alteration | Kind::Bar | Kind::Custos
        ) {
            self.turn(alloc, node, 0)?;
        }
        let next = self.pitches.next();
        self.sheet.add(node, next)
    }

    /// Adds `node`.
    #[tactic(auto, using(crate::proofs::HeadsJoin::joined))]
    pub(crate) fn add(&mut self, alloc: Global, node: Node) -> Result<(), AllocError>
        ensures shown { OnOk result (
            shown_on self.new.groups.items self.new.group self.new.pending.items
            ≡ shown_on self.old.groups.items self.old.group self.old.pending.items
            ++ shown_of_kind node.kind node (bytes_of_group self.old.group)) }
        ensures bytes { OnOk result (bytes_of_group self.new.group
            ≡ bytes_after node.kind node (bytes_of_group self.old.group)) }
    {
        match node.kind {
            Kind::Note => self.add_note(alloc, node),
            Kind::Syllable => self.begin_syllable(alloc, node),
            Kind::Glyph => self.begin_neume(alloc, node),
            _ => self.add_other(alloc, node),
        }
    }

    /// Adds `nodes`, and ends the last part.
    #[tactic(auto, using(crate::proofs::HeadsJoin::joined))]
    fn add_all(&mut self, alloc: Global, nodes: &[Node]) -> Result<(), AllocError>
        ensures shown { OnOk result (shown_by_groups self.new.groups.items
            ≡ shown_on self.old.groups.items self.old.group self.old.pending.items
            ++ shown_after (bytes_of_group self.old.group) nodes.now) }
    {
        let mut rest = nodes;
        while let [node, more @ ..] = rest {
            self.add(alloc, *node)?;
            rest = more;
        }
        self.end_part(alloc, u32::MAX)
    }
}

/// A score that was laid out: its groups, and the measures of each.
#[derive(Debug, Drop)]
pub(crate) struct LaidOut<'a> {
    pub(crate) groups: Vec<Group>,
    pub(crate) measures: Vec<Measures<'a>>,
}

/// Lays out the tree `nodes` on this sheet.
pub(crate) fn lay_out<'a>(
    alloc: Global,
    nodes: &[Node],
    sheet: Sheet<'a>,
) -> Result<LaidOut<'a>, AllocError>
    ensures { IfOk result (λ it. shown_by_groups it.groups.items ≡ shown_of_nodes nodes.now) }
{
    let mut desk = Desk::new(alloc, nodes, sheet)?;
    desk.add_all(alloc, nodes)?;
    let Desk {
        groups,
        group: _,
        pending: _,
        planned: _,
        sheet,
        pitches: _,
        kind: _,
        count: _,
    } = desk;
    Ok(LaidOut {
        groups,
        measures: sheet.done,
    })
}
