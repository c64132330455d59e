//! The sheet on which a syllable is laid out: its blocks one after the other, its text, its NABC.

use crate::attributes::Attribute;
use crate::marks::PartMark;
use crate::measures::{LineEnd, Measures, Place};
use gabc_lettering::{Language, Lettering, Mark, WordLine};
use gabc_marks::{Distance, Extent, height_of, spaces, text_between};
use gabc_nodes::{Kind, Node};
use gabc_pen::{
    Clef, Hands, Nabc, PUNCTUM, Pen, SnippetNote, custos, distance_of, height_of_step,
    put_alteration, put_around, put_bar, put_signs,
};
use std::alloc::{AllocError, Global};

/// The kind of a block.
#[derive(Clone, Copy, Debug, PartialEq, Eq)]
pub(crate) enum BlockKind {
    Neume { pitch: u8, anchor: Distance },
    Clef(Clef),
    Alteration,
    Bar,
    Custos,
}

/// A sheet: the part that is being laid out, and those that are done.
#[derive(Debug, Drop)]
pub(crate) struct Sheet<'a> {
    pub(crate) lines: i32,
    pub(crate) pen: Pen<'a>,
    pub(crate) lettering: Lettering<'a>,
    nabc: Nabc<'a>,
    pub(crate) done: Vec<Measures<'a>>,
    pub(crate) part: Measures<'a>,
    notes: Vec<SnippetNote>,
    /// The number of notes directly before the next one, with nothing else between.
    row: usize,
    /// The left end of the last block begun, and the extent of the last block ended in this part.
    left: Distance,
    about: Option<Extent>,
    /// The space after the last block, and whether the score gives it.
    after: Distance,
    has_space: bool,
    /// The left end of the last snippet of notes.
    snippet_left: Distance,
    /// The pitch of the last note, if the next one is fused to it.
    fused: Option<u8>,
    last: Option<u8>,
    pub(crate) input: &'a str,
    /// The attributes within the neume that is being read, each with the number of its note.
    pub(crate) attributes: Vec<(usize, Attribute<'a>)>,
    /// The width that a part may take of a row.
    pub(crate) room: Distance,
    /// The lines of a text that is wider, after the first one.
    pub(crate) further: Vec<WordLine<'a>>,
    /// The marks that are not passed yet.
    marks: &'a [Mark],
}

impl<'a> Sheet<'a> {
    /// Returns an empty sheet for the score `input` in this `language`, with staves of `lines`
    /// lines, NABC in these `hands`, and the `marks` of its syllables. A part may take `room` of
    /// the width of a row.
    pub(crate) fn new(
        alloc: Global,
        input: &'a str,
        lines: i32,
        language: Language,
        hands: Hands,
        room: Distance,
        marks: &'a [Mark],
    ) -> Sheet<'a> {
        Sheet {
            lines,
            pen: Pen::new(alloc),
            lettering: Lettering::new(alloc, input, language),
            nabc: Nabc::new(alloc, input, hands),
            done: Vec::new(alloc),
            part: Measures::new(alloc, Place::ALONE, true),
            notes: Vec::new(alloc),
            row: 0,
            left: Distance::ZERO,
            about: None,
            after: Distance::ZERO,
            has_space: false,
            snippet_left: Distance::ZERO,
            fused: None,
            last: None,
            input,
            attributes: Vec::new(alloc),
            room,
            further: Vec::new(alloc),
            marks,
        }
    }

    /// Begins a syllable.
    pub(crate) fn begin(&mut self, alloc: Global, place: Place) {
        self.part = Measures::new(alloc, place, true);
        self.lettering.clear();
        self.pen.x = Distance::ZERO;
        self.after = Distance::ZERO;
        self.has_space = false;
        self.snippet_left = Distance::ZERO;
        self.fused = None;
        self.last = None;
        self.attributes.clear();
    }

    /// Returns the left end of the next block.
    fn next_x(&self) -> Distance {
        self.part
            .notes
            .map_or(self.pen.x, |notes| notes.right + self.after)
    }

    /// Begins a snippet of notes.
    pub(crate) fn begin_snippet(&mut self) {
        self.snippet_left = self.next_x();
        self.row = 0;
    }

    /// Begins a block after the last one and the space after that.
    pub(crate) fn begin_block(&mut self) {
        self.left = self.next_x();
        self.pen.x = self.left;
        self.pen.top = Distance::ZERO;
        self.pen.bottom = Distance::ZERO;
        self.pen.drawn.clear();
    }

    /// Moves the signs that the pen has drawn into the part, and widens its bounds.
    pub(crate) fn take_signs(&mut self) -> Result<(), AllocError> {
        self.part
            .signs
            .extend_from_slice(self.pen.signs.as_slice())?;
        self.pen.signs.clear();
        self.part.top = self.part.top.min(self.pen.top);
        self.part.bottom = self.part.bottom.max(self.pen.bottom);
        Ok(())
    }

    /// Ends a block that goes up to `right`, with this distance `after` it.
    pub(crate) fn end_block(
        &mut self,
        kind: BlockKind,
        right: Distance,
        after: Distance,
    ) -> Result<(), AllocError> {
        let left = self.left;
        self.take_signs()?;
        self.note_kind(kind, left, right);
        self.part.notes = Some(Extent {
            left: self.part.notes.map_or(left, |notes| notes.left),
            right,
        });
        self.about = Some(Extent { left, right });
        self.after = after;
        self.has_space = false;
        Ok(())
    }

    /// Records a block of this `kind` from `left` to `right` in the part.
    fn note_kind(&mut self, kind: BlockKind, left: Distance, right: Distance) {
        let is_begin = self.part.notes.is_none();
        self.part.wants_no_custos = kind == BlockKind::Custos;
        match kind {
            BlockKind::Neume { pitch, anchor } => {
                self.part.anchor = self.part.anchor.or(Some(anchor));
                self.part.first = self.part.first.or(Some(pitch));
            }
            BlockKind::Clef(clef) => {
                self.part.clef = Some(clef);
                self.part.begins_with_clef = self.part.begins_with_clef || is_begin;
            }
            BlockKind::Bar => {
                self.part.anchor = self.part.anchor.or(Some((left + right).half()));
                self.part.has_bar = true;
            }
            BlockKind::Alteration | BlockKind::Custos => {}
        }
    }

    /// Ends the neume that the pen has drawn from `left` on, and draws the signs around it. `first`
    /// and `last` are the pitches of its first and its last note.
    pub(crate) fn end_neume(
        &mut self,
        alloc: Global,
        first: u8,
        last: u8,
    ) -> Result<(), AllocError> {
        let left = self.left;
        self.join_fused(left, first)?;
        let end = self
            .pen
            .drawn
            .iter()
            .fold(self.pen.x, |right, it| right.max(it.right()));
        let drawn = self.pen.drawn.clone()?;
        let right = put_around(alloc, drawn.as_slice(), self.lines, end, &mut self.pen)?;
        self.note_drawn(left, right)?;
        let anchor = drawn.first().map_or(left, |it| it.x + it.width.half());
        let kind = BlockKind::Neume {
            pitch: first,
            anchor,
        };
        self.end_block(kind, right, spaces::AFTER_NEUME)?;
        self.put_attributes(drawn.as_slice())?;
        self.last = Some(last);
        Ok(())
    }

    /// Draws the line from the last note to a neume that begins at `left` with this `pitch`, if
    /// both are fused.
    fn join_fused(&mut self, left: Distance, pitch: u8) -> Result<(), AllocError> {
        let Some(before) = self.fused else {
            return Ok(());
        };
        self.fused = None;
        let (from, to) = (height_of(before), height_of(pitch));
        self.pen.rect(
            left - Distance(40),
            from.min(to),
            Distance(80),
            (from - to).size(),
        )
    }

    /// Records the notes of a neume from `left` to `right`, for the signs that depend on several
    /// neumes.
    fn note_drawn(&mut self, left: Distance, right: Distance) -> Result<(), AllocError> {
        for drawn in &self.pen.drawn {
            self.row = self.row.saturating_add(1);
            self.notes.push(SnippetNote {
                drawn: *drawn,
                left,
                right,
                reach: self.row,
            })?;
        }
        Ok(())
    }

    /// Ends the notes that a later episema may cover: something else comes after them.
    pub(crate) fn end_row(&mut self) {
        self.row = 0;
    }

    /// Adds a spacing of this `distance` after the last block, in place of the default space if it
    /// is the first one there. Before all blocks it adds nothing.
    pub(crate) fn add_space(&mut self, distance: Distance) {
        if self.part.notes.is_some() {
            let before = if self.has_space {
                self.after
            } else {
                Distance::ZERO
            };
            self.after = before + distance;
            self.has_space = true;
        }
    }

    /// Fuses the next neume to the last note.
    pub(crate) fn fuse(&mut self) {
        self.add_space(Distance::ZERO);
        self.fused = self.last;
    }

    /// Adds a clef.
    pub(crate) fn add_clef(&mut self, node: Node) -> Result<(), AllocError> {
        self.begin_block();
        let clef = Clef::of(node);
        let x = self.pen.x;
        clef.put(x, &mut self.pen)?;
        self.end_block(BlockKind::Clef(clef), x + clef.width(), spaces::AFTER_CLEF)
    }

    /// Adds an alteration.
    pub(crate) fn add_alteration(&mut self, node: Node) -> Result<(), AllocError> {
        self.begin_block();
        let width = put_alteration(node, &mut self.pen)?;
        let right = self.pen.x + width;
        self.end_block(BlockKind::Alteration, right, spaces::AFTER_ALTERATION)
    }

    /// Adds the bar of `node`, which is spelled `text`.
    pub(crate) fn add_bar(&mut self, node: Node, text: &str) -> Result<(), AllocError> {
        self.begin_block();
        let lines = self.lines;
        let width = put_bar(node, text, lines, &mut self.pen)?;
        let right = self.pen.x + width;
        self.end_block(BlockKind::Bar, right, spaces::AFTER_BAR)
    }

    /// Adds a custos of this `pitch`.
    pub(crate) fn add_custos(&mut self, pitch: u8) -> Result<(), AllocError> {
        self.begin_block();
        let symbol = custos(pitch, self.lines);
        let x = self.pen.x;
        self.pen
            .symbol(symbol, x, height_of_step(i32::from(pitch) - 3))?;
        self.end_block(
            BlockKind::Custos,
            x + symbol.metrics().width,
            spaces::AFTER_CUSTOS,
        )
    }

    /// Records that the line ends after the part as `end` says, unless it has an end already.
    pub(crate) fn end_line(&mut self, end: LineEnd) {
        self.part.end = self.part.end.or(Some(end));
    }

    /// Returns whether a line ends here.
    pub(crate) fn ends_line(&self) -> bool {
        self.part.end.is_some()
    }

    /// Draws the signs that depend on several neumes.
    pub(crate) fn end_snippet(&mut self) -> Result<(), AllocError> {
        self.pen.top = Distance::ZERO;
        self.pen.bottom = Distance::ZERO;
        put_signs(self.notes.as_slice(), &mut self.pen)?;
        self.notes.clear();
        self.row = 0;
        self.take_signs()
    }

    /// Skips `node`, which is not kept: the text or the NABC that is being read continues after it.
    fn pass_gap(&mut self, node: Node) -> Result<(), AllocError> {
        self.nabc.pass_gap(node)?;
        self.lettering.pass_gap(node)
    }

    /// Adds `node`, which is NABC.
    fn add_nabc(&mut self, node: Node) -> Result<(), AllocError> {
        let part = &mut self.part;
        self.nabc.add(node, &mut part.signs, &mut part.nabc)
    }

    /// Ends the NABC that is being read, and widens the notes of the part to its right end.
    fn end_nabc(&mut self) -> Result<(), AllocError> {
        let part = &mut self.part;
        if let Some(nabc) = self.nabc.end(&mut part.signs, &mut part.nabc)? {
            let notes = part.notes.unwrap_or(nabc);
            part.notes = Some(Extent {
                left: notes.left,
                right: notes.right.max(nabc.right),
            });
        }
        Ok(())
    }

    /// Begins a snippet: of notes, or of NABC.
    fn add_snippet(&mut self, node: Node) -> Result<(), AllocError> {
        self.lettering.close()?;
        self.end_nabc()?;
        if node.a == 0 {
            self.end_snippet()?;
            self.begin_snippet();
        } else {
            self.nabc.begin(node.a, self.snippet_left);
        }
        Ok(())
    }

    /// Passes the marks before the byte `before`: they are about what was added last.
    pub(crate) fn pass_marks(&mut self, before: u32) -> Result<(), AllocError> {
        let mut passed: usize = 0;
        for mark in self.marks {
            if before <= mark.at {
                break;
            }
            self.part.marks.push(PartMark {
                code: mark.code,
                about: self.about,
            })?;
            passed = passed.saturating_add(1);
        }
        self.marks = self.marks.get(passed..).unwrap_or(&[]);
        Ok(())
    }

    /// Returns whether the part has no room for a neume of this number of `notes`, or for another
    /// block if it is 0.
    pub(crate) fn is_full(&self, notes: i32) -> bool {
        let own = PUNCTUM.times(notes.max(1).min(64));
        self.part
            .notes
            .is_some_and(|it| self.room < it.right + self.after + own - it.left)
    }

    /// Adds `node`, which is no note, no neume and no syllable. `next` is the pitch of the next
    /// note.
    pub(crate) fn add(&mut self, node: Node, next: Option<u8>) -> Result<(), AllocError> {
        match node.kind {
            Kind::Characters
            | Kind::Escape
            | Kind::TextBlank
            | Kind::Raw
            | Kind::Tag
            | Kind::SpanMark
            | Kind::StyleTag
            | Kind::Brace
            | Kind::Translation => self.lettering.add_node(node),
            Kind::Comment | Kind::LeftOut | Kind::FurtherBlank | Kind::Silent => self.pass_gap(
                node,
            ),
            Kind::Snippet => self.add_snippet(node),
            Kind::Descriptor
            | Kind::NabcSpace
            | Kind::NabcGlyph
            | Kind::NabcPoints
            | Kind::NabcLetters => self.add_nabc(node),
            _ => self.add_item(node, next),
        }
    }

    /// Adds an item of notes. `next` is the pitch of the next note.
    fn add_item(&mut self, node: Node, next: Option<u8>) -> Result<(), AllocError> {
        match node.kind {
            Kind::Attribute | Kind::Fusion => {}
            _ => self.end_row(),
        }
        match node.kind {
            Kind::Clef => self.add_clef(node),
            Kind::Alteration => self.add_alteration(node),
            Kind::Bar => self.add_bar(node, text_between(self.input, node.begin, node.end)),
            Kind::Custos => self.add_custos_of(node, next),
            Kind::Attribute => self.add_attribute(node),
            Kind::Spacing => {
                let text = text_between(self.input, node.begin, node.end);
                self.add_space(distance_of(node.a, text));
                Ok(())
            }
            Kind::Fusion => {
                self.fuse();
                Ok(())
            }
            Kind::LineBreak => {
                self.end_line(LineEnd {
                    is_justified: node.a == 0,
                    has_custos: node.b != 2,
                });
                Ok(())
            }
            _ => Ok(()),
        }
    }

    /// Adds the custos of `node`: one that names no pitch has `next`, that of the next note, and is
    /// left out if there is none.
    fn add_custos_of(&mut self, node: Node, next: Option<u8>) -> Result<(), AllocError> {
        let told = if node.a < 15 {
            Some((node.a % 16) as u8)
        } else {
            next
        };
        match told {
            Some(pitch) => self.add_custos(pitch),
            None => Ok(()),
        }
    }

    /// Ends the part: with its text, if it is the first one of its syllable.
    pub(crate) fn end_part(&mut self, alloc: Global) -> Result<(), AllocError> {
        self.lettering.close()?;
        self.end_nabc()?;
        if self.part.is_first {
            self.put_text(alloc)?;
        }
        let x = self.next_x();
        self.push_part(alloc)?;
        self.pen.x = x;
        self.after = Distance::ZERO;
        self.has_space = false;
        self.snippet_left = x;
        Ok(())
    }

    /// Moves the part to those that are done, and begins a further one of its syllable.
    pub(crate) fn push_part(&mut self, alloc: Global) -> Result<(), AllocError> {
        let mut next = Measures::new(alloc, self.part.place, false);
        std::mem::swap(&mut self.part, &mut next);
        self.about = None;
        self.done.push(next)?;
        Ok(())
    }
}
