//! The picture of a score.

ghost use Rattle.std.specs.Prelude.{◌≡◌, length, IfOk, OnErr};
ghost use Rattle.gabc_svg.specs.Page.{page_of};
ghost use Rattle.gabc_svg.specs.Xml.{written};
ghost use Rattle.gregorio_c.specs.Answers.{IsPut};
ghost use Rattle.gregorio_c.specs.Picture.{PictureAnswer};

use crate::buffers::start_of;
use crate::engines::hasher_of;
use crate::picture_options::Wanted;
use gabc_draw::{Mark, Options, picture_of};
use gabc_marks::{Distance, Picture};
use gabc_places::{BufferFiller, ByteCounter, Limits};
use gabc_svg::put_picture;
use gabc_tree::{PlaceReader, ScoreRead, read_score};
use gregorio::is_shown;
use std::alloc::{AllocError, Global};

/// Returns the width of a picture by its number `width`, in thousandths of a staff space: 0 asks
/// for the default one.
fn width_of(width: u32) -> Distance {
    if width == 0 {
        return Options::usual().width;
    }
    Distance(i32::try_from(width).unwrap_or(i32::MAX))
}

/// Returns the messages of `score`, which is read as `read`, as marks: those of errors and faults,
/// and if `warnings` those of warnings. It fails only if memory runs out.
fn marks_of(
    alloc: Global,
    score: &[u8],
    read: &ScoreRead,
    warnings: bool,
) -> Result<Vec<Mark>, AllocError> {
    let mut reader = PlaceReader::new(score, Limits::default());
    let mut marks = Vec::new(alloc);
    for finding in read.findings.as_slice() {
        if is_shown(warnings, *finding) {
            marks.push(Mark {
                at: reader.byte_of(finding.place),
                code: finding.code,
            })?;
        }
    }
    if let Some(fault) = read.fault {
        marks.push(Mark {
            at: reader.byte_of(fault.place),
            code: fault.code,
        })?;
    }
    Ok(marks)
}

/// Returns the marks of a picture of `score`, which is read as `read`, as `wanted` asks for them.
/// It fails only if memory runs out.
fn wanted_marks(
    alloc: Global,
    score: &[u8],
    read: &ScoreRead,
    wanted: Wanted,
) -> Result<Vec<Mark>, AllocError> {
    match wanted.warnings {
        Some(warnings) => marks_of(alloc, score, read, warnings),
        None => Ok(Vec::new(alloc)),
    }
}

/// Returns the number of bytes of the text of `picture`. It fails if there are more than can be
/// counted.
fn length_of(picture: &Picture<'_>) -> Result<usize, AllocError>
    ensures { IfOk result (λ count. count ≡ length (written (page_of picture.now))) }
{
    let mut counter = ByteCounter::new();
    put_picture(picture, &mut counter);
    if counter.count() == usize::MAX {
        return Err(AllocError);
    }
    Ok(counter.count())
}

/// Puts the text of `picture`, which has `count` bytes, into `buf`, if there is room for it.
fn put_text(picture: &Picture<'_>, count: usize, buf: &mut [u8])
    requires { count ≡ length (written (page_of picture.now)) }
    ensures { IsPut (written (page_of picture.now)) buf.old buf.new }
{
    let start = start_of(buf, count);
    put_picture(picture, &mut BufferFiller { buf, len: start });
}

/// Reads `score`, and puts its picture, as it is `wanted`, into `buf`, if there is room for it, and
/// the number of its bytes into `count`. It fails only if memory runs out, or if there are more
/// bytes than can be counted, and writes nothing then.
pub(crate) fn tell_picture(
    alloc: Global,
    key: &[u64],
    score: &[u8],
    wanted: Wanted,
    buf: &mut [u8],
    count: &mut usize,
) -> Result<(), AllocError>
    ensures answered { IfOk result (λ _. PictureAnswer score.now buf.old buf.new count.new) }
    ensures unchanged { OnErr result (buf.new ≡ buf.old) }
    ensures count_unchanged { OnErr result (count.new ≡ count.old) }
{
    let read = read_score(alloc, score, Limits::default(), hasher_of(key))?;
    let marks = wanted_marks(alloc, score, &read, wanted)?;
    let options = Options {
        width: width_of(wanted.width),
        marks: marks.as_slice(),
    };
    let picture = picture_of(alloc, read.tree.nodes(), score, options)?;
    let len = length_of(&picture)?;
    put_text(&picture, len, buf);
    *count = len;
    Ok(())
}
