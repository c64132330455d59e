//! The options of a picture.

ghost use Rattle.std.specs.Prelude.{◌≡◌, None, true, false, is_some};
ghost use Rattle.gregorio_c.specs.Picture.{are_known};

/// The options of a picture: its width, and the messages in it.
#[repr(C)]
#[derive(Clone, Copy, Debug)]
pub struct PictureOptions {
    /// The version of the options: 1.
    pub version: u32,
    /// The width of the picture, in thousandths of a staff space: 0 asks for 72,000, and any other
    /// number below 12,000 for 12,000.
    pub width: u32,
    /// The messages in it: 0 for none, 1 for errors and faults, 2 for warnings too.
    pub messages: u32,
    /// Reserved: 0.
    pub reserved: u32,
}

/// The options of a picture as they are read: its width, and whether warnings are among its
/// messages, if it has messages.
#[derive(Clone, Copy)]
pub(crate) struct Wanted {
    pub width: u32,
    pub warnings: Option<bool>,
}

impl Wanted {
    /// The default options.
    const USUAL: Wanted = Wanted {
        width: 0,
        warnings: None,
    };
}

/// Returns whether the number `messages` asks for warnings; nothing if it asks for no messages.
fn warnings_of(messages: u32) -> Option<bool> {
    match messages {
        0 => None,
        1 => Some(false),
        _ => Some(true),
    }
}

/// Returns the options that `options` ask for, if they are none, or one whose numbers are known.
pub(crate) fn wanted_of(options: &[PictureOptions]) -> Option<Wanted>
    ensures { is_some result ≡ are_known options.now }
{
    match options {
        [] => Some(Wanted::USUAL),
        [one] if one.version == 1 && one.messages <= 2 && one.reserved == 0 => Some(Wanted {
            width: one.width,
            warnings: warnings_of(one.messages),
        }),
        _ => None,
    }
}
