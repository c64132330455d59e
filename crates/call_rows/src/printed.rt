//! The answer of a call as it is printed.

use std::alloc::Global;
use std::fmt::{Debug, Display};

/// The answer of a call as it is printed. If memory runs out or there is no such call, it is not
/// whole, and equals nothing.
#[derive(Drop)]
pub(crate) struct Printed {
    text: String,
    is_whole: bool,
}

impl Printed {
    /// Returns an empty answer.
    pub(crate) fn new(alloc: Global) -> Self {
        Self {
            text: String::new(alloc),
            is_whole: true,
        }
    }

    /// Appends a text.
    pub(crate) fn put(&mut self, text: &str) {
        let put = self.text.push_str(text);
        self.is_whole = self.is_whole & put.is_ok();
    }

    /// Appends a tab, which begins the next column.
    pub(crate) fn tab(&mut self) {
        self.put("\t");
    }

    /// Appends `yes` or `no`.
    pub(crate) fn show_bool(&mut self, value: bool) {
        self.put(if value { "yes" } else { "no" });
    }

    /// Appends a value as `{}` does.
    pub(crate) fn show<T: Display>(&mut self, value: &T) {
        let shown = write!(self.text, "{value}");
        self.is_whole = self.is_whole & shown.is_ok();
    }

    /// Appends a value as `{:?}` does.
    pub(crate) fn show_debug<T: Debug>(&mut self, value: &T) {
        let shown = write!(self.text, "{value:?}");
        self.is_whole = self.is_whole & shown.is_ok();
    }

    /// Appends that there is no such call: the answer equals nothing from then on.
    pub(crate) fn refuse(&mut self) {
        self.put("no such call");
        self.is_whole = false;
    }

    /// Returns the text so far.
    pub(crate) fn text(&self) -> &str {
        self.text.as_str()
    }

    /// Returns whether the answer is whole and has these bytes.
    pub(crate) fn is(&self, wanted: &[u8]) -> bool {
        self.is_whole && self.text.as_bytes() == wanted
    }
}
