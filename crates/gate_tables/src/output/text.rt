// What answers are written to: one text, which each call adds to.
use bstr::ByteSlice;
use std::alloc::{AllocError, Global};
use std::fmt::Display;

/// A text that is added to. What finds no memory is left out, and it is noted that the text isn't whole: so what only
/// writes has no error to return.
#[derive(Drop)]
pub struct Text {
    text: String,
    whole: bool,
}

impl Text {
    /// The empty text.
    pub fn new(alloc: Global) -> Text {
        Text {
            text: String::new(alloc),
            whole: true,
        }
    }

    /// Empties the text. What was left out of it before stays noted.
    pub fn clear(&mut self) {
        self.text.clear();
    }

    /// The text so far.
    pub fn as_str(&self) -> &str {
        self.text.as_str()
    }

    /// Whether nothing was left out.
    pub fn is_whole(&self) -> bool {
        self.whole
    }

    /// Notes that something was left out.
    pub fn miss(&mut self) {
        self.whole = false;
    }

    fn note(&mut self, added: Result<(), AllocError>) {
        if added.is_err() {
            self.whole = false;
        }
    }

    /// Adds a text.
    pub fn push_str(&mut self, text: &str) {
        let added = self.text.push_str(text);
        self.note(added);
    }

    /// Adds bytes that are text.
    pub fn push_bytes(&mut self, bytes: &[u8]) {
        let added = bytes.to_str_lossy_into(&mut self.text);
        self.note(added);
    }

    /// Adds what is printed; `write!` calls it.
    pub fn write_fmt<D: Display + Drop>(&mut self, printed: D) {
        let added = self.text.write_fmt(printed);
        self.note(added);
    }

    /// Adds bytes that are text, and a bar after them.
    pub fn push_barred(&mut self, bytes: &[u8]) {
        self.push_bytes(bytes);
        self.push_str("|");
    }

    /// Adds a number, and a space before it where the text isn't empty.
    pub fn push_number(&mut self, number: i64) {
        if !self.text.is_empty() {
            self.push_str(" ");
        }
        write!(self, "{number}");
    }
}
