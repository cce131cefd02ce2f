//! Texts that are made piece by piece.

use fab_base::{Ballot, BrickId, NoMem, Stamp};
use std::alloc::Global;

/// The most bytes of a block that are shown.
const SHOWN_BYTES: usize = 8;

/// The character that stands for a byte of a label.
fn shown_as(byte: u8) -> char {
    match byte {
        b'<' | b'>' | b'&' | b'"' => '?',
        b' '..=b'~' => char::from(byte),
        _ => '?',
    }
}

/// A text that is being made. Where a piece found no memory it is missing, and the text is never whole.
pub struct Text {
    text: String,
    has_gap: bool,
}

impl Drop for Text {
    fn drop(self) {
        let Self {
            text: _,
            has_gap: _,
        } = self;
    }
}

impl Text {
    /// No piece yet.
    pub fn new(alloc: Global) -> Text {
        Text {
            text: String::new(alloc),
            has_gap: false,
        }
    }

    /// Adds a piece.
    pub fn put(&mut self, piece: &str) {
        if self.text.push_str(piece).is_err() {
            self.has_gap = true;
        }
    }

    /// Adds a number.
    fn put_number(&mut self, number: u64) {
        if write!(self.text, "{number}").is_err() {
            self.has_gap = true;
        }
    }

    /// Adds a form, with a number in place of each `%`.
    pub fn fill(&mut self, form: &str, numbers: &[u64]) {
        let mut numbers = numbers.iter();
        for piece in form.split('%') {
            self.put(piece);
            if let Some(number) = numbers.next() {
                self.put_number(*number);
            }
        }
    }

    /// Adds a name and a stamp.
    pub fn put_stamp(&mut self, name: &str, stamp: Stamp) {
        self.put(name);
        let numbers = [
            stamp.view.0.into(),
            stamp.time,
            stamp.brick.0.into(),
            stamp.boot.into(),
        ];
        self.fill("%.%.%.%", &numbers);
    }

    /// Adds a name and a ballot.
    pub(crate) fn put_ballot(&mut self, name: &str, ballot: Ballot) {
        self.put(name);
        let numbers = [
            ballot.round.into(),
            ballot.brick.0.into(),
            ballot.boot.into(),
        ];
        self.fill("%.%.%", &numbers);
    }

    /// Adds the members of a view.
    pub fn put_members(&mut self, members: &[BrickId]) {
        self.put(" members");
        for member in members {
            self.fill(" %", &[member.0.into()]);
        }
    }

    /// Adds bytes in hex, the first 8 of them alone where there are more.
    pub fn put_hex(&mut self, bytes: &[u8]) {
        let shown = bytes.len().min(SHOWN_BYTES);
        for byte in &bytes[..shown] {
            self.put_byte(*byte);
        }
        self.put(match bytes.len() {
            0 => "none",
            1..=SHOWN_BYTES => "",
            _ => "..",
        });
    }

    /// Adds a byte in hex.
    fn put_byte(&mut self, byte: u8) {
        if write!(self.text, "{byte:02x}").is_err() {
            self.has_gap = true;
        }
    }

    /// Adds the first characters of a label, at most so many, with `?` for what is no printable ASCII or has a meaning in SVG.
    pub fn put_label(&mut self, label: &[u8], most: usize) {
        let shown = label.len().min(most);
        for byte in &label[..shown] {
            if self.text.push(shown_as(*byte)).is_err() {
                self.has_gap = true;
            }
        }
    }

    /// Adds all pieces of another text.
    pub fn put_text(&mut self, other: &Text) {
        self.put(other.pieces());
        self.has_gap = self.has_gap || other.has_gap;
    }

    /// Notes that a piece is missing.
    pub fn note_gap(&mut self) {
        self.has_gap = true;
    }

    /// Takes all pieces away. A gap stays noted.
    pub fn clear(&mut self) {
        self.text.clear();
    }

    /// The pieces, but those that found no memory.
    pub fn pieces(&self) -> &str {
        self.text.as_str()
    }

    /// All pieces. `NoMemory` where one is missing.
    pub fn whole(&self) -> Result<&str, NoMem> {
        if self.has_gap {
            return Err(NoMem::NoMemory);
        }
        Ok(self.text.as_str())
    }
}
