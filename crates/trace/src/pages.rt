//! The text of a trace: lines that tell what `replay` prints, and lines beside them.

ghost use Rattle.std.specs.Prelude.{◌≡◌, ◌<◌, ◌++◌, [], List, ℕ, IfOk, OnOk, slice_index, true};
ghost use Rattle.trace.specs.Told.{IsTold, indented, with_margin, IsStepText};

use fab_base::NoMem;
use std::alloc::Global;
use std::marker::Model;

/// A text that is being written, line by line.
#[derive(Drop)]
pub(crate) struct Page {
    bytes: Vec<u8>,
}

impl Model for Page {
    ghost use Rattle.std.specs.Prelude.{List, ℕ};

    ghost Value = { List ℕ };

    ghost view = { λ p. p.bytes.items };
}

impl Page {
    /// No line.
    pub(crate) fn new(alloc: Global) -> Page
        ensures { result ≡ [] }
    {
        Page {
            bytes: Vec::new(alloc),
        }
    }

    /// All its bytes.
    pub(crate) fn as_slice(&self) -> &[u8]
        ensures { result.now ≡ self.now }
    {
        self.bytes.as_slice()
    }

    /// Adds what `replay` prints for a line, with two spaces before each of its lines.
    pub(crate) fn tell(&mut self, printed: &[u8]) -> Result<(), NoMem>
        requires { IsStepText printed.now }
        ensures { OnOk result ((told : List ℕ) → IsTold self.old told → IsTold self.new (told ++ printed.now)) }
    {
        self.indent(printed)
    }

    /// Adds a text with two spaces before each of its lines.
    fn indent(&mut self, text: &[u8]) -> Result<(), NoMem>
        ensures { OnOk result (self.new ≡ self.old ++ indented true text.now) }
    {
        let mut begins = true;
        for byte in text {
            if begins {
                self.bytes.extend_from_slice(b"  ".as_slice())?;
            }
            self.bytes.push(*byte)?;
            begins = *byte == b'\n';
        }
        Ok(())
    }

    /// Adds a line with four spaces before it. Line feeds of the text are left out.
    pub(crate) fn note(&mut self, text: &[u8]) -> Result<(), NoMem>
        ensures { OnOk result ((told : List ℕ) → IsTold self.old told → IsTold self.new told) }
    {
        self.line(b"    ".as_slice(), text)
    }

    /// Adds a line that begins with no space. Line feeds of the text are left out.
    pub(crate) fn head(&mut self, text: &[u8]) -> Result<(), NoMem>
        requires { 32 < slice_index text.now 0 }
        ensures { OnOk result ((told : List ℕ) → IsTold self.old told → IsTold self.new told) }
    {
        self.line(b"".as_slice(), text)
    }

    /// Adds a line with a margin before it. Line feeds of the text are left out.
    fn line(&mut self, margin: &[u8], text: &[u8]) -> Result<(), NoMem>
        ensures { OnOk result (self.new ≡ self.old ++ with_margin margin.now text.now) }
    {
        self.bytes.extend_from_slice(margin)?;
        for byte in text {
            if *byte != b'\n' {
                self.bytes.push(*byte)?;
            }
        }
        self.bytes.push(b'\n')?;
        Ok(())
    }
}
