//! The text of a layout.

ghost use Rattle.std.specs.Prelude.{◌≡◌, ◌≢◌, Some, None, Ok, Err, IfOk, IfErr, IsErrOf};
ghost use Rattle.toml.specs.View.{table_view};
ghost use Rattle.layout.specs.Texts.{document_of, layout_of, three_copies};

use crate::document_checks::layout_in;
use crate::faults::LayoutFault;
use crate::layouts::Layout;
use std::alloc::Global;
use toml::Table;

/// The greatest length in bytes of a layout text, for the reader of an input that holds one: [`Layout::read`] takes any length.
pub const LAYOUT_LIMIT: usize = 1_048_576;

/// The text that [`three_copies`] gives.
pub const THREE_COPIES: &[u8] =
    b"block = 1\nbricks = 3\nrecords = 100\n[[group]]\nm = 1\nmembers = [0, 1, 2]\nstripes = 4\n";

/// The text of a small layout: three bricks, each with a copy of every block of four stripes.
pub fn three_copies() -> &'static [u8]
    ensures { layout_of result.now ≡ Ok three_copies }
{
    THREE_COPIES
}

// The table that a text is as a TOML document.
fn document_of(alloc: Global, text: &[u8]) -> Result<Table, LayoutFault>
    ensures ok { IfOk result (λ table. document_of text.now ≡ Some (table_view table)) }
    ensures refused { IfErr result (λ fault. fault ≢ LayoutFault.NoMemory → fault ≡ LayoutFault.Toml) }
    ensures none { IfErr result (λ fault. fault ≢ LayoutFault.NoMemory → document_of text.now ≡ None) }
{
    match toml::table_from_slice(alloc, text) {
        Ok(table) => Ok(table),
        Err(error) => {
            if error.is_memory() {
                Err(LayoutFault::NoMemory)
            } else {
                Err(LayoutFault::Toml)
            }
        }
    }
}

impl Layout {
    ghost use Rattle.layout.specs.Limits.{IsLayout};

    /// The layout that a text says. The checks are those of the format in their order.
    ///
    /// # Errors
    ///
    /// The fault of the first check that fails: `Toml` exactly where the text is no TOML document, `Field` where a key is
    /// missing, of a wrong type or none of the format's, `Limit` where a value is outside its limits; `NoMemory` where no
    /// memory was left.
    pub fn read(alloc: Global, text: &[u8]) -> Result<Layout, LayoutFault>
        ensures read { IfOk result (λ layout. layout_of text.now ≡ Ok layout) }
        ensures refused { IfErr result (λ fault. fault ≢ LayoutFault.NoMemory → layout_of text.now ≡ Err fault) }
        ensures toml { IsErrOf result LayoutFault.Toml → document_of text.now ≡ None }
        ensures limits { IfOk result IsLayout }
    {
        let table = document_of(alloc, text)?;
        layout_in(alloc, &table)
    }
}
