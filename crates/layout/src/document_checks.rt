//! The checks of a layout text, one after another, over the table that it is as a TOML document.

ghost use Rattle.std.specs.Prelude.{◌≡◌, ◌≢◌, Ok, Err, IfOk, IfErr};
ghost use Rattle.toml.specs.View.{table_view};
ghost use Rattle.layout.specs.Limits.{IsLayout};
ghost use Rattle.layout.specs.Checks.{layout_in};

use crate::faults::{Key, LayoutFault};
use crate::layouts::Layout;
use crate::tables::{groups_in, number_at, port_at, refuse_other, spares_at, store_at, tables_at};
use crate::volume_tables::{volume_tables_at, volumes_in};
use std::alloc::Global;
use toml::Table;

/// The layout that the table of a text says.
pub fn layout_in(alloc: Global, table: &Table) -> Result<Layout, LayoutFault>
    ensures ok { IfOk result (λ layout. layout_in (table_view table.now) ≡ Ok layout) }
    ensures err { IfErr result (λ fault. fault ≢ LayoutFault.NoMemory
        → layout_in (table_view table.now) ≡ Err fault) }
    ensures limits { IfOk result IsLayout }
{
    let block = number_at(table, Key::Block, 1, 4096)? as u16;
    let bricks = number_at(table, Key::Bricks, 1, 64)? as u16;
    let records = number_at(table, Key::Records, 1, 1_048_576)?;
    let port = port_at(table)? as u16;
    let store = store_at(table)? as u8;
    let spares = spares_at(alloc, table, bricks)?;
    let tables = tables_at(alloc, table)?;
    let volume_tables = volume_tables_at(alloc, table)?;
    let groups = groups_in(alloc, block, bricks, tables.as_slice())?;
    let volumes = volumes_in(alloc, groups.as_slice(), volume_tables.as_slice())?;
    refuse_other(alloc, table)?;
    Ok(Layout::new(block, bricks, records, port, store, spares, groups, volumes))
}
