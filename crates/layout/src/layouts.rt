//! Layouts.

ghost use Rattle.std.specs.Prelude.{◌≡◌, ◌<◌, length, option_copied, IfSome, IfOk};
ghost use Rattle.fab_base.specs.Layouts.{group_of, most_groups};
ghost use Rattle.layout.specs.Checks.{layout_with};
ghost use Rattle.layout.specs.Limits.{IsLayout};

use crate::groups::Group;
use crate::volumes::Volume;
use fab_base::{BrickId, GroupId, NoMem};
use std::alloc::Global;
use std::marker::Model;

/// The layout of a disk. Each value is within the limits of the format, as a text that says it.
#[derive(Drop)]
pub struct Layout {
    block: u16,
    bricks: u16,
    records: u32,
    port: u16,
    store: u8,
    spares: Vec<BrickId>,
    groups: Vec<Group>,
    volumes: Vec<Volume>,
}

impl Model for Layout {
    ghost use Rattle.fab_base.specs.Layouts.{Layout};
    ghost use Rattle.layout.specs.Limits.{IsLayout};

    ghost Value = { Layout };

    ghost view = { λ layout. record {
      block = layout.block;
      bricks = layout.bricks;
      records = layout.records;
      port = layout.port;
      store = layout.store;
      spares = layout.spares.items;
      groups = layout.groups.items;
      volumes = layout.volumes.items;
    } };

    ghost invariant = { λ layout. IsLayout (record {
      block = layout.block;
      bricks = layout.bricks;
      records = layout.records;
      port = layout.port;
      store = layout.store;
      spares = layout.spares.items;
      groups = layout.groups.items;
      volumes = layout.volumes.items;
    }) };
}

// Equal groups, in the same order.
fn copy_groups(alloc: Global, groups: &[Group]) -> Result<Vec<Group>, NoMem>
    ensures { IfOk result (λ made. made.items ≡ groups.now) }
{
    let mut made = Vec::new(alloc);
    for group in groups {
        made.push(group.copy())?;
    }
    Ok(made)
}

// Equal volumes, in the same order.
fn copy_volumes(alloc: Global, volumes: &[Volume]) -> Result<Vec<Volume>, NoMem>
    ensures { IfOk result (λ made. made.items ≡ volumes.now) }
{
    let mut made = Vec::new(alloc);
    for volume in volumes {
        made.push(volume.copy(alloc)?)?;
    }
    Ok(made)
}

impl Layout {
    // A layout of blocks of this many bytes, this many bricks, each with room for so many live records, the port of brick 0,
    // the form of the stores, and these spares, groups and volumes.
    pub(crate) fn new(
        block: u16,
        bricks: u16,
        records: u32,
        port: u16,
        store: u8,
        spares: Vec<BrickId>,
        groups: Vec<Group>,
        volumes: Vec<Volume>,
    ) -> Layout
        requires { IsLayout (layout_with block bricks records port store spares.items groups.items volumes.items) }
        ensures { result ≡ layout_with block bricks records port store spares.items groups.items volumes.items }
    {
        Layout {
            block,
            bricks,
            records,
            port,
            store,
            spares,
            groups,
            volumes,
        }
    }

    /// An equal value.
    ///
    /// # Errors
    ///
    /// `NoMemory` where no memory was left.
    pub fn copy(&self, alloc: Global) -> Result<Layout, NoMem>
        ensures { IfOk result (λ made. made ≡ self.now) }
    {
        Ok(Layout {
            block: self.block,
            bricks: self.bricks,
            records: self.records,
            port: self.port,
            store: self.store,
            spares: Vec::from_slice(alloc, &self.spares)?,
            groups: copy_groups(alloc, &self.groups)?,
            volumes: copy_volumes(alloc, &self.volumes)?,
        })
    }

    // The call does nothing: its contract says that the layout is within its limits.
    pub(crate) fn is_within_limits(&self)
        ensures { IsLayout self.now }
    {
        let _ = &self.block;
    }

    /// Bytes per block.
    pub fn block(&self) -> u16
        ensures { result ≡ self.now.block }
    {
        self.block
    }

    /// How many bricks there are: numbers 0 to one below this.
    pub fn bricks(&self) -> u16
        ensures value { result ≡ self.now.bricks }
        ensures limits { IsLayout self.now }
    {
        self.bricks
    }

    /// How many live records a brick may keep, 1 to 1,048,576.
    pub fn records(&self) -> u32
        ensures value { result ≡ self.now.records }
        ensures limits { IsLayout self.now }
    {
        self.records
    }

    /// The UDP port of brick 0, 1 to 65,472: brick b has the port b above it.
    pub fn port(&self) -> u16
        ensures value { result ≡ self.now.port }
        ensures limits { IsLayout self.now }
    {
        self.port
    }

    /// The form of the bricks' stores, 1 or 2.
    pub fn store(&self) -> u8
        ensures { result ≡ self.now.store }
    {
        self.store
    }

    /// The bricks that may take a member's place, in the order of the text.
    pub fn spares(&self) -> &[BrickId]
        ensures { result.now ≡ self.now.spares }
    {
        self.spares.as_slice()
    }

    /// The volumes, in the order of the text.
    pub fn volumes(&self) -> &[Volume]
        ensures { result.now ≡ self.now.volumes }
    {
        self.volumes.as_slice()
    }

    /// How many groups there are: numbers 0 to one below this.
    pub fn group_count(&self) -> usize
        ensures value { result ≡ length self.now.groups }
        ensures limits { IsLayout self.now }
    {
        self.groups.len()
    }

    /// The groups, by number.
    pub fn groups(&self) -> &[Group]
        ensures { result.now ≡ self.now.groups }
    {
        self.groups.as_slice()
    }

    /// The group of this number, if there is one.
    pub fn group(&self, group: GroupId) -> Option<&Group>
        ensures found { option_copied result ≡ group_of self.now group.0 }
        ensures few { IfSome result (λ found. group.0 < most_groups) }
    {
        self.groups.get(group.0 as usize)
    }
}
