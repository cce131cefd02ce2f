//! The log of a stripe's versions.

ghost use Rattle.std.specs.Prelude.{◌≡◌, ◌↔◌, ◌≤◌, ◌<◌, ◌==◌, [], ◌∷◌, ◌++◌, length, take, find, filter, true, false, is_some, vec_len, vec_capacity};
ghost use Rattle.std.specs.Prelude.{option_map, option_copied, IsTrue, IsSome, IsOk, IfOk, OnOk, OnErr};
ghost use Rattle.std.specs.List.{list_any};
ghost use Rattle.std.specs.List.Sorted.{IsPartitionPoint};
ghost use Rattle.fab_base.specs.Stamps.{stamp_below, stamp_same};
ghost use Rattle.version_log.specs.Versions.{IsRising, version, block_of, newest, below, is_below, IsNewer, IsAdded};
ghost use Rattle.version_log.specs.Versions.{has_stamp, from_stamp, collected};

use crate::versions::Version;
use fab_base::{NoMem, Stamp};
use std::alloc::Global;

/// Versions with rising stamps, each with its block, or with what is kept of it. Look-ups take logarithmic time. Only
/// `add` and `reserve` take memory.
#[derive(Drop)]
pub struct VersionLog<B> {
    versions: Vec<Version<B>>,
    ghost rising: { IsRising versions.items },
}

impl<B> VersionLog<B> {
    /// A log without versions. It takes no memory.
    pub fn new(alloc: Global) -> VersionLog<B>
        ensures { result.versions.items ≡ [] }
    {
        VersionLog {
            versions: Vec::new(alloc),
        }
    }

    /// The versions, from the oldest on.
    pub fn versions(&self) -> &[Version<B>]
        ensures value { result.now ≡ self.now.versions.items }
        ensures rising { IsRising self.now.versions.items }
    {
        self.versions.as_slice()
    }

    /// How many versions there are.
    pub fn len(&self) -> usize
        ensures value { result ≡ length self.now.versions.items }
        ensures rising { IsRising self.now.versions.items }
    {
        self.versions.len()
    }

    /// Whether there are none.
    pub fn is_empty(&self) -> bool
        ensures { result ≡ (length self.now.versions.items == 0) }
    {
        self.versions.is_empty()
    }

    /// The version with the greatest stamp, and its block.
    pub fn newest(&self) -> Option<(Stamp, &B)>
        ensures value { option_map (λ found. version found.0 found.1.now) result ≡ newest self.now.versions.items }
        ensures rising { IsRising self.now.versions.items }
    {
        let version = self.versions.last()?;
        Some((version.stamp, &version.block))
    }

    /// The version with the greatest stamp below the bound, and its block.
    pub fn below(&self, bound: Stamp) -> Option<(Stamp, &B)>
        ensures { option_map (λ found. version found.0 found.1.now) result ≡ below bound self.now.versions.items }
    {
        let (lower, _) = self.versions.split_at(self.count_below(bound));
        let version = lower.last()?;
        Some((version.stamp, &version.block))
    }

    /// The block of the version with this stamp.
    pub fn at(&self, stamp: Stamp) -> Option<&B>
        ensures { option_copied result ≡ option_map block_of (find (has_stamp stamp) self.now.versions.items) }
    {
        let (_, upper) = self.versions.split_at(self.count_below(stamp));
        let version = upper.first()?;
        if version.stamp.is_same(stamp) {
            Some(&version.block)
        } else {
            None
        }
    }

    /// Whether there is a version with this stamp.
    pub fn has(&self, stamp: Stamp) -> bool
        ensures value { result ≡ is_some (find (has_stamp stamp) self.now.versions.items) }
        ensures any { result ≡ list_any (has_stamp stamp) self.now.versions.items }
    {
        self.at(stamp).is_some()
    }

    /// Whether there is room for one version more.
    pub fn has_room(&self) -> bool
        ensures { IsTrue result ↔ (vec_len self.now.versions < vec_capacity self.now.versions) }
    {
        self.versions.len() < self.versions.capacity()
    }

    /// Makes room for one version.
    pub fn reserve(&mut self) -> Result<(), NoMem>
        ensures same { self.new.versions.items ≡ self.old.versions.items }
        ensures room { OnOk result (vec_len self.new.versions < vec_capacity self.new.versions) }
        ensures enough { vec_len self.old.versions < vec_capacity self.old.versions → IsOk result }
    {
        self.versions.reserve(1)?;
        Ok(())
    }

    /// Adds a version above the newest, for which there is room.
    pub fn put(&mut self, stamp: Stamp, block: B)
        requires room { vec_len self.old.versions < vec_capacity self.old.versions }
        requires above { IsNewer stamp self.old.versions.items }
        ensures { self.new.versions.items ≡ self.old.versions.items ++ version stamp block ∷ [] }
    {
        self.versions.push_reserved(Version { stamp, block });
    }
}

impl<B: Drop> VersionLog<B> {
    /// Drops the versions below the one with this stamp. Where there is none, nothing changes.
    pub fn collect(&mut self, stamp: Stamp)
        ensures { self.new.versions.items ≡ collected stamp self.old.versions.items }
    {
        if self.has(stamp) {
            self.drop_below(stamp);
        }
    }

    /// Drops the versions below a stamp.
    pub fn drop_below(&mut self, stamp: Stamp)
        ensures { self.new.versions.items ≡ from_stamp stamp self.old.versions.items }
    {
        drop_below(&mut self.versions, stamp);
    }

    /// Puts a version, for which there is room, in the place of all that are there.
    pub fn restart(&mut self, stamp: Stamp, block: B)
        requires { vec_len self.old.versions < vec_capacity self.old.versions }
        ensures { self.new.versions.items ≡ version stamp block ∷ [] }
    {
        self.versions.clear();
        self.versions.push_reserved(Version { stamp, block });
    }
}

impl<B: Clone> VersionLog<B> {
    /// Adds a version above the newest: with this block, or with a copy of the newest version's where none is given. The log
    /// asks for a block while it is empty. Where memory runs out the log is as it was.
    pub fn add(&mut self, stamp: Stamp, block: Option<B>) -> Result<(), NoMem>
        requires above { IsNewer stamp self.old.versions.items }
        requires content { self.old.versions.items ≡ [] → IsSome block }
        ensures added { OnOk result ((added : B) × IsAdded B.is_clone self.old.versions.items block added
            × (self.new.versions.items ≡ self.old.versions.items ++ version stamp added ∷ [])) }
        ensures unchanged { OnErr result (self.new.versions.items ≡ self.old.versions.items) }
    {
        let block = self.shared(block)?;
        self.reserve()?;
        self.put(stamp, block);
        Ok(())
    }

    // The block of a version to be added.
    fn shared(&self, block: Option<B>) -> Result<B, NoMem>
        requires content { self.now.versions.items ≡ [] → IsSome block }
        ensures value { IfOk result (λ shared. IsAdded B.is_clone self.now.versions.items block shared) }
    {
        match (block, self.versions.last()) {
            (Some(given), _) => Ok(given),
            (None, Some(version)) => Ok(version.block.clone()?),
            (None, None) => unreachable!(),
        }
    }
}

impl<B> VersionLog<B> {
    // How many versions have stamps below the bound: these are the oldest.
    fn count_below(&self, bound: Stamp) -> usize
        ensures within { result ≤ length self.now.versions.items }
        ensures point { IsPartitionPoint (λ v. is_below bound v ≡ true) (λ v. is_below bound v ≡ false) self.now.versions.items result }
        ensures rising { IsRising self.now.versions.items }
    {
        self.versions
            .as_slice()
            .partition_point(|version| version.stamp.is_below(bound))
    }
}

// Drops the versions below the stamp, in place.
fn drop_below<B: Drop>(versions: &mut Vec<Version<B>>, stamp: Stamp)
    ensures { versions.new.items ≡ from_stamp stamp versions.old.items }
{
    versions.retain(|version| !version.stamp.is_below(stamp));
}
