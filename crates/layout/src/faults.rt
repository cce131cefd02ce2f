//! The keys of a layout text, and why a text is refused.

ghost use Rattle.std.specs.Prelude.{◌≡◌, IfOk};

use fab_base::NoMem;
use std::alloc::{AllocError, AllocFailed, Global};
use std::error::Error;
use std::fmt;
use std::marker::Model;

/// A key of the format.
#[derive(Clone, Copy, Debug, PartialEq, Eq)]
pub enum Key {
    /// `block`: bytes per block.
    Block,
    /// `bricks`: how many bricks there are.
    Bricks,
    /// `records`: live records per store.
    Records,
    /// `port`: the UDP port of brick 0.
    Port,
    /// `store`: the form of the bricks' stores.
    Store,
    /// `spares`: the bricks that may take a member's place.
    Spares,
    /// `group`: the list of groups.
    Group,
    /// `m` of a group: data blocks per stripe.
    GroupM,
    /// `members` of a group: its bricks, by seat.
    GroupMembers,
    /// `stripes` of a group: how many stripes it has.
    GroupStripes,
    /// `volume`: the list of volumes.
    Volume,
    /// `name` of a volume.
    VolumeName,
    /// `segments` of a volume: the stripes that hold its bytes.
    VolumeSegments,
}

impl Key {
    ghost use Rattle.layout.specs.Names.{key_text, key_name};

    /// The key as it stands in its table, as `m`.
    pub fn as_str(self) -> &'static str
        ensures { result.now ≡ key_text self }
    {
        match self {
            Key::Block => "block",
            Key::Bricks => "bricks",
            Key::Records => "records",
            Key::Port => "port",
            Key::Store => "store",
            Key::Spares => "spares",
            Key::Group => "group",
            Key::GroupM => "m",
            Key::GroupMembers => "members",
            Key::GroupStripes => "stripes",
            Key::Volume => "volume",
            Key::VolumeName => "name",
            Key::VolumeSegments => "segments",
        }
    }

    /// What the key is called, as `group.m`.
    pub fn name(self) -> &'static str
        ensures { result.now ≡ key_name self }
    {
        match self {
            Key::GroupM => "group.m",
            Key::GroupMembers => "group.members",
            Key::GroupStripes => "group.stripes",
            Key::VolumeName => "volume.name",
            Key::VolumeSegments => "volume.segments",
            Key::Block
            | Key::Bricks
            | Key::Records
            | Key::Port
            | Key::Store
            | Key::Spares
            | Key::Group
            | Key::Volume => self.as_str(),
        }
    }
}

impl fmt::Display for Key {
    ghost use Rattle.std.specs.Prelude.{Some};
    ghost use Rattle.layout.specs.Names.{key_name};

    ghost output = { λ key. Some (key_name key) };

    fn fmt<W: fmt::Write>(&self, f: &mut fmt::Formatter<W>) -> fmt::Result {
        let name = self.name();
        write!(f, "{name}")
    }
}

/// A key of a text, seen as the list of its bytes.
#[derive(Debug, Drop)]
pub struct KeyText {
    text: String,
}

impl Model for KeyText {
    ghost use Rattle.std.specs.Prelude.{List, ℕ, string_bytes};

    ghost Value = { List ℕ };

    ghost view = { λ key. string_bytes key.text };
}

impl KeyText {
    /// A copy of this text.
    pub fn from_str(alloc: Global, text: &str) -> Result<KeyText, NoMem>
        ensures { IfOk result (λ key. key ≡ text.now) }
    {
        let text = String::from_str(alloc, text)?;
        Ok(KeyText { text })
    }

    /// The text.
    pub fn as_str(&self) -> &str
        ensures { result.now ≡ self.now }
    {
        self.text.as_str()
    }
}

/// What a fault calls a field.
#[derive(Debug, Drop)]
pub enum FieldName {
    /// A key of the format.
    Known(Key),
    /// A key that the top of the document has and the format has not.
    Other(KeyText),
    /// A key that a group has and the format has not.
    OtherOfGroup(KeyText),
    /// A key that a volume has and the format has not.
    OtherOfVolume(KeyText),
}

impl fmt::Display for FieldName {
    ghost use Rattle.std.specs.Prelude.{Some};
    ghost use Rattle.layout.specs.Names.{field_name};

    ghost output = { λ name. Some (field_name name) };

    fn fmt<W: fmt::Write>(&self, f: &mut fmt::Formatter<W>) -> fmt::Result {
        match self {
            FieldName::Known(key) => write!(f, "{key}"),
            FieldName::Other(text) => {
                let key = text.as_str();
                write!(f, "{key}")
            }
            FieldName::OtherOfGroup(text) => {
                let key = text.as_str();
                write!(f, "group.{key}")
            }
            FieldName::OtherOfVolume(text) => {
                let key = text.as_str();
                write!(f, "volume.{key}")
            }
        }
    }
}

/// Why a text is no layout. It prints as `toml`, `field NAME`, `limit NAME` or `no memory`.
#[derive(Debug, Drop)]
pub enum LayoutFault {
    /// The text is no TOML document.
    Toml,
    /// A key is missing, its value is of a wrong type, or the format has no such key.
    Field {
        /// The key.
        name: FieldName,
    },
    /// A value is outside the limits of its key.
    Limit {
        /// The key.
        name: Key,
    },
    /// No memory was left.
    NoMemory,
}

impl fmt::Display for LayoutFault {
    ghost use Rattle.std.specs.Prelude.{Some};
    ghost use Rattle.layout.specs.Names.{fault_text};

    ghost output = { λ fault. Some (fault_text fault) };

    fn fmt<W: fmt::Write>(&self, f: &mut fmt::Formatter<W>) -> fmt::Result {
        match self {
            LayoutFault::Toml => write!(f, "toml"),
            LayoutFault::Field { name } => write!(f, "field {name}"),
            LayoutFault::Limit { name } => write!(f, "limit {name}"),
            LayoutFault::NoMemory => write!(f, "no memory"),
        }
    }
}

impl Error for LayoutFault {}

impl From<NoMem> for LayoutFault {
    ghost use Rattle.std.specs.Prelude.{◌≡◌};
    ghost use Rattle.layout.specs.declared.faults.LayoutFault.TheVariants.{NoMemory};

    ghost from_gives = { λ _ e. e ≡ NoMemory };

    fn from(_error: NoMem) -> LayoutFault {
        LayoutFault::NoMemory
    }
}

impl From<AllocError> for LayoutFault {
    ghost use Rattle.std.specs.Prelude.{◌≡◌};
    ghost use Rattle.layout.specs.declared.faults.LayoutFault.TheVariants.{NoMemory};

    ghost from_gives = { λ _ e. e ≡ NoMemory };

    fn from(_error: AllocError) -> LayoutFault {
        LayoutFault::NoMemory
    }
}

impl<T: Drop> From<AllocFailed<T>> for LayoutFault {
    ghost use Rattle.std.specs.Prelude.{◌≡◌};
    ghost use Rattle.layout.specs.declared.faults.LayoutFault.TheVariants.{NoMemory};

    ghost from_gives = { λ _ e. e ≡ NoMemory };

    fn from(_error: AllocFailed<T>) -> LayoutFault {
        LayoutFault::NoMemory
    }
}
