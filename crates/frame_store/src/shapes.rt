//! What a store is made for, and where its parts lie.

ghost use Rattle.std.specs.Prelude.{◌≡◌, ◌≤◌, ◌<◌, ◌+◌};
/// What a store is made for: a brick, the bytes of a block, and how many slots there are; and in which form it lies on its disk.
#[derive(Clone, Copy, PartialEq, Eq)]
pub struct Shape {
    /// The brick.
    pub me: u16,
    /// How many bytes a block has, 1 to 4,096.
    pub block: u16,
    /// How many slots there are, 1 to 1,048,576.
    pub records: u32,
    /// The form.
    pub form: Form,
}

/// How a store lies on its disk.
#[derive(Clone, Copy, PartialEq, Eq)]
pub enum Form {
    /// The old format: two halves, and no slots, since frames have blocks in them. Such a store is read, and brought over.
    Old,
    /// The new format: slots behind the headers, and the two halves of the index behind them.
    New,
    /// The new format in a store that was brought over: its slots lie behind the halves that it had.
    Moved,
}

/// A half of the index, with its header.
#[derive(Clone, Copy, PartialEq, Eq)]
pub enum Half {
    /// The half whose header stands first.
    A,
    /// The other.
    B,
}

impl Half {
    ghost use Rattle.std.specs.Prelude.{◌≡◌};
    ghost use Rattle.frame_store.specs.Layouts.{header_at};
    ghost use Rattle.frame_store.specs.Laid.{other};

    // The other one.
    pub(crate) fn other(self) -> Half
        ensures { result ≡ other self }
    {
        match self {
            Half::A => Half::B,
            Half::B => Half::A,
        }
    }

    // Where its header begins.
    pub(crate) fn header_at(self) -> u64
        ensures { result ≡ header_at self }
    {
        match self {
            Half::A => 0,
            Half::B => 32,
        }
    }
}

impl Form {
    ghost use Rattle.std.specs.Prelude.{◌≡◌};
    ghost use Rattle.frame_store.specs.Layouts.{is_old_form, format_of, place_of};

    // Whether it is the old format.
    fn is_old(self) -> bool
        ensures { result ≡ is_old_form self }
    {
        match self {
            Form::Old => true,
            Form::New | Form::Moved => false,
        }
    }

    // The format's number.
    pub(crate) fn format(self) -> u8
        ensures { result ≡ format_of self }
    {
        match self {
            Form::Old => 1,
            Form::New | Form::Moved => 2,
        }
    }

    // The byte of a header that tells where the slots lie.
    pub(crate) fn place(self) -> u8
        ensures { result ≡ place_of self }
    {
        match self {
            Form::Old | Form::New => 0,
            Form::Moved => 1,
        }
    }
}

impl Shape {
    ghost use Rattle.std.specs.Prelude.{◌≡◌, ◌≤◌, ◌<◌, ◌+◌, ◌^◌};
    ghost use Rattle.frame_store.specs.Layouts.{IsShape, formed, is_old, start_in, slot_at, old_half_size, index_half_size, half_size, half_at, store_end};

    // The same store in this form.
    pub(crate) fn formed(self, form: Form) -> Shape
        ensures { result ≡ formed form self }
    {
        Shape {
            me: self.me,
            block: self.block,
            records: self.records,
            form,
        }
    }

    // Whether the store is of the old format.
    pub(crate) fn is_old(self) -> bool
        ensures { result ≡ is_old self }
    {
        self.form.is_old()
    }

    // How long a half of the old format is.
    fn old_half_size(self) -> u64
        requires { IsShape self }
        ensures { result ≡ old_half_size self }
    {
        (2 * self.records as u64 + 512) * (self.block as u64 + 256)
    }

    // How long a half of the index is.
    pub(crate) fn index_half_size(self) -> u64
        ensures { result ≡ index_half_size self }
    {
        (2 * self.records as u64 + 512) * 256
    }

    // Where the slots begin.
    fn start(self) -> u64
        requires { IsShape self }
        ensures { result ≡ start_in self.form self }
    {
        match self.form {
            Form::New => 64,
            Form::Old | Form::Moved => 64 + 2 * self.old_half_size(),
        }
    }

    // Where a slot begins.
    pub(crate) fn slot_at(self, slot: u32) -> u64
        requires { IsShape self }
        ensures { result ≡ slot_at self slot }
    {
        self.start() + slot as u64 * self.block as u64
    }

    // How long a half is.
    pub(crate) fn half_size(self) -> u64
        requires { IsShape self }
        ensures { result ≡ half_size self }
    {
        match self.form {
            Form::Old => self.old_half_size(),
            Form::New | Form::Moved => self.index_half_size(),
        }
    }

    // Where the first half begins.
    fn first_half_at(self) -> u64
        requires { IsShape self }
        ensures { result ≡ half_at self Half.A }
    {
        match self.form {
            Form::Old => 64,
            Form::New | Form::Moved => self.slot_at(self.records),
        }
    }

    // Where a half begins.
    pub(crate) fn half_at(self, half: Half) -> u64
        requires { IsShape self }
        ensures { result ≡ half_at self half }
    {
        let first = self.first_half_at();
        match half {
            Half::A => first,
            Half::B => first + self.half_size(),
        }
    }

    // Where the store ends, an old one once it is brought over.
    pub(crate) fn end(self) -> u64
        requires { IsShape self }
        ensures { result ≡ store_end self }
    {
        self.slot_at(self.records) + 2 * self.index_half_size()
    }
}
