//! Options and requests, as far as their bytes have come.

ghost use Rattle.std.specs.Prelude.{◌≡◌, ◌+◌, ◌≤◌, length};
ghost use Rattle.nbd_front.specs.Wire.{is_option, option_size, option_length, option_data, choice_of, kind_of, request_of, bytes_behind, is_request, request_size};

use crate::fields::{u16_at, u32_at, u64_at};

// `IHAVEOPT`, by which an option begins.
const OPTION_MAGIC: u64 = 0x4948_4156_454f_5054;
// The bytes of an option before its data.
const OPTION_HEAD: usize = 16;
// The most bytes of data that an option may have.
const MOST_DATA: u32 = 4096;
// The number by which a request begins.
const REQUEST_MAGIC: u32 = 0x2560_9513;
// The bytes of a request before those of a WRITE.
pub(crate) const REQUEST_HEAD: usize = 28;
// The most bytes that a READ or a WRITE may have.
pub(crate) const MOST_BYTES: u32 = 33_554_432;

// What a client wants by an option.
#[derive(Clone, Copy)]
pub(crate) enum NbdOption {
    // The volume that the option's data names.
    ExportName,
    // The end of the session.
    Abort,
    // Something else.
    Other,
}

// What a client wants by a request.
#[derive(Clone, Copy)]
pub(crate) enum NbdKind {
    Read,
    Write,
    Disc,
    Flush,
    Other,
}

// A request before the bytes of a WRITE.
#[derive(Clone, Copy)]
pub(crate) struct NbdRequest {
    pub(crate) flags: u16,
    pub(crate) kind: NbdKind,
    pub(crate) cookie: u64,
    pub(crate) offset: u64,
    pub(crate) length: u32,
}

// Whether these are the first bytes of an option, with data of a length that is allowed.
pub(crate) fn is_option(bytes: &[u8]) -> bool
    requires { 16 ≤ length bytes.now }
    ensures { result ≡ is_option bytes.now }
{
    u64_at(bytes, 0) == OPTION_MAGIC && u32_at(bytes, 12) <= MOST_DATA
}

// How many bytes an option has, as far as those of it that came tell.
pub(crate) fn option_size(bytes: &[u8]) -> usize
    ensures { result ≡ option_size bytes.now }
{
    if OPTION_HEAD <= bytes.len() && is_option(bytes) {
        OPTION_HEAD + u32_at(bytes, 12) as usize
    } else {
        OPTION_HEAD
    }
}

// The data of an option that has come whole.
pub(crate) fn option_data(bytes: &[u8]) -> &[u8]
    requires { 16 + option_length bytes.now ≤ length bytes.now }
    ensures { result.now ≡ option_data bytes.now }
{
    let (_, behind) = bytes.split_at(OPTION_HEAD);
    let (data, _) = behind.split_at(u32_at(bytes, 12) as usize);
    data
}

impl NbdOption {
    // What the number of an option asks for.
    pub(crate) fn of(number: u32) -> NbdOption
        ensures { result ≡ choice_of number }
    {
        if number == 1 {
            NbdOption::ExportName
        } else if number == 2 {
            NbdOption::Abort
        } else {
            NbdOption::Other
        }
    }
}

impl NbdKind {
    // What the number of a kind asks for.
    fn of(number: u16) -> NbdKind
        ensures { result ≡ kind_of number }
    {
        if number == 0 {
            NbdKind::Read
        } else if number == 1 {
            NbdKind::Write
        } else if number == 2 {
            NbdKind::Disc
        } else if number == 3 {
            NbdKind::Flush
        } else {
            NbdKind::Other
        }
    }
}

impl NbdRequest {
    // The request that begins with these bytes.
    pub(crate) fn of(bytes: &[u8]) -> NbdRequest
        requires { 28 ≤ length bytes.now }
        ensures { result ≡ request_of bytes.now }
    {
        NbdRequest {
            flags: u16_at(bytes, 4),
            kind: NbdKind::of(u16_at(bytes, 6)),
            cookie: u64_at(bytes, 8),
            offset: u64_at(bytes, 16),
            length: u32_at(bytes, 24),
        }
    }

    // How many bytes come behind its head.
    fn bytes_behind(self) -> u32
        ensures { result ≡ bytes_behind self.kind self.length }
    {
        match self.kind {
            NbdKind::Write => self.length,
            _ => 0,
        }
    }
}

// Whether these are the first bytes of a request, with no more bytes behind it than are allowed.
pub(crate) fn is_request(bytes: &[u8]) -> bool
    requires { 28 ≤ length bytes.now }
    ensures { result ≡ is_request bytes.now }
{
    u32_at(bytes, 0) == REQUEST_MAGIC && NbdRequest::of(bytes).bytes_behind() <= MOST_BYTES
}

// How many bytes a request has, as far as those of it that came tell.
pub(crate) fn request_size(bytes: &[u8]) -> usize
    ensures { result ≡ request_size bytes.now }
{
    if REQUEST_HEAD <= bytes.len() && is_request(bytes) {
        REQUEST_HEAD + NbdRequest::of(bytes).bytes_behind() as usize
    } else {
        REQUEST_HEAD
    }
}
