//! What a session wants next, what it asks for, and how it ends.

use fab_base::Bytes;

/// How a session ends.
#[derive(Clone, Copy)]
pub enum End {
    /// The client said that it goes, by a request.
    Disc,
    /// The client gave up before it chose a volume.
    Abort,
    /// The client's bytes ended.
    Eof,
    /// The client's bytes were no session.
    Dropped,
    /// The client chose a volume that there is not.
    NoExport,
    /// No turn was left.
    Turns,
}

/// What a session wants next.
#[derive(Drop)]
pub enum Step {
    /// More of the client's bytes.
    Need,
    /// These bytes are to be sent.
    Send(Bytes),
    /// The command of [`Session::command`](crate::Session::command) is to be done, and its answer told.
    Ask,
    /// The session has ended.
    Ended(End),
}

/// What is asked of the disk.
#[derive(Clone, Copy)]
pub enum Command<'s> {
    /// Bytes are to be read.
    Read {
        /// The volume's name.
        volume: &'s str,
        /// The first byte.
        byte: u64,
        /// How many bytes.
        length: u64,
    },
    /// Bytes are to be written.
    Write {
        /// The volume's name.
        volume: &'s str,
        /// The first byte.
        byte: u64,
        /// What is to be written.
        bytes: &'s [u8],
    },
}

// The error of a reply to a request.
#[derive(Clone, Copy)]
pub(crate) enum ReplyError {
    Success,
    Io,
    Invalid,
    NoSpace,
}

// What a session reads or sends next.
#[derive(Clone, Copy)]
pub(crate) enum SessionStage {
    // The server's greeting is to be sent.
    Greeting,
    // The client's flags are to be read.
    Flags,
    // An option is to be read. A brief client wants no zero bytes after the size of its volume.
    Options { brief: bool },
    // A request is to be read.
    Requests,
    // The reply to a request is to be sent.
    Replying { cookie: u64, error: ReplyError },
    // The bytes of a READ are to be sent.
    Sending,
    // The session has ended.
    Over(End),
}
