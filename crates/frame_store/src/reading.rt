//! What is read of a disk when a store is opened.

ghost use Rattle.std.specs.Prelude.{Bool, ◌≡◌, ◌≢◌, ℕ, ◌+◌, ◌*◌, ◌^◌, ◌<◌, ◌≤◌, ◌++◌, ◌∷◌, [], List, ◌↔◌, ◌⊎◌, ◌-◌, min, length, slice_range, take, vec_len, IsTrue, IsOk, IfOk, IfErr, OnOk, IfSome, IfNone, Some, None};
ghost use Rattle.std.specs.Int.{w64, from_be_bytes};
ghost use Rattle.fab_disk.specs.Changing.{Still};
ghost use Rattle.frame_store.specs.declared.frames.Frame.{Frame};
ghost use Rattle.frame_store.specs.declared.shapes.Form.{Form};
ghost use Rattle.frame_store.specs.Layouts.{IsShape, headers_size, formed, is_old, header_at, open_gate, identity};
ghost use Rattle.frame_store.specs.Listed.{frame_at, frame_of, frame_rest, size_of};
ghost use Rattle.frame_store.specs.Images.{part, IsOpen, IsLater, InForce, IsNoStore, generation_at};
ghost use Rattle.frame_store.specs.Laid.{Laid, IsCounted};
ghost use Rattle.frame_store.specs.Reading.{IsFront, IsShutAt, IsPiece, IsListOf};

use crate::buffers::{OPEN, identity};
use crate::faults::OpenFault;
use crate::listings::Listing;
use crate::shapes::{Form, Half, Shape};
use crate::takers::TakesFrames;
use fab_base::NoMem;
use fab_disk::{Disk, IoFault};
use std::alloc::Global;

// How many bytes of a list are read at a time.
const PIECE: usize = 1 << 16;

// How many bytes the disk has.
fn len<D: Disk>(disk: &mut D) -> Result<u64, OpenFault>
    ensures length { D.tells → IfOk result (λ n. n ≡ length (D.seen disk.old)) }
    ensures still { Still D.Disk disk.old disk.new (result ≡ Err OpenFault.Disk) }
    ensures certain { D.certain disk.new ≡ D.certain disk.old }
    ensures only { result ≢ Err OpenFault.NotAStore }
{
    match disk.len() {
        Ok(size) => Ok(size),
        Err(IoFault::Failed) => Err(OpenFault::Disk),
        Err(IoFault::NoMemory) => Err(OpenFault::NoMemory),
    }
}

// Reads bytes of the disk.
fn read<D: Disk>(disk: &mut D, at: u64, into: &mut [u8]) -> Result<(), OpenFault>
    requires within { D.tells → at + length into.old ≤ length (D.seen disk.old) }
    requires reach { at + length into.old ≤ 2 ^ 48 }
    ensures bytes { D.tells → OnOk result (into.new ≡ slice_range (D.seen disk.old) at (at + length into.old)) }
    ensures still { Still D.Disk disk.old disk.new (result ≡ Err OpenFault.Disk) }
    ensures certain { D.certain disk.new ≡ D.certain disk.old }
    ensures only { result ≢ Err OpenFault.NotAStore }
{
    match disk.read_at(at, into) {
        Ok(()) => Ok(()),
        Err(IoFault::Failed) => Err(OpenFault::Disk),
        Err(IoFault::NoMemory) => Err(OpenFault::NoMemory),
    }
}

// The number that eight bytes spell.
fn number_of(bytes: &[u8]) -> u64
    requires { length bytes.now ≡ 8 }
    ensures { result ≡ from_be_bytes w64 bytes.now }
{
    match bytes {
        [a, b, c, d, e, f, g, h] => u64::from_be_bytes([*a, *b, *c, *d, *e, *f, *g, *h]),
        _ => 0,
    }
}

// The bytes that an open header begins with.
fn front_of(shape: Shape) -> [u8; 17]
    ensures { result ≡ open_gate ∷ identity shape }
{
    let [a, b, c, d, e, f, g, h, i, j, k, l, m, n, o, p] = identity(shape);
    [OPEN, a, b, c, d, e, f, g, h, i, j, k, l, m, n, o, p]
}

// Whether a header begins as an open one of this store and form.
fn is_front(shape: Shape, half: Half, headers: &[u8]) -> bool
    requires { length headers.now ≡ headers_size }
    ensures { IsTrue result ↔ (part (header_at half) 17 headers.now ≡ open_gate ∷ identity shape) }
{
    let at = half.header_at() as usize;
    headers[at..at + 17] == front_of(shape)[..]
}

// The form that a header tells, if it is open.
fn form_of(shape: Shape, half: Half, headers: &[u8]) -> Option<Form>
    requires { length headers.now ≡ headers_size }
    ensures open { IfSome result (λ form. IsOpen (formed form shape) half headers.now) }
    ensures shut { IfNone result ((form : Form) → IsOpen (formed form shape) half headers.now → ⊥) }
{
    if is_front(shape.formed(Form::Old), half, headers) {
        return Some(Form::Old);
    }
    if !is_front(shape.formed(Form::New), half, headers) {
        return None;
    }
    if headers[half.header_at() as usize + 25] == 1 {
        Some(Form::Moved)
    } else {
        Some(Form::New)
    }
}

// What an open header tells.
#[derive(Clone, Copy)]
pub(crate) struct Header {
    pub(crate) form: Form,
    pub(crate) generation: u64,
}

// What a header tells, if it is open.
fn header_of(shape: Shape, half: Half, headers: &[u8]) -> Option<Header>
    requires { length headers.now ≡ headers_size }
    ensures open { IfSome result (λ h. IsOpen (formed h.form shape) half headers.now × (generation_at half headers.now ≡ h.generation)) }
    ensures shut { IfNone result ((form : Form) → IsOpen (formed form shape) half headers.now → ⊥) }
{
    let form = form_of(shape, half, headers)?;
    let at = half.header_at() as usize;
    let generation = number_of(&headers[at + 17..at + 25]);
    Some(Header { form, generation })
}

// Whether the second generation comes after the first.
fn is_later(first: u64, second: u64) -> bool
    ensures { IsTrue result ↔ IsLater first second }
{
    let ahead = second.wrapping_sub(first);
    1 <= ahead && ahead < 1 << 63
}

// The half that a disk is read by, and what its header tells.
fn choose(shape: Shape, headers: &[u8]) -> Option<(Half, Header)>
    requires { length headers.now ≡ headers_size }
    ensures found { IfSome result (λ f. InForce (formed f.1.form shape) f.0 headers.now × (generation_at f.0 headers.now ≡ f.1.generation)) }
    ensures none { IfNone result (IsNoStore shape headers.now) }
{
    let first = header_of(shape, Half::A, headers);
    let second = header_of(shape, Half::B, headers);
    match first {
        None => match second {
            None => None,
            Some(b) => Some((Half::B, b)),
        },
        Some(a) => match second {
            None => Some((Half::A, a)),
            Some(b) => {
                if is_later(a.generation, b.generation) {
                    Some((Half::B, b))
                } else {
                    Some((Half::A, a))
                }
            }
        },
    }
}

// The frame at the front: its kind, its body and the bytes after it.
#[tactic(auto, unfolding(crate::specs::Listed::frame_at))]
fn frame_at(bytes: &[u8]) -> Option<(u8, &[u8], &[u8])>
    ensures found { IfSome result (λ f. frame_at bytes.now ≡ Some (frame_of f.0 f.1.now, f.2.now)) }
    ensures spelled { IfSome result (λ f. bytes.now ≡ open_gate ∷ (frame_rest (frame_of f.0 f.1.now) ++ f.2.now)) }
    ensures short { IfSome result (λ f. length f.1.now < 2 ^ 32) }
    ensures none { IfNone result (frame_at bytes.now ≡ None) }
{
    let [gate, kind, a, b, c, d, rest @ ..] = bytes else {
        return None;
    };
    let len = u32::from_be_bytes([*a, *b, *c, *d]) as usize;
    if *gate != OPEN || len > rest.len() {
        return None;
    }
    let (body, rest) = rest.split_at(len);
    Some((*kind, body, rest))
}

// Hands on the whole frames at the front of these bytes. Answers how many bytes they are, and the list with them.
fn take_frames<T: TakesFrames>(
    taker: &mut T,
    listing: Listing,
    bytes: &[u8],
) -> Result<(usize, Listing), NoMem>
    ensures makes { IfOk result (λ made. (first : _) (old : Bool) → T.makes first old listing.frames taker.old → T.makes first old made.1.frames taker.new) }
    ensures front { IfOk result (λ made. (frames : List Frame) × IsFront bytes.now frames made.0
        × (made.1.frames ≡ listing.frames ++ frames)) }
{
    let mut listing = listing;
    let mut rest = bytes;
    while let Some((kind, body, after)) = frame_at(rest) {
        taker.take(kind, body)?;
        listing = Listing::with(&listing, &kind, body);
        rest = after;
    }
    Ok((bytes.len() - rest.len(), listing))
}

// Whether a gate that is not open stands at a place.
fn is_shut(bytes: &[u8], at: usize) -> bool
    ensures { IsTrue result ↔ IsShutAt bytes.now at }
{
    at < bytes.len() && bytes[at] != OPEN
}

// Reads the bytes from a place on into the front of a piece, as many as it holds, and none behind the limit. Answers how many.
fn read_front<D: Disk>(
    disk: &mut D,
    at: u64,
    limit: u64,
    piece: &mut [u8],
) -> Result<usize, OpenFault>
    requires below { at ≤ limit }
    requires reach { limit ≤ 2 ^ 48 }
    requires within { D.tells → limit ≤ length (D.seen disk.old) }
    ensures count { IfOk result (λ n. n ≡ min (limit - at) (length piece.old)) }
    ensures bytes { D.tells → IfOk result (λ n. take n piece.new ≡ part at n (D.seen disk.old)) }
    ensures size { length piece.new ≡ length piece.old }
    ensures still { Still D.Disk disk.old disk.new (result ≡ Err OpenFault.Disk) }
    ensures certain { D.certain disk.new ≡ D.certain disk.old }
    ensures only { result ≢ Err OpenFault.NotAStore }
{
    let n = (limit - at).min(piece.len() as u64) as usize;
    let (front, _) = piece.split_at_mut(n);
    read(disk, at, front)?;
    Ok(n)
}

// The same for a piece that is owned.
fn read_piece<D: Disk>(
    disk: &mut D,
    at: u64,
    limit: u64,
    piece: &mut Vec<u8>,
) -> Result<usize, OpenFault>
    requires below { at ≤ limit }
    requires reach { limit ≤ 2 ^ 48 }
    requires within { D.tells → limit ≤ length (D.seen disk.old) }
    ensures count { IfOk result (λ n. n ≡ min (limit - at) (vec_len piece.old)) }
    ensures bytes { D.tells → IfOk result (λ n. take n piece.new.items ≡ part at n (D.seen disk.old)) }
    ensures size { vec_len piece.new ≡ vec_len piece.old }
    ensures still { Still D.Disk disk.old disk.new (result ≡ Err OpenFault.Disk) }
    ensures certain { D.certain disk.new ≡ D.certain disk.old }
    ensures only { result ≢ Err OpenFault.NotAStore }
{
    read_front(disk, at, limit, piece.as_mut_slice())
}

// What a piece of a list gave: the list with its frames, how many bytes were read, how many of these are frames, and whether a
// gate that is not open stands behind them.
#[derive(Drop)]
struct Taken {
    listing: Listing,
    len: usize,
    used: usize,
    closed: bool,
}

// Reads a piece of a list, and hands on the frames at its front.
fn next_piece<D: Disk, T: TakesFrames>(
    disk: &mut D,
    at: u64,
    limit: u64,
    piece: &mut Vec<u8>,
    listing: Listing,
    taker: &mut T,
) -> Result<Taken, OpenFault>
    requires below { at ≤ limit }
    requires reach { limit ≤ 2 ^ 48 }
    requires within { D.tells → limit ≤ length (D.seen disk.old) }
    ensures makes { IfOk result (λ taken. (first : _) (old : Bool) → T.makes first old listing.frames taker.old → T.makes first old taken.listing.frames taker.new) }
    ensures count { IfOk result (λ taken. taken.len ≡ min (limit - at) (vec_len piece.old)) }
    ensures front { IfOk result (λ taken. (frames : List Frame) × (taken.listing.frames ≡ listing.frames ++ frames)
        × (taken.used ≡ size_of frames) × (taken.used ≤ taken.len)
        × (D.tells → IsPiece (part at taken.len (D.seen disk.old)) frames taken.used taken.closed)) }
    ensures size { vec_len piece.new ≡ vec_len piece.old }
    ensures still { Still D.Disk disk.old disk.new (result ≡ Err OpenFault.Disk) }
    ensures certain { D.certain disk.new ≡ D.certain disk.old }
    ensures only { result ≢ Err OpenFault.NotAStore }
{
    let len = read_piece(disk, at, limit, piece)?;
    let bytes = &piece[..len];
    let (used, listing) = take_frames(taker, listing, bytes)?;
    let closed = is_shut(bytes, used);
    Ok(Taken {
        listing,
        len,
        used,
        closed,
    })
}

// A piece for the bytes that follow: one of twice as many bytes where no frame was whole in so many.
fn piece_after(alloc: Global, piece: Vec<u8>, len: usize, used: usize) -> Result<Vec<u8>, NoMem>
    requires { len ≤ 2 ^ 48 }
    ensures longer { IfOk result (λ next. used ≡ 0 → vec_len next ≡ 2 * len) }
    ensures same { IfOk result (λ next. used ≢ 0 → vec_len next ≡ vec_len piece) }
{
    if used == 0 {
        Ok(vec![in alloc; 0; 2 * len]?)
    } else {
        Ok(piece)
    }
}

// A list as it was read: its frames, how many bytes they are, and whether a gate that is not open stands behind them.
#[derive(Drop)]
struct Reading {
    listing: Listing,
    used: u64,
    closed: bool,
}

// Hands on the frames of the list that begins at a place, in pieces, as far as the first gate that is not open, and not behind
// the limit. Each piece begins with a frame; one that is longer than the piece makes it twice as long.
fn read_list<D: Disk, T: TakesFrames>(
    alloc: Global,
    disk: &mut D,
    from: u64,
    limit: u64,
    taker: &mut T,
) -> Result<Reading, OpenFault>
    requires below { from ≤ limit }
    requires reach { limit ≤ 2 ^ 48 }
    requires within { D.tells → limit ≤ length (D.seen disk.old) }
    ensures makes { IfOk result (λ list. (first : _) (old : Bool) → T.makes first old [] taker.old → T.makes first old list.listing.frames taker.new) }
    ensures counted { IfOk result (λ list. (list.used ≡ size_of list.listing.frames) × (list.used ≤ limit - from)) }
    ensures read { D.tells → IfOk result (λ list. IsListOf (part from (limit - from) (D.seen disk.old)) list.listing.frames list.used list.closed) }
    ensures still { Still D.Disk disk.old disk.new (result ≡ Err OpenFault.Disk) }
    ensures certain { D.certain disk.new ≡ D.certain disk.old }
    ensures only { result ≢ Err OpenFault.NotAStore }
{
    let mut piece = vec![in alloc; 0; PIECE]?;
    let mut listing = Listing::new();
    let mut at = from;
    loop {
        let Taken {
            listing: listed,
            len,
            used,
            closed,
        } = next_piece(disk, at, limit, &mut piece, listing, taker)?;
        listing = listed;
        let end = at + len as u64;
        at += used as u64;
        if closed || end == limit {
            return Ok(Reading {
                listing,
                used: at - from,
                closed,
            });
        }
        piece = piece_after(alloc, piece, len, used)?;
    }
}

// What a store knows of its disk when it is opened.
#[derive(Drop)]
pub(crate) struct Found {
    pub(crate) half: Half,
    pub(crate) header: Header,
    pub(crate) other_shut: bool,
    pub(crate) listing: Listing,
    pub(crate) used: u64,
    pub(crate) closed: bool,
    pub(crate) size: u64,
}

// Reads the headers.
fn read_headers<D: Disk>(disk: &mut D) -> Result<[u8; 64], OpenFault>
    requires whole { D.tells → headers_size ≤ length (D.seen disk.old) }
    ensures bytes { D.tells → IfOk result (λ headers. headers ≡ slice_range (D.seen disk.old) 0 headers_size) }
    ensures still { Still D.Disk disk.old disk.new (result ≡ Err OpenFault.Disk) }
    ensures certain { D.certain disk.new ≡ D.certain disk.old }
    ensures only { result ≢ Err OpenFault.NotAStore }
{
    let mut headers = [0; 64];
    read(disk, 0, &mut headers)?;
    Ok(headers)
}

// Reads the store that a disk holds, and hands on its frames.
pub(crate) fn read_store<D: Disk, T: TakesFrames>(
    alloc: Global,
    disk: &mut D,
    shape: Shape,
    taker: &mut T,
) -> Result<Found, OpenFault>
    requires limits { IsShape shape }
    ensures makes { IfOk result (λ found. T.makes taker.old (is_old (formed found.header.form shape)) found.listing.frames taker.new) }
    ensures counted { IfOk result (λ found. IsCounted (formed found.header.form shape) found.listing.frames found.used) }
    ensures laid { D.tells → IfOk result (λ found. Laid (formed found.header.form shape) found.half found.header.generation found.other_shut
        found.listing.frames found.closed (D.seen disk.old)) }
    ensures size { D.tells → IfOk result (λ found. length (D.seen disk.old) ≡ found.size) }
    ensures none { D.tells → result ≡ Err OpenFault.NotAStore → IsNoStore shape (D.seen disk.old) }
    ensures still { Still D.Disk disk.old disk.new (result ≡ Err OpenFault.Disk) }
    ensures certain { D.certain disk.new ≡ D.certain disk.old }
{
    let size = len(disk)?;
    if size < 64 {
        return Err(OpenFault::NotAStore);
    }
    let headers = read_headers(disk)?;
    let Some((half, header)) = choose(shape, &headers) else {
        return Err(OpenFault::NotAStore);
    };
    let shape = shape.formed(header.form);
    taker.begin(shape.is_old())?;
    let from = shape.half_at(half).min(size);
    let limit = from + shape.half_size().min(size - from);
    let Reading {
        listing,
        used,
        closed,
    } = read_list(alloc, disk, from, limit, taker)?;
    Ok(Found {
        half,
        header,
        other_shut: headers[half.other().header_at() as usize] != OPEN,
        listing,
        used,
        closed,
        size,
    })
}
