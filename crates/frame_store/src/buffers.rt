//! The bytes that are written.

ghost use Rattle.std.specs.Prelude.{◌≡◌, ◌+◌, ◌*◌, ◌^◌, ◌<◌, ◌≤◌, ◌++◌, ◌∷◌, [], length, vec_len, vec_capacity, OnOk, IsOk};
ghost use Rattle.frame_store.specs.Layouts.{identity, header_rest};
ghost use Rattle.frame_store.specs.Steps.{closing};
ghost use Rattle.frame_store.specs.Listed.{frame_of, frame_rest, line_of, closed_list, spelled, size_of};

use crate::shapes::Shape;
use std::alloc::AllocError;

// An open gate.
pub(crate) const OPEN: u8 = 0xA5;

// The identity of a header.
pub(crate) fn identity(shape: Shape) -> [u8; 16]
    ensures { result ≡ identity shape }
{
    let format = shape.form.format();
    let [m0, m1] = shape.me.to_be_bytes();
    let [b0, b1] = shape.block.to_be_bytes();
    let [r0, r1, r2, r3] = shape.records.to_be_bytes();
    [
        70, 65, 66, 83, 84, 79, 82, format, m0, m1, b0, b1, r0, r1, r2, r3,
    ]
}

// A header but for its gate.
pub(crate) fn header_rest(shape: Shape, generation: u64) -> [u8; 31]
    ensures { result ≡ header_rest shape generation }
{
    let [
        i0,
        i1,
        i2,
        i3,
        i4,
        i5,
        i6,
        i7,
        i8,
        i9,
        i10,
        i11,
        i12,
        i13,
        i14,
        i15,
    ] = identity(shape);
    let [g0, g1, g2, g3, g4, g5, g6, g7] = generation.to_be_bytes();
    let place = shape.form.place();
    [
        i0, i1, i2, i3, i4, i5, i6, i7, i8, i9, i10, i11, i12, i13, i14, i15, g0, g1, g2, g3, g4,
        g5, g6, g7, place, 0, 0, 0, 0, 0, 0,
    ]
}

// Both headers with gates that are not open, the first of generation 1 and the second of generation 0.
pub(crate) fn shut_headers(shape: Shape) -> [u8; 64]
    ensures { result ≡ (0 ∷ header_rest shape 1) ++ (0 ∷ header_rest shape 0) }
{
    let mut headers = [0; 64];
    headers[1..32].copy_from_slice(&header_rest(shape, 1));
    headers[33..64].copy_from_slice(&header_rest(shape, 0));
    headers
}

// What shuts the gate of a header. Where it is shut already nothing is written, since a torn 00 might open it.
pub(crate) fn closing(shut: bool) -> &'static [u8]
    ensures { result.now ≡ closing shut }
{
    if shut { &[] } else { &[0] }
}

// Adds a frame but for its gate.
pub(crate) fn put_rest(line: &mut Vec<u8>, kind: u8, body: &[u8])
    requires short { length body.now < 2 ^ 32 }
    requires room { vec_len line.old + 5 + length body.now ≤ vec_capacity line.old }
    ensures items { line.new.items ≡ line.old.items ++ frame_rest (frame_of kind body.now) }
    ensures len { vec_len line.new ≡ vec_len line.old + 5 + length body.now }
    ensures capacity { vec_capacity line.old ≤ vec_capacity line.new }
{
    line.push(kind).unwrap();
    line.extend_from_slice(&(body.len() as u32).to_be_bytes())
        .unwrap();
    line.extend_from_slice(body).unwrap();
}

// What is written behind a gate for a frame.
pub(crate) fn put_line(line: &mut Vec<u8>, kind: u8, body: &[u8]) -> Result<(), AllocError>
    requires short { length body.now < 2 ^ 32 }
    ensures made { OnOk result (line.new.items ≡ line_of (frame_of kind body.now)) }
    ensures enough { length body.now + 6 ≤ vec_capacity line.old → IsOk result }
    ensures capacity { vec_capacity line.old ≤ vec_capacity line.new }
{
    line.clear();
    line.reserve(body.len() + 6)?;
    put_rest(line, kind, body);
    line.push(0).unwrap();
    Ok(())
}
