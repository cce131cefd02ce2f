// Things under keys, each of which may be lent.
ghost use Rattle.std.specs.Prelude.{◌≡◌, ◌<◌, ◌==◌, position, Some, None, vec_len, vec_capacity, nat_eq, OnOk, OnErr, IsSome, IsNone, MatchOption};
ghost use Rattle.std.specs.Str.{bytes_eq};
ghost use Rattle.fab_host.specs.Held.{absent, lent, here, IsKnown, IsMissing, at_name, at_port};
ghost use Rattle.fab_host.specs.Slots.{held_in, named, ported, TakesOut};

use crate::asking::name_of;
use fab_base::Bytes;
use fab_io::IoFault;

// A thing under its key, or its place while it is lent.
#[derive(Drop)]
pub struct Slot<K, T> {
    pub key: K,
    pub thing: Option<T>,
}

// The place of the first slot of this name.
pub fn find_name<T>(slots: &[Slot<Bytes, T>], name: &str) -> Option<usize>
    ensures first { result ≡ position (λ slot. bytes_eq slot.key name.now) slots.now }
    ensures known { IsSome result → IsKnown (named slots.now name.now) }
    ensures absent { IsNone result → named slots.now name.now ≡ absent }
{
    first_named(slots, name)
}

fn first_named<T>(slots: &[Slot<Bytes, T>], name: &str) -> Option<usize>
    ensures { result ≡ position (λ slot. bytes_eq slot.key name.now) slots.now }
{
    slots
        .iter()
        .position(|slot| slot.key.as_slice() == name.as_bytes())
}

// The place of the first slot of this port.
pub fn find_port<T>(slots: &[Slot<u16, T>], port: u16) -> Option<usize>
    ensures first { result ≡ position (λ slot. nat_eq slot.key port) slots.now }
    ensures known { IsSome result → IsKnown (ported slots.now port) }
    ensures absent { IsNone result → ported slots.now port ≡ absent }
{
    first_ported(slots, port)
}

fn first_ported<T>(slots: &[Slot<u16, T>], port: u16) -> Option<usize>
    ensures { result ≡ position (λ slot. nat_eq slot.key port) slots.now }
{
    slots.iter().position(|slot| slot.key == port)
}

// Takes the thing of this name, where it is here.
pub fn take_named<T: Drop>(slots: &mut Vec<Slot<Bytes, T>>, name: &str) -> Option<T>
    ensures { TakesOut bytes_eq (named slots.old.items) (named slots.new.items) name.now result }
{
    match find_name(slots, name) {
        Some(at) => slots[at].thing.take(),
        None => None,
    }
}

// Takes the thing at this port, where it is here.
pub fn take_ported<T: Drop>(slots: &mut Vec<Slot<u16, T>>, port: u16) -> Option<T>
    ensures { TakesOut nat_eq (ported slots.old.items) (ported slots.new.items) port result }
{
    match find_port(slots, port) {
        Some(at) => slots[at].thing.take(),
        None => None,
    }
}

// Puts a thing into the slot of this name.
pub fn put_named<T: Drop>(slots: &mut Vec<Slot<Bytes, T>>, name: &str, thing: T)
    requires { IsKnown (named slots.old.items name.now) }
    ensures { named slots.new.items ≡ at_name (named slots.old.items) name.now (here thing) }
{
    match find_name(slots, name) {
        Some(at) => {
            slots[at].thing.replace(thing);
        }
        None => unreachable!(),
    }
}

// Puts a thing into the slot of this port.
pub fn put_ported<T: Drop>(slots: &mut Vec<Slot<u16, T>>, port: u16, thing: T)
    requires { IsKnown (ported slots.old.items port) }
    ensures { ported slots.new.items ≡ at_port (ported slots.old.items) port (here thing) }
{
    match find_port(slots, port) {
        Some(at) => {
            slots[at].thing.replace(thing);
        }
        None => unreachable!(),
    }
}

// Adds a slot of this name, where there is room for it and none has the name.
pub fn push_named<T: Drop>(slots: &mut Vec<Slot<Bytes, T>>, key: Bytes, thing: Option<T>)
    requires room { vec_len slots.old < vec_capacity slots.old }
    requires absent { named slots.old.items key ≡ absent }
    ensures { named slots.new.items ≡ at_name (named slots.old.items) key (held_in thing) }
{
    slots.push(Slot { key, thing }).unwrap();
}

// Adds a slot of this port, where there is room for it and none has the port.
pub fn push_ported<T: Drop>(slots: &mut Vec<Slot<u16, T>>, key: u16, thing: Option<T>)
    requires room { vec_len slots.old < vec_capacity slots.old }
    requires absent { ported slots.old.items key ≡ absent }
    ensures { ported slots.new.items ≡ at_port (ported slots.old.items) key (held_in thing) }
{
    slots.push(Slot { key, thing }).unwrap();
}

// Puts a thing under this name, in the place of one that was there.
pub fn add_named<T: Drop>(
    slots: &mut Vec<Slot<Bytes, T>>,
    name: &str,
    thing: T,
) -> Result<(), IoFault>
    ensures ok { OnOk result (named slots.new.items ≡ at_name (named slots.old.items) name.now (here thing)) }
    ensures err { OnErr result (named slots.new.items ≡ named slots.old.items) }
{
    let key = name_of(*slots.allocator(), name)?;
    slots.reserve(1)?;
    match find_name(slots, name) {
        Some(_) => put_named(slots, name, thing),
        None => push_named(slots, key, Some(thing)),
    }
    Ok(())
}

// Puts a thing at this port, in the place of one that was there.
pub fn add_ported<T: Drop>(
    slots: &mut Vec<Slot<u16, T>>,
    port: u16,
    thing: T,
) -> Result<(), IoFault>
    ensures ok { OnOk result (ported slots.new.items ≡ at_port (ported slots.old.items) port (here thing)) }
    ensures err { OnErr result (ported slots.new.items ≡ ported slots.old.items) }
{
    slots.reserve(1)?;
    match find_port(slots, port) {
        Some(_) => put_ported(slots, port, thing),
        None => push_ported(slots, port, Some(thing)),
    }
    Ok(())
}

// The thing of this name, where it is here.
pub fn look_named<'s, T>(slots: &'s [Slot<Bytes, T>], name: &str) -> Option<&'s T>
    ensures { MatchOption result (IsMissing (named slots.now name.now)) (λ thing. named slots.now name.now ≡ here thing.now) }
{
    match find_name(slots, name) {
        Some(at) => match &slots[at].thing {
            Some(thing) => Some(thing),
            None => None,
        },
        None => None,
    }
}

// The thing at this port, where it is here.
pub fn look_ported<T>(slots: &[Slot<u16, T>], port: u16) -> Option<&T>
    ensures { MatchOption result (IsMissing (ported slots.now port)) (λ thing. ported slots.now port ≡ here thing.now) }
{
    match find_port(slots, port) {
        Some(at) => match &slots[at].thing {
            Some(thing) => Some(thing),
            None => None,
        },
        None => None,
    }
}
