//! The checks of the keys at the top of a layout text and of its groups, over the table that it is as a TOML document.

ghost use Rattle.std.specs.Prelude.{◌≡◌, ◌≢◌, ◌≤◌, Some, None, Ok, Err, IfOk, IfErr, IfSome, length, map, option_map, option_copied};
ghost use Rattle.toml.specs.Data.{get_member};
ghost use Rattle.toml.specs.View.{view, array_view, table_view};
ghost use Rattle.layout.specs.Names.{key_text};
ghost use Rattle.layout.specs.Checks.{integer_at, array_at, brick_in, natural, within, number_at, port_at, least_other, keys_of, no_other, top_keys, group_keys, integers_in, bricks_in, members_at, store_at, spares_in, spares_at, blocks_at, group_in, tables_in, tables_at, groups_in, is_known};

use crate::faults::{FieldName, Key, KeyText, LayoutFault};
use crate::groups::Group;
use fab_base::{BrickId, Members, NoMem};
use quorum::{are_distinct, is_membership};
use std::alloc::Global;
use toml::value::Array;
use toml::{Table, Value};

// The keys at the top of a layout text, and those of a group.
const TOP_KEYS: [Key; 8] = [
    Key::Block,
    Key::Bricks,
    Key::Records,
    Key::Port,
    Key::Store,
    Key::Spares,
    Key::Group,
    Key::Volume,
];

const GROUP_KEYS: [Key; 3] = [Key::GroupM, Key::GroupMembers, Key::GroupStripes];

// The fault of a key that is missing, or whose value is of a wrong type.
pub fn no_field(key: Key) -> LayoutFault
    ensures { result ≡ LayoutFault.Field (FieldName.Known key) }
{
    LayoutFault::Field {
        name: FieldName::Known(key),
    }
}

// The fault of a value outside the limits of its key.
pub fn limit(key: Key) -> LayoutFault
    ensures { result ≡ LayoutFault.Limit key }
{
    LayoutFault::Limit { name: key }
}

// The value at a key, if there is one.
pub fn value_at(table: &Table, key: Key) -> Option<&Value>
    ensures { option_map (λ value. view value.now) result ≡ get_member (key_text key) (table_view table.now) }
{
    table.get(key.as_str())
}

// The whole number at a key, if there is one.
fn integer_at(table: &Table, key: Key) -> Option<i64>
    ensures { result ≡ integer_at (table_view table.now) key }
{
    value_at(table, key)?.as_integer()
}

// The list at a key, if there is one.
pub fn array_at(table: &Table, key: Key) -> Option<&Array>
    ensures { option_map (λ array. array_view array.now) result ≡ array_at (table_view table.now) key }
{
    value_at(table, key)?.as_array()
}

// The number, if it is from the lower limit to the upper.
pub fn natural(low: u32, high: u32, number: i64) -> Option<u32>
    ensures value { result ≡ natural low high number }
    ensures range { IfSome result (λ n. (low ≤ n) × (n ≤ high)) }
{
    let natural = u32::try_from(number).ok()?;
    if low <= natural && natural <= high {
        Some(natural)
    } else {
        None
    }
}

// A whole number, and then within its limits.
fn within(key: Key, low: u32, high: u32, number: Option<i64>) -> Result<u32, LayoutFault>
    ensures value { result ≡ within key low high number }
    ensures range { IfOk result (λ n. (low ≤ n) × (n ≤ high)) }
{
    let number = number.ok_or(no_field(key))?;
    natural(low, high, number).ok_or(limit(key))
}

// The number of a key that has to be there.
pub fn number_at(table: &Table, key: Key, low: u32, high: u32) -> Result<u32, LayoutFault>
    ensures value { result ≡ number_at (table_view table.now) key low high }
    ensures range { IfOk result (λ n. (low ≤ n) × (n ≤ high)) }
{
    within(key, low, high, integer_at(table, key))
}

// The port, 17000 where the key is missing.
pub fn port_at(table: &Table) -> Result<u32, LayoutFault>
    ensures value { result ≡ port_at (table_view table.now) }
    ensures range { IfOk result (λ port. (1 ≤ port) × (port ≤ 65472)) }
{
    match value_at(table, Key::Port) {
        None => Ok(17000),
        Some(value) => within(Key::Port, 1, 65472, value.as_integer()),
    }
}

// The whole numbers of a list, if it has nothing else.
pub fn integers_in(alloc: Global, array: &Array) -> Result<Option<Vec<i64>>, NoMem>
    ensures { IfOk result (λ numbers. option_map (λ numbers. numbers.items) numbers ≡ integers_in (array_view array.now)) }
{
    let mut numbers = Vec::new(alloc);
    for value in array {
        let Some(number) = value.as_integer() else {
            return Ok(None);
        };
        numbers.push(number)?;
    }
    Ok(Some(numbers))
}

// The brick of a number, if the disk has it.
fn brick_in(bricks: u16, number: i64) -> Option<BrickId>
    ensures { result ≡ brick_in bricks number }
{
    let brick = u16::try_from(number).ok()?;
    if brick < bricks {
        Some(BrickId(brick))
    } else {
        None
    }
}

// The bricks of some numbers, if the disk has them all.
fn bricks_in(alloc: Global, bricks: u16, numbers: &[i64]) -> Result<Option<Vec<BrickId>>, NoMem>
    ensures { IfOk result (λ members. option_map (λ members. members.items) members ≡ bricks_in bricks numbers.now) }
{
    let mut members = Vec::new(alloc);
    for number in numbers {
        let Some(brick) = brick_in(bricks, *number) else {
            return Ok(None);
        };
        members.push(brick)?;
    }
    Ok(Some(members))
}

// The members of a group: a list of whole numbers, and then m to 32 distinct bricks of the disk.
#[tactic(auto, using(quorum::proofs::MembershipSizes::membership_is_short, quorum::proofs::MembershipSizes::membership_is_long))]
fn members_at(alloc: Global, table: &Table, m: u8, bricks: u16) -> Result<Members, LayoutFault>
    ensures ok { IfOk result (λ members. members_at m bricks (table_view table.now) ≡ Ok members) }
    ensures err { IfErr result (λ fault. fault ≢ LayoutFault.NoMemory
        → members_at m bricks (table_view table.now) ≡ Err fault) }
    ensures seats { IfOk result (λ members. (m ≤ length members) × (length members ≤ 32)) }
{
    let Some(array) = array_at(table, Key::GroupMembers) else {
        return Err(no_field(Key::GroupMembers));
    };
    let Some(numbers) = integers_in(alloc, array)? else {
        return Err(no_field(Key::GroupMembers));
    };
    let Some(members) = bricks_in(alloc, bricks, numbers.as_slice())? else {
        return Err(limit(Key::GroupMembers));
    };
    let members = members.as_slice();
    if !is_membership(m, bricks, members) {
        return Err(limit(Key::GroupMembers));
    }
    Members::new(members).ok_or(limit(Key::GroupMembers))
}

// The form of the stores; 2 where the key is missing.
pub fn store_at(table: &Table) -> Result<u32, LayoutFault>
    ensures value { result ≡ store_at (table_view table.now) }
    ensures range { IfOk result (λ store. (1 ≤ store) × (store ≤ 2)) }
{
    match value_at(table, Key::Store) {
        None => Ok(2),
        Some(value) => within(Key::Store, 1, 2, value.as_integer()),
    }
}

// The spares: a list of whole numbers, and then 0 to 64 distinct bricks of the disk; none where the key is missing.
pub fn spares_at(alloc: Global, table: &Table, bricks: u16) -> Result<Vec<BrickId>, LayoutFault>
    ensures ok { IfOk result (λ spares. spares_at bricks (table_view table.now) ≡ Ok spares.items) }
    ensures err { IfErr result (λ fault. fault ≢ LayoutFault.NoMemory
        → spares_at bricks (table_view table.now) ≡ Err fault) }
{
    match value_at(table, Key::Spares) {
        None => Ok(Vec::new(alloc)),
        Some(value) => spares_in(alloc, bricks, value),
    }
}

// The spares of a value.
fn spares_in(alloc: Global, bricks: u16, value: &Value) -> Result<Vec<BrickId>, LayoutFault>
    ensures ok { IfOk result (λ spares. spares_in bricks (Some (view value.now)) ≡ Ok spares.items) }
    ensures err { IfErr result (λ fault. fault ≢ LayoutFault.NoMemory
        → spares_in bricks (Some (view value.now)) ≡ Err fault) }
{
    let Some(array) = value.as_array() else {
        return Err(no_field(Key::Spares));
    };
    let Some(numbers) = integers_in(alloc, array)? else {
        return Err(no_field(Key::Spares));
    };
    let Some(spares) = bricks_in(alloc, bricks, numbers.as_slice())? else {
        return Err(limit(Key::Spares));
    };
    if spares.len() > 64 || !are_distinct(spares.as_slice()) {
        return Err(limit(Key::Spares));
    }
    Ok(spares)
}

// The number of data blocks of a group, if a stripe's data then has at most 32,768 bytes.
fn blocks_at(table: &Table, block: u16) -> Result<u8, LayoutFault>
    requires { block ≤ 4096 }
    ensures value { result ≡ blocks_at block (table_view table.now) }
    ensures range { IfOk result (λ m. (1 ≤ m) × (m ≤ 16)) }
{
    let m = number_at(table, Key::GroupM, 1, 16)?;
    if m * u32::from(block) > 32_768 {
        return Err(limit(Key::GroupM));
    }
    Ok(m as u8)
}

// Whether a text is one of these keys.
fn is_known(known: &[Key], text: &str) -> bool
    ensures { result ≡ is_known known.now text.now }
{
    known.iter().any(|key| key.as_str() == text)
}

// The least key of a table, in byte order, that is none of these.
pub fn other_key<'a>(table: &'a Table, known: &[Key]) -> Option<&'a str>
    ensures { option_copied result ≡ least_other known.now (keys_of (table_view table.now)) }
{
    for key in table.keys() {
        let key = key.as_str();
        if !is_known(known, key) {
            return Some(key);
        }
    }
    None
}

// Refuses another key at the top than those of the format.
pub fn refuse_other(alloc: Global, table: &Table) -> Result<(), LayoutFault>
    ensures ok { IfOk result (λ known. no_other FieldName.Other top_keys (table_view table.now) ≡ Ok known) }
    ensures err { IfErr result (λ fault. fault ≢ LayoutFault.NoMemory
        → no_other FieldName.Other top_keys (table_view table.now) ≡ Err fault) }
{
    match other_key(table, &TOP_KEYS) {
        None => Ok(()),
        Some(text) => Err(LayoutFault::Field {
            name: FieldName::Other(KeyText::from_str(alloc, text)?),
        }),
    }
}

// Refuses another key of a group than those of the format.
fn refuse_other_of_group(alloc: Global, table: &Table) -> Result<(), LayoutFault>
    ensures ok { IfOk result (λ known. no_other FieldName.OtherOfGroup group_keys (table_view table.now) ≡ Ok known) }
    ensures err { IfErr result (λ fault. fault ≢ LayoutFault.NoMemory
        → no_other FieldName.OtherOfGroup group_keys (table_view table.now) ≡ Err fault) }
{
    match other_key(table, &GROUP_KEYS) {
        None => Ok(()),
        Some(text) => Err(LayoutFault::Field {
            name: FieldName::OtherOfGroup(KeyText::from_str(alloc, text)?),
        }),
    }
}

// The tables of a list, if it has nothing else.
pub fn tables_in(alloc: Global, array: &Array) -> Result<Option<Vec<&Table>>, NoMem>
    ensures { IfOk result (λ tables. option_map (λ tables. map (λ table. table_view table.now) tables.items) tables ≡ tables_in
        (array_view array.now)) }
{
    let mut tables = Vec::new(alloc);
    for value in array {
        let Some(table) = value.as_table() else {
            return Ok(None);
        };
        tables.push(table)?;
    }
    Ok(Some(tables))
}

// The tables of the groups: a list of tables, and then 1 to 64 of them.
pub fn tables_at(alloc: Global, table: &Table) -> Result<Vec<&Table>, LayoutFault>
    ensures ok { IfOk result (λ tables. tables_at (table_view table.now)
        ≡ Ok (map (λ table. table_view table.now) tables.items)) }
    ensures err { IfErr result (λ fault. fault ≢ LayoutFault.NoMemory
        → tables_at (table_view table.now) ≡ Err fault) }
{
    let Some(array) = array_at(table, Key::Group) else {
        return Err(no_field(Key::Group));
    };
    let Some(tables) = tables_in(alloc, array)? else {
        return Err(no_field(Key::Group));
    };
    if tables.is_empty() || tables.len() > 64 {
        return Err(limit(Key::Group));
    }
    Ok(tables)
}

// The group of a table.
fn group_in(alloc: Global, block: u16, bricks: u16, table: &Table) -> Result<Group, LayoutFault>
    requires { block ≤ 4096 }
    ensures ok { IfOk result (λ group. group_in block bricks (table_view table.now) ≡ Ok group) }
    ensures err { IfErr result (λ fault. fault ≢ LayoutFault.NoMemory
        → group_in block bricks (table_view table.now) ≡ Err fault) }
{
    let m = blocks_at(table, block)?;
    let members = members_at(alloc, table, m, bricks)?;
    let stripes = number_at(table, Key::GroupStripes, 1, 65_536)?;
    refuse_other_of_group(alloc, table)?;
    Ok(Group::new(members, m, stripes).unwrap())
}

// The groups of some tables, by number.
pub fn groups_in(
    alloc: Global,
    block: u16,
    bricks: u16,
    tables: &[&Table],
) -> Result<Vec<Group>, LayoutFault>
    requires { block ≤ 4096 }
    ensures ok { IfOk result (λ groups. groups_in block bricks (map (λ table. table_view table.now) tables.now)
        ≡ Ok groups.items) }
    ensures err { IfErr result (λ fault. fault ≢ LayoutFault.NoMemory
        → groups_in block bricks (map (λ table. table_view table.now) tables.now) ≡ Err fault) }
{
    let mut groups = Vec::new(alloc);
    for table in tables {
        groups.push(group_in(alloc, block, bricks, table)?)?;
    }
    Ok(groups)
}
