//! The checks of the volumes of a layout text.

ghost use Rattle.std.specs.Prelude.{◌≡◌, ◌≢◌, ◌++◌, ◌≤◌, [], Ok, Err, IfOk, IfErr, IfSome, map, option_map, option_copied, string_bytes};
ghost use Rattle.std.specs.List.{list_all};
ghost use Rattle.toml.specs.View.{view, array_view, table_view};
ghost use Rattle.layout.specs.Names.{is_name_letter, is_name};
ghost use Rattle.layout.specs.Segments.{segments_of};
ghost use Rattle.layout.specs.Runs.{HasRuns};
ghost use Rattle.layout.specs.Checks.{text_at, has_name, name_at, row_in, rows_in, number_in, segment_in, segments_in, listed_segments, volume_keys, no_other, volume_in, volumes_in, volume_tables_at};

use crate::faults::{FieldName, Key, KeyText, LayoutFault};
use crate::groups::Group;
use crate::runs::take_all;
use crate::tables::{
    array_at, integers_in, limit, natural, no_field, other_key, tables_in, value_at,
};
use crate::volumes::Volume;
use fab_base::{GroupId, NoMem, Segment, StripeNo};
use std::alloc::Global;
use std::collections::BTreeMap;
use toml::value::Array;
use toml::{Table, Value};

// The keys of a volume.
const VOLUME_KEYS: [Key; 2] = [Key::VolumeName, Key::VolumeSegments];

// The text at a key, if there is one.
fn text_at(table: &Table, key: Key) -> Option<&str>
    ensures { option_copied result ≡ text_at (table_view table.now) key }
{
    value_at(table, key)?.as_str()
}

// Whether a byte may stand in a name.
fn is_name_letter(letter: u8) -> bool
    ensures { result ≡ is_name_letter letter }
{
    (b'a' <= letter && letter <= b'z') || (b'0' <= letter && letter <= b'9') || letter == b'-'
}

// Whether each byte may stand in a name.
fn are_name_letters(letters: &[u8]) -> bool
    ensures { result ≡ list_all is_name_letter letters.now }
{
    letters.iter().all(|letter| is_name_letter(*letter))
}

// Whether a text is a name.
fn is_name(text: &str) -> bool
    ensures { result ≡ is_name text.now }
{
    let letters = text.as_bytes();
    1 <= letters.len() && letters.len() <= 64 && are_name_letters(letters)
}

// Whether one of the volumes has this name.
fn has_name(volumes: &[Volume], name: &str) -> bool
    ensures { result ≡ has_name volumes.now name.now }
{
    volumes.iter().any(|volume| volume.name() == name)
}

// The name of a volume that stands after these volumes: a text, and then a name that none of them has.
fn name_at(alloc: Global, before: &[Volume], table: &Table) -> Result<String, LayoutFault>
    ensures ok { IfOk result (λ name. name_at before.now (table_view table.now) ≡ Ok (string_bytes name)) }
    ensures err { IfErr result (λ fault. fault ≢ LayoutFault.NoMemory
        → name_at before.now (table_view table.now) ≡ Err fault) }
{
    let Some(name) = text_at(table, Key::VolumeName) else {
        return Err(no_field(Key::VolumeName));
    };
    if !is_name(name) || has_name(before, name) {
        return Err(limit(Key::VolumeName));
    }
    Ok(String::from_str(alloc, name)?)
}

// The row of a value: a list of three whole numbers and nothing else.
fn row_in(alloc: Global, value: &Value) -> Result<Option<Vec<i64>>, NoMem>
    ensures { IfOk result (λ row. option_map (λ row. row.items) row ≡ row_in (view value.now)) }
{
    let Some(array) = value.as_array() else {
        return Ok(None);
    };
    let Some(numbers) = integers_in(alloc, array)? else {
        return Ok(None);
    };
    if numbers.len() == 3 {
        Ok(Some(numbers))
    } else {
        Ok(None)
    }
}

// The rows of a list, if it has nothing else.
fn rows_in(alloc: Global, array: &Array) -> Result<Option<Vec<Vec<i64>>>, NoMem>
    ensures { IfOk result (λ rows. option_map (λ rows. map (λ row. row.items) rows.items) rows ≡ rows_in (array_view array.now)) }
{
    let mut rows = Vec::new(alloc);
    for value in array {
        let Some(row) = row_in(alloc, value)? else {
            return Ok(None);
        };
        rows.push(row)?;
    }
    Ok(Some(rows))
}

// The number at a place of a row, if it is from the lower limit to the upper.
fn number_in(row: &[i64], place: usize, low: u32, high: u32) -> Option<u32>
    ensures value { result ≡ number_in row.now place low high }
    ensures range { IfSome result (λ n. n ≤ high) }
{
    natural(low, high, *row.get(place)?)
}

// The segment of a row, if its stripes are those of a group.
fn segment_in(groups: &[Group], row: &[i64]) -> Option<Segment>
    ensures { result ≡ segment_in groups.now row.now }
{
    let group = number_in(row, 0, 0, 63)?;
    let first = number_in(row, 1, 0, 65_535)?;
    let stripes = number_in(row, 2, 1, 65_536)?;
    let held = groups.get(group as usize)?.stripes();
    if first + stripes <= held {
        Some(Segment {
            group: GroupId(group),
            first: StripeNo(first),
            stripes,
        })
    } else {
        None
    }
}

// The segments of some rows, if each is one.
fn segments_in(
    alloc: Global,
    groups: &[Group],
    rows: &[Vec<i64>],
) -> Result<Option<Vec<Segment>>, NoMem>
    ensures { IfOk result (λ segments. option_map (λ segments. segments.items) segments
        ≡ segments_in groups.now (map (λ row. row.items) rows.now)) }
{
    let mut segments = Vec::new(alloc);
    for row in rows {
        let Some(segment) = segment_in(groups, row.as_slice()) else {
            return Ok(None);
        };
        segments.push(segment)?;
    }
    Ok(Some(segments))
}

// The segments of a table: a list of rows, and then 1 to 1,024 segments of the groups.
fn listed_segments(
    alloc: Global,
    groups: &[Group],
    table: &Table,
) -> Result<Vec<Segment>, LayoutFault>
    ensures ok { IfOk result (λ segments. listed_segments groups.now (table_view table.now) ≡ Ok segments.items) }
    ensures err { IfErr result (λ fault. fault ≢ LayoutFault.NoMemory
        → listed_segments groups.now (table_view table.now) ≡ Err fault) }
{
    let Some(array) = array_at(table, Key::VolumeSegments) else {
        return Err(no_field(Key::VolumeSegments));
    };
    let Some(rows) = rows_in(alloc, array)? else {
        return Err(no_field(Key::VolumeSegments));
    };
    let Some(segments) = segments_in(alloc, groups, rows.as_slice())? else {
        return Err(limit(Key::VolumeSegments));
    };
    if segments.is_empty() || segments.len() > 1024 {
        return Err(limit(Key::VolumeSegments));
    }
    Ok(segments)
}

// Refuses another key of a volume than those of the format.
fn refuse_other_of_volume(alloc: Global, table: &Table) -> Result<(), LayoutFault>
    ensures ok { IfOk result (λ known. no_other FieldName.OtherOfVolume volume_keys (table_view table.now) ≡ Ok known) }
    ensures err { IfErr result (λ fault. fault ≢ LayoutFault.NoMemory
        → no_other FieldName.OtherOfVolume volume_keys (table_view table.now) ≡ Err fault) }
{
    match other_key(table, &VOLUME_KEYS) {
        None => Ok(()),
        Some(text) => Err(LayoutFault::Field {
            name: FieldName::OtherOfVolume(KeyText::from_str(alloc, text)?),
        }),
    }
}

// The volume of a table that stands after these volumes, whose runs of stripes are those taken. It takes its own.
fn volume_in(
    alloc: Global,
    groups: &[Group],
    before: &[Volume],
    ends: &mut BTreeMap<u64, u64>,
    table: &Table,
) -> Result<Volume, LayoutFault>
    requires { HasRuns ends.old (segments_of before.now) }
    ensures ok { IfOk result (λ volume. volume_in groups.now before.now (table_view table.now) ≡ Ok volume) }
    ensures runs { IfOk result (λ volume. HasRuns ends.new (segments_of before.now ++ volume.segments)) }
    ensures err { IfErr result (λ fault. fault ≢ LayoutFault.NoMemory
        → volume_in groups.now before.now (table_view table.now) ≡ Err fault) }
{
    let name = name_at(alloc, before, table)?;
    let segments = listed_segments(alloc, groups, table)?;
    if !take_all(ends, segments.as_slice())? {
        return Err(limit(Key::VolumeSegments));
    }
    refuse_other_of_volume(alloc, table)?;
    Ok(Volume::new(name, segments))
}

/// The volumes of some tables, in their order.
pub fn volumes_in(
    alloc: Global,
    groups: &[Group],
    tables: &[&Table],
) -> Result<Vec<Volume>, LayoutFault>
    ensures ok { IfOk result (λ volumes. volumes_in groups.now [] (map (λ table. table_view table.now) tables.now)
        ≡ Ok volumes.items) }
    ensures err { IfErr result (λ fault. fault ≢ LayoutFault.NoMemory
        → volumes_in groups.now [] (map (λ table. table_view table.now) tables.now) ≡ Err fault) }
{
    let mut volumes = Vec::new(alloc);
    let mut ends = BTreeMap::new(alloc);
    for table in tables {
        let volume = volume_in(alloc, groups, volumes.as_slice(), &mut ends, table)?;
        volumes.push(volume)?;
    }
    Ok(volumes)
}

/// The tables of the volumes, none where the key is missing: a list of tables, and then at most 64 of them.
pub fn volume_tables_at(alloc: Global, table: &Table) -> Result<Vec<&Table>, LayoutFault>
    ensures ok { IfOk result (λ tables. volume_tables_at (table_view table.now)
        ≡ Ok (map (λ table. table_view table.now) tables.items)) }
    ensures err { IfErr result (λ fault. fault ≢ LayoutFault.NoMemory
        → volume_tables_at (table_view table.now) ≡ Err fault) }
{
    let Some(value) = value_at(table, Key::Volume) else {
        return Ok(Vec::new(alloc));
    };
    let Some(array) = value.as_array() else {
        return Err(no_field(Key::Volume));
    };
    let Some(tables) = tables_in(alloc, array)? else {
        return Err(no_field(Key::Volume));
    };
    if tables.len() > 64 {
        return Err(limit(Key::Volume));
    }
    Ok(tables)
}
