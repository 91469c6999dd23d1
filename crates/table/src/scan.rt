// Reads a table row by row, with no table in memory: the bytes are judged, and then each row is read at its place.
ghost use Rattle.std.specs.Prelude.{◌≡◌, ◌<◌, length};
ghost use Rattle.table_row.specs.Records.{row_in};
ghost use Rattle.table.specs.Scan.{CountsRows, Scans, LoadedAt, PlacedAt, RowBehind, FindsRow};

use super::reader::{NO_VERSION, validate_row, version_known, whole_at};
use constraint::RefusedAt;
use table_row::fields::MOST_FIELDS;
use table_row::{FILLER_TAG, TableRow};

// The row at a place, and the place behind it.
#[derive(Drop)]
pub struct Placed {
    pub row: TableRow,
    pub next: usize,
}

// The type of the row at a place, whose values are stored elsewhere, and the place behind it.
#[derive(Drop)]
pub struct Loaded {
    pub tag: u8,
    pub next: usize,
}

// The rows of an edition behind the version byte, judged and counted.
fn validate_rows(edition: u8, bytes: &[u8]) -> Result<usize, RefusedAt>
    requires { 0 < length bytes.now }
    ensures { CountsRows edition bytes.now result }
{
    let mut rows = 0;
    let mut place = 1;
    // no `for`: the place goes on by the length of each row
    while place < bytes.len() {
        validate_row(edition, bytes, place, rows).map_err(|refusal| RefusedAt { refusal, place })?;
        rows += 1;
        place = place + 2 + big_endian::two_at(bytes, place);
    }
    Ok(rows)
}

// §7.6, §8.1, §9.3
// Judges the bytes of a table of an edition up to the newest: the number of its rows, or the first question answered "no" and the place.
pub fn validate(newest: u8, bytes: &[u8]) -> Result<usize, RefusedAt>
    ensures { Scans newest bytes.now result }
{
    if !version_known(newest, bytes) {
        return Err(NO_VERSION);
    }
    let edition = big_endian::byte_at(bytes, 0);
    validate_rows(edition, bytes)
}

// Stores the values of the row at a place, and returns its type and the place behind it. Where no whole row stands, it is the row of an empty entry,
// and the place itself.
pub fn load_at(values: &mut [u64; MOST_FIELDS], bytes: &[u8], place: usize) -> Loaded
    requires { length values.old ≡ 18 }
    ensures { LoadedAt bytes.now place values.new result }
{
    if !whole_at(bytes, place) {
        *values = [0; MOST_FIELDS];
        return Loaded {
            tag: FILLER_TAG,
            next: place,
        };
    }
    let start = place + 2;
    let next = start + big_endian::two_at(bytes, place);
    let tag = table_row::load(values, &bytes[start..next]);
    Loaded { tag, next }
}

// The row at a place, and the place behind it. Where no whole row stands, it is the row of an empty entry, and the place itself.
pub fn row_at(bytes: &[u8], place: usize) -> Placed
    ensures { PlacedAt bytes.now place result }
{
    let mut values = [0; MOST_FIELDS];
    let found = load_at(&mut values, bytes, place);
    let row = TableRow {
        tag: found.tag,
        values,
    };
    Placed {
        row,
        next: found.next,
    }
}

// The row behind i others of an accepted table.
fn row_behind(bytes: &[u8], i: usize) -> TableRow
    ensures { RowBehind bytes.now i (row_in result) }
{
    let mut place = 1;
    for _ in 0..i {
        place = row_at(bytes, place).next;
    }
    row_at(bytes, place).row
}

// Judges the bytes of a table of an edition up to the newest, and finds the row of a number in it, if it has one.
pub fn row_numbered(newest: u8, bytes: &[u8], i: u64) -> Result<Option<TableRow>, RefusedAt>
    ensures { FindsRow newest bytes.now i result }
{
    let rows = validate(newest, bytes)?;
    if rows as u64 <= i {
        return Ok(None);
    }
    Ok(Some(row_behind(bytes, i as usize)))
}
