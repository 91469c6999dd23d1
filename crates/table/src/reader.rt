// Reads the rows of a table, row by row.
ghost use Rattle.std.specs.Prelude.{◌<◌, length};
ghost use Rattle.constraint.specs.Records.{Decides};
ghost use Rattle.constraint.specs.Table.{WholeAt, VersionUpTo, ReadsRows};
ghost use Rattle.constraint.specs.Answers.{answer_of};
ghost use Rattle.table.specs.Reading.{read_of};
ghost use Rattle.table.specs.Rows.{ReadsAt};

use super::scan;
use constraint::{Refusal, RefusedAt};
use table_row::fields::MOST_FIELDS;
use table_row::{Table, load, shape_fits, types, validate_values};

// The refusal of a table whose version byte is missing, or no edition that is taken.
pub(crate) const NO_VERSION: RefusedAt = RefusedAt {
    refusal: Refusal::TableVersion,
    place: 0,
};

// Question 1: is the first byte there, and an edition up to the newest?
pub(crate) fn version_known(newest: u8, bytes: &[u8]) -> bool
    ensures { Decides (VersionUpTo newest bytes.now) result }
{
    let version = big_endian::byte_at(bytes, 0);
    types::last_type(version) != 0 && version <= newest
}

// Question 2, of the row at a place: are its length field and its body whole?
pub(crate) fn whole_at(bytes: &[u8], place: usize) -> bool
    ensures { Decides (WholeAt bytes.now place) result }
{
    let size = bytes.len();
    2 <= size && place <= size - 2 && big_endian::two_at(bytes, place) <= size - 2 - place
}

// §4.3, §8.2, §8.3
// The answer to questions 2 to 7 and 18, put to the row at a place in a table of an edition, with some rows before it.
pub(crate) fn validate_row(
    edition: u8,
    bytes: &[u8],
    place: usize,
    before: usize,
) -> Result<(), Refusal>
    ensures { ReadsAt edition bytes.now before place (answer_of result) }
{
    if !whole_at(bytes, place) {
        return Err(Refusal::RowCut);
    }
    if constraint::ROW_LIMIT <= before {
        return Err(Refusal::TooManyRows);
    }
    let size = big_endian::two_at(bytes, place);
    let start = place + 2;
    let next = start + size;
    let body = &bytes[start..next];
    if !shape_fits(edition, body) {
        return Err(Refusal::RowShape);
    }
    let mut values = [0; MOST_FIELDS];
    let tag = load(&mut values, body);
    validate_values(edition, tag, &values)
}

// The rows of an edition behind the version byte, row by row.
pub(crate) fn read_rows(edition: u8, bytes: &[u8]) -> Result<Table, RefusedAt>
    requires { 0 < length bytes.now }
    ensures { ReadsRows edition bytes.now 0 1 (read_of result) }
{
    let mut table = Table::new();
    let mut place = 1;
    // no `for`: the place goes on by the length of each row
    while place < bytes.len() {
        validate_row(edition, bytes, place, table.count).map_err(|refusal| RefusedAt {
            refusal,
            place,
        })?;
        let placed = scan::row_at(bytes, place);
        table = table.with_row(placed.row);
        place = placed.next;
    }
    Ok(table)
}
