// The table's bytes: reads rows from a file's bytes, and writes them to the caller's buffer.
#![tactic(auto)]

pub mod append;
pub mod raw;
mod reader;
pub mod scan;
mod writer;

ghost use Rattle.std.specs.Prelude.{◌≡◌};
ghost use Rattle.std.proofs.lemmas.List.Edits.{sets};
ghost use Rattle.table_row.specs.Tables.{rows_of};
ghost use Rattle.table.specs.Reading.{ReadsInto};
ghost use Rattle.table.specs.WriteAnswer.{write_answer_of};
ghost use Rattle.table.specs.Writing.{Writes};

use constraint::{Refusal, RefusedAt};
use table_row::Table;

// §4.2, §4.9, §4.10, §7.6, §8.1, §9.3
// Reads a table of an edition up to the newest: its rows, or the first question answered "no" and the place.
pub fn read(newest: u8, bytes: &[u8]) -> Result<Table, RefusedAt>
    ensures { ReadsInto newest bytes.now result }
{
    if !reader::version_known(newest, bytes) {
        return Err(reader::NO_VERSION);
    }
    let edition = big_endian::byte_at(bytes, 0);
    reader::read_rows(edition, bytes)
}

// §4.2, §4.9, §4.10, §8.16, §9.2, §9.7, §9.8
// Writes a table of an edition to a lent buffer. A refusal leaves the buffer as it was, and bytes after those written stay.
pub fn write(edition: u8, table: Table, buffer: &mut [u8]) -> Result<usize, Refusal>
    ensures { Writes edition (rows_of table) buffer.old (write_answer_of result) buffer.new }
{
    table.validate(edition)?;
    let size = writer::size_of(table);
    if buffer.len() < size {
        return Err(Refusal::Room);
    }
    big_endian::put_byte(buffer, 0, edition);
    writer::put_rows(buffer, table);
    Ok(size)
}

// Stores a body that the caller lends in a buffer from a place on. What would go past its end is not stored. It stays a loop: `copy_from_slice`,
// which `big_endian::put` calls, would need `memmove` of the host's C library here.
pub(crate) fn put_body(buffer: &mut [u8], place: usize, body: &[u8])
    ensures { buffer.new ≡ sets buffer.old place body.now }
{
    let count = body.len().min(buffer.len().saturating_sub(place));
    for i in 0..count {
        buffer[place + i] = body[i];
    }
}
