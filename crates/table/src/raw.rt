// Rows given as raw bytes, 34 for each: a row's type byte and fields, and behind them bytes that do not matter.
ghost use Rattle.std.specs.Prelude.{ℕ, ◌+◌, ◌*◌, ◌<◌, ◌≤◌, ◌≡◌, [], length};
ghost use Rattle.std.proofs.lemmas.List.Edits.{sets};
ghost use Rattle.constraint.specs.Accepted.{rows_questions};
ghost use Rattle.constraint.specs.Answers.{answer_of};
ghost use Rattle.constraint.specs.Limits.{row_limit};
ghost use Rattle.constraint.specs.Questions.{Judged};
ghost use Rattle.constraint.specs.Records.{Decides};
ghost use Rattle.constraint.specs.Steps.{at};
ghost use Rattle.constraint.specs.Table.{rows_bytes};
ghost use Rattle.table_row.specs.Records.{row_from};
ghost use Rattle.table.specs.Raw.{raw_size, body_length, raw_body, raw_rows, WholeRow, KnownRows, RowTaken, FirstRefused, StoresRow};
ghost use Rattle.table.specs.Raw.{WritesRaw};
ghost use Rattle.table.specs.WriteAnswer.{write_answer_of};

use crate::put_body;
use constraint::{ROW_LIMIT, Refusal};
use table_row::TableRow;
use table_row::types::{length_of, type_known};

// How many bytes each row is given, which the longest type needs.
const RAW_SIZE: usize = 34;

// The rows of an edition that some bytes give.
#[derive(Clone, Copy)]
struct GivenRows<'a> {
    edition: u8,
    bytes: &'a [u8],
    ghost each_fits: { (i : ℕ) → i < length bytes.now → at bytes.now i < 256 },
}

impl<'a> GivenRows<'a> {
    // Is row i whole, and its type one of the edition, its n in range, and are the bytes that it is given enough for it (question 4)?
    fn is_known(self, i: usize) -> bool
        requires { i < row_limit }
        ensures { Decides (WholeRow self.entry.edition self.entry.bytes.now i) result }
    {
        let start = i * RAW_SIZE;
        if self.bytes.len() < start + RAW_SIZE {
            return false;
        }
        let tag = big_endian::byte_at(self.bytes, start);
        let n = big_endian::byte_at(self.bytes, start + 1);
        type_known(self.edition, tag, u64::from(n)) && length_of(tag, n) <= RAW_SIZE
    }

    // How many of the first rows are whole and of types of the edition: at most as many as a table has entries.
    fn known_rows(self) -> usize
        ensures { KnownRows self.entry.edition self.entry.bytes.now result }
    {
        for i in 0..ROW_LIMIT {
            if !self.is_known(i) {
                return i;
            }
        }
        ROW_LIMIT
    }

    // The body of row i, which has as many bytes as its type says.
    fn body(self, i: usize) -> &'a [u8]
        requires { WholeRow self.edition self.bytes.now i }
        ensures { result.now ≡ raw_body self.entry.bytes.now i }
    {
        let start = i * RAW_SIZE;
        let tag = big_endian::byte_at(self.bytes, start);
        let n = big_endian::byte_at(self.bytes, start + 1);
        let bytes = self.bytes;
        &bytes[start..start + length_of(tag, n)]
    }

    // The row that the body of row i is read as.
    fn row(self, i: usize) -> TableRow
        requires { WholeRow self.edition self.bytes.now i }
        ensures { result ≡ row_from (raw_body self.entry.bytes.now i) }
    {
        TableRow::read(self.body(i))
    }

    // The answer to questions 3 to 7 and 18 of the first rows, row by row.
    fn validate(self, count: usize) -> Result<(), Refusal>
        requires { KnownRows self.edition self.bytes.now count }
        ensures { Judged (rows_questions self.entry.edition 0 (raw_rows self.entry.bytes.now 0 count) []) (answer_of result) }
    {
        for i in 0..count {
            self.row(i).validate(self.edition)?;
        }
        Ok(())
    }

    // The number of bytes of the table of the first rows.
    fn size(self, count: usize) -> usize
        requires { KnownRows self.edition self.bytes.now count }
        ensures { result ≡ 1 + length (rows_bytes (raw_rows self.entry.bytes.now 0 count)) }
    {
        let mut size = 1;
        for i in 0..count {
            size += 2 + self.body(i).len();
        }
        size
    }

    // Stores row i in a buffer from a place on, its length and its body: the place behind it.
    fn put_row(self, buffer: &mut [u8], place: usize, i: usize) -> usize
        requires { WholeRow self.edition self.bytes.now i × (place + 2 + body_length self.bytes.now i ≤ length buffer.old) }
        ensures { StoresRow self.entry.bytes.now i buffer.old place result buffer.new }
    {
        let body = self.body(i);
        big_endian::put_two(buffer, place, body.len());
        put_body(buffer, place + 2, body);
        place + 2 + body.len()
    }

    // Stores the first rows behind the version byte. It copies their bytes, so it is no twin of the writer, which stores fields.
    fn put(self, buffer: &mut [u8], count: usize)
        requires { KnownRows self.edition self.bytes.now count × (1 + length (rows_bytes (raw_rows self.bytes.now 0 count)) ≤ length buffer.old) }
        ensures { buffer.new ≡ sets buffer.old 1 (rows_bytes (raw_rows self.entry.bytes.now 0 count)) }
    {
        let mut place = 1;
        for i in 0..count {
            place = self.put_row(buffer, place, i);
        }
    }

    // Whether row i is whole and taken: questions 4 to 7 and 18.
    fn is_taken(self, i: usize) -> bool
        requires { i < row_limit }
        ensures { Decides (((i + 1) * raw_size ≤ length self.entry.bytes.now) × RowTaken self.entry.edition self.entry.bytes.now i) result }
    {
        self.is_known(i) && self.row(i).validate(self.edition).is_ok()
    }
}

// The number of the first row that is refused, or how many rows there are where none is: at most as many as a table has entries.
pub fn refused_row(edition: u8, bytes: &[u8]) -> usize
    ensures { FirstRefused edition bytes.now result }
{
    let rows = GivenRows { edition, bytes };
    for i in 0..ROW_LIMIT {
        if !rows.is_taken(i) {
            return i;
        }
    }
    ROW_LIMIT
}

// Writes the table of an edition of rows given as raw bytes to a lent buffer. A refusal leaves the buffer as it was, and bytes after those written
// stay.
pub fn write(edition: u8, rows: &[u8], buffer: &mut [u8]) -> Result<usize, Refusal>
    ensures { WritesRaw edition rows.now buffer.old (write_answer_of result) buffer.new }
{
    let given = GivenRows {
        edition,
        bytes: rows,
    };
    let known = given.known_rows();
    given.validate(known)?;
    if RAW_SIZE <= rows.len() - known * RAW_SIZE {
        return Err(if known < ROW_LIMIT {
            Refusal::RowShape
        } else {
            Refusal::TooManyRows
        });
    }
    let size = given.size(known);
    if buffer.len() < size {
        return Err(Refusal::Room);
    }
    big_endian::put_byte(buffer, 0, edition);
    given.put(buffer, known);
    Ok(size)
}
