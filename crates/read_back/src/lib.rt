// Rows read back as bodies: of a table in its bytes, and of a lent monitor.
#![tactic(auto)]

pub mod ffi;
mod words;

ghost use Rattle.constraint.specs.Table.{row_body};
ghost use Rattle.constraint.specs.Types.{Known};
ghost use Rattle.table_row.specs.Records.{row_in};
ghost use Rattle.std.specs.Prelude.{◌≡◌};
ghost use Rattle.read_back.specs.Contract.{GivesBody, number_given};

use constraint::Refusal;
use table_row::TableRow;

// Room for every row, with its length field.
const ROW_ROOM: usize = 147;

// The number that a host reads: 256 times the length of a body, or the number of the question.
pub(crate) fn number(given: Result<u64, Refusal>) -> u64
    ensures { result ≡ number_given given }
{
    match given {
        Ok(number) => number,
        Err(refusal) => u64::from(u8::from(refusal)),
    }
}

// §9.13
// Copies the body of a row of a known type to a buffer. Returns 256 times its length, or question 16 if the buffer is too short, which then stays
// as it was.
pub(crate) fn give_body(row: TableRow, body: &mut [u8]) -> Result<u64, Refusal>
    requires { Known (row_in row) }
    ensures { GivesBody (row_body (row_in row)) body.old (number_given result) body.new }
{
    let size = row.length();
    if body.len() < size {
        return Err(Refusal::Room);
    }
    let mut bytes = [0u8; ROW_ROOM];
    row.put(&mut bytes, 0);
    big_endian::put(body, 0, &bytes[2..2 + size]);
    Ok(size as u64 * 256)
}
