// The calls that read a row back as its body.
ghost use Rattle.in_place.specs.Contract.{ReadOff};
ghost use Rattle.read_back.specs.Contract.{TableRowBack, MonitorRowBack, GivesSome};

use crate::words::give_row;
use crate::{give_body, number};
use constraint::{Refusal, RefusedAt};
use in_place::{Words, held};
use table::scan;

// §9.13, §11.5
// Copies the body of a row of a table to a buffer. Returns 256 times the length of the body. On a refusal it returns 256 times the place of the
// table's refusal plus its number, or 15 or 16 alone, and leaves the buffer as it was.
#[unsafe(no_mangle)]
pub extern "C" fn delkuthi_table_row(table: &[u8], row: u64, body: &mut [u8]) -> u64
    ensures { TableRowBack table.now row body.old result body.new }
{
    match scan::row_numbered(2, table, row) {
        Ok(Some(found)) => number(give_body(found, body)),
        Ok(None) => number(Err(Refusal::NoRow)),
        Err(RefusedAt { refusal, place }) => place as u64 * 256 + number(Err(refusal)),
    }
}

// §11.5, §9.14
// Copies the body of a row of a lent monitor to a buffer. Returns 256 times the length of the body. On a refusal it returns 15 or 16 and leaves the
// buffer as it was, whatever the monitor's memory holds.
#[unsafe(no_mangle)]
pub extern "C" fn delkuthi_monitor_row(m: &Words, row: u64, body: &mut [u8]) -> u64
    ensures { GivesSome body.old result body.new
        × ReadOff m.now (λ monitor answer. MonitorRowBack monitor row body.old answer body.new) result }
{
    if held(m) as u64 <= row {
        return number(Err(Refusal::NoRow));
    }
    number(give_row(&m[row as usize], body))
}
