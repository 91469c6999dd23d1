// The exported functions of `read_back::ffi`, for C.
ghost use Rattle.in_place.specs.Contract.{ReadOff};
ghost use Rattle.read_back.specs.Contract.{TableRowBack, MonitorRowBack, GivesSome};

use in_place::Words;

// Copies the body of a row of a table to a buffer. Returns 256 times the length of the body. On a refusal it returns 256 times the place of the
// table's refusal plus its number, or 15 or 16 alone, and leaves the buffer as it was.
#[unsafe(no_mangle)]
pub extern "C" fn delkuthi_table_row(table: &[u8], row: u64, body: &mut [u8]) -> u64
    ensures { TableRowBack table.now row body.old result body.new }
{
    read_back::ffi::delkuthi_table_row(table, row, body)
}

// Copies the body of a row of a lent monitor to a buffer. Returns 256 times the length of the body. On a refusal it returns 15 or 16 and leaves the
// buffer as it was, whatever the monitor's memory holds.
#[unsafe(no_mangle)]
pub extern "C" fn delkuthi_monitor_row(m: &Words, row: u64, body: &mut [u8]) -> u64
    ensures { GivesSome body.old result body.new
        × ReadOff m.now (λ monitor answer. MonitorRowBack monitor row body.old answer body.new) result }
{
    read_back::ffi::delkuthi_monitor_row(m, row, body)
}
