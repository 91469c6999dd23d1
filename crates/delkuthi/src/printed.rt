// The printed page of a monitor, closed or not, for a host in C.
ghost use Rattle.in_place.specs.Contract.{ReadOff};
ghost use Rattle.delkuthi.specs.Printed.{WritesText, WritesPage};

use crate::report::summary_of;
use in_place::Words;

// §7.14, §7.19
// Writes the page of the lent monitor to the front of the buffer and returns its length. If the buffer is too short, returns 0 and leaves it as it
// was. Whatever the monitor's memory holds, it writes only the bytes that it returns.
#[unsafe(no_mangle)]
pub extern "C" fn delkuthi_page(m: &Words, buffer: &mut [u8]) -> usize
    ensures { WritesText buffer.old result buffer.new
        × ReadOff m.now (λ n answer. WritesPage n buffer.old answer buffer.new) result }
{
    summary_of(m).write(buffer).unwrap_or(0)
}
