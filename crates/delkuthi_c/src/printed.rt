// The exported functions of `delkuthi::printed`, for C.
ghost use Rattle.in_place.specs.Contract.{ReadOff};
ghost use Rattle.delkuthi.specs.Printed.{WritesText, WritesPage};

use in_place::Words;

// Writes the page of the lent monitor to the front of the buffer and returns its length. If the buffer is too short, returns 0 and leaves it as it
// was. Whatever the monitor's memory holds, it writes only the bytes that it returns.
#[unsafe(no_mangle)]
pub extern "C" fn delkuthi_page(m: &Words, buffer: &mut [u8]) -> usize
    ensures { WritesText buffer.old result buffer.new
        × ReadOff m.now (λ n answer. WritesPage n buffer.old answer buffer.new) result }
{
    delkuthi::printed::delkuthi_page(m, buffer)
}
