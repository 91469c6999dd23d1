// The exported functions of `delkuthi::joining`, for C.
ghost use Rattle.delkuthi.specs.Joining.{NumbersJoin};

// Writes the join of two recordings to the front of the buffer. Returns 256 times the number of bytes written. On a refusal it returns 256 times the
// place plus the number, and 128 more if the second recording is refused.
#[unsafe(no_mangle)]
pub extern "C" fn delkuthi_join(first: &[u8], second: &[u8], joined: &mut [u8]) -> u64
    ensures { NumbersJoin first.now second.now joined.old result joined.new }
{
    delkuthi::joining::delkuthi_join(first, second, joined)
}
