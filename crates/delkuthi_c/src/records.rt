// The exported functions of `delkuthi::records`, for C.
ghost use Rattle.delkuthi.specs.TakingRecords.{NumbersTaken};

use in_place::Words;

// Takes the records of a recording, without a close. Returns 0 if all are taken. Otherwise it returns 256 times the place of the first record that
// is refused plus the number of the refusal; the records before it are taken.
#[unsafe(no_mangle)]
pub extern "C" fn delkuthi_take(m: &mut Words, recording: &[u8]) -> u64
    ensures { NumbersTaken m.old recording.now result m.new }
{
    delkuthi::records::delkuthi_take(m, recording)
}
