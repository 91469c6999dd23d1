// The exported functions of `delkuthi::stamped`, for C.
ghost use Rattle.delkuthi.specs.Stamps.{NumbersStampsUpTo, NumbersStamps};

// Returns what a Repeat row of span 1 reads at the close of a recording whose stamps are late by at most `late`: 256 times the verdict's number (1
// kept, 2 broken, 3 unsure). On a refusal it returns 256 times the place plus the number.
#[unsafe(no_mangle)]
pub extern "C" fn delkuthi_stamps(table: &[u8], recording: &[u8], row: u64, late: u64) -> u64
    ensures { NumbersStamps table.now recording.now row late result }
{
    delkuthi::stamped::delkuthi_stamps(table, recording, row, late)
}

// Does the same for a table of either edition.
#[unsafe(no_mangle)]
pub extern "C" fn delkuthi_stamps_2(table: &[u8], recording: &[u8], row: u64, late: u64) -> u64
    ensures { NumbersStampsUpTo 2 table.now recording.now row late result }
{
    delkuthi::stamped::delkuthi_stamps_2(table, recording, row, late)
}
