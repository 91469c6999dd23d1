// The exported functions of `delkuthi::writing`, for C.
ghost use Rattle.constraint.specs.declared.Call.{Call};
ghost use Rattle.delkuthi.specs.Writing.{PutsRecord};

use constraint::Call;

// Writes an event of a plain kind. Returns 256 times the size of the recording then, or the number of the refusal.
#[unsafe(no_mangle)]
pub extern "C" fn delkuthi_put_event(recording: &mut [u8], size: usize, kind: u8, time: u64) -> u64
    ensures { PutsRecord recording.old size (Call.Event kind time) result recording.new }
{
    delkuthi::writing::delkuthi_put_event(recording, size, kind, time)
}

// Writes an event of a coloured kind.
#[unsafe(no_mangle)]
pub extern "C" fn delkuthi_put_coloured_event(
    recording: &mut [u8],
    size: usize,
    kind: u8,
    colour: u8,
    time: u64,
) -> u64
    ensures { PutsRecord recording.old size (Call.ColouredEvent kind colour time) result recording.new }
{
    delkuthi::writing::delkuthi_put_coloured_event(recording, size, kind, colour, time)
}

// Writes a tick.
#[unsafe(no_mangle)]
pub extern "C" fn delkuthi_put_tick(recording: &mut [u8], size: usize, time: u64) -> u64
    ensures { PutsRecord recording.old size (Call.Tick time) result recording.new }
{
    delkuthi::writing::delkuthi_put_tick(recording, size, time)
}
