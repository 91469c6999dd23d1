// The exported functions of `queries::ffi`, for C.
ghost use Rattle.std.specs.Prelude.{◌≤◌};
ghost use Rattle.constraint.specs.declared.Call.{Call};
ghost use Rattle.in_place.specs.Contract.{ReadOff};
ghost use Rattle.queries.specs.Contract.{AsksClock, AsksSteps, AsksClosed, AsksBrokenRows, AsksWaiting};
ghost use Rattle.queries.specs.Contract.{AsksRowDeadline, AsksDeadline, AsksCrowdedRow, AsksCause, AsksMoment, AsksOldest, AsksOldestStream};

use in_place::Words;

// Returns the clock.
#[unsafe(no_mangle)]
pub extern "C" fn delkuthi_clock(m: &Words) -> u64
    ensures { ReadOff m.now AsksClock result }
{
    queries::ffi::delkuthi_clock(m)
}

// Returns the number of steps taken, including the close.
#[unsafe(no_mangle)]
pub extern "C" fn delkuthi_steps(m: &Words) -> u64
    ensures { ReadOff m.now AsksSteps result }
{
    queries::ffi::delkuthi_steps(m)
}

// Returns 1 once the recording is closed, else 0. It returns no other number, whatever the monitor's memory holds.
#[unsafe(no_mangle)]
pub extern "C" fn delkuthi_closed(m: &Words) -> u8
    ensures { (result ≤ 1) × ReadOff m.now AsksClosed result }
{
    queries::ffi::delkuthi_closed(m)
}

// Returns the deadline of a row, or the largest number if it has none.
#[unsafe(no_mangle)]
pub extern "C" fn delkuthi_row_deadline(m: &Words, row: u64) -> u64
    ensures { ReadOff m.now (λ monitor. AsksRowDeadline monitor row) result }
{
    queries::ffi::delkuthi_row_deadline(m, row)
}

// Returns the earliest of the rows' deadlines.
#[unsafe(no_mangle)]
pub extern "C" fn delkuthi_deadline(m: &Words) -> u64
    ensures { ReadOff m.now AsksDeadline result }
{
    queries::ffi::delkuthi_deadline(m)
}

// Returns how many wait in a row, if it reads open.
#[unsafe(no_mangle)]
pub extern "C" fn delkuthi_row_waiting(m: &Words, row: u64) -> u64
    ensures { ReadOff m.now (λ monitor. AsksWaiting monitor row) result }
{
    queries::ffi::delkuthi_row_waiting(m, row)
}

// Returns the time of the oldest that waits in a row, or the largest number if nothing waits.
#[unsafe(no_mangle)]
pub extern "C" fn delkuthi_row_oldest(m: &Words, row: u64) -> u64
    ensures { ReadOff m.now (λ monitor. AsksOldest monitor row) result }
{
    queries::ffi::delkuthi_row_oldest(m, row)
}

// Returns the stream of the oldest that waits in a row, or 255 if nothing waits.
#[unsafe(no_mangle)]
pub extern "C" fn delkuthi_row_oldest_stream(m: &Words, row: u64) -> u8
    ensures { ReadOff m.now (λ monitor. AsksOldestStream monitor row) result }
{
    queries::ffi::delkuthi_row_oldest_stream(m, row)
}

// Returns why a row broke: 1 it was overdue, 2 an event broke it, 3 the close did. Returns 0 if it is not broken. It returns at most 3, whatever the
// monitor's memory holds.
#[unsafe(no_mangle)]
pub extern "C" fn delkuthi_row_cause(m: &Words, row: u64) -> u8
    ensures { (result ≤ 3) × ReadOff m.now (λ monitor. AsksCause monitor row) result }
{
    queries::ffi::delkuthi_row_cause(m, row)
}

// Returns the moment at which a row broke: the deadline that passed, or the time of the event or of the close. Returns the largest number if it is
// not broken.
#[unsafe(no_mangle)]
pub extern "C" fn delkuthi_row_moment(m: &Words, row: u64) -> u64
    ensures { ReadOff m.now (λ monitor. AsksMoment monitor row) result }
{
    queries::ffi::delkuthi_row_moment(m, row)
}

// Returns a bit for each row: 1 if the row is broken.
#[unsafe(no_mangle)]
pub extern "C" fn delkuthi_broken_rows(m: &Words) -> u32
    ensures { ReadOff m.now AsksBrokenRows result }
{
    queries::ffi::delkuthi_broken_rows(m)
}

// Returns the first row that an event of a plain kind would overflow, or 32 if the event would not be refused with 12. It returns at most 32,
// whatever the monitor's memory holds.
#[unsafe(no_mangle)]
pub extern "C" fn delkuthi_crowded_row(m: &Words, kind: u8, time: u64) -> u8
    ensures { (result ≤ 32) × ReadOff m.now (λ monitor. AsksCrowdedRow monitor (Call.Event kind time)) result }
{
    queries::ffi::delkuthi_crowded_row(m, kind, time)
}
