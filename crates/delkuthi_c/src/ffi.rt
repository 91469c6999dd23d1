// The exported functions of `delkuthi::ffi`, for C.
ghost use Rattle.std.specs.Prelude.{◌≤◌, ◌≡◌};
ghost use Rattle.constraint.specs.declared.Call.{Call};
ghost use Rattle.constraint.specs.Run.{asks, withdraws};
ghost use Rattle.in_place.specs.Contract.{Takes, ReadOff};
ghost use Rattle.fresh.specs.Fresh.{BeginsUpTo, Begins};
ghost use Rattle.delkuthi.specs.Lent.{KnownWord, WordOfVerdict, StepOfVerdict, NumberOfRows, version, monitor_size};

use in_place::Words;

// Returns the version of the library. The host compares it with the version of its header.
#[unsafe(no_mangle)]
pub extern "C" fn delkuthi_version() -> u32
    ensures { result ≡ version }
{
    delkuthi::ffi::delkuthi_version()
}

// Returns the size of a monitor in bytes. The host compares it with the size that it lends.
#[unsafe(no_mangle)]
pub extern "C" fn delkuthi_monitor_size() -> u64
    ensures { result ≡ monitor_size }
{
    delkuthi::ffi::delkuthi_monitor_size()
}

// Makes the monitor fresh over a table's bytes and returns 0. On a refusal it returns 256 times the place plus the number, and leaves the monitor as
// it was.
#[unsafe(no_mangle)]
pub extern "C" fn delkuthi_fresh(m: &mut Words, table: &[u8]) -> u64
    ensures { Begins table.now m.old result m.new }
{
    delkuthi::ffi::delkuthi_fresh(m, table)
}

// Does the same for a table of either edition.
#[unsafe(no_mangle)]
pub extern "C" fn delkuthi_fresh_2(m: &mut Words, table: &[u8]) -> u64
    ensures { BeginsUpTo 2 table.now m.old result m.new }
{
    delkuthi::ffi::delkuthi_fresh_2(m, table)
}

// Takes an event of a kind at a time. Returns 0 if it is taken, else the number of its refusal.
#[unsafe(no_mangle)]
pub extern "C" fn delkuthi_event(m: &mut Words, kind: u8, time: u64) -> u8
    ensures { Takes m.old (asks (Call.Event kind time)) result m.new }
{
    delkuthi::ffi::delkuthi_event(m, kind, time)
}

// Takes an event of a coloured kind and a colour at a time. Returns 0 if it is taken, else the number of its refusal.
#[unsafe(no_mangle)]
pub extern "C" fn delkuthi_coloured_event(m: &mut Words, kind: u8, colour: u8, time: u64) -> u8
    ensures { Takes m.old (asks (Call.ColouredEvent kind colour time)) result m.new }
{
    delkuthi::ffi::delkuthi_coloured_event(m, kind, colour, time)
}

// Takes a tick to a time. Returns 0 if it is taken, else the number of its refusal.
#[unsafe(no_mangle)]
pub extern "C" fn delkuthi_tick(m: &mut Words, time: u64) -> u8
    ensures { Takes m.old (asks (Call.Tick time)) result m.new }
{
    delkuthi::ffi::delkuthi_tick(m, time)
}

// Takes the close. Returns 0 if it is taken, else the number of its refusal.
#[unsafe(no_mangle)]
pub extern "C" fn delkuthi_close(m: &mut Words) -> u8
    ensures { Takes m.old (asks Call.Close) result m.new }
{
    delkuthi::ffi::delkuthi_close(m)
}

// Withdraws the last step. Returns 0, or 21 if no step may be withdrawn.
#[unsafe(no_mangle)]
pub extern "C" fn delkuthi_withdraw(m: &mut Words) -> u8
    ensures { Takes m.old withdraws result m.new }
{
    delkuthi::ffi::delkuthi_withdraw(m)
}

// Returns what a row reads: OPEN, KEPT, BROKEN or NO_ROW, whatever the monitor's memory holds.
#[unsafe(no_mangle)]
pub extern "C" fn delkuthi_row_verdict(m: &Words, row: u64) -> u8
    ensures { KnownWord result × ReadOff m.now (λ n. WordOfVerdict n row) result }
{
    delkuthi::ffi::delkuthi_row_verdict(m, row)
}

// Returns the step that broke a row. It is 0 if no step did, or if there is no such row.
#[unsafe(no_mangle)]
pub extern "C" fn delkuthi_row_step(m: &Words, row: u64) -> u64
    ensures { ReadOff m.now (λ n. StepOfVerdict n row) result }
{
    delkuthi::ffi::delkuthi_row_step(m, row)
}

// Returns the number of rows. It is at most 32, whatever the monitor's memory holds.
#[unsafe(no_mangle)]
pub extern "C" fn delkuthi_rows(m: &Words) -> u64
    ensures { (result ≤ 32) × ReadOff m.now NumberOfRows result }
{
    delkuthi::ffi::delkuthi_rows(m)
}
