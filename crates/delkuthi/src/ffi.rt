// The monitor for a host in C: functions on numbers, bytes and references only. specs/Lent.antt defines the numbers.
ghost use Rattle.std.specs.Prelude.{◌≤◌, ◌≡◌};
ghost use Rattle.constraint.specs.declared.Call.{Call};
ghost use Rattle.monitor.specs.Contract.{verdict_in, Reading};
ghost use Rattle.monitor.specs.Stepped.{row_verdict_of};
ghost use Rattle.monitor.specs.declared.Monitor.{Monitor};
ghost use Rattle.constraint.specs.Run.{asks, withdraws};
ghost use Rattle.in_place.specs.Contract.{Takes, HoldsMonitor, ReadOff};
ghost use Rattle.fresh.specs.Fresh.{BeginsUpTo, Begins};
ghost use Rattle.delkuthi.specs.Lent.{KnownWord, WordOfVerdict, StepOfVerdict, NumberOfRows, version, monitor_size};

use crate::answers::{call_number, taken_number};
use constraint::{Refusal, Verdict};
use in_place::{Words, calls};
use monitor::verdicts;
use row_type::row_words;

// The library's version: 1.0.0 as major * 1,000,000 + minor * 1,000 + patch.
pub const VERSION: u32 = 1000000;
// The size of a monitor in bytes.
pub const MONITOR_SIZE: u64 = 35840;

// §11.6
// Returns the version of the library. The host compares it with the version of its header.
#[unsafe(no_mangle)]
pub extern "C" fn delkuthi_version() -> u32
    ensures { result ≡ version }
{
    VERSION
}

// §11.6
// Returns the size of a monitor in bytes. The host compares it with the size that it lends.
#[unsafe(no_mangle)]
pub extern "C" fn delkuthi_monitor_size() -> u64
    ensures { result ≡ monitor_size }
{
    MONITOR_SIZE
}

// §11.2, §11.5, §16.5, §16.6
// Makes the monitor fresh over a table's bytes and returns 0. On a refusal it returns 256 times the place plus the number, and leaves the monitor as
// it was.
#[unsafe(no_mangle)]
pub extern "C" fn delkuthi_fresh(m: &mut Words, table: &[u8]) -> u64
    ensures { Begins table.now m.old result m.new }
{
    taken_number(fresh::fresh(1, m, table))
}

// §16.1 to §16.3, §16.6, §16.7
// Does the same for a table of either edition.
#[unsafe(no_mangle)]
pub extern "C" fn delkuthi_fresh_2(m: &mut Words, table: &[u8]) -> u64
    ensures { BeginsUpTo 2 table.now m.old result m.new }
{
    taken_number(fresh::fresh(2, m, table))
}

// The number for each verdict, and the number for "there is no such row".
pub const OPEN: u8 = 0;

pub const KEPT: u8 = 1;

pub const BROKEN: u8 = 2;

pub const NO_ROW: u8 = 15;

// Returns what a row of the lent monitor reads.
fn read(m: &Words, row: u64) -> Result<Verdict, Refusal>
    ensures { (n : Monitor) → HoldsMonitor m.now n → Reading n row (verdict_in (row_verdict_of result)) }
{
    let at = verdicts::place(row);
    let broken = m[at][1][row_words::BROKEN];
    verdicts::by(
        row,
        in_place::held(m),
        u64::from(in_place::closed(m)),
        broken,
    )
}

// §3.4, §11.2, §11.5
// Takes an event of a kind at a time. Returns 0 if it is taken, else the number of its refusal.
#[unsafe(no_mangle)]
pub extern "C" fn delkuthi_event(m: &mut Words, kind: u8, time: u64) -> u8
    ensures { Takes m.old (asks (Call.Event kind time)) result m.new }
{
    call_number(calls::event(m, kind, time))
}

// §11.2
// Takes an event of a coloured kind and a colour at a time. Returns 0 if it is taken, else the number of its refusal.
#[unsafe(no_mangle)]
pub extern "C" fn delkuthi_coloured_event(m: &mut Words, kind: u8, colour: u8, time: u64) -> u8
    ensures { Takes m.old (asks (Call.ColouredEvent kind colour time)) result m.new }
{
    call_number(calls::coloured_event(m, kind, colour, time))
}

// §3.4, §11.2
// Takes a tick to a time. Returns 0 if it is taken, else the number of its refusal.
#[unsafe(no_mangle)]
pub extern "C" fn delkuthi_tick(m: &mut Words, time: u64) -> u8
    ensures { Takes m.old (asks (Call.Tick time)) result m.new }
{
    call_number(calls::tick(m, time))
}

// §3.4, §11.2
// Takes the close. Returns 0 if it is taken, else the number of its refusal.
#[unsafe(no_mangle)]
pub extern "C" fn delkuthi_close(m: &mut Words) -> u8
    ensures { Takes m.old (asks Call.Close) result m.new }
{
    call_number(calls::close(m))
}

// §3.12, §3.14, §8.21, §11.2, §11.5
// Withdraws the last step. Returns 0, or 21 if no step may be withdrawn.
#[unsafe(no_mangle)]
pub extern "C" fn delkuthi_withdraw(m: &mut Words) -> u8
    ensures { Takes m.old withdraws result m.new }
{
    call_number(calls::withdraw(m))
}

// §3.5, §8.15, §11.2, §11.5
// Returns what a row reads: OPEN, KEPT, BROKEN or NO_ROW, whatever the monitor's memory holds.
#[unsafe(no_mangle)]
pub extern "C" fn delkuthi_row_verdict(m: &Words, row: u64) -> u8
    ensures { KnownWord result × ReadOff m.now (λ n. WordOfVerdict n row) result }
{
    match read(m, row) {
        Ok(Verdict::Open) => OPEN,
        Ok(Verdict::Kept) => KEPT,
        Ok(Verdict::Broken(_)) => BROKEN,
        Err(_) => NO_ROW,
    }
}

// §3.5, §11.2, §11.5
// Returns the step that broke a row. It is 0 if no step did, or if there is no such row.
#[unsafe(no_mangle)]
pub extern "C" fn delkuthi_row_step(m: &Words, row: u64) -> u64
    ensures { ReadOff m.now (λ n. StepOfVerdict n row) result }
{
    match read(m, row) {
        Ok(Verdict::Open) => 0,
        Ok(Verdict::Kept) => 0,
        Ok(Verdict::Broken(step)) => step,
        Err(_) => 0,
    }
}

// §3.5, §11.2, §11.5
// Returns the number of rows. It is at most 32, whatever the monitor's memory holds.
#[unsafe(no_mangle)]
pub extern "C" fn delkuthi_rows(m: &Words) -> u64
    ensures { (result ≤ 32) × ReadOff m.now NumberOfRows result }
{
    in_place::held(m) as u64
}
