// The functions that C calls: each calls the function of the same name in the crate `delkuthi`, and promises what that promises.
#![tactic(auto)]

pub mod ffi;
pub mod joining;
pub mod printed;
pub mod records;
pub mod stamped;
pub mod tables;
pub mod withdrawing;
pub mod writing;

ghost use Rattle.constraint.specs.Report.{ReportsUpTo, Reports};
ghost use Rattle.in_place.specs.Contract.{ReadOff};
ghost use Rattle.delkuthi.specs.Printed.{WritesText};
ghost use Rattle.delkuthi.specs.Reporting.{ReportsOnUpTo, ReportsOn, ReportsOf};

use in_place::Words;

// Writes the report on a recording under a table to the buffer. Returns the number of bytes written. If the buffer is too short, returns 0 and leaves
// it as it was.
#[unsafe(no_mangle)]
pub extern "C" fn delkuthi_report(table: &[u8], recording: &[u8], buffer: &mut [u8]) -> usize
    ensures { Reports table.now recording.now buffer.old result buffer.new }
{
    delkuthi::delkuthi_report(table, recording, buffer)
}

// The same for a table of either edition.
#[unsafe(no_mangle)]
pub extern "C" fn delkuthi_report_2(table: &[u8], recording: &[u8], buffer: &mut [u8]) -> usize
    ensures { ReportsUpTo 2 table.now recording.now buffer.old result buffer.new }
{
    delkuthi::delkuthi_report_2(table, recording, buffer)
}

// Writes the report on a recording under a table to the buffer, and uses the monitor that the caller lends. Returns the number of bytes written. If
// the buffer is too short, returns 0 and leaves it as it was.
#[unsafe(no_mangle)]
pub extern "C" fn delkuthi_report_on(
    m: &mut Words,
    table: &[u8],
    recording: &[u8],
    buffer: &mut [u8],
) -> usize
    ensures { ReportsOn m.old table.now recording.now
        buffer.old result buffer.new m.new }
{
    delkuthi::delkuthi_report_on(m, table, recording, buffer)
}

// The same for a table of either edition.
#[unsafe(no_mangle)]
pub extern "C" fn delkuthi_report_on_2(
    m: &mut Words,
    table: &[u8],
    recording: &[u8],
    buffer: &mut [u8],
) -> usize
    ensures { ReportsOnUpTo 2 m.old table.now recording.now
        buffer.old result buffer.new m.new }
{
    delkuthi::delkuthi_report_on_2(m, table, recording, buffer)
}

// Writes the report of a monitor that was stepped call by call to the buffer. Returns the number of bytes written. If the buffer is too short or the
// monitor is not closed, returns 0 and leaves the buffer as it was. Whatever the monitor's memory holds, it writes only the bytes that it returns.
#[unsafe(no_mangle)]
pub extern "C" fn delkuthi_report_of(m: &Words, buffer: &mut [u8]) -> usize
    ensures { WritesText buffer.old result buffer.new
        × ReadOff m.now (λ n answer. ReportsOf n buffer.old answer buffer.new) result }
{
    delkuthi::delkuthi_report_of(m, buffer)
}
