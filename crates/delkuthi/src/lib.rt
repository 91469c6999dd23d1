// The C interface that steps, reports and writes. This file has the report on a recording: what the rows of a table read after it.
#![tactic(auto)]

pub mod answers;
pub mod ffi;
pub mod joining;
pub mod printed;
pub mod records;
mod report;
pub mod stamped;
pub mod tables;
pub mod withdrawing;
pub mod writing;

ghost use Rattle.constraint.specs.Report.{ReportsUpTo, Reports};
ghost use Rattle.in_place.specs.Contract.{ReadOff};
ghost use Rattle.delkuthi.specs.Printed.{WritesText};
ghost use Rattle.delkuthi.specs.Program.{Prints};
ghost use Rattle.delkuthi.specs.Summary.{Tells};
ghost use Rattle.delkuthi.specs.Reporting.{ReportsOnUpTo, ReportsOn, ReportsOf};

use constraint::Refusal;
use in_place::Words;
use text::Text;

// The largest size of a table file in bytes.
pub const TABLE_SIZE_LIMIT: usize = 2048;
// The largest size of a recording file in bytes.
pub const RECORDING_SIZE_LIMIT: usize = 61440;

// §7.10, §8.17, §9.9
// Returns what the program prints for its two files: the report, or "refused 17 0" if one of them is too large.
pub fn program_text(table: &[u8], recording: &[u8]) -> Text
    ensures { Tells (Prints table.now recording.now) result }
{
    if TABLE_SIZE_LIMIT < table.len() || RECORDING_SIZE_LIMIT < recording.len() {
        let mut text = Text::new();
        text.refused_line(u8::from(Refusal::FileSize), 0);
        return text;
    }
    let mut m = [[[0u64; 64]; 2]; 35];
    let answer = report::answer_on(1, &mut m, table, recording);
    report::text_of(answer, &report::summary_of(&m))
}

// §7.3, §7.8, §7.9
// Writes the report on a recording under a table to the buffer. Returns the number of bytes written. If the buffer is too short, returns 0 and leaves
// it as it was.
#[unsafe(no_mangle)]
pub extern "C" fn delkuthi_report(table: &[u8], recording: &[u8], buffer: &mut [u8]) -> usize
    ensures { Reports table.now recording.now buffer.old result buffer.new }
{
    report::report(1, table, recording, buffer)
}

// §16.3
// The same for a table of either edition.
#[unsafe(no_mangle)]
pub extern "C" fn delkuthi_report_2(table: &[u8], recording: &[u8], buffer: &mut [u8]) -> usize
    ensures { ReportsUpTo 2 table.now recording.now buffer.old result buffer.new }
{
    report::report(2, table, recording, buffer)
}

// §7.22
// Writes the report on a recording under a table to the buffer, and uses the monitor that the caller lends. Returns the number of bytes written. If
// the buffer is too short, returns 0 and leaves it as it was.
#[unsafe(no_mangle)]
pub extern "C" fn delkuthi_report_on(
    m: &mut Words,
    table: &[u8],
    recording: &[u8],
    buffer: &mut [u8],
) -> usize
    ensures { ReportsOn m.old table.now recording.now
        buffer.old result buffer.new m.new }
{
    report::report_on(1, m, table, recording, buffer)
}

// §16.3
// The same for a table of either edition.
#[unsafe(no_mangle)]
pub extern "C" fn delkuthi_report_on_2(
    m: &mut Words,
    table: &[u8],
    recording: &[u8],
    buffer: &mut [u8],
) -> usize
    ensures { ReportsOnUpTo 2 m.old table.now recording.now
        buffer.old result buffer.new m.new }
{
    report::report_on(2, m, table, recording, buffer)
}

// §7.23
// Writes the report of a monitor that was stepped call by call to the buffer. Returns the number of bytes written. If the buffer is too short or the
// monitor is not closed, returns 0 and leaves the buffer as it was. Whatever the monitor's memory holds, it writes only the bytes that it returns.
#[unsafe(no_mangle)]
pub extern "C" fn delkuthi_report_of(m: &Words, buffer: &mut [u8]) -> usize
    ensures { WritesText buffer.old result buffer.new
        × ReadOff m.now (λ n answer. ReportsOf n buffer.old answer buffer.new) result }
{
    let summary = report::summary_of(m);
    if !summary.closed {
        return 0;
    }
    report::write(Ok(()), &summary, buffer)
}
