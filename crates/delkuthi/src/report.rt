// The report of a monitor and the summary that report and page need. The summary is read from the lent words.
ghost use Rattle.std.specs.Prelude.{◌≡◌, map};
ghost use Rattle.constraint.specs.Report.{row_lines, ReportsUpTo};
ghost use Rattle.text.specs.Content.{extended, HoldsText, Copied};
ghost use Rattle.page.specs.Sheet.{verdict_said};
ghost use Rattle.monitor.specs.declared.Monitor.{Monitor};
ghost use Rattle.in_place.specs.Contract.{HoldsMonitor};
ghost use Rattle.table.specs.ReadAnswer.{read_answer_of};
ghost use Rattle.delkuthi.specs.Reporting.{LeftBy, ReportsOnUpTo};
ghost use Rattle.delkuthi.specs.Summary.{summary_of, report_text};

use crate::records::take_recording;
use constraint::RefusedAt;
use in_place::{COUNT, NUMBERS, Words};
use page::{RowSummary, Summary};
use row_type::row_words;
use text::Text;

// Returns the answer to a recording under a table of an edition up to `newest`. The lent monitor takes the recording.
pub(crate) fn answer_on(
    newest: u8,
    m: &mut Words,
    table: &[u8],
    recording: &[u8],
) -> Result<(), RefusedAt>
    ensures { LeftBy newest m.old table.now recording.now (read_answer_of result) m.new }
{
    fresh::fresh(newest, m, table)?;
    take_recording(m, recording)
}

// Returns the summary of a lent monitor. It copies only numbers.
pub(crate) fn summary_of(m: &Words) -> Summary
    ensures { (n : Monitor) → HoldsMonitor m.now n → result ≡ summary_of n }
{
    let mut rows = [RowSummary { tag: 0, broken: 0 }; 32];
    for (i, row) in rows.iter_mut().enumerate() {
        *row = RowSummary {
            tag: m[i][1][row_words::TYPE_TAG],
            broken: m[i][1][row_words::BROKEN],
        };
    }
    Summary {
        rows,
        len: in_place::held(m),
        count: m[NUMBERS][0][COUNT],
        closed: in_place::closed(m),
    }
}

// Appends the lines of rows to the text.
fn row_lines(text: &mut Text, rows: &[RowSummary], closed: bool)
    ensures { text.new ≡ extended (row_lines 0 (map (verdict_said closed) rows.now)) text.old }
{
    for (i, row) in rows.iter().enumerate() {
        text.row_line(i, row.verdict(closed));
    }
}

// Returns the text of the report: "closed N" and the lines of the rows, or "refused N P".
pub(crate) fn text_of(answer: Result<(), RefusedAt>, summary: &Summary) -> Text
    ensures { HoldsText result (report_text (read_answer_of answer) summary.now) }
{
    let mut text = Text::new();
    match answer {
        Ok(()) => {
            text.closed_line(summary.count);
            row_lines(&mut text, summary.rows(), summary.closed);
        }
        Err(refused) => text.refused_line(u8::from(refused.refusal), refused.place),
    }
    text
}

// Writes the report to the front of the buffer and returns its length. If the buffer is too short, returns 0 and leaves it as it was.
pub(crate) fn write(answer: Result<(), RefusedAt>, summary: &Summary, buffer: &mut [u8]) -> usize
    ensures { Copied (report_text (read_answer_of answer) summary.now) buffer.old result buffer.new }
{
    text_of(answer, summary).copy_to(buffer).unwrap_or(0)
}

// §7.3, §7.22, §9.10
// Writes the report on a recording under a table of an edition up to `newest`. The lent monitor takes the recording.
pub(crate) fn report_on(
    newest: u8,
    m: &mut Words,
    table: &[u8],
    recording: &[u8],
    buffer: &mut [u8],
) -> usize
    ensures { ReportsOnUpTo newest m.old table.now recording.now
        buffer.old result buffer.new m.new }
{
    let answer = answer_on(newest, m, table, recording);
    write(answer, &summary_of(m), buffer)
}

// Does the same with a monitor on the stack.
pub(crate) fn report(newest: u8, table: &[u8], recording: &[u8], buffer: &mut [u8]) -> usize
    ensures { ReportsUpTo newest table.now recording.now buffer.old result buffer.new }
{
    let mut m = [[[0u64; 64]; 2]; 35];
    report_on(newest, &mut m, table, recording, buffer)
}
