// A row's verdict, read off its numbers.
ghost use Rattle.std.specs.Prelude.{◌≡◌};
ghost use Rattle.monitor.specs.Parts.{place_of, verdict_by};
ghost use Rattle.monitor.specs.Stepped.{row_verdict_of};

use crate::Monitor;
use constraint::{Refusal, Verdict};

const ROW_LIMIT: u64 = Monitor::ROW_LIMIT as u64;

// The place of a row: its number, or 0 where no monitor has a row of that number.
pub fn place(row: u64) -> usize
    ensures { result ≡ place_of row }
{
    if row < ROW_LIMIT { row as usize } else { 0 }
}

// The verdict of a row, by the number of rows, the mark of the close, and the step that broke the row.
pub fn by(row: u64, len: usize, closed: u64, broken: u64) -> Result<Verdict, Refusal>
    ensures { row_verdict_of result ≡ verdict_by row len closed broken }
{
    if len as u64 <= row || ROW_LIMIT <= row {
        return Err(Refusal::NoRow);
    }
    if 0 < broken {
        return Ok(Verdict::Broken(broken));
    }
    if 0 < closed {
        return Ok(Verdict::Kept);
    }
    Ok(Verdict::Open)
}
