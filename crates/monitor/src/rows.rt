// The rows of a monitor, one after the other: made from a table, and after a step.
ghost use Rattle.std.specs.Prelude.{◌≡◌, ℕ, ◌≤◌, ◌<◌, min, get_or, take};
ghost use Rattle.constraint.specs.Limits.{row_limit};
ghost use Rattle.constraint.specs.Records.{filler};
ghost use Rattle.constraint.specs.Types.{Known};
ghost use Rattle.table_row.specs.Tables.{rows_of};
ghost use Rattle.monitor.specs.Machine.{monitor_of};
ghost use Rattle.monitor.specs.Stepped.{rows_stepped_of};
ghost use Rattle.monitor.specs.Parts.{RowsAfter, rows_without};

use crate::Monitor;
use questions::Undo;
use row::{Row, RowUndo, StepInput};
use table_row::{Table, TableRow};

// The monitor over the first rows of a table, before any step.
pub(crate) fn over(table: Table, len: usize) -> Monitor
    requires { (len ≤ table.count) × (len ≤ row_limit) × ((i : ℕ) → i < len → Known (get_or (rows_of table) i filler)) }
    ensures { result ≡ monitor_of (take len (rows_of table)) }
{
    let mut rows = [Row::begin(TableRow::filler()); 32];
    for i in 0..len {
        rows[i] = Row::begin(table.rows[i]);
    }
    Monitor {
        rows,
        next: [0u64; 176],
        clock: 0,
        count: 0,
        closed: 0,
        len,
        before: [RowUndo::default(); 32],
        undo: Undo::default(),
    }
}

// The monitor with each row after what occurs, which is the step of that number; none where that crowds one of them.
pub fn step(m: Monitor, o: StepInput, number: u64) -> Option<Monitor>
    ensures { RowsAfter m o number (rows_stepped_of m result) }
{
    let mut after = m;
    for i in 0..m.len.min(Monitor::ROW_LIMIT) {
        let row = after.rows[i];
        after.rows[i] = row.step(o, number)?;
        after.before[i] = row.saved(after.before[i], o, number);
    }
    Some(after)
}

// The monitor with each row without the step of that number.
pub fn undo_rows(m: Monitor, number: u64) -> Monitor
    ensures { result ≡ rows_without m m.len number }
{
    let mut after = m;
    for i in 0..m.len.min(Monitor::ROW_LIMIT) {
        let kept = after.before[i];
        after.rows[i] = after.rows[i].without_step(kept, number);
        after.before[i] = kept.without_step(number);
    }
    after
}
