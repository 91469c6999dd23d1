// The monitor by value: a table's rows, and how events, ticks and the close step them.
#![tactic(auto)]

ghost use Rattle.constraint.specs.Run.{asks, withdraws};
ghost use Rattle.constraint.specs.declared.Call.{Call};
ghost use Rattle.constraint.specs.Answers.{answer_of};
ghost use Rattle.monitor.specs.Stepped.{stepped_of, row_verdict_of};
ghost use Rattle.monitor.specs.Contract.{FreshlyIn, Freshly, made_of, Steps, VerdictOf};

use constraint::{Call, Refusal, Verdict};
pub use questions::Undo;
use row::{Row, RowUndo};
use table_row::Table;

mod rows;
pub mod verdicts;

#[repr(C)]
#[derive(Clone, Copy)]
pub struct Monitor {
    // arrays of fixed size and `len`, as a monitor uses no heap
    pub rows: [Row; 32],
    // for each stream the first time still free: one more than the time of its last event; 0: none
    pub next: [u64; 176],
    pub clock: u64,
    // the steps taken, the close included
    pub count: u64,
    // 0: not closed. No bool: it is a word of the memory that C lends, which may hold any number
    pub closed: u64,
    // the number of rows
    pub len: usize,
    // for each row what it was before the step that last changed it; beside the rows, as `bare` in specs/ leaves it out
    pub before: [RowUndo; 32],
    // what the last step changed beside the rows
    pub undo: Undo,
}

impl Monitor {
    // How many rows a monitor has at most.
    pub const ROW_LIMIT: usize = constraint::ROW_LIMIT;
    // How many a row keeps waiting at most.
    pub const WAITING_LIMIT: usize = constraint::WAITING_LIMIT;
    // The largest time, 2^60 - 1.
    pub const LAST_TIME: u64 = constraint::LAST_TIME;
    // The largest count of steps, 2^64 - 1.
    pub const LAST_COUNT: u64 = constraint::LAST_COUNT;

    // §1.6, §3.2, §9.7
    // A monitor over a table of the first edition, with clock 0, or the refusal: questions 3 to 7 and 18, row by row.
    pub fn fresh(table: Table) -> Result<Monitor, Refusal>
        ensures { Freshly table (answer_of result) (made_of result) }
    {
        Monitor::fresh_in(1, table)
    }

    // A monitor over a table of an edition, or the refusal.
    pub fn fresh_in(edition: u8, table: Table) -> Result<Monitor, Refusal>
        ensures { FreshlyIn edition table (answer_of result) (made_of result) }
    {
        table.validate(edition)?;
        Ok(rows::over(table, table.count))
    }

    // The monitor after a call, or the refusal: questions 8 to 12, 19 and 24.
    pub fn step(self, call: Call) -> Result<Monitor, Refusal>
        ensures { Steps self (asks call) (stepped_of self result) }
    {
        let at = questions::place(call);
        let next = self.next[at];
        questions::refusal(call, self.closed, self.count, self.clock, next)?;
        let o = questions::step_input(call, self.clock);
        let step = self.count.saturating_add(1);
        // No `ok_or` and `?`: each would copy the whole monitor once more.
        let Some(mut after) = rows::step(self, o, step) else {
            return Err(Refusal::Crowded);
        };
        after.next[at] = questions::free(call, next);
        after.clock = o.time;
        after.count = step;
        after.closed = questions::closed(call, self.closed);
        after.undo = questions::undo_of(call, self.closed, self.clock, next, self.count);
        Ok(after)
    }

    // §3.12, §3.14, §8.21
    // The monitor without its last step, or the refusal: question 21.
    pub fn withdraw(self) -> Result<Monitor, Refusal>
        ensures { Steps self withdraws (stepped_of self result) }
    {
        let undo = self.undo;
        if undo.may == 0 {
            return Err(Refusal::NothingToWithdraw);
        }
        let at = questions::place_in(undo.place);
        let mut after = rows::undo_rows(self, self.count);
        after.next[at] = undo.next;
        after.clock = undo.clock;
        after.count = undo.count;
        after.closed = undo.closed;
        after.undo = Undo::default();
        Ok(after)
    }

    // §1.3, §8.8 to §8.12, §8.19, §8.24, §9.5
    // The monitor after an event of a kind at a time, or the refusal.
    pub fn event(self, kind: u8, time: u64) -> Result<Monitor, Refusal>
        ensures { Steps self (asks (Call.Event kind time)) (stepped_of self result) }
    {
        self.step(Call::Event { kind, time })
    }

    // §1.3, §8.19
    // The monitor after an event of a coloured kind and a colour at a time, or the refusal.
    pub fn coloured_event(self, kind: u8, colour: u8, time: u64) -> Result<Monitor, Refusal>
        ensures { Steps self (asks (Call.ColouredEvent kind colour time)) (stepped_of self result) }
    {
        self.step(Call::ColouredEvent { kind, colour, time })
    }

    // §1.4, §8.8, §8.10, §8.11, §8.24, §9.5
    // The monitor after a tick to a time, or the refusal.
    pub fn tick(self, time: u64) -> Result<Monitor, Refusal>
        ensures { Steps self (asks (Call.Tick time)) (stepped_of self result) }
    {
        self.step(Call::Tick { time })
    }

    // §1.5, §8.8, §8.24, §9.5
    // The monitor after the close, or the refusal.
    pub fn close(self) -> Result<Monitor, Refusal>
        ensures { Steps self (asks Call.Close) (stepped_of self result) }
    {
        self.step(Call::Close)
    }

    // §2.4 to §2.6, §8.15, §9.6
    // The verdict of a row, or the refusal: question 15.
    pub fn verdict(self, row: usize) -> Result<Verdict, Refusal>
        ensures { VerdictOf self row (row_verdict_of result) }
    {
        let at = verdicts::place(row as u64);
        verdicts::by(row as u64, self.len, self.closed, self.rows[at].now.broken)
    }
}
