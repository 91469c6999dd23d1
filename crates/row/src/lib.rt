// One row of the monitor: its constraint as numbers, what it keeps of the events so far, and how a step changes it.
#![tactic(auto)]

ghost use Rattle.std.specs.Prelude.{◌≡◌, replicate};
ghost use Rattle.constraint.specs.Types.{Known};
ghost use Rattle.table_row.specs.Records.{row_in};
ghost use Rattle.row.specs.Undo.{moves_by, saved_by, row_without, kept_without};
ghost use Rattle.row.specs.Machine.{concerns, fresh_state, row_from, row_of, row_step};
ghost use Rattle.row.specs.RowStep.{row_step_of};

use constraint::NO_LIMIT;
use ring::SIZE;
use row_type::from_constraint;
pub use row_type::{Parameters, Registers, State};
use table_row::TableRow;

pub mod stored;

#[repr(C)]
#[derive(Clone, Copy)]
pub struct Row {
    pub parameters: Parameters,
    // a ring in fixed memory, as a monitor uses no heap; its head and its length stand in `now`
    pub times: [u64; SIZE],
    pub now: State,
}

// What a row sees of a step: the kind of the event (65: no event) and its stream, the clock that the step leaves, and whether it closes the
// recording.
// A record, as the definitions event_at, tick_at, close_at and step_input_by of specs/ say it.
#[derive(Clone, Copy)]
pub struct StepInput {
    pub kind: u64,
    pub stream: u64,
    pub time: u64,
    pub closes: bool,
}

// What a row was before the step that last changed it: what it kept, the word of its ring at a place, or two from it on where 64 is added to it, and
// the number of that step; 0 where there is none. The default: nothing is kept.
#[repr(C)]
#[derive(Clone, Copy, Default)]
pub struct RowUndo {
    pub state: State,
    pub place: usize,
    pub first: u64,
    pub second: u64,
    pub step: u64,
}

// §2.1
// Whether an event of the kind is of one of the row's kinds.
pub fn concerns(parameters: Parameters, kind: u64) -> bool
    ensures { result ≡ concerns parameters kind }
{
    // nested to the right: without the parentheses `delkuthi_crowded_row` took a third more instructions
    kind == parameters.first
        || (kind == parameters.second
            || (kind == parameters.third
                || (kind == parameters.fourth || kind == parameters.fifth)))
}

// Whether what occurs may change a row: one that is not broken and is overdue, or that the close finds, or that the event concerns.
fn moves(parameters: Parameters, now: State, o: StepInput) -> bool
    ensures { result ≡ moves_by parameters now o }
{
    if 0 < now.broken {
        return false;
    }
    if now.due < o.time {
        return true;
    }
    if o.closes {
        return true;
    }
    concerns(parameters, o.kind)
}

impl Row {
    // A row of these numbers before any step, with 0 in each place of its ring.
    pub(crate) fn blank(parameters: Parameters) -> Self
        ensures { result ≡ row_from parameters (replicate 64 0) (fresh_state parameters) }
    {
        let now = State {
            len: from_constraint::start_word_count(parameters),
            due: NO_LIMIT,
            kept: 1,
            ..State::default()
        };
        Row {
            parameters,
            times: [0u64; SIZE],
            now,
        }
    }

    // The row of a constraint of a known type before any step.
    pub fn begin(row: TableRow) -> Self
        requires { Known (row_in row) }
        ensures { result ≡ row_of (row_in row) }
    {
        let mut made = Row::blank(from_constraint::parameters_of(row.tag, &row.values));
        from_constraint::put_constants(&mut made.times, row.tag, &row.values);
        made
    }

    // §6.5
    // The row after what occurs, which is the step of that number; none where that crowds it.
    pub fn step(self, o: StepInput, number: u64) -> Option<Row>
        ensures { row_step_of self result ≡ row_step self o number }
    {
        let mut words = stored::encode_row(self, RowUndo::default());
        if stored::would_overflow(&words, o) {
            return None;
        }
        stored::step(&mut words, o, number);
        Some(stored::decode_row(&words))
    }

    // What is kept of the row beside it after what occurs, which is the step of that number; as it was where the row stays as it is.
    pub fn saved(self, before: RowUndo, o: StepInput, number: u64) -> RowUndo
        ensures { result ≡ saved_by o number self before }
    {
        if !moves(self.parameters, self.now, o) {
            return before;
        }
        let own = RowUndo {
            state: self.now,
            ..RowUndo::default()
        };
        let mut words = stored::encode_row(self, own);
        stored::step(&mut words, o, number);
        stored::undo_at(&words)
    }

    // The row without the step of that number, by what is kept of it.
    pub fn without_step(self, before: RowUndo, number: u64) -> Self
        ensures { result ≡ row_without number self before }
    {
        let mut words = stored::encode_row(self, before);
        stored::undo_step(&mut words, number);
        stored::decode_row(&words)
    }
}

impl RowUndo {
    // What is kept without the step of that number.
    pub fn without_step(self, number: u64) -> Self
        ensures { result ≡ kept_without number self }
    {
        if self.step == number {
            return RowUndo::default();
        }
        self
    }
}
