// ExecutionTime: no times are kept; first is the number of the phase, last one more than the time of the row's last event, and second how long
// the execution begun has run up to that event.
// A mark is 0 where there is none: it is a word of memory that C lends, and `Registers` of specs/ reads it so.
ghost use Rattle.std.specs.Prelude.{◌≡◌};
ghost use Rattle.row_type.specs.Words.{first_three_saved, MakesAt, Applies};
ghost use Rattle.execution.specs.ExecutionTime.{phase_at, phase_number, enters, running_from, while_idle, while_running, while_preempted};
ghost use Rattle.execution.specs.ExecutionTime.{decide_execution_time};

use constraint::NO_LIMIT;
use ring::SIZE;
use row_type::row_words;

// The phases: between two executions, in a running one, in a preempted one.
#[derive(Clone, Copy)]
enum Phase {
    Idle,
    Running,
    Preempted,
}

// The word of a row holds its number; `phase_at` takes each above 1 for a preempted one.
impl From<u64> for Phase {
    ghost from_gives = { λ word phase. phase ≡ phase_at word };

    fn from(word: u64) -> Phase {
        match word {
            0 => Phase::Idle,
            1 => Phase::Running,
            _ => Phase::Preempted,
        }
    }
}

impl From<Phase> for u64 {
    ghost from_gives = { λ phase word. word ≡ phase_number phase };

    fn from(phase: Phase) -> u64 {
        match phase {
            Phase::Idle => 0,
            Phase::Running => 1,
            Phase::Preempted => 2,
        }
    }
}

// The phase, and how long the execution begun has run up to the last event.
const PHASE: usize = row_words::ONE;

const RAN: usize = row_words::TWO;

// §5.8
// What an event makes of the row, where it lies.
pub fn apply(row: &mut [[u64; SIZE]; 2], stream: u64, t: u64, number: u64)
    ensures { Applies first_three_saved decide_execution_time row.old stream t number row.new }
{
    if t < row[1][row_words::LAST] {
        row_words::break_at(row, t, number);
        return;
    }
    let phase = Phase::from(row[1][PHASE]);
    match phase {
        Phase::Idle => apply_idle(row, stream, t, number),
        Phase::Running => apply_running(row, stream, t, number),
        Phase::Preempted => apply_preempted(row, stream, t, number),
    }
}

// What an event makes of a row between two executions: only a start may come, and some time must be left to run.
fn apply_idle(row: &mut [[u64; SIZE]; 2], stream: u64, t: u64, number: u64)
    ensures { MakesAt first_three_saved row.old (λ parameters registers times. while_idle parameters registers stream t) t number
        row.new }
{
    if stream == row[1][row_words::FIRST] && 0 < row[1][row_words::UPPER] {
        run(row, t, 0, number);
        return;
    }
    row_words::break_at(row, t, number);
}

// What an event makes of a running execution: a stop ends it, not before lower; a preempt must leave some time to run.
fn apply_running(row: &mut [[u64; SIZE]; 2], stream: u64, t: u64, number: u64)
    ensures { MakesAt first_three_saved row.old (λ parameters registers times. while_running parameters registers stream t) t number
        row.new }
{
    let since = t.saturating_add(1).saturating_sub(row[1][row_words::LAST]);
    let ran = row[1][RAN].saturating_add(since);
    if stream == row[1][row_words::SECOND] && row[1][row_words::LOWER] <= ran {
        enter(row, Phase::Idle, t, 0, NO_LIMIT, true, number);
        return;
    }
    if stream == row[1][row_words::THIRD] && ran < row[1][row_words::UPPER] {
        enter(row, Phase::Preempted, t, ran, NO_LIMIT, false, number);
        return;
    }
    row_words::break_at(row, t, number);
}

// What an event makes of a preempted execution: only a resume may come.
fn apply_preempted(row: &mut [[u64; SIZE]; 2], stream: u64, t: u64, number: u64)
    ensures { MakesAt first_three_saved row.old (λ parameters registers times. while_preempted parameters registers stream t) t number
        row.new }
{
    if stream == row[1][row_words::FOURTH] {
        let ran = row[1][RAN];
        run(row, t, ran, number);
        return;
    }
    row_words::break_at(row, t, number);
}

// The row goes on with an execution that runs from t on: it must stop before it has run longer than upper.
#[tactic(auto, unfolding(row_type::specs::Words::row_as_words, row_type::specs::Words::number_words))]
fn run(row: &mut [[u64; SIZE]; 2], t: u64, ran: u64, number: u64)
    ensures { MakesAt first_three_saved row.old (λ parameters registers times. running_from parameters registers t ran) t number
        row.new }
{
    let due = t.saturating_add(row[1][row_words::UPPER].saturating_sub(ran));
    enter(row, Phase::Running, t, ran, due, false, number);
}

// The row goes on in a phase after an event at t, the execution having run so long.
fn enter(
    row: &mut [[u64; SIZE]; 2],
    phase: Phase,
    t: u64,
    ran: u64,
    due: u64,
    kept: bool,
    number: u64,
)
    ensures { MakesAt first_three_saved row.old (λ parameters registers times. enters (phase_number phase) t ran due kept registers) t number
        row.new }
{
    row_words::save_undo_first_three(row);
    row_words::stay(row, number);
    row[1][row_words::LAST] = t.saturating_add(1);
    row[1][PHASE] = u64::from(phase);
    row[1][RAN] = ran;
    row_words::settle(&mut row[1], due, u64::from(kept));
}
