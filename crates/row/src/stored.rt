// A row in memory: its two arrays of words before any step, and how an event, the clock, the close and a withdrawal change them.
ghost use Rattle.std.specs.Prelude.{ℕ, ◌≡◌, ◌+◌, ◌≤◌, replicate};
ghost use Rattle.constraint.specs.Types.{Known};
ghost use Rattle.table_row.specs.Records.{row_read};
ghost use Rattle.std.proofs.lemmas.List.Edits.{sets};
ghost use Rattle.row_type.specs.Words.{asked_of, number_words, NumbersBecome};
ghost use Rattle.row_type.specs.declared.Parameters.{Parameters};
ghost use Rattle.row_type.specs.declared.State.{State};
ghost use Rattle.row.specs.Undo.{no_state, no_row_undo};
ghost use Rattle.row.specs.StepParts.{overflows, event_overflows, crowded_by, applies_by, stepped_row};
ghost use Rattle.row.specs.Machine.{event_at, row_of, row_step};
ghost use Rattle.row.specs.declared.RowUndo.{RowUndo};
ghost use Rattle.row.specs.declared.Row.{Row};
ghost use Rattle.row.specs.Stored.{undo_record_of, words_of_row, event_row, event_keeps, ended_row, ended_saves, step_keeps, Changes};
ghost use Rattle.row.specs.Machine.{broken_row, cause_by, moment_by};
ghost use Rattle.row.specs.Undo.{saved_at};
ghost use Rattle.row.specs.Stored.{Becomes, Withdraws, state_from, state_words, nothing};

use crate::{Row, RowUndo, StepInput, concerns};
use constraint::WAITING_LIMIT;
use delay_order::{delay, order, strong_delay};
use event_chain::{age, input_synchronization, output_synchronization, reaction};
use execution::execution_time;
use hidden_points::sporadic;
use patterns::pattern;
use repeat_burst::{arbitrary, repeat};
use ring::{SIZE, put_back};
use row_type::row_words::parameters_at;
use row_type::{Parameters, Registers, State, from_constraint, row_words};
use synchronizations::{strong_synchronization, synchronization};

// A row with fewer waiting has room for two more words.
const NEARLY_FULL: usize = WAITING_LIMIT - 1;

// How far behind what a row keeps stands the same before its last step.
const PAST: usize = row_words::UNDO_LAST - row_words::LAST;

// What the row keeps, or, that far behind, what it kept.
fn state_from(w: &[u64; SIZE], behind: usize) -> State
    requires { behind ≤ 10 }
    ensures { result ≡ state_from w.now (10 + behind) }
{
    let registers = Registers {
        last: w[row_words::LAST + behind],
        first: w[row_words::ONE + behind],
        second: w[row_words::TWO + behind],
        third: w[row_words::THREE + behind],
        fourth: w[row_words::FOUR + behind],
    };
    State {
        registers,
        head: w[row_words::HEAD + behind] as usize,
        len: w[row_words::LEN + behind] as usize,
        due: w[row_words::DUE + behind],
        kept: w[row_words::KEPT + behind],
        broken: w[row_words::BROKEN + behind],
    }
}

// What an event of one of its streams makes of the row, by its type; a row of no type breaks, and a broken one stays as it is. The remainder bounds
// the number, and an arm for each below the bound lets the dispatch do without a test. Stream, time and number stay apart: what they call takes
// one or two of them each, and a struct would be taken apart at every call.
fn apply_by_type(row: &mut [[u64; SIZE]; 2], stream: u64, t: u64, number: u64)
    ensures { Changes row.old stream t number row.new }
{
    // A number and no enum, as C's memory holds it; a table of functions would cost the calls their inlining.
    let live = row[1][row_words::LIVE] % 32;
    match live {
        31 => {}
        1 => delay::apply(row, stream, t, number),
        2 => strong_delay::apply(row, stream, t, number),
        3 | 5 => repeat::apply(row, stream, t, number),
        4 => sporadic::apply(row, stream, t, number),
        6 => order::apply(row, stream, t, number),
        7 => strong_synchronization::apply(row, stream, t, number),
        8 => execution_time::apply(row, stream, t, number),
        9 => reaction::apply(row, stream, t, number),
        10 => repetition::apply(row, stream, t, number),
        11 => synchronization::apply(row, stream, t, number),
        12 => age::apply(row, stream, t, number),
        13 => output_synchronization::apply(row, stream, t, number),
        14 => input_synchronization::apply(row, stream, t, number),
        15 => pattern::apply(row, stream, t, number),
        16 => arbitrary::apply(row, stream, t, number),
        // two arms, as a proof is told the value of an arm of up to eight numbers only
        17 | 19 | 21 | 23 | 25 | 27 | 29 => row_words::break_at(row, t, number),
        0 | 18 | 20 | 22 | 24 | 26 | 28 | 30 => row_words::break_at(row, t, number),
        _ => row_words::break_at(row, t, number),
    }
}

// Why a row is broken: it was overdue, or the close broke it. An event does by `row_words::break_at`. The memory that C reads holds these numbers.
pub const OVERDUE: u64 = 1;

pub const AT_CLOSE: u64 = 3;

// Returns why a step to a time breaks a row that was due.
fn cause_of(due: u64, time: u64, closes: bool) -> u64
    ensures { result ≡ cause_by due time closes }
{
    if due < time {
        return OVERDUE;
    }
    if closes {
        return AT_CLOSE;
    }
    row_words::BY_EVENT
}

// Returns the moment of the break.
fn moment_of(due: u64, time: u64) -> u64
    ensures { result ≡ moment_by due time }
{
    due.min(time)
}

// The row breaks at the step of that number, to a time, which is no event of the row.
fn break_for(row: &mut [[u64; SIZE]; 2], time: u64, closes: bool, number: u64)
    ensures { Becomes row.old (λ r. broken_row r time closes number) (λ r b. saved_at r 0 number) row.new }
{
    let due = row[1][row_words::DUE];
    row_words::break_at(row, time, number);
    row[1][row_words::HEAD] = cause_of(due, time, closes);
    row[1][row_words::KEPT] = moment_of(due, time);
}

// The row after an event that concerns it, which is the step of that number.
pub fn event(row: &mut [[u64; SIZE]; 2], stream: u64, t: u64, number: u64)
    ensures { Becomes row.old (event_row (event_at stream t) number) (event_keeps (event_at stream t) number) row.new }
{
    apply_by_type(row, stream, t, number);
}

// The row where the clock or the close alone goes to it, which is the step of that number.
pub fn apply_clock(row: &mut [[u64; SIZE]; 2], o: StepInput, number: u64)
    ensures { Becomes row.old (ended_row o number) (ended_saves o number) row.new }
{
    if 0 < row[1][row_words::BROKEN] {
        return;
    }
    if row[1][row_words::DUE] < o.time {
        break_for(row, o.time, o.closes, number);
        return;
    }
    if !o.closes {
        return;
    }
    if concerns(parameters_at(&row[1]), o.kind) {
        return;
    }
    if row[1][row_words::KEPT] == 0 {
        break_for(row, o.time, o.closes, number);
        return;
    }
    row_words::save_undo_all(row, number);
}

// The row after what occurs, which does not crowd it and is the step of that number.
pub fn step(row: &mut [[u64; SIZE]; 2], o: StepInput, number: u64)
    ensures { Becomes row.old (stepped_row o number) (step_keeps o number) row.new }
{
    if row[1][row_words::DUE] < o.time {
        apply_clock(row, o, number);
        return;
    }
    if concerns(parameters_at(&row[1]), o.kind) {
        event(row, o.stream, o.time, number);
        return;
    }
    apply_clock(row, o, number);
}

// The numbers of a constraint are put over zeros.
fn put_parameters(w: &mut [u64; SIZE], parameters: Parameters)
    ensures { w.old ≡ replicate 64 0 → w.new ≡ number_words parameters no_state nothing }
{
    w[row_words::TYPE_TAG] = parameters.tag;
    w[row_words::FIRST] = parameters.first;
    w[row_words::SECOND] = parameters.second;
    w[row_words::THIRD] = parameters.third;
    w[row_words::FOURTH] = parameters.fourth;
    w[row_words::SPAN] = parameters.span;
    w[row_words::LOWER] = parameters.lower;
    w[row_words::UPPER] = parameters.upper;
    w[row_words::JITTER] = parameters.jitter;
    w[row_words::MINIMUM] = parameters.minimum;
    w[row_words::FIFTH] = parameters.fifth;
    w[row_words::LIVE] = row_words::live_of(parameters.tag, 0);
}

// A state is put into the words of what the row keeps, or, that far behind, of what it kept.
fn store(w: &mut [u64; SIZE], behind: usize, state: State)
    requires { behind ≤ 10 }
    ensures { w.new ≡ sets w.old (10 + behind) (state_words state) }
{
    let registers = state.registers;
    w[row_words::LAST + behind] = registers.last;
    w[row_words::ONE + behind] = registers.first;
    w[row_words::TWO + behind] = registers.second;
    w[row_words::THREE + behind] = registers.third;
    w[row_words::FOUR + behind] = registers.fourth;
    w[row_words::HEAD + behind] = state.head as u64;
    w[row_words::LEN + behind] = state.len as u64;
    w[row_words::DUE + behind] = state.due;
    w[row_words::KEPT + behind] = state.kept;
    w[row_words::BROKEN + behind] = state.broken;
}

// What a row keeps is put into its numbers.
fn put_state(w: &mut [u64; SIZE], state: State)
    ensures { NumbersBecome (λ old past. state) (λ old past. past) w.old w.new }
{
    store(w, 0, state);
    w[row_words::LIVE] = row_words::live_of(w[row_words::TYPE_TAG], state.broken);
}

// So is what is kept of it.
fn put_undo(w: &mut [u64; SIZE], before: RowUndo)
    ensures { NumbersBecome (λ state past. state) (λ state past. undo_record_of before) w.old w.new }
{
    store(w, PAST, before.state);
    w[row_words::UNDO_PLACE] = before.place as u64;
    w[row_words::UNDO_WORD_0] = before.first;
    w[row_words::UNDO_WORD_1] = before.second;
    w[row_words::UNDO_STEP] = before.step;
}

// `From` would not be plainer here: the words are those of two values, and are read back as two.
// The words that a row is, with what is kept of it.
pub fn encode_row(row: Row, before: RowUndo) -> [[u64; SIZE]; 2]
    ensures { result ≡ words_of_row row before }
{
    let mut row_words = [[0u64; SIZE]; 2];
    let times = row.times;
    row_words[0] = times;
    put_parameters(&mut row_words[1], row.parameters);
    put_state(&mut row_words[1], row.now);
    put_undo(&mut row_words[1], before);
    row_words
}

// The row that lies in the words.
pub fn decode_row(row: &[[u64; SIZE]; 2]) -> Row
    ensures { (w : Row) (b : RowUndo) → row.now ≡ words_of_row w b → result ≡ w }
{
    Row {
        parameters: parameters_at(&row[1]),
        times: row[0],
        now: state_from(&row[1], 0),
    }
}

// What is kept of it.
pub fn undo_at(row: &[[u64; SIZE]; 2]) -> RowUndo
    ensures { (w : Row) (b : RowUndo) → row.now ≡ words_of_row w b → result ≡ b }
{
    RowUndo {
        state: state_from(&row[1], PAST),
        place: row[1][row_words::UNDO_PLACE] as usize,
        first: row[1][row_words::UNDO_WORD_0],
        second: row[1][row_words::UNDO_WORD_1],
        step: row[1][row_words::UNDO_STEP],
    }
}

// The state of a row is that of its past, and it has no past.
fn restore(w: &mut [u64; SIZE])
    ensures { NumbersBecome (λ state past. past.state) (λ state past. nothing) w.old w.new }
{
    let state = state_from(w, PAST);
    put_state(w, state);
    put_undo(w, RowUndo::default());
}

// The row without the step of that number, by what is kept of it.
pub fn undo_step(row: &mut [[u64; SIZE]; 2], number: u64)
    ensures { Withdraws row.old number row.new }
{
    if row[1][row_words::UNDO_STEP] != number {
        return;
    }
    let place = row[1][row_words::UNDO_PLACE] as usize;
    let old = row[1][row_words::UNDO_WORD_0];
    let other = row[1][row_words::UNDO_WORD_1];
    put_back(&mut row[0], place, old, other);
    restore(&mut row[1]);
}

// Whether an event of one of the row's streams lets more wait than there is room for, 63 or 64 waiting: by its type.
fn overflows(w: &[u64; SIZE], stream: u64, t: u64) -> bool
    ensures { result ≡ asked_of overflows w.now stream t }
{
    // A number and no enum, as C's memory holds it.
    match w[row_words::TYPE_TAG] {
        1 => delay::overflows(w, stream, t),
        2 => strong_delay::overflows(w, stream, t),
        3 | 5 => repeat::overflows(w, stream, t),
        7 => strong_synchronization::overflows(w, stream, t),
        10 => repetition::overflows(w, stream, t),
        _ => false,
    }
}

// §6.5, §8.12
// Whether an event of one of the row's streams crowds it, where at most 64 wait: it is not tried, and the times are not read.
pub fn event_overflows(row: &[[u64; SIZE]; 2], stream: u64, t: u64) -> bool
    ensures { (w : Row) (b : RowUndo) → row.now ≡ words_of_row w b → result ≡ event_overflows w.parameters w.now stream t }
{
    if (row[1][row_words::LEN] as usize) < NEARLY_FULL {
        return false;
    }
    if 0 < row[1][row_words::BROKEN] {
        return false;
    }
    if row[1][row_words::DUE] < t {
        return false;
    }
    overflows(&row[1], stream, t)
}

// Whether what occurs crowds the row, in which at most 64 wait.
pub fn step_overflows(row: &[[u64; SIZE]; 2], o: StepInput) -> bool
    ensures { (w : Row) (b : RowUndo) → row.now ≡ words_of_row w b → result ≡ crowded_by w.parameters w.now o }
{
    if concerns(parameters_at(&row[1]), o.kind) {
        return event_overflows(row, o.stream, o.time);
    }
    false
}

// Whether an event goes to the row: to an open one that is not overdue, and that it concerns.
fn applies_event(row: &[[u64; SIZE]; 2], o: StepInput) -> bool
    ensures { (w : Row) (b : RowUndo) → row.now ≡ words_of_row w b → result ≡ applies_by w.parameters w.now o }
{
    if 0 < row[1][row_words::BROKEN] {
        return false;
    }
    if row[1][row_words::DUE] < o.time {
        return false;
    }
    concerns(parameters_at(&row[1]), o.kind)
}

// §6.5, §8.12
// Whether what occurs would leave the row open with more than 64 waiting: each event does that goes to a row in which more wait, as no step leaves
// one.
pub fn would_overflow(row: &[[u64; SIZE]; 2], o: StepInput) -> bool
    ensures { (w : Row) (b : RowUndo) (number : ℕ) → row.now ≡ words_of_row w b → result ≡ (row_step w o number).crowded }
{
    if WAITING_LIMIT < row[1][row_words::LEN] as usize {
        return applies_event(row, o);
    }
    step_overflows(row, o)
}

// The row is that of a constraint of a known type, with these values, before any step.
pub fn begin(row: &mut [[u64; SIZE]; 2], tag: u8, values: &[u64; 18])
    requires { Known (row_read tag values.now) }
    ensures { row.new ≡ words_of_row (row_of (row_read tag values.now)) no_row_undo }
{
    let parameters = from_constraint::parameters_of(tag, values);
    *row = encode_row(Row::blank(parameters), RowUndo::default());
    from_constraint::put_constants(&mut row[0], tag, values);
}
