// Loops over the rows of a lent monitor: the rows of a kind after an event, and all rows after the clock, the close and a withdrawal.
ghost use Rattle.std.specs.Prelude.{◌<◌, ◌≤◌, ◌≡◌};
ghost use Rattle.row.specs.Machine.{event_at};
ghost use Rattle.in_place.specs.Layout.{Lent, words_of_lent, Shaped, rows_in};
ghost use Rattle.in_place.specs.Steps.{Updates, Computes, full_marked, dispatched, kind_applied, clock_applied, crowded, rows_undone};
ghost use Rattle.in_place.specs.Steps.{soonest_of, soonest_of_four, up_to_four};

use crate::{COUNT, FULL, NUMBERS, SOONEST, Words};
use constraint::NO_LIMIT;
use row::{StepInput, stored};
use row_type::row_words::{DUE, LEN};

// A row with at most as many waiting has room for two more words.
const NEARLY_FULL: u64 = 62;

// A set of rows is a number below it: the remainder of a word is one, whatever the word says.
pub(crate) const SETS: u64 = 4294967296;

// Marks row i as nearly full if it is.
fn mark_full(m: &mut Words, i: usize)
    requires { i < 32 }
    ensures { Updates m.old (λ h. full_marked h i) m.new }
{
    if NEARLY_FULL < m[i][1][LEN] {
        m[NUMBERS][0][FULL] |= 1 << i;
    }
}

// Applies an event, which is the step of that number, to a set of rows.
fn dispatch_rows(m: &mut Words, rows: u32, stream: u64, t: u64, number: u64)
    ensures { Updates m.old (λ h. dispatched h (rows_in rows) (event_at stream t) number) m.new }
{
    let mut soonest = m[NUMBERS][0][SOONEST];
    let mut left = rows;
    // No plainer as a `for`: an iterator over the rows of a set would be longer than its two loops, here and in `rows_overflow`.
    while 0 < left {
        let i = left.trailing_zeros() as usize;
        stored::event(&mut m[i], stream, t, number);
        soonest = soonest.min(m[i][1][DUE]);
        mark_full(m, i);
        left &= left - 1;
    }
    m[NUMBERS][0][SOONEST] = soonest;
}

// Applies an event to the rows of its kind. The step's number is the count.
pub(crate) fn dispatch_event(m: &mut Words, kind: usize, stream: u64, t: u64)
    requires { kind < 64 }
    ensures { Updates m.old (kind_applied kind stream t) m.new }
{
    let rows = (m[NUMBERS][1][kind] % SETS) as u32;
    let number = m[NUMBERS][0][COUNT];
    dispatch_rows(m, rows, stream, t, number);
}

// Returns whether an event would leave too many waiting in one of a set of rows.
pub(crate) fn rows_overflow(m: &Words, rows: u32, stream: u64, t: u64) -> bool
    ensures { (h : Lent) → m.now ≡ words_of_lent h → Shaped h → result ≡ crowded h (rows_in rows) stream t }
{
    let mut left = rows;
    // No plainer as a `for`: see `dispatch_rows`.
    while 0 < left {
        let i = left.trailing_zeros() as usize;
        if stored::event_overflows(&m[i], stream, t) {
            return true;
        }
        left &= left - 1;
    }
    false
}

// Returns the earliest deadline of four rows from i on.
fn soonest_of_four(m: &Words, i: usize) -> u64
    requires { i ≤ 28 }
    ensures { Computes m.now (λ h. soonest_of_four h.monitor.rows i) result }
{
    let one = m[i][1][DUE].min(m[i + 1][1][DUE]);
    let two = m[i + 2][1][DUE].min(m[i + 3][1][DUE]);
    one.min(two)
}

// Returns the earliest deadline of the first n rows, and of those up to the next place that four divides.
pub(crate) fn soonest(m: &Words, n: usize) -> u64
    requires { n ≤ 32 }
    ensures { Computes m.now (λ h. soonest_of h.monitor.rows (up_to_four n)) result }
{
    let mut time = NO_LIMIT;
    for i in 0..n.div_ceil(4) {
        time = time.min(soonest_of_four(m, 4 * i));
    }
    time
}

// Applies the clock or the close alone to each of the first n rows that it concerns.
pub(crate) fn apply_clock_all(m: &mut Words, n: usize, o: StepInput, number: u64)
    requires { n ≤ 32 }
    ensures { Updates m.old (λ h. clock_applied h n o number) m.new }
{
    for i in 0..n {
        stored::apply_clock(&mut m[i], o, number);
    }
}

// Withdraws the step of that number from the first n rows.
pub(crate) fn undo_rows(m: &mut Words, n: usize, number: u64)
    requires { n ≤ 32 }
    ensures { Updates m.old (λ h. rows_undone h n number) m.new }
{
    for i in 0..n {
        stored::undo_step(&mut m[i], number);
    }
}
