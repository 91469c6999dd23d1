// Arbitrary: words 0 to 15 are the pairs and stay; words 16 to 23 are one more than the last eight times, each at its number's remainder by eight.
// A word is 0 where there is none: it lies in memory that C lends, and `newest_at` of specs/ reads it so.
ghost use Rattle.std.specs.Prelude.{◌≡◌, true, ◌+◌, ◌%◌, ◌≤◌};
ghost use Rattle.ring.specs.Ring.{times_of};
ghost use Rattle.ring.specs.declared.Edit.TheVariants.{Store};
ghost use Rattle.row_type.specs.Parts.{continues_with, registers_of};
ghost use Rattle.row_type.specs.Words.{counts_saved, Makes, Applies};
ghost use Rattle.repeat_burst.specs.Arbitrary.{newest_at, late_enough, time_after, due_after, lower_in, upper_in, next_place, decide_in_words};

use constraint::NO_LIMIT;
use ring::{SIZE, Times};
use row_type::{parts, row_words};

// Where the times begin.
const TIMES: usize = 16;

const NEXT: usize = row_words::ONE;

// One more than the i-th newest time, from 1 on; 0 where there are fewer.
fn newest(times: Times<'_>, next: u64, i: usize) -> u64
    requires { i ≤ 8 }
    ensures { result ≡ newest_at 16 next (times_of times.entry) i }
{
    let place = TIMES + ((next % 8) as usize + 8 - i) % 8;
    times.word(place)
}

// Whether t is not too early for the first n pairs.
fn late_enough(times: Times<'_>, n: usize, next: u64, t: u64) -> bool
    requires { n ≤ 8 }
    ensures { result ≡ late_enough n (lower_in (times_of times.entry)) 16 next (times_of times.entry) t }
{
    for i in 0..n {
        let lower = times.word(2 * i);
        let last = newest(times, next, i + 1);
        if !parts::far_enough(lower, last, t) {
            return false;
        }
    }
    true
}

// The i-th newest time, from 0 on, once one at t has come; the oldest where there are fewer.
fn time_after(times: Times<'_>, next: u64, t: u64, i: usize) -> u64
    requires { i ≤ 8 }
    ensures { result ≡ time_after 16 next (times_of times.entry) t i }
{
    if i == 0 {
        return t;
    }
    let there = newest(times, next, i);
    if there == 0 {
        let oldest = times.word(TIMES);
        if oldest == 0 {
            return t;
        }
        return oldest - 1;
    }
    there - 1
}

// The due time that the first n pairs give then.
fn due_after(times: Times<'_>, n: usize, next: u64, t: u64) -> u64
    requires { n ≤ 8 }
    ensures { result ≡ due_after n (upper_in (times_of times.entry)) 16 next (times_of times.entry) t }
{
    let mut due = NO_LIMIT;
    for i in 0..n {
        let upper = times.word(2 * i + 1);
        let from = time_after(times, next, t, i);
        due = due.min(from.saturating_add(upper));
    }
    due
}

// The place of the next time, and its number's remainder once one has come.
fn slot(next: u64) -> usize
    ensures { result ≡ 16 + next % 8 }
{
    TIMES + (next % 8) as usize
}

fn following(next: u64) -> u64
    ensures { result ≡ next_place next }
{
    (next % 8 + 1) % 8
}

// The row goes on: a word is new, the one behind it stays, and the next has another place.
fn note(
    row: &mut [[u64; SIZE]; 2],
    place: usize,
    word: u64,
    behind: u64,
    next: u64,
    due: u64,
    number: u64,
)
    ensures { Makes counts_saved row.old
        (λ parameters registers words. continues_with (Store place word behind) (registers_of registers.last next registers.second registers) due
        true) number row.new }
{
    row_words::save_undo_counts(row);
    row_words::put_two(row, place, word, behind, number);
    row[1][NEXT] = next;
    row_words::settle(&mut row[1], due, 1);
}

// What an event makes of the row, where it lies.
pub fn apply(row: &mut [[u64; SIZE]; 2], stream: u64, t: u64, number: u64)
    ensures { Applies counts_saved decide_in_words row.old stream t number row.new }
{
    let times = row_words::times(row);
    let next = row[1][NEXT];
    let n = row[1][row_words::SPAN].min(8) as usize;
    if late_enough(times, n, next, t) {
        let due = due_after(times, n, next, t);
        let place = slot(next);
        let behind = times.word(place + 1);
        let after = following(next);
        note(row, place, t.saturating_add(1), behind, after, due, number);
        return;
    }
    row_words::break_at(row, t, number);
}
