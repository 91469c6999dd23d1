// Delay: the times are the waiting sources; last is one more than the last target's time.
// A mark is 0 where there is none: it is a word of memory that C lends, and `Registers` of specs/ reads it so.
ghost use Rattle.std.specs.Prelude.{◌≡◌};
ghost use Rattle.ring.specs.Ring.{times_of};
ghost use Rattle.row_type.specs.Words.{asked_of, last_saved, Applies};
ghost use Rattle.delay_order.specs.Delay.{answered_by, answered_at_once, overflows_delay, decide_delay};

use ring::{SIZE, Times};
use row_type::{parts, row_words};

// §5.1, §5.1.6
// What an event makes of the row, where it lies.
pub fn apply(row: &mut [[u64; SIZE]; 2], stream: u64, t: u64, number: u64)
    ensures { Applies last_saved decide_delay row.old stream t number row.new }
{
    row_words::save_undo_last(row);
    let lower = row[1][row_words::LOWER];
    if stream == row[1][row_words::FIRST] {
        if answered_at_once(lower, row[1][row_words::LAST], t) {
            row_words::fewer_wait(row, 0, number);
            return;
        }
        row_words::one_more_waits(row, 0, t, number);
        return;
    }
    let dropped = answered(lower, t, row_words::times(row));
    row_words::fewer_wait(row, dropped, number);
    row[1][row_words::LAST] = t.saturating_add(1);
}

// Whether an event lets one more wait, where there is no room.
#[tactic(auto, unfolding(crate::specs::Delay::overflows_delay))]
pub fn overflows(w: &[u64; SIZE], stream: u64, t: u64) -> bool
    ensures { result ≡ asked_of overflows_delay w.now stream t }
{
    stream == w[row_words::FIRST]
        && w[row_words::LEN] >= SIZE as u64
        && !answered_at_once(w[row_words::LOWER], w[row_words::LAST], t)
}

// How many of the waiting sources a target at t answers, from the oldest on.
fn answered(lower: u64, t: u64, times: Times<'_>) -> usize
    ensures { result ≡ answered_by lower t (times_of times.entry) }
{
    for n in 0..times.len.min(SIZE) {
        if !parts::reaches(times.at(n), lower, t) {
            return n;
        }
    }
    times.len
}

// Whether the last target answers a source at t.
fn answered_at_once(lower: u64, last: u64, t: u64) -> bool
    ensures { result ≡ answered_at_once lower last t }
{
    lower == 0 && last == t.saturating_add(1)
}
