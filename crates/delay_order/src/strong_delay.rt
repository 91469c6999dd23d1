// StrongDelay: the times are the sources beyond the number of targets; last is one more than the time of a target beyond
// the number of sources.
// A mark is 0 where there is none: it is a word of memory that C lends, and `Registers` of specs/ reads it so.
ghost use Rattle.std.specs.Prelude.{◌≡◌};
ghost use Rattle.row_type.specs.Words.{asked_of, last_saved, Applies};
ghost use Rattle.delay_order.specs.StrongDelay.{overflows_strong_delay, decide_strong_delay};

use ring::SIZE;
use row_type::{parts, row_words};

// One more than the time of a target beyond the number of sources.
const EARLY: usize = row_words::LAST;

// §5.2
// What an event makes of the row, where it lies.
pub fn apply(row: &mut [[u64; SIZE]; 2], stream: u64, t: u64, number: u64)
    ensures { Applies last_saved decide_strong_delay row.old stream t number row.new }
{
    row_words::save_undo_last(row);
    if stream == row[1][row_words::FIRST] {
        if row[1][EARLY] == 0 {
            row_words::one_more_waits(row, 0, t, number);
            return;
        }
        row_words::fewer_wait(row, 0, number);
        row[1][EARLY] = 0;
        return;
    }
    let lower = row[1][row_words::LOWER];
    let times = row_words::times(row);
    if times.len == 0 {
        if lower == 0 {
            row_words::stay(row, number);
            row[1][EARLY] = t.saturating_add(1);
            row_words::settle(&mut row[1], t, 0);
            return;
        }
        row_words::break_at(row, t, number);
        return;
    }
    if parts::reaches(times.front(), lower, t) {
        row_words::fewer_wait(row, 1, number);
        return;
    }
    row_words::break_at(row, t, number);
}

// Whether an event lets one more wait, where there is no room.
#[tactic(auto, unfolding(crate::specs::StrongDelay::overflows_strong_delay))]
pub fn overflows(w: &[u64; SIZE], stream: u64, t: u64) -> bool
    ensures { result ≡ asked_of overflows_strong_delay w.now stream t }
{
    stream == w[row_words::FIRST] && w[row_words::LEN] >= SIZE as u64 && w[EARLY] == 0
}
