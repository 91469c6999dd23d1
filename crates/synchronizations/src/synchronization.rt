// Synchronization: no times are kept; first to fourth are one more than the last time of that kind, last is one more than the time of the oldest
// event that lies in no full window yet.
// A mark is 0 where there is none: it is a word of memory that C lends, and `Registers` of specs/ reads it so.
ghost use Rattle.row_type.specs.Words.{Applies};
ghost use Rattle.synchronizations.specs.Synchronization.{all_saved, decide_synchronization};

use crate::kinds;
use constraint::NO_LIMIT;
use ring::SIZE;
use row_type::row_words;

// §5.11
// What an event makes of the row, where it lies.
pub fn apply(row: &mut [[u64; SIZE]; 2], stream: u64, t: u64, number: u64)
    ensures { Applies all_saved decide_synchronization row.old stream t number row.new }
{
    row_words::save_undo_counts(row);
    row_words::save_undo_last(row);
    row_words::stay(row, number);
    let noted = t.saturating_add(1);
    let at = kinds::place(&row[1], stream);
    row[1][at] = noted;
    let tolerance = row[1][row_words::UPPER];
    let since = t.saturating_sub(tolerance);
    if kinds::each_above(&row[1], since) {
        row[1][row_words::LAST] = 0;
        row_words::settle(&mut row[1], NO_LIMIT, 1);
        return;
    }
    let owed = row[1][row_words::LAST];
    if owed == 0 {
        row[1][row_words::LAST] = noted;
        row_words::settle(&mut row[1], t.saturating_add(tolerance), 0);
        return;
    }
    row_words::settle(&mut row[1], (owed - 1).saturating_add(tolerance), 0);
}
