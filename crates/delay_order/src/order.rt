// Order: no times are kept; first is the number of sources beyond the number of targets, last one more than the time of a
// target beyond the number of sources.
// A mark is 0 where there is none: it is a word of memory that C lends, and `Registers` of specs/ reads it so.
ghost use Rattle.std.specs.Prelude.{false, []};
ghost use Rattle.constraint.specs.Limits.{no_limit};
ghost use Rattle.ring.specs.Ring.{ring_of};
ghost use Rattle.row_type.specs.Words.{first_three_saved, going_on, NumbersBecome, Applies};
ghost use Rattle.delay_order.specs.Order.{stored, with_ahead, decide_order};

use constraint::NO_LIMIT;
use ring::SIZE;
use row_type::row_words;

// One more than the time of a target beyond the number of sources, and how many sources are beyond the number of targets.
const EARLY: usize = row_words::LAST;

const AHEAD: usize = row_words::ONE;

// §5.6
// What an event makes of the row, where it lies.
pub fn apply(row: &mut [[u64; SIZE]; 2], stream: u64, t: u64, number: u64)
    ensures { Applies first_three_saved decide_order row.old stream t number row.new }
{
    row_words::save_undo_first_three(row);
    row_words::stay(row, number);
    let early = row[1][EARLY];
    let ahead = row[1][AHEAD];
    if stream == row[1][row_words::FIRST] {
        if early == 0 {
            wait_for_target(&mut row[1], ahead.saturating_add(1));
            return;
        }
        store(&mut row[1], 0, ahead);
        return;
    }
    if ahead == 0 {
        store(&mut row[1], t.saturating_add(1), ahead);
        return;
    }
    store(&mut row[1], early, ahead - 1);
}

// Sources are beyond, and no target is.
fn wait_for_target(w: &mut [u64; SIZE], ahead: u64)
    ensures { NumbersBecome
        (λ state past. going_on state (ring_of [] state.head state.len) (with_ahead state.registers ahead) no_limit false)
        (λ state past. past) w.old w.new }
{
    row_words::settle(w, NO_LIMIT, 0);
    w[AHEAD] = ahead;
}

// These are beyond: a target beyond needs its source at once, and the row is kept where nothing is beyond.
fn store(w: &mut [u64; SIZE], early: u64, ahead: u64)
    ensures { NumbersBecome (λ state past. stored state early ahead) (λ state past. past) w.old w.new }
{
    w[EARLY] = early;
    w[AHEAD] = ahead;
    if early == 0 {
        row_words::settle(w, NO_LIMIT, u64::from(ahead == 0));
        return;
    }
    row_words::settle(w, early - 1, 0);
}
