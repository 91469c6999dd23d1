// Repeat and Burst: the times are those of the last span events, or of all while they are fewer; last is one more than
// the last event's time. A Repeat has minimum 0, a Burst no upper.
// A mark is 0 where there is none: it is a word of memory that C lends, and `Registers` of specs/ reads it so.
ghost use Rattle.std.specs.Prelude.{ℕ, List, ◌≡◌, length};
ghost use Rattle.ring.specs.Ring.{ring};
ghost use Rattle.ring.specs.declared.Edit.TheVariants.{Push};
ghost use Rattle.row_type.specs.Parts.{waits};
ghost use Rattle.row_type.specs.Words.{UndoRecord, asked_of, none_saved, last_saved, row_as_words, Makes, Applies};
ghost use Rattle.row_type.specs.declared.Parameters.{Parameters};
ghost use Rattle.row_type.specs.declared.State.{State};
ghost use Rattle.repeat_burst.specs.Repeat.{overflows_repeat, span_reached, leaving, decide_repeat};

use ring::SIZE;
use row_type::{parts, row_words};

// §5.3, §5.5
// What an event makes of the row, where it lies.
pub fn apply(row: &mut [[u64; SIZE]; 2], stream: u64, t: u64, number: u64)
    ensures { Applies last_saved decide_repeat row.old stream t number row.new }
{
    if parts::far_enough(row[1][row_words::MINIMUM], row[1][row_words::LAST], t)
        && span_reached(row, t)
    {
        row_words::save_undo_last(row);
        push_time(row, t, number);
        row[1][row_words::LAST] = t.saturating_add(1);
        row[1][row_words::KEPT] = 1;
        return;
    }
    row_words::break_at(row, t, number);
}

// Whether t is at least lower after the event span places before it, if there is one.
fn span_reached(row: &[[u64; SIZE]; 2], t: u64) -> bool
    ensures { (parameters : Parameters) (times : List ℕ) (state : State) (past : UndoRecord)
        → row.now ≡ row_as_words parameters times state past → result ≡ span_reached parameters (ring times state.head state.len) t }
{
    let times = row_words::times(row);
    if (times.len as u64) < row[1][row_words::SPAN] {
        return true;
    }
    parts::reaches(times.front(), row[1][row_words::LOWER], t)
}

// The time t joins the times; the oldest leaves if there are span of them.
#[tactic(auto, using(ring::proofs::Laws::ring_length), unfolding(row_type::specs::Words::row_as_words, row_type::specs::Words::number_words))]
fn push_time(row: &mut [[u64; SIZE]; 2], t: u64, number: u64)
    ensures { Makes none_saved row.old
        (λ parameters registers times. waits parameters.upper times (Push (leaving parameters (length times)) t) registers) number
        row.new }
{
    if row[1][row_words::LEN] < row[1][row_words::SPAN] {
        row_words::one_more_waits(row, 0, t, number);
        return;
    }
    row_words::newest_for_oldest(row, t, number);
}

// Whether an event lets one more be kept, where there is no room.
#[tactic(auto, unfolding(crate::specs::Repeat::overflows_repeat))]
pub fn overflows(w: &[u64; SIZE], stream: u64, t: u64) -> bool
    ensures { result ≡ asked_of overflows_repeat w.now stream t }
{
    w[row_words::LEN] < w[row_words::SPAN]
        && w[row_words::LEN] >= SIZE as u64
        && parts::far_enough(w[row_words::MINIMUM], w[row_words::LAST], t)
}
