// Sporadic: no times are kept; the last hidden point can be at each place from first to second, and last is one more
// than the last event's time.
// A mark is 0 where there is none: it is a word of memory that C lends, and `Registers` of specs/ reads it so.
ghost use Rattle.std.specs.Prelude.{◌≡◌, cond, eqb, min};
ghost use Rattle.constraint.specs.Limits.{no_limit};
ghost use Rattle.row_type.specs.Parts.{plus};
ghost use Rattle.row_type.specs.Words.{first_three_saved, MakesAt, Applies};
ghost use Rattle.hidden_points.specs.Sporadic.{point_at, stride, decide_sporadic};

use ring::SIZE;
use row_type::{parts, row_words};

// Where the last hidden point can be: from a low to a high.
const LOW: usize = row_words::ONE;

const HIGH: usize = row_words::TWO;

// §5.4
// What an event makes of the row, where it lies.
pub fn apply(row: &mut [[u64; SIZE]; 2], stream: u64, t: u64, number: u64)
    ensures { Applies first_three_saved decide_sporadic row.old stream t number row.new }
{
    let upper = row[1][row_words::UPPER];
    let near = t.saturating_sub(row[1][row_words::JITTER]);
    let last = row[1][row_words::LAST];
    if last == 0 {
        place(row, t, near, t, number);
        return;
    }
    let stride = stride(row[1][row_words::LOWER]);
    if stride <= upper && parts::far_enough(row[1][row_words::MINIMUM], last, t) {
        let low = row[1][LOW].saturating_add(stride).max(near);
        let high = latest(upper, row[1][HIGH], t);
        if low <= high {
            place(row, t, low, high, number);
            return;
        }
    }
    row_words::break_at(row, t, number);
}

// The row goes on with an event at t, whose point can be at each place from low to high.
fn place(row: &mut [[u64; SIZE]; 2], t: u64, low: u64, high: u64, number: u64)
    ensures { MakesAt first_three_saved row.old (λ parameters registers times. point_at parameters registers t low high) t number
        row.new }
{
    let due = high
        .saturating_add(row[1][row_words::UPPER])
        .saturating_add(row[1][row_words::JITTER]);
    row_words::save_undo_first_three(row);
    row_words::stay(row, number);
    row[1][row_words::LAST] = t.saturating_add(1);
    row[1][LOW] = low;
    row[1][HIGH] = high;
    row_words::settle(&mut row[1], due, 1);
}

// The last place where the point of an event at t can be, the one before it being at high or earlier.
fn latest(upper: u64, high: u64, t: u64) -> u64
    ensures { result ≡ cond (eqb upper no_limit) t (min (plus high upper) t) }
{
    high.saturating_add(upper).min(t)
}

// How far the next point is from the last at least.
fn stride(lower: u64) -> u64
    ensures { result ≡ stride lower }
{
    lower.max(1)
}
