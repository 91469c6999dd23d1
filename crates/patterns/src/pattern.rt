// Pattern: the words are the offsets and stay. The next event's number in its group, the least and the largest place of the newest group's point, and
// one more than the last event's time are the four counts.
// A mark is 0 where there is none: it is a word of memory that C lends, and `Registers` of specs/ reads it so.
ghost use Rattle.std.specs.Prelude.{◌≡◌, true, ◌&&◌, ◌||◌, ltb};
ghost use Rattle.constraint.specs.Steps.{at};
ghost use Rattle.ring.specs.declared.Edit.TheVariants.{Drop};
ghost use Rattle.row_type.specs.Parts.{continues_with, far_enough};
ghost use Rattle.row_type.specs.Words.{counts_saved, Makes, MakesAt, Applies};
ghost use Rattle.patterns.specs.Pattern.{number_after, step_to, placed_in, decide_in_words};

use ring::SIZE;
use row_type::{parts, row_words};

const NUMBER: usize = row_words::ONE;

const LOW: usize = row_words::TWO;

const HIGH: usize = row_words::THREE;

const LAST: usize = row_words::FOUR;

// The number behind i in a group of n.
fn number_after(n: u64, i: u64) -> u64
    ensures { result ≡ number_after n i }
{
    let next = i.saturating_add(1);
    if next == n { 0 } else { next }
}

// How much later the point of an event of number i is than that of the event before it.
fn step_to(period: u64, i: u64) -> u64
    ensures { result ≡ step_to period i }
{
    if i == 0 { period } else { 0 }
}

// Whether an event of number i may stand behind another at t: far enough from it, and in a second group only with a period.
fn may_follow(minimum: u64, last: u64, t: u64, i: u64, period: u64) -> bool
    ensures { result ≡ (far_enough minimum last t && (ltb 0 i || ltb 0 period)) }
{
    parts::far_enough(minimum, last, t) && (0 < i || 0 < period)
}

// The row goes on with these counts and this due time.
fn go_on(row: &mut [[u64; SIZE]; 2], next: u64, low: u64, high: u64, t: u64, due: u64, number: u64)
    ensures { Makes counts_saved row.old
        (λ parameters registers words. continues_with (Drop 0)
        (record { last = registers.last; first = next; second = low; third = high; fourth = t }) due true) number row.new }
{
    row_words::save_undo_counts(row);
    row_words::stay(row, number);
    row[1][NUMBER] = next;
    row[1][LOW] = low;
    row[1][HIGH] = high;
    row[1][LAST] = t;
    row_words::settle(&mut row[1], due, 1);
}

// The row goes on with an event at t whose point can be at each place from low to high, where there is such a place and the event after it is not
// overdue.
fn place(row: &mut [[u64; SIZE]; 2], t: u64, low: u64, high: u64, number: u64)
    ensures { MakesAt counts_saved row.old
        (λ parameters registers words. placed_in parameters.span parameters.upper parameters.jitter parameters.minimum (at words) registers
        t registers.first low high) t number row.new }
{
    let times = row_words::times(row);
    let i = row[1][NUMBER];
    let offset = times.word(i as usize);
    let next = number_after(row[1][row_words::SPAN], i);
    let step = step_to(row[1][row_words::UPPER], next);
    let after = times.word(next as usize);
    let due = high
        .saturating_add(step)
        .saturating_add(after)
        .saturating_add(row[1][row_words::JITTER]);
    if offset <= t && low <= high && t <= due {
        go_on(row, next, low, high, t.saturating_add(1), due, number);
        return;
    }
    row_words::break_at(row, t, number);
}

// What an event makes of the row, where it lies.
pub fn apply(row: &mut [[u64; SIZE]; 2], stream: u64, t: u64, number: u64)
    ensures { Applies counts_saved decide_in_words row.old stream t number row.new }
{
    let times = row_words::times(row);
    let i = row[1][NUMBER];
    let offset = times.word(i as usize);
    let near = t.saturating_sub(offset.saturating_add(row[1][row_words::JITTER]));
    let far = t.saturating_sub(offset);
    let last = row[1][LAST];
    if last == 0 {
        place(row, t, near, far, number);
        return;
    }
    let period = row[1][row_words::UPPER];
    let step = step_to(period, i);
    let low = row[1][LOW].saturating_add(step).max(near);
    let high = row[1][HIGH].saturating_add(step).min(far);
    if may_follow(row[1][row_words::MINIMUM], last, t, i, period) {
        place(row, t, low, high, number);
        return;
    }
    row_words::break_at(row, t, number);
}
