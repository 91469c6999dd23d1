// A row where it lies, in two arrays of 64 words: the ring of its times, and its numbers. What every row type does to them.
// The numbers stay words of an array, and are no struct with fields, as the C interface lends them so (row_as_words, number_words).
ghost use Rattle.std.specs.Prelude.{◌≡◌, ◌<◌, ◌+◌, cond, [], eqb, get_or, set};
ghost use Rattle.row_type.specs.declared.Parameters.{Parameters};
ghost use Rattle.row_type.specs.declared.Registers.{Registers};
ghost use Rattle.row_type.specs.Words.{parameters_at, registers_at, broken_at, settled, last_saved, first_three_saved, counts_saved};
ghost use Rattle.row_type.specs.Words.{NumbersBecome, numbers_saved, SavesUndoRegisters, SavesUndo, SavesUndoAll, BreaksRow, Edits};
ghost use Rattle.row_type.specs.Words.{MakesWaiting, live_of, times_in, with_ring};
ghost use Rattle.ring.specs.Ring.{ring_of, times_of};
ghost use Rattle.ring.specs.declared.Edit.TheVariants.{Drop, Push, PushTwo, Store};

use crate::parts::due_after;
use crate::{Parameters, Registers};
use constraint::NO_LIMIT;
use ring::{SIZE, Times, head_after, place_of, push, put_pair, second_at, time_at};

// The constraint's numbers.
pub const TYPE_TAG: usize = 0;

pub const FIRST: usize = 1;

pub const SECOND: usize = 2;

pub const THIRD: usize = 3;

pub const FOURTH: usize = 4;

pub const SPAN: usize = 5;

pub const LOWER: usize = 6;

pub const UPPER: usize = 7;

pub const JITTER: usize = 8;

pub const MINIMUM: usize = 9;

// What the row keeps.
pub const LAST: usize = 10;

pub const ONE: usize = 11;

pub const TWO: usize = 12;

pub const THREE: usize = 13;

pub const FOUR: usize = 14;

pub const HEAD: usize = 15;

pub const LEN: usize = 16;

pub const DUE: usize = 17;

pub const KEPT: usize = 18;

pub const BROKEN: usize = 19;

// The same before the row's last step, and what that step overwrote.
pub const UNDO_LAST: usize = 20;

pub const UNDO_ONE: usize = 21;

pub const UNDO_TWO: usize = 22;

pub const UNDO_THREE: usize = 23;

pub const UNDO_FOUR: usize = 24;

pub const UNDO_HEAD: usize = 25;

pub const UNDO_LEN: usize = 26;

pub const UNDO_DUE: usize = 27;

pub const UNDO_KEPT: usize = 28;

pub const UNDO_BROKEN: usize = 29;

pub const UNDO_PLACE: usize = 30;

pub const UNDO_WORD_0: usize = 31;

pub const UNDO_WORD_1: usize = 32;

pub const UNDO_STEP: usize = 33;

// The fifth kind of the constraint.
pub const FIFTH: usize = 34;

// What an event dispatches on: the row's type, or 31 once the row is broken.
pub const LIVE: usize = 35;

// The constraint's numbers as a rule.
pub fn parameters_at(w: &[u64; SIZE]) -> Parameters
    ensures { result ≡ parameters_at w.now }
{
    Parameters {
        tag: w[TYPE_TAG],
        first: w[FIRST],
        second: w[SECOND],
        third: w[THIRD],
        fourth: w[FOURTH],
        fifth: w[FIFTH],
        span: w[SPAN],
        lower: w[LOWER],
        upper: w[UPPER],
        jitter: w[JITTER],
        minimum: w[MINIMUM],
    }
}

// The marks.
pub fn registers_at(w: &[u64; SIZE]) -> Registers
    ensures { result ≡ registers_at w.now }
{
    Registers {
        last: w[LAST],
        first: w[ONE],
        second: w[TWO],
        third: w[THREE],
        fourth: w[FOUR],
    }
}

// The times that a row keeps.
#[inline]
pub fn times(row: &[[u64; SIZE]; 2]) -> Times<'_>
    ensures times { times_of result ≡ times_in row.now }
    ensures words { result.words.now ≡ get_or row.now 0 [] }
    ensures head { result.head ≡ get_or (get_or row.now 1 []) 15 0 }
    ensures len { result.len ≡ get_or (get_or row.now 1 []) 16 0 }
{
    Times {
        words: &row[0],
        head: row[1][HEAD] as usize,
        len: row[1][LEN] as usize,
    }
}

// Each number of the past stands as many words behind the number itself.
const PAST: usize = UNDO_LAST - LAST;

// A number is kept as the row's past. Callers name each number, since a loop over them would stay one in code that is compiled for size.
#[inline(always)]
fn save_word(w: &mut [u64; SIZE], i: usize)
    requires { i < 54 }
    ensures { w.new ≡ set w.old (i + 10) (get_or w.old i 0) }
{
    w[i + PAST] = w[i];
}

// The ring's ends, the due time and the verdict at the close are kept as the row's past, before the step of that number, which overwrites words at a
// place.
fn save_undo_numbers(w: &mut [u64; SIZE], place: usize, number: u64)
    ensures { NumbersBecome (λ state past. state) (numbers_saved place number) w.old w.new }
{
    save_word(w, HEAD);
    save_word(w, LEN);
    save_word(w, DUE);
    save_word(w, KEPT);
    w[UNDO_PLACE] = place as u64;
    w[UNDO_STEP] = number;
}

// The last time is kept.
pub fn save_undo_last(row: &mut [[u64; SIZE]; 2])
    ensures { SavesUndoRegisters last_saved row.old row.new }
{
    save_word(&mut row[1], LAST);
}

// The first three marks are.
pub fn save_undo_first_three(row: &mut [[u64; SIZE]; 2])
    ensures { SavesUndoRegisters first_three_saved row.old row.new }
{
    save_word(&mut row[1], LAST);
    save_word(&mut row[1], ONE);
    save_word(&mut row[1], TWO);
}

// The four counts are.
pub fn save_undo_counts(row: &mut [[u64; SIZE]; 2])
    ensures { SavesUndoRegisters counts_saved row.old row.new }
{
    save_word(&mut row[1], ONE);
    save_word(&mut row[1], TWO);
    save_word(&mut row[1], THREE);
    save_word(&mut row[1], FOUR);
}

// Returns what an event of a row dispatches on: its type, or 30 for a larger number, and 31 once it is broken.
// This is no enum, as it is a word of the lent memory (live_of in number_words).
pub fn live_of(tag: u64, broken: u64) -> u64
    ensures { result ≡ live_of tag broken }
{
    if broken == 0 { tag.min(30) } else { 31 }
}

// Why a row is broken, where an event breaks it. It is a number, as it is a word of the lent memory (broken_at).
pub const BY_EVENT: u64 = 2;

// A row's state is that of one that an event at t breaks, by the step of that number. Cause and moment take two words that a broken row does not use.
fn break_numbers(w: &mut [u64; SIZE], t: u64, number: u64)
    ensures { NumbersBecome (λ state past. broken_at t number) (λ state past. past) w.old w.new }
{
    w[LAST] = 0;
    w[ONE] = 0;
    w[TWO] = 0;
    w[THREE] = 0;
    w[FOUR] = 0;
    w[HEAD] = BY_EVENT;
    w[LEN] = 0;
    w[DUE] = NO_LIMIT;
    w[KEPT] = t;
    w[BROKEN] = number;
    w[LIVE] = live_of(w[TYPE_TAG], number);
}

// What the row is but for its marks becomes its past, before the step of that number, which overwrites words at a place.
fn save_undo(row: &mut [[u64; SIZE]; 2], place: usize, number: u64)
    ensures { SavesUndo row.old place number row.new }
{
    save_undo_numbers(&mut row[1], place, number);
    row[1][UNDO_WORD_0] = time_at(&row[0], place, 0);
    row[1][UNDO_WORD_1] = second_at(&row[0], place);
}

// All that the row is becomes its past, before the step of that number, which overwrites nothing.
pub fn save_undo_all(row: &mut [[u64; SIZE]; 2], number: u64)
    ensures { SavesUndoAll row.old number row.new }
{
    save_undo_last(row);
    save_undo_counts(row);
    save_word(&mut row[1], BROKEN);
    save_undo(row, 0, number);
}

// An event at t breaks the row, by the step of that number, which overwrites nothing.
pub fn break_at(row: &mut [[u64; SIZE]; 2], t: u64, number: u64)
    ensures { BreaksRow row.old t number row.new }
{
    save_undo_all(row, number);
    break_numbers(&mut row[1], t, number);
}

// The ring stays as it is, before the step of that number.
pub fn stay(row: &mut [[u64; SIZE]; 2], number: u64)
    ensures { Edits row.old (Drop 0) number row.new }
{
    save_undo(row, 0, number);
}

// So they do, and a word goes behind the rest.
fn push_one(row: &mut [[u64; SIZE]; 2], dropped: usize, word: u64, number: u64)
    ensures { Edits row.old (Push dropped word) number row.new }
{
    let head = head_after(row[1][HEAD] as usize, dropped);
    let len = (row[1][LEN] as usize).saturating_sub(dropped);
    save_undo(row, place_of(head, len), number);
    let more = push(&mut row[0], head, len, word);
    row[1][LEN] = more as u64;
    if 0 < dropped {
        row[1][HEAD] = head as u64;
    }
}

// So they do, and two words go behind the rest. It stands beside push_one, as a loop over one word or two is no plainer.
pub fn push_two(row: &mut [[u64; SIZE]; 2], dropped: usize, first: u64, second: u64, number: u64)
    ensures { Edits row.old (PushTwo dropped first second) number row.new }
{
    let head = head_after(row[1][HEAD] as usize, dropped);
    let len = (row[1][LEN] as usize).saturating_sub(dropped);
    save_undo(row, SIZE + place_of(head, len), number);
    let more = push(&mut row[0], head, len, first);
    let both = push(&mut row[0], head, more, second);
    row[1][HEAD] = head as u64;
    row[1][LEN] = both as u64;
}

// None leaves: two words are put at a place of their own and the next.
pub fn put_two(row: &mut [[u64; SIZE]; 2], place: usize, first: u64, second: u64, number: u64)
    ensures { Edits row.old (Store place first second) number row.new }
{
    let head = row[1][HEAD] as usize;
    let len = row[1][LEN] as usize;
    save_undo(row, SIZE + place_of(head, place), number);
    put_pair(&mut row[0], head, len, place, first, second);
}

// The oldest two leave a ring of at least two, and two words take their places.
pub fn two_for_oldest(row: &mut [[u64; SIZE]; 2], first: u64, second: u64, number: u64)
    ensures { Edits row.old (PushTwo 2 first second) number row.new }
{
    let head = row[1][HEAD] as usize;
    let len = row[1][LEN] as usize;
    if 2 <= len && len <= SIZE {
        let at = place_of(head, len);
        let after = place_of(at, 1);
        save_undo(row, SIZE + at, number);
        row[0][at] = first;
        row[0][after] = second;
        row[1][HEAD] = place_of(head, 2) as u64;
        return;
    }
    push_two(row, 2, first, second, number);
}

// The ring begins at another place, if some of its times leave.
fn move_head(w: &mut [u64; SIZE], dropped: usize, next: usize)
    ensures { NumbersBecome (λ state past. with_ring state (ring_of [] (cond (eqb dropped 0) state.head next) state.len))
        (λ state past. past) w.old w.new }
{
    if 0 < dropped {
        w[HEAD] = next as u64;
    }
}

// The times of the row wait: the oldest leave by the step of that number, and the oldest that is left gives the due time.
pub fn fewer_wait(row: &mut [[u64; SIZE]; 2], dropped: usize, number: u64)
    ensures { MakesWaiting row.old (Drop dropped) number row.new }
{
    let head = row[1][HEAD] as usize;
    let len = row[1][LEN] as usize;
    let next = place_of(head, dropped);
    stay(row, number);
    move_head(&mut row[1], dropped, next);
    if len <= dropped {
        row[1][DUE] = NO_LIMIT;
        row[1][KEPT] = 1;
        row[1][LEN] = 0;
        return;
    }
    row[1][LEN] = (len - dropped) as u64;
    row[1][DUE] = row[0][next].saturating_add(row[1][UPPER]);
    row[1][KEPT] = 0;
}

// So they do, and t waits too.
pub fn one_more_waits(row: &mut [[u64; SIZE]; 2], dropped: usize, t: u64, number: u64)
    ensures { MakesWaiting row.old (Push dropped t) number row.new }
{
    let upper = row[1][UPPER];
    let due = due_after(upper, times(row), dropped, t.saturating_add(upper));
    push_one(row, dropped, t, number);
    row[1][DUE] = due;
    row[1][KEPT] = 0;
}

// The oldest leaves a ring that is not empty, and t takes its place.
pub fn newest_for_oldest(row: &mut [[u64; SIZE]; 2], t: u64, number: u64)
    ensures { MakesWaiting row.old (Push 1 t) number row.new }
{
    let head = row[1][HEAD] as usize;
    let len = row[1][LEN] as usize;
    let upper = row[1][UPPER];
    if 0 < len && len <= SIZE {
        let at = place_of(head, len);
        let due = due_after(upper, times(row), 1, t.saturating_add(upper));
        save_undo(row, at, number);
        row[0][at] = t;
        row[1][DUE] = due;
        row[1][KEPT] = 0;
        row[1][HEAD] = place_of(head, 1) as u64;
        return;
    }
    one_more_waits(row, 1, t, number);
}

// A row's state is that of one that goes on with its marks and its ring: its due time, and 1 where it is kept if the recording is closed now.
pub fn settle(w: &mut [u64; SIZE], due: u64, kept: u64)
    ensures { NumbersBecome (λ state past. settled state due kept) (λ state past. past) w.old w.new }
{
    w[DUE] = due;
    w[KEPT] = kept;
}
