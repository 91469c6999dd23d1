// The monitor in memory that the host lends: 35 blocks of two arrays of 64 words. Every call changes these words in place.
// The C interface needs plain words, so a number has an index here and is no field of a struct; `words_of_lent` says what lies where.
#![tactic(auto)]

ghost use Rattle.std.specs.Prelude.{◌≤◌, ◌≡◌, ltb};
ghost use Rattle.in_place.specs.Layout.{Lent, words_of_lent, Shaped, held_rows};

pub mod calls;
mod numbers;
mod rows;

// The words of a monitor: a block for each of 32 rows, one for the numbers and the rows of each kind, one that is spare, and one for free times.
pub type Words = [[[u64; 64]; 2]; 35];

// The block of the monitor's own numbers, and the index of each in its first array.
pub const NUMBERS: usize = 32;

pub const CLOCK: usize = 0;

pub const COUNT: usize = 1;

pub const OPEN: usize = 2;

pub const ROWS: usize = 3;

pub const SOONEST: usize = 4;

pub const UNDO_ALLOWED: usize = 5;

pub const UNDO_STREAM: usize = 6;

pub const UNDO_NEXT: usize = 7;

pub const UNDO_CLOCK: usize = 8;

pub const UNDO_COUNT: usize = 9;

pub const UNDO_CLOSED: usize = 10;

pub const FULL: usize = 11;
// The first free times of the plain kinds follow them.
pub const PLAIN: usize = 16;
// The first free times of the coloured streams.
pub const COLOURED: usize = 34;

// The set of all rows.
pub const ALL_ROWS: u64 = 4294967295;

// Returns the number of rows, at most 32 for any contents.
pub fn held(m: &Words) -> usize
    ensures { (result ≤ 32) × ((h : Lent) → m.now ≡ words_of_lent h → Shaped h → result ≡ held_rows h.monitor) }
{
    m[NUMBERS][0][ROWS].min(32) as usize
}

// Returns whether the recording is closed.
pub fn closed(m: &Words) -> bool
    ensures { (h : Lent) → m.now ≡ words_of_lent h → Shaped h → result ≡ ltb 0 h.monitor.closed }
{
    m[NUMBERS][0][OPEN] == 0
}
