// Makes a fresh monitor in the words that the host lends. It first validates the table's bytes. If they are accepted it clears all words, and reads
// and stores the rows one by one.
#![tactic(auto)]

ghost use Rattle.std.specs.Prelude.{◌<◌, ◌≤◌, ◌≡◌, cond, length, set, replicate};
ghost use Rattle.in_place.specs.Layout.{no_words};
ghost use Rattle.in_place.specs.Steps.{Updates, Computes};
ghost use Rattle.in_place.specs.Contract.{is_of};
ghost use Rattle.fresh.specs.Fresh.{with_lists, set_from, table_code, BeginsUpTo, HoldsRows, StoresRows, StoresAll, Enlists};

use constraint::RefusedAt;
use in_place::{ALL_ROWS, FULL, NUMBERS, OPEN, ROWS, Words};
use row::{concerns, stored};
use row_type::row_words::parameters_at;
use table::scan;

// Sets every word to 0.
fn clear(blocks: &mut [[[u64; 64]; 2]])
    ensures { blocks.new ≡ replicate (length blocks.old) no_words }
{
    for block in blocks.iter_mut() {
        *block = [[0u64; 64]; 2];
    }
}

// Stores each row of an accepted table in its state before any step. After the last row the reader gives the filler row, which fills the other
// places.
fn put_rows(m: &mut Words, table: &[u8])
    requires { HoldsRows table.now }
    ensures { StoresRows table.now m.old m.new }
{
    let mut values = [0u64; 18];
    let mut place = 1;
    for i in 0..32 {
        let found = scan::load_at(&mut values, table, place);
        stored::begin(&mut m[i], found.tag, &values);
        place = found.next;
    }
}

// Stores every word of a monitor over the n rows of a table, except the sets of rows by kind, which stay 0.
fn begin(m: &mut Words, table: &[u8], n: usize)
    requires { HoldsRows table.now }
    ensures { StoresAll table.now n m.new }
{
    clear(m);
    m[NUMBERS][0][OPEN] = 1;
    m[NUMBERS][0][ROWS] = n as u64;
    m[NUMBERS][0][FULL] = ALL_ROWS;
    put_rows(m, table);
}

// Returns 1 if a kind concerns row i, else 0.
fn digit_of(m: &Words, i: usize, kind: usize) -> u64
    requires { i < 32 }
    ensures { (result ≤ 1) × Computes m.now (λ h. cond (is_of h.monitor kind i) 1 0) result }
{
    u64::from(concerns(parameters_at(&m[i][1]), kind as u64))
}

// Returns the set of those of the first n rows that a kind concerns.
fn set_of(m: &Words, kind: usize, n: usize) -> u64
    requires { n ≤ 32 }
    ensures { Computes m.now (λ h. set_from (is_of h.monitor kind) 0 n) result }
{
    let mut rows = 0;
    for i in (0..n).rev() {
        rows = 2 * rows + digit_of(m, i, kind);
    }
    rows
}

// Stores the set of a kind.
fn put_set(m: &mut Words, kind: usize, rows: u64)
    requires { kind < 64 }
    ensures { Updates m.old (λ h. with_lists h (set h.lists kind rows)) m.new }
{
    m[NUMBERS][1][kind] = rows;
}

// Stores the set of each kind over n rows.
fn enlist(m: &mut Words, n: usize)
    requires { n ≤ 32 }
    ensures { Enlists n m.old m.new }
{
    for kind in 0..64 {
        let rows = set_of(m, kind, n);
        put_set(m, kind, rows);
    }
}

// Makes a lent monitor fresh over the bytes of a table of an edition up to `newest`. After a refusal all words stay as they were.
pub fn fresh(newest: u8, m: &mut Words, table: &[u8]) -> Result<(), RefusedAt>
    ensures { BeginsUpTo newest table.now m.old (table_code result) m.new }
{
    let rows = scan::validate(newest, table)?;
    begin(m, table, rows);
    enlist(m, rows);
    Ok(())
}
