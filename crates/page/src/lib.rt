// The printed page: one line for each row, written line by line to the caller's buffer.
#![tactic(auto)]

ghost use Rattle.std.specs.Prelude.{◌≡◌, ◌≤◌, ◌<◌, min, length, take, unwrap_or, SomeIff};
ghost use Rattle.std.proofs.lemmas.List.Edits.{sets};
ghost use Rattle.constraint.specs.Limits.{row_limit};
ghost use Rattle.constraint.specs.Page.{left_in, right_in, name_of, verdict_word, step_text, page_line, page_lines};
ghost use Rattle.page.specs.ReadBack.{page_length};
ghost use Rattle.text.specs.Content.{Copied};
ghost use Rattle.page.specs.Sheet.{verdict_said, types_of, verdicts_of, text_of, Headed};

use constraint::Verdict;

// How many rows a page has at most.
const ROW_LIMIT: usize = constraint::ROW_LIMIT;
// The bytes of a line, its end counted.
const LINE: usize = 73;
// The rows that stand under one heading.
const GROUP: usize = 16;
// The line that heads each group of rows.
const HYPHENS: [u8; 73] =
    *b"------------------------------------------------------------------------\n";
// The names of the types by their numbers, left-aligned in 24. 0 is not a type.
const NAMES: [[u8; 24]; 18] = [
    *b"Unknown                 ",
    *b"Delay                   ",
    *b"StrongDelay             ",
    *b"Repeat                  ",
    *b"Sporadic                ",
    *b"Burst                   ",
    *b"Order                   ",
    *b"StrongSynchronization   ",
    *b"ExecutionTime           ",
    *b"Reaction                ",
    *b"Repetition              ",
    *b"Synchronization         ",
    *b"Age                     ",
    *b"OutputSynchronization   ",
    *b"InputSynchronization    ",
    *b"Pattern                 ",
    *b"Arbitrary               ",
    *b"Comparison              ",
];

// What a page and a report say of a row.
#[derive(Clone, Copy)]
pub struct RowSummary {
    // the number of its type
    pub tag: u64,
    // the step that broke it; 0: none did. No Option: it is the word of the lent memory, in which 0 is none (broken_at)
    pub broken: u64,
}

// What a page and a report say of a monitor.
#[derive(Drop)]
pub struct Summary {
    // its rows, and what stands behind them
    pub rows: [RowSummary; 32],
    // the number of rows
    pub len: usize,
    // the steps taken, the close included
    pub count: u64,
    pub closed: bool,
}

// The name of a type, left-aligned in 24; that of 0 stands for every number that is no type's, which no table has.
fn name(tag: u64) -> [u8; 24]
    ensures { result ≡ left_in 24 (name_of tag) }
{
    *NAMES.get(tag as usize).unwrap_or(&NAMES[0])
}

// A verdict's word, left-aligned in 8.
fn word(verdict: Verdict) -> [u8; 8]
    ensures { result ≡ left_in 8 (verdict_word verdict) }
{
    match verdict {
        Verdict::Open => *b"open    ",
        Verdict::Kept => *b"kept    ",
        Verdict::Broken(_) => *b"broken  ",
    }
}

// A verdict's step, right-aligned in 20: blank unless it is broken.
fn step(verdict: Verdict) -> [u8; 20]
    ensures { result ≡ right_in 20 (step_text verdict) }
{
    match verdict {
        Verdict::Open | Verdict::Kept => [b' '; 20],
        Verdict::Broken(step) => text::digits_of(step).bytes,
    }
}

// Returns the length in bytes of the page of `rows` rows.
fn size(rows: usize) -> usize
    requires { rows ≤ row_limit }
    ensures { result ≡ page_length rows }
{
    LINE * (rows + rows.div_ceil(GROUP).max(1))
}

// §7.16
// Puts a row's line at a place of a buffer, column by column.
// Stays by hand: `write!` promises its text on Ok alone, and this clause, which `Pages` of Page.antt needs, holds always.
fn put_line(buffer: &mut [u8], place: usize, row: usize, tag: u64, verdict: Verdict)
    requires { (place ≤ 4096) × (row < row_limit) }
    ensures { buffer.new ≡ sets buffer.old place (page_line row tag verdict) }
{
    let digits = text::digits_of(row as u64);
    let bytes = digits.bytes;
    big_endian::put(buffer, place, &bytes[17..]);
    big_endian::put(buffer, place + 3, b"  ");
    big_endian::put(buffer, place + 5, &name(tag));
    big_endian::put(buffer, place + 29, &word(verdict));
    big_endian::put(buffer, place + 37, &step(verdict));
    big_endian::put(buffer, place + 57, b"               \n");
}

// §7.17
// Puts the heading of a row, if it has one, at a place of a buffer, and answers the place behind it.
fn put_heading(buffer: &mut [u8], place: usize, row: usize) -> usize
    requires { place ≤ 4096 }
    ensures { Headed buffer.old place row result buffer.new }
{
    if row % GROUP != 0 {
        return place;
    }
    big_endian::put(buffer, place, &HYPHENS);
    place + LINE
}

// Puts the lines of rows, one after the other, to the front of a buffer.
fn put_rows(buffer: &mut [u8], rows: &[RowSummary], closed: bool)
    requires { length rows.now ≤ row_limit }
    ensures { buffer.new ≡ sets buffer.old 0
        (page_lines (types_of rows.now) (verdicts_of closed rows.now) (length rows.now)) }
{
    let mut place = 0;
    for (i, row) in rows.iter().enumerate() {
        let behind = put_heading(buffer, place, i);
        put_line(buffer, behind, i, row.tag, row.verdict(closed));
        place = behind + LINE;
    }
}

impl RowSummary {
    // The verdict of the row, closed or not.
    pub fn verdict(self, closed: bool) -> Verdict
        ensures { result ≡ verdict_said closed self }
    {
        if 0 < self.broken {
            return Verdict::Broken(self.broken);
        }
        if closed { Verdict::Kept } else { Verdict::Open }
    }
}

impl Summary {
    // The rows of which something is said: no more than 32.
    pub fn rows(&self) -> &[RowSummary]
        ensures { result.now ≡ take (min self.now.len row_limit) self.now.rows }
    {
        &self.rows[..self.len.min(ROW_LIMIT)]
    }

    // §7.15
    // Writes the page to the front of a buffer and answers its length; where the buffer is too short, answers none and leaves it as it was.
    pub fn write(&self, buffer: &mut [u8]) -> Option<usize>
        ensures copied { Copied (text_of self.now) buffer.old (unwrap_or result 0) buffer.new }
        ensures fits { SomeIff result (length (text_of self.now) ≤ length buffer.old) (length (text_of self.now)) }
    {
        let rows = self.rows();
        let size = size(rows.len());
        if buffer.len() < size {
            return None;
        }
        if rows.is_empty() {
            big_endian::put(buffer, 0, &HYPHENS);
            return Some(size);
        }
        put_rows(buffer, rows, self.closed);
        Some(size)
    }
}
