// A row as data: the types as constant lists, and a row read, asked and written by loops over its fields.
#![tactic(auto)]

pub mod fields;
pub mod types;

ghost use Rattle.std.specs.Prelude.{◌≡◌, ◌+◌, ◌≤◌, length, []};
ghost use Rattle.std.proofs.lemmas.List.Edits.{sets};
ghost use Rattle.table_row.specs.Records.{Loads, values_at, row_from, row_in, row_read};
ghost use Rattle.constraint.specs.Accepted.{row_questions_in, rows_questions};
ghost use Rattle.table_row.specs.Tables.{rows_of, Adds};
ghost use Rattle.constraint.specs.Table.{row_body, row_bytes, ShapeFits};
ghost use Rattle.constraint.specs.Types.{Known};
ghost use Rattle.constraint.specs.Answers.{answer_of};
ghost use Rattle.constraint.specs.Questions.{Judged};
ghost use Rattle.constraint.specs.Records.{Decides, filler};

use constraint::Refusal;
use fields::{Fields, MOST_FIELDS};

// The type of the row of an empty entry.
pub const FILLER_TAG: u8 = 6;

// A row of a table: its type, and the values of its fields, each in the place that its type has for it; every other place holds 0. The type stays
// the byte of the format, and no enum: a row of any byte is held, and asked (§8.4).
#[derive(Clone, Copy)]
pub struct TableRow {
    pub tag: u8,
    pub values: [u64; MOST_FIELDS],
}

// Stores the values of the fields of these roles in a body, from its second byte on: past its end, of the bytes that are there.
pub fn fill(values: &mut [u64; MOST_FIELDS], body: &[u8], roles: &[u8; MOST_FIELDS])
    ensures { values.new ≡ sets values.old 0 (values_at roles.now body.now 1) }
{
    let mut place = 1;
    for i in 0..MOST_FIELDS {
        let width = fields::width_of(roles[i]);
        values[i] = big_endian::number_at(body, place, width);
        place += width;
    }
}

// Stores the values of the row that a body is read as, and returns its type.
pub fn load(values: &mut [u64; MOST_FIELDS], body: &[u8]) -> u8
    ensures { Loads body.now values.old result values.new }
{
    let tag = big_endian::byte_at(body, 0);
    let n = big_endian::byte_at(body, 1);
    let roles = types::roles_of(tag, u64::from(n));
    fill(values, body, &roles);
    tag
}

// Question 4, of a row: is the type one of the edition, n in range, the length right?
pub fn shape_fits(edition: u8, body: &[u8]) -> bool
    ensures { Decides (ShapeFits edition body.now) result }
{
    let tag = big_endian::byte_at(body, 0);
    let n = big_endian::byte_at(body, 1);
    if !types::type_known(edition, tag, u64::from(n)) {
        return false;
    }
    body.len() == types::length_of(tag, n)
}

// The answer to questions 4, without the length, 5, 18, 6 and 7, of a row of a type with these values, in an edition.
pub fn validate_values(edition: u8, tag: u8, values: &[u64; MOST_FIELDS]) -> Result<(), Refusal>
    ensures { Judged (row_questions_in edition (row_read tag values.now)) (answer_of result) }
{
    let n = values[0];
    if !types::type_known(edition, tag, n) {
        return Err(Refusal::RowShape);
    }
    let roles = types::roles_of(tag, n);
    let fields = Fields {
        roles: &roles,
        values,
    };
    if !fields.kinds_fit() {
        return Err(Refusal::RowKinds);
    }
    if !fields.kind_classes_valid() {
        return Err(Refusal::RowSort);
    }
    if !fields.ranges_fit() {
        return Err(Refusal::RowRange);
    }
    if !fields.lower_first(n) {
        return Err(Refusal::RowBounds);
    }
    Ok(())
}

impl TableRow {
    // The row that a body is read as: of a body of fitting shape, the one that it stands for (`row_stands`).
    pub fn read(body: &[u8]) -> Self
        ensures { result ≡ row_from body.now }
    {
        let mut values = [0; MOST_FIELDS];
        let tag = load(&mut values, body);
        TableRow { tag, values }
    }

    // The answer to questions 4, without the length, 5, 18, 6 and 7, in an edition. Any record is taken, also one of no type.
    pub fn validate(self, edition: u8) -> Result<(), Refusal>
        ensures { Judged (row_questions_in edition (row_in self)) (answer_of result) }
    {
        validate_values(edition, self.tag, &self.values)
    }

    // The length of the body of a row of a known type.
    pub fn length(self) -> usize
        requires { Known (row_in self) }
        ensures { result ≡ length (row_body (row_in self)) }
    {
        let roles = types::roles_of(self.tag, self.values[0]);
        let fields = Fields {
            roles: &roles,
            values: &self.values,
        };
        1 + fields.size()
    }

    // The row of an empty entry.
    pub fn filler() -> Self
        ensures { row_in result ≡ filler }
    {
        TableRow {
            tag: FILLER_TAG,
            values: [0; MOST_FIELDS],
        }
    }

    // Stores a row of a known type in a buffer from a place on: its length field and its body.
    pub fn put(self, buffer: &mut [u8], place: usize)
        requires { Known (row_in self) × (place + length (row_bytes (row_in self)) ≤ length buffer.old) }
        ensures { buffer.new ≡ sets buffer.old place (row_bytes (row_in self)) }
    {
        let roles = types::roles_of(self.tag, self.values[0]);
        let fields = Fields {
            roles: &roles,
            values: &self.values,
        };
        big_endian::put_two(buffer, place, 1 + fields.size());
        big_endian::put_byte(buffer, place + 2, self.tag);
        fields.put(buffer, place + 3);
    }
}

// The rows of a table: the first `count` of them. The memory is fixed, as the project has no heap. A count above 32 stays a count, and no `Err`: it
// is a table of that many rows (`rows_of`), which question 3 refuses.
#[derive(Clone, Copy)]
pub struct Table {
    pub rows: [TableRow; constraint::ROW_LIMIT],
    pub count: usize,
}

impl Table {
    // The table with no row.
    pub fn new() -> Self
        ensures { rows_of result ≡ [] }
    {
        let row = TableRow {
            tag: 0,
            values: [0; MOST_FIELDS],
        };
        let rows = [row; constraint::ROW_LIMIT];
        Table { rows, count: 0 }
    }

    // The table with one row more. One for which there is no room makes the count 33, so that the table is refused; a count above 32 stays.
    pub fn with_row(mut self, row: TableRow) -> Self
        ensures { Adds self row result }
    {
        if constraint::ROW_LIMIT < self.count {
            return self;
        }
        if self.count < constraint::ROW_LIMIT {
            self.rows[self.count] = row;
        }
        self.count += 1;
        self
    }

    // The answer to questions 3 to 7 and 18, row by row, in an edition. Any record is taken, also one whose count is above 32.
    pub fn validate(self, edition: u8) -> Result<(), Refusal>
        ensures { Judged (rows_questions edition 0 (rows_of self) []) (answer_of result) }
    {
        for i in 0..self.count {
            let row = self.rows.get(i).ok_or(Refusal::TooManyRows)?;
            row.validate(edition)?;
        }
        Ok(())
    }
}
