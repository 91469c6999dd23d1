// Adds a row to a table in a lent buffer.
ghost use Rattle.std.specs.Prelude.{◌≡◌, ◌≤◌, [], ◌∷◌, ◌++◌, length};
ghost use Rattle.std.proofs.lemmas.List.Edits.{sets};
ghost use Rattle.constraint.specs.Bytes.{bytes_of};
ghost use Rattle.constraint.specs.Answers.{answer_of};
ghost use Rattle.constraint.specs.Questions.{Judged};
ghost use Rattle.constraint.specs.Steps.{at};
ghost use Rattle.table_row.specs.Records.{row_from, row_in};
ghost use Rattle.table.specs.AddAnswer.{add_answer_of};
ghost use Rattle.table.specs.Appending.{body_questions, edition_with, AddsTo, AddsRow};

use super::scan;
use crate::put_body;
use constraint::{Refusal, RefusedAt};
use table_row::{TableRow, shape_fits, types};

// The answer to questions 3 to 7 and 18 about a body for a row after some rows, in the second edition.
fn validate_body(rows: usize, body: &[u8]) -> Result<(), Refusal>
    ensures { Judged (body_questions rows body.now (row_in (row_from body.now))) (answer_of result) }
{
    if constraint::ROW_LIMIT <= rows {
        return Err(Refusal::TooManyRows);
    }
    if !shape_fits(2, body) {
        return Err(Refusal::RowShape);
    }
    TableRow::read(body).validate(2)
}

// The answer to a body for a row after a table, in a buffer of that size.
fn answer(table: &[u8], body: &[u8], size: usize) -> Result<usize, RefusedAt>
    requires { length table.now ≤ size }
    ensures { AddsTo table.now body.now size (add_answer_of result) }
{
    let rows = scan::validate(2, table)?;
    let place = table.len();
    validate_body(rows, body).map_err(|refusal| RefusedAt { refusal, place })?;
    if size - place < 2 + body.len() {
        return Err(RefusedAt {
            refusal: Refusal::Room,
            place,
        });
    }
    Ok(place + 2 + body.len())
}

// The edition of a table of an edition with a row of a type more.
fn edition_with(edition: u8, tag: u8) -> u8
    ensures { result ≡ edition_with edition tag }
{
    if types::last_type(edition) < tag {
        2
    } else {
        edition
    }
}

// Stores the edition and a row at a place.
fn put_row(buffer: &mut [u8], place: usize, body: &[u8])
    requires { place ≤ length buffer.old }
    ensures { buffer.new
        ≡ sets (sets buffer.old 0 (edition_with (at buffer.old 0) (at body.now 0) ∷ [])) place
        (bytes_of 2 (length body.now) ++ body.now) }
{
    let edition = big_endian::byte_at(buffer, 0);
    let tag = big_endian::byte_at(body, 0);
    big_endian::put_byte(buffer, 0, edition_with(edition, tag));
    big_endian::put_two(buffer, place, body.len());
    put_body(buffer, place + 2, body);
}

// §9.12
// Adds a row, given by its body, to the table in the first bytes of a lent buffer. A refusal leaves the buffer as it was.
pub fn add_row(buffer: &mut [u8], size: usize, body: &[u8]) -> Result<usize, RefusedAt>
    ensures { AddsRow buffer.old size body.now (add_answer_of result) buffer.new }
{
    let all = buffer.len();
    let place = size.min(all);
    let count = answer(&buffer[..place], body, all)?;
    put_row(buffer, place, body);
    Ok(count)
}
