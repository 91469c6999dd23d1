// The table reader and writer for tests in Rust: functions on byte slices and numbers.
#![tactic(auto)]

ghost use Rattle.std.specs.Prelude.{◌≡◌};
ghost use Rattle.constraint.specs.Answers.{refusal_number};
ghost use Rattle.table.specs.WriteAnswer.{write_answer_of};
ghost use Rattle.table_ffi.specs.Codes.{refusal_code, write_code, AnswersRead, AnswersRewrite};

use constraint::{Refusal, RefusedAt};

// A refusal as one number.
fn refusal_code(refusal: Refusal, place: usize) -> u64
    ensures { result ≡ refusal_code (refusal_number refusal) place }
{
    let high = u64::from(u8::from(refusal)) * 4294967296;
    high + (place as u64).min(4294967295)
}

// The writer's result as one number.
fn write_code(written: Result<usize, Refusal>) -> u64
    ensures { result ≡ write_code (write_answer_of written) }
{
    match written {
        Ok(count) => count as u64,
        Err(refusal) => refusal_code(refusal, 0),
    }
}

// Reads a table of an edition up to the newest: the number of its rows, or the refusal.
#[unsafe(no_mangle)]
pub extern "C" fn table_read(newest: u8, bytes: &[u8]) -> u64
    ensures { AnswersRead newest bytes.now result }
{
    match table::read(newest, bytes) {
        Ok(rows) => rows.count as u64,
        Err(RefusedAt { refusal, place }) => refusal_code(refusal, place),
    }
}

// Reads a table of an edition up to the newest and writes its rows in that edition to a lent buffer: the number of bytes written, or the refusal.
#[unsafe(no_mangle)]
pub extern "C" fn table_rewrite(newest: u8, bytes: &[u8], buffer: &mut [u8]) -> u64
    ensures { AnswersRewrite newest bytes.now buffer.old result buffer.new }
{
    let edition = big_endian::byte_at(bytes, 0);
    match table::read(newest, bytes) {
        Ok(rows) => write_code(table::write(edition, rows, buffer)),
        Err(RefusedAt { refusal, place }) => refusal_code(refusal, place),
    }
}
