// The numbers that a host in C reads: results, refusals and places.
ghost use Rattle.std.specs.Prelude.{◌+◌, ◌≡◌};
ghost use Rattle.constraint.specs.Answers.{number_in, refused_number};
ghost use Rattle.table.specs.ReadAnswer.{read_answer_of};
ghost use Rattle.delkuthi.specs.Stamps.{place_number};
ghost use Rattle.delkuthi.specs.TakingRecords.{taken_number};

use constraint::{Refusal, RefusedAt};

// The largest place that an answer gives.
const LAST_PLACE: usize = 72057594037927935;

// Returns 256 times a place.
pub fn place_number(place: usize) -> u64
    ensures { result ≡ place_number place }
{
    place.min(LAST_PLACE) as u64 * 256
}

// Returns 256 times the place of a refusal plus its number.
pub fn refusal_number(refused: RefusedAt) -> u64
    ensures { result ≡ place_number refused.place + refused_number refused }
{
    place_number(refused.place) + u64::from(u8::from(refused.refusal))
}

// Returns 0 if all is taken, else the number of the refusal with its place.
pub(crate) fn taken_number(taken: Result<(), RefusedAt>) -> u64
    ensures { result ≡ taken_number (read_answer_of taken) }
{
    match taken {
        Ok(()) => 0,
        Err(refused) => refusal_number(refused),
    }
}

// Returns 0 if a call is taken, else the number of its refusal.
pub(crate) fn call_number(taken: Result<(), Refusal>) -> u8
    ensures { result ≡ number_in taken }
{
    match taken {
        Ok(()) => 0,
        Err(refusal) => u8::from(refusal),
    }
}
