// A row of a table as numbers: the parameters of its type's machine, and the words that its ring has from the start.
ghost use Rattle.std.specs.Prelude.{◌≡◌, [], ◌∷◌, cond, ltb, replicate};
ghost use Rattle.std.proofs.lemmas.List.Edits.{sets};
ghost use Rattle.constraint.specs.Types.{Known, byte, time};
ghost use Rattle.table_row.specs.Records.{byte_role, time_role, field_at, fields_as, row_read};
ghost use Rattle.row_type.specs.Parameters.{no_fields, with_fields, parameters_of, start_word_count, start_ring, first_constant, used_from};

use crate::Parameters;
use constraint::NO_LIMIT;
use table_row::fields::{
    FIRST_BYTE, FIRST_TIME, JITTER, LEFT, LENGTH, LOWER, MINIMUM, MOST_FIELDS, OFFSET, is_kind,
};
use table_row::types::roles_of;

// A kind that no event has. It is a number, and no Option, as a rule's kinds are words of the lent memory (no_kind).
pub const NO_KIND: u8 = 64;

// How many words a row has from the start, by the type byte.
const WORD_COUNTS: [u8; 18] = [0, 0, 0, 0, 0, 0, 0, 0, 0, 16, 0, 0, 16, 40, 40, 8, 24, 0];

// The place from which on the values of a row are such words, by the type byte; 18, the end, for none. An Option is no plainer, as nothing is from
// the end on.
const FIRST_CONSTANTS: [u8; 18] = [
    18, 18, 18, 18, 18, 18, 18, 18, 18, 18, 18, 18, 18, 18, 18, 5, 2, 18,
];

// The numbers of a type without fields.
fn no_fields(tag: u8) -> Parameters
    ensures { result ≡ no_fields tag }
{
    let none = u64::from(NO_KIND);
    Parameters {
        tag: u64::from(tag),
        first: none,
        second: none,
        third: none,
        fourth: none,
        fifth: none,
        span: 0,
        lower: 0,
        upper: 0,
        jitter: 0,
        minimum: 0,
    }
}

// The numbers with a field of one byte, those of the fields behind it being there: a kind goes before the other kinds, an n is the span.
fn with_byte(parameters: Parameters, role: u8, value: u64) -> Parameters
    ensures { result ≡ with_fields (byte (byte_role role) value ∷ []) parameters }
{
    let mut next = parameters;
    if is_kind(role) {
        next.first = value;
        next.second = parameters.first;
        next.third = parameters.second;
        next.fourth = parameters.third;
        next.fifth = parameters.fourth;
        return next;
    }
    next.span = value;
    next
}

// The numbers with a time: a tolerance and a right are an upper, a left a lower, a length a lower without an upper limit. An offset is no number.
fn with_time(parameters: Parameters, role: u8, value: u64) -> Parameters
    ensures { result ≡ with_fields (time (time_role role) value ∷ []) parameters }
{
    let mut next = parameters;
    match role {
        LOWER | LEFT => next.lower = value,
        JITTER => next.jitter = value,
        MINIMUM => next.minimum = value,
        LENGTH => {
            next.lower = value;
            next.upper = NO_LIMIT;
        }
        OFFSET => {}
        _ => next.upper = value,
    }
    next
}

// The numbers with the field of a place, if the place is used.
fn with_field(parameters: Parameters, role: u8, value: u64) -> Parameters
    ensures { result ≡ with_fields (field_at role value) parameters }
{
    if role < FIRST_TIME {
        return parameters;
    }
    if role < FIRST_BYTE {
        return with_time(parameters, role, value);
    }
    with_byte(parameters, role, value)
}

// The numbers with some fields, from the last to the first. Roles and values come apart, as `fields_as` of the contract takes them.
fn with_fields(parameters: Parameters, roles: [u8; 18], values: &[u64; 18]) -> Parameters
    ensures { result ≡ with_fields (fields_as roles values.now) parameters }
{
    let mut next = parameters;
    for i in (0..MOST_FIELDS).rev() {
        next = with_field(next, roles[i], values[i]);
    }
    next
}

// A row of a known type with these values as numbers: its type, and what each field is among them.
pub fn parameters_of(tag: u8, values: &[u64; 18]) -> Parameters
    requires { Known (row_read tag values.now) }
    ensures { result ≡ parameters_of (row_read tag values.now) }
{
    with_fields(no_fields(tag), roles_of(tag, values[0]), values)
}

// How many words a row has from the start.
pub fn start_word_count(parameters: Parameters) -> usize
    ensures { result ≡ start_word_count parameters }
{
    WORD_COUNTS
        .get(parameters.tag as usize)
        .map_or(0, |&count| usize::from(count))
}

// The place from which on the values of a row are words of its ring.
fn first_constant(tag: u8) -> usize
    ensures { result ≡ first_constant tag }
{
    FIRST_CONSTANTS
        .get(usize::from(tag))
        .map_or(0, |&place| usize::from(place))
}

// The value of a place of a role, and 0 where the place is not used.
fn used(role: u8, value: u64) -> u64
    ensures { result ≡ cond (ltb role 65) 0 value }
{
    if role < FIRST_TIME { 0 } else { value }
}

// Stores the values of the used places from the first one on in a ring, and 0 for each other.
fn put_values(times: &mut [u64; 64], roles: [u8; 18], values: &[u64; 18], first: usize)
    ensures { times.new ≡ sets times.old 0 (used_from roles values.now first) }
{
    for i in first..MOST_FIELDS {
        times[i - first] = used(roles[i], values[i]);
    }
}

// Stores the constants of a row of a known type with these values in a ring of zeros.
pub fn put_constants(times: &mut [u64; 64], tag: u8, values: &[u64; 18])
    requires { Known (row_read tag values.now) }
    ensures { times.old ≡ replicate 64 0 → times.new ≡ start_ring (row_read tag values.now) }
{
    let first = first_constant(tag);
    if first < MOST_FIELDS {
        put_values(times, roles_of(tag, values[0]), values, first);
    }
}
