// The row that a row's words hold: its fields from its numbers and from the constants in its ring.
ghost use Rattle.std.specs.Prelude.{◌-◌, ◌<◌, ◌≤◌, ◌≡◌, cond, leb, take};
ghost use Rattle.constraint.specs.Steps.{at};
ghost use Rattle.read_back.specs.Back.{behind_kind, behind_field, constant_limit, constants_from, field_in, values_in};
ghost use Rattle.read_back.specs.Contract.{WordsBack, number_given};

use crate::give_body;
use constraint::Refusal;
use ring::SIZE;
use row_type::Parameters;
use row_type::row_words::parameters_at;
use table_row::fields::{
    COLOURED, FIRST_BYTE, JITTER, KIND, LEFT, LENGTH, LOWER, MINIMUM, MOST_FIELDS, is_kind,
};
use table_row::{TableRow, types};

// The numbers without their first kind.
fn behind_kind(parameters: Parameters) -> Parameters
    ensures { result ≡ behind_kind parameters }
{
    Parameters {
        first: parameters.second,
        second: parameters.third,
        third: parameters.fourth,
        fourth: parameters.fifth,
        ..parameters
    }
}

// The numbers of the fields behind one of a role.
fn behind_field(role: u8, parameters: Parameters) -> Parameters
    ensures { result ≡ behind_field role parameters }
{
    if is_kind(role) {
        behind_kind(parameters)
    } else {
        parameters
    }
}

// The value of a field of a role that is not constant, from the numbers of the fields from it on.
fn field_in(role: u8, parameters: Parameters) -> u64
    ensures { result ≡ field_in role parameters }
{
    match role {
        KIND | COLOURED => parameters.first,
        FIRST_BYTE.. => parameters.span,
        JITTER => parameters.jitter,
        MINIMUM => parameters.minimum,
        LOWER | LENGTH | LEFT => parameters.lower,
        _ => parameters.upper,
    }
}

// The place from which on the values of a row of a type are constants; 18 for none. It stays beside `FIRST_CONSTANTS` of row_type: the definition
// `constants_from`, and the edit that moves both by one, are of this crate.
fn constants_from(tag: u8) -> usize
    ensures { result ≡ constants_from tag }
{
    match tag {
        15 => 5,
        16 => 2,
        _ => MOST_FIELDS,
    }
}

// The value of place i of a row.
fn value_at(role: u8, parameters: Parameters, times: &[u64; SIZE], first: usize, i: usize) -> u64
    requires { (2 ≤ first) × (i < 18) }
    ensures { result ≡ cond (leb first i) (at (take constant_limit times.now) (i - first)) (field_in role parameters) }
{
    if first <= i {
        times[i - first]
    } else {
        field_in(role, parameters)
    }
}

// The values of all places of a row of a type, from its numbers and its ring.
fn values_in(parameters: Parameters, times: &[u64; SIZE]) -> [u64; MOST_FIELDS]
    requires { parameters.tag < 256 }
    ensures { result ≡ values_in parameters times.now }
{
    let tag = parameters.tag as u8;
    let roles = types::roles_of(tag, parameters.span);
    let first = constants_from(tag);
    let mut values = [0; MOST_FIELDS];
    let mut rest = parameters;
    for i in 0..MOST_FIELDS {
        values[i] = value_at(roles[i], rest, times, first, i);
        rest = behind_field(roles[i], rest);
    }
    values
}

// Copies the body of the row in a row's words to a buffer. Returns 256 times its length. On a refusal, of question 15 or 16, it leaves the buffer.
pub(crate) fn give_row(words: &[[u64; SIZE]; 2], body: &mut [u8]) -> Result<u64, Refusal>
    ensures { WordsBack words.now body.old (number_given result) body.new }
{
    let parameters = parameters_at(&words[1]);
    let Ok(tag) = u8::try_from(parameters.tag) else {
        return Err(Refusal::NoRow);
    };
    let values = values_in(parameters, &words[0]);
    if !types::type_known(2, tag, values[0]) {
        return Err(Refusal::NoRow);
    }
    give_body(TableRow { tag, values }, body)
}
