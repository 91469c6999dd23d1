// The types as constant lists: the roles of their fields, their lengths, how many entries their lists have, and the last type of each edition.
ghost use Rattle.std.specs.Prelude.{◌≡◌, cond, ◌-◌};
ghost use Rattle.constraint.specs.Records.{Decides};
ghost use Rattle.table_row.specs.Records.{uses, role_line, need_line, roles_of};
ghost use Rattle.constraint.specs.Types.{length_of, last_type, TypeKnown};

use super::fields::MOST_FIELDS;

// A list for each number, and no list of records: the definitions have these lists (`lengths`, `entry_sizes`, `least_counts`, `most_counts`).
// The length expected for each type, by the type byte, without the entries of the row's list.
const LENGTHS: [u8; 18] = [
    0, 19, 19, 19, 34, 19, 3, 10, 21, 19, 27, 10, 19, 11, 11, 27, 3, 18,
];

// How many bytes each entry of its list has.
const ENTRY_SIZES: [u8; 18] = [0, 0, 0, 0, 0, 0, 0, 1, 0, 0, 0, 1, 0, 1, 1, 8, 16, 0];

// How many entries there are at least, and at most; 0 for a type that has no list.
const LEAST_COUNTS: [u8; 18] = [0, 0, 0, 0, 0, 0, 0, 2, 0, 0, 0, 2, 0, 2, 2, 1, 1, 1];

const MOST_COUNTS: [u8; 18] = [0, 0, 0, 0, 0, 0, 0, 4, 0, 0, 0, 4, 0, 4, 4, 8, 8, 5];

// The last type of each edition of the table, by its version byte.
const LAST_TYPES: [u8; 3] = [0, 10, 17];

// Returns the last type of an edition, or 0 if there is no such edition.
pub fn last_type(edition: u8) -> u8
    ensures { result ≡ last_type edition }
{
    LAST_TYPES.get(usize::from(edition)).copied().unwrap_or(0)
}

// The roles of the places of a row, by the type byte: a constant list, which the definition of that name has line by line.
fn role_line(tag: u8) -> [u8; MOST_FIELDS]
    ensures { result ≡ role_line tag }
{
    match tag {
        1 => *b"kkLN..............",
        2 => *b"kkLU..............",
        3 => *b"ksLN..............",
        4 => *b"kLNJM.............",
        5 => *b"ksWM..............",
        6 => *b"kk................",
        7 => *b"nkkkkT............",
        8 => *b"kkkkLU............",
        9 => *b"ccLU..............",
        10 => *b"ktLUJ.............",
        11 => *b"nkkkkT............",
        12 => *b"ccLU..............",
        13 => *b"ncccccT...........",
        14 => *b"ncccccT...........",
        15 => *b"nkUJMOOOOOOOO.....",
        16 => *b"nkLNLNLNLNLNLNLNLN",
        17 => *b"nXY...............",
        _ => [0; MOST_FIELDS],
    }
}

// From which n on each place is used, by the type byte.
fn need_line(tag: u8) -> [u8; MOST_FIELDS]
    ensures { result ≡ need_line tag }
{
    match tag {
        1 => *b"000000000000000000",
        2 => *b"000000000000000000",
        3 => *b"000000000000000000",
        4 => *b"000000000000000000",
        5 => *b"000000000000000000",
        6 => *b"000000000000000000",
        7 => *b"012340000000000000",
        8 => *b"000000000000000000",
        9 => *b"000000000000000000",
        10 => *b"000000000000000000",
        11 => *b"012340000000000000",
        12 => *b"000000000000000000",
        13 => *b"001234000000000000",
        14 => *b"012340000000000000",
        15 => *b"000001234567800000",
        16 => *b"001122334455667788",
        17 => *b"000000000000000000",
        _ => [0; MOST_FIELDS],
    }
}

// The role of a place that is used from some n on, which is a digit: none where this n does not use it.
fn role_for(n: u64, role: u8, need: u8) -> u8
    ensures { result ≡ cond (uses (need - 48) n) role 0 }
{
    if n < u64::from(need.saturating_sub(b'0')) {
        0
    } else {
        role
    }
}

// The roles of the places of a row of a type with an n: those that it does not use have none.
pub fn roles_of(tag: u8, n: u64) -> [u8; MOST_FIELDS]
    ensures { result ≡ roles_of tag n }
{
    let line = role_line(tag);
    let needs = need_line(tag);
    std::array::from_fn(|i| role_for(n, line[i], needs[i]))
}

// The length expected of a row of a type with the byte behind it, which is the n of a type that has one; 0 if there is no such type.
pub fn length_of(tag: u8, n: u8) -> usize
    ensures { result ≡ length_of tag n }
{
    let place = usize::from(tag);
    let Some(length) = LENGTHS.get(place) else {
        return 0;
    };
    usize::from(*length) + usize::from(n) * usize::from(ENTRY_SIZES[place])
}

// Question 4 without the length: is the type one of the edition, and is n in range?
pub fn type_known(edition: u8, tag: u8, n: u64) -> bool
    ensures { Decides (TypeKnown edition tag n) result }
{
    if tag == 0 || last_type(edition) < tag {
        return false;
    }
    let place = usize::from(tag);
    let least = u64::from(LEAST_COUNTS[place]);
    let most = u64::from(MOST_COUNTS[place]);
    most == 0 || (least <= n && n <= most)
}
