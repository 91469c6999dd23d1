// The roles of fields, and the questions that are put to a row's fields one after the other.
ghost use Rattle.std.specs.Prelude.{◌≡◌, ◌≤◌, length};
ghost use Rattle.std.proofs.lemmas.List.Edits.{sets};
ghost use Rattle.constraint.specs.Records.{Decides, Absent};
ghost use Rattle.constraint.specs.Accepted.{KindsFit};
ghost use Rattle.constraint.specs.Table.{fields_bytes};
ghost use Rattle.table_row.specs.Records.{width, is_kind, field_at, fields_as, fields_from, total};
ghost use Rattle.constraint.specs.Accepted.{kinds_in, KindClassFits, FieldInRange, EachField, Ordered};
ghost use Rattle.constraint.specs.Meets.{Compares};
ghost use Rattle.table_row.specs.Records.{bound_behind};

use constraint::{
    FIRST_COLOURED, LAST_KIND, LAST_TIME, NO_LIMIT, REPETITION_SPAN_LIMIT, SPAN_LIMIT,
};

// The roles are letters: capitals for times, small ones for fields of one byte. What is no letter is no field. They stay bytes, and no enum, as
// the definitions (`role_lines`, `width`, `field_of`) say them in letters.
pub const FIRST_TIME: u8 = b'A';

pub const JITTER: u8 = b'J';

pub const LOWER: u8 = b'L';

pub const MINIMUM: u8 = b'M';

pub const UPPER_OR_NONE: u8 = b'N';

pub const OFFSET: u8 = b'O';

pub const TOLERANCE: u8 = b'T';

pub const UPPER: u8 = b'U';

pub const LENGTH: u8 = b'W';

pub const LEFT: u8 = b'X';

pub const RIGHT: u8 = b'Y';

pub const FIRST_BYTE: u8 = b'a';

pub const COLOURED: u8 = b'c';

pub const KIND: u8 = b'k';

pub const COUNT: u8 = b'n';

pub const SPAN: u8 = b's';

pub const SHORT_SPAN: u8 = b't';
// How many places for fields a row has.
pub const MOST_FIELDS: usize = 18;

// How many bytes a field of a role has.
pub fn width_of(role: u8) -> usize
    ensures { result ≡ width role }
{
    match role {
        ..FIRST_TIME => 0,
        ..FIRST_BYTE => 8,
        _ => 1,
    }
}

// Is the role that of a kind, plain or coloured?
pub fn is_kind(role: u8) -> bool
    ensures { result ≡ is_kind role }
{
    matches!(role, KIND | COLOURED)
}

// Is a kind plain where plain ones are asked for, and coloured where coloured ones are?
fn kind_class_valid(role: u8, value: u64) -> bool
    ensures { Decides (EachField KindClassFits (field_at role value)) result }
{
    match role {
        KIND => value < u64::from(FIRST_COLOURED),
        COLOURED => u64::from(FIRST_COLOURED) <= value,
        _ => true,
    }
}

// Is a field in range? A kind and an n are asked for elsewhere.
fn range_fits(role: u8, value: u64) -> bool
    ensures { Decides (EachField FieldInRange (field_at role value)) result }
{
    match role {
        ..FIRST_TIME | KIND | COLOURED | COUNT => true,
        UPPER_OR_NONE => value <= LAST_TIME || value == NO_LIMIT,
        ..FIRST_BYTE => value <= LAST_TIME,
        SPAN => (1..=u64::from(SPAN_LIMIT)).contains(&value),
        _ => (1..=u64::from(REPETITION_SPAN_LIMIT)).contains(&value),
    }
}

// Does the left number compare with the right one as an operator from 1 to 5 says: ≤, <, ≥, >, =?
fn compares(operator: u64, left: u64, right: u64) -> bool
    ensures { Decides (Compares operator left right) result }
{
    match operator {
        1 => left <= right,
        2 => left < right,
        3 => right <= left,
        4 => right < left,
        _ => left == right,
    }
}

// Does a field fit n and the bound before it, where it is asked to?
fn bound_fits(n: u64, role: u8, value: u64, low: u64) -> bool
    ensures { Decides (Ordered n low (field_at role value)) result }
{
    match role {
        UPPER | UPPER_OR_NONE | OFFSET => low <= value,
        RIGHT => compares(n, low, value),
        _ => true,
    }
}

// The bound behind a field that is in range.
fn bound_after(role: u8, value: u64, low: u64) -> u64
    requires { EachField FieldInRange (field_at role value) }
    ensures { result ≡ bound_behind low (field_at role value) }
{
    match role {
        LOWER | LEFT => value,
        UPPER | UPPER_OR_NONE | RIGHT => 0,
        OFFSET => value + 1,
        _ => low,
    }
}

// The fields of a row: the roles of its places, and their values.
#[derive(Clone, Copy)]
pub(crate) struct Fields<'a> {
    pub(crate) roles: &'a [u8; MOST_FIELDS],
    pub(crate) values: &'a [u64; MOST_FIELDS],
    ghost roles_long: { length roles.now ≡ 18 },
    ghost values_long: { length values.now ≡ 18 },
}

impl Fields<'_> {
    // Is a kind none of the kinds from a place on?
    fn is_new(self, kind: u64, from: usize) -> bool
        requires { from ≤ 18 }
        ensures { Decides (Absent kind (kinds_in (fields_from self.entry.roles.now self.entry.values.now from))) result }
    {
        let (roles, values) = (self.roles, self.values);
        for i in from..MOST_FIELDS {
            if is_kind(roles[i]) && values[i] == kind {
                return false;
            }
        }
        true
    }

    // Question 5: are the kinds at most 63 and all different?
    pub(crate) fn kinds_fit(self) -> bool
        ensures { Decides (KindsFit (kinds_in (fields_from self.entry.roles.now self.entry.values.now 0))) result }
    {
        let (roles, values) = (self.roles, self.values);
        for i in 0..MOST_FIELDS {
            let kind = values[i];
            if is_kind(roles[i]) && (u64::from(LAST_KIND) < kind || !self.is_new(kind, i + 1)) {
                return false;
            }
        }
        true
    }

    // Question 18: are the kinds plain or coloured as the type takes them?
    pub(crate) fn kind_classes_valid(self) -> bool
        ensures { Decides (EachField KindClassFits (fields_from self.entry.roles.now self.entry.values.now 0)) result }
    {
        let (roles, values) = (self.roles, self.values);
        roles
            .iter()
            .zip(values)
            .all(|(role, value)| kind_class_valid(*role, *value))
    }

    // Question 6: are times, spans and maxima in range?
    pub(crate) fn ranges_fit(self) -> bool
        ensures { Decides (EachField FieldInRange (fields_from self.entry.roles.now self.entry.values.now 0)) result }
    {
        let (roles, values) = (self.roles, self.values);
        roles
            .iter()
            .zip(values)
            .all(|(role, value)| range_fits(*role, *value))
    }

    // Question 7, of fields in range: is lower ≤ upper where both stand, do offsets rise, does the left compare with the right as n says?
    pub(crate) fn lower_first(self, n: u64) -> bool
        requires { EachField FieldInRange (fields_from self.roles.now self.values.now 0) }
        ensures { Decides (Ordered n 0 (fields_from self.entry.roles.now self.entry.values.now 0)) result }
    {
        let (roles, values) = (self.roles, self.values);
        let mut low = 0;
        for i in 0..MOST_FIELDS {
            if !bound_fits(n, roles[i], values[i], low) {
                return false;
            }
            low = bound_after(roles[i], values[i], low);
        }
        true
    }

    // How many bytes the fields have.
    pub(crate) fn size(self) -> usize
        ensures { result ≡ total self.entry.roles.now }
    {
        let roles = self.roles;
        roles.iter().map(|role| width_of(*role)).sum()
    }

    // Stores the fields in a buffer from a place on.
    pub(crate) fn put(self, buffer: &mut [u8], place: usize)
        requires { place ≤ length buffer.old }
        ensures { buffer.new ≡ sets buffer.old place (fields_bytes (fields_as self.entry.roles.now self.entry.values.now)) }
    {
        let (roles, values) = (self.roles, self.values);
        let mut next = place;
        for i in 0..MOST_FIELDS {
            let width = width_of(roles[i]);
            big_endian::put_number(buffer, next, values[i], width);
            next += width;
        }
    }
}
