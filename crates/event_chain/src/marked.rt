// What rows of coloured kinds share: the kind of a stream, and a mark that tells the row's due time.
ghost use Rattle.std.specs.Prelude.{◌≡◌, ℕ, cond, ◌-◌, eqb};
ghost use Rattle.constraint.specs.Limits.{no_limit};
ghost use Rattle.ring.specs.declared.Edit.TheVariants.{Store};
ghost use Rattle.row_type.specs.Parts.{with_last};
ghost use Rattle.row_type.specs.Words.{last_saved, settled, with_registers, NumbersBecome, Makes};
ghost use Rattle.event_chain.specs.Marked.{coloured_kind, due_next, marking};

use constraint::NO_LIMIT;
use ring::SIZE;
use row_type::row_words;

// How many colours there are.
pub(crate) const COLOURS: usize = 8;

// §1.9
// The kind of a coloured stream.
pub(crate) fn coloured_kind(stream: u64) -> u64
    ensures { result ≡ coloured_kind stream }
{
    stream / 8 + 42
}

// The due time that the mark tells.
pub(crate) fn due_marked(last: u64) -> u64
    ensures { result ≡ no_limit - last }
{
    NO_LIMIT - last
}

// The due time where one colour has a new last moment, by the due time before, the colour's last moments before and now, and the first one of all
// colours, which is looked for only where the colour may have had the first, and has a later one now.
#[inline]
pub(crate) fn due_next<F: FnOnce() -> u64>(before: u64, old: u64, new: u64, all: F) -> u64
    requires { F.pre all }
    ensures { (first : ℕ) → ((r : ℕ) → F.post all r → r ≡ first) → result ≡ due_next before old new first }
{
    if new <= before {
        new
    } else if before < old {
        before
    } else {
        all()
    }
}

// A row's state is that of one that goes on with its ring and a due time, which its mark tells.
fn mark(w: &mut [u64; SIZE], due: u64)
    ensures { NumbersBecome (λ state past. settled (with_registers state (with_last state.registers (no_limit - due))) due
        (cond (eqb due no_limit) 1 0)) (λ state past. past) w.old w.new }
{
    w[row_words::LAST] = NO_LIMIT - due;
    row_words::settle(w, due, u64::from(due == NO_LIMIT));
}

// Two words are put at a place and the next, and the row goes on with a due time.
pub(crate) fn put_marked(
    row: &mut [[u64; SIZE]; 2],
    place: usize,
    first: u64,
    second: u64,
    due: u64,
    number: u64,
)
    ensures { Makes last_saved row.old (λ parameters registers words. marking (Store place first second) registers due) number
        row.new }
{
    row_words::save_undo_last(row);
    row_words::put_two(row, place, first, second, number);
    mark(&mut row[1], due);
}
