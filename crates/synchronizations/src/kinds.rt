// The registers of a row of two to four kinds: first to fourth are one number for each kind.
ghost use Rattle.std.specs.Prelude.{◌≡◌, ◌<◌};
ghost use Rattle.row_type.specs.Words.{parameters_at, registers_at};
ghost use Rattle.synchronizations.specs.Kinds.{each_above, register_place};

use ring::SIZE;
use row_type::from_constraint::NO_KIND;
use row_type::row_words;

// The place of a kind's number: that of the first place that has the kind.
#[tactic(auto, unfolding(crate::specs::Kinds::register_place))]
pub fn place(w: &[u64; SIZE], kind: u64) -> usize
    ensures place { result ≡ register_place (parameters_at w.now) kind }
    ensures within { result < 64 }
{
    if kind == w[row_words::FIRST] {
        return row_words::ONE;
    }
    if kind == w[row_words::SECOND] {
        return row_words::TWO;
    }
    if kind == w[row_words::THIRD] {
        return row_words::THREE;
    }
    row_words::FOUR
}

// Whether the number of each kind is above a bound. There are two kinds at least; a row without a third kind has no fourth.
pub fn each_above(w: &[u64; SIZE], bound: u64) -> bool
    ensures { result ≡ each_above (parameters_at w.now) (registers_at w.now) bound }
{
    bound < w[row_words::ONE]
        && (bound < w[row_words::TWO]
            && (w[row_words::THIRD] == NO_KIND as u64
                || bound < w[row_words::THREE]
                    && (w[row_words::FOURTH] == NO_KIND as u64 || bound < w[row_words::FOUR])))
}
