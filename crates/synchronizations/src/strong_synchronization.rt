// StrongSynchronization: the times are the first times of the groups begun and not complete; first to fourth say how
// many of these groups have an event of that kind.
ghost use Rattle.std.specs.Prelude.{◌≡◌};
ghost use Rattle.row_type.specs.Words.{asked_of, counts_saved, Applies};
ghost use Rattle.synchronizations.specs.Kinds.{RegistersBecome};
ghost use Rattle.synchronizations.specs.StrongSynchronization.{overflows_strong_synchronization, without_oldest, decide_strong_synchronization};

use crate::kinds;
use ring::SIZE;
use row_type::row_words;

// §5.7
// What an event makes of the row, where it lies.
pub fn apply(row: &mut [[u64; SIZE]; 2], stream: u64, t: u64, number: u64)
    ensures { Applies counts_saved decide_strong_synchronization row.old stream t number row.new }
{
    row_words::save_undo_counts(row);
    let at = kinds::place(&row[1], stream);
    let count = row[1][at];
    row[1][at] = count.saturating_add(1);
    if count >= row[1][row_words::LEN] {
        row_words::one_more_waits(row, 0, t, number);
        return;
    }
    if kinds::each_above(&row[1], 0) {
        forget(&mut row[1]);
        row_words::fewer_wait(row, 1, number);
        return;
    }
    row_words::fewer_wait(row, 0, number);
}

// The oldest group is not counted any more.
#[tactic(auto, unfolding(row_type::specs::Words::number_words))]
fn forget(w: &mut [u64; SIZE])
    ensures { RegistersBecome (λ parameters registers. without_oldest registers) w.old w.new }
{
    w[row_words::ONE] = w[row_words::ONE].saturating_sub(1);
    w[row_words::TWO] = w[row_words::TWO].saturating_sub(1);
    w[row_words::THREE] = w[row_words::THREE].saturating_sub(1);
    w[row_words::FOUR] = w[row_words::FOUR].saturating_sub(1);
}

// Whether an event begins one more group, where there is no room.
#[tactic(auto, using(crate::proofs::Laws::Places::register_at), unfolding(crate::specs::StrongSynchronization::overflows_strong_synchronization))]
pub fn overflows(w: &[u64; SIZE], stream: u64, t: u64) -> bool
    ensures { result ≡ asked_of overflows_strong_synchronization w.now stream t }
{
    w[row_words::LEN] >= SIZE as u64 && w[kinds::place(w, stream)] >= w[row_words::LEN]
}
