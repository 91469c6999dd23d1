// The exported functions of `delkuthi::withdrawing`, for C.
ghost use Rattle.delkuthi.specs.WithdrawingStep.{WithdrawsStep};

use in_place::Words;

// Withdraws the last step if its number is `step`. Returns 0, 21 if no step may be withdrawn, or 26 if the last step has another number.
#[unsafe(no_mangle)]
pub extern "C" fn delkuthi_withdraw_step(m: &mut Words, step: u64) -> u8
    ensures { WithdrawsStep m.old step result m.new }
{
    delkuthi::withdrawing::delkuthi_withdraw_step(m, step)
}
