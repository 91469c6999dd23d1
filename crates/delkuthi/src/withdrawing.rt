// The withdrawal of one certain step, for a host in C.
ghost use Rattle.constraint.specs.Answers.{number_in};
ghost use Rattle.delkuthi.specs.WithdrawingStep.{WithdrawsStep};

use crate::answers::call_number;
use constraint::Refusal;
use in_place::{COUNT, NUMBERS, UNDO_ALLOWED, Words, calls};

// Withdraws the last step if its number is `step`.
fn withdraw_step(m: &mut Words, step: u64) -> Result<(), Refusal>
    ensures { WithdrawsStep m.old step (number_in result) m.new }
{
    if m[NUMBERS][0][UNDO_ALLOWED] == 0 {
        return Err(Refusal::NothingToWithdraw);
    }
    if m[NUMBERS][0][COUNT] != step {
        return Err(Refusal::OtherStep);
    }
    calls::withdraw(m)
}

// §3.17, §8.21, §8.26, §11.5
// Withdraws the last step if its number is `step`. Returns 0, 21 if no step may be withdrawn, or 26 if the last step has another number.
#[unsafe(no_mangle)]
pub extern "C" fn delkuthi_withdraw_step(m: &mut Words, step: u64) -> u8
    ensures { WithdrawsStep m.old step result m.new }
{
    call_number(withdraw_step(m, step))
}
