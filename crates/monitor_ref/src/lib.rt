// One step on a monitor that is passed by reference. It uses the step by value.
#![tactic(auto)]

ghost use Rattle.constraint.specs.Answers.{number_in};
ghost use Rattle.constraint.specs.Run.{asks};
ghost use Rattle.monitor.specs.Contract.{Steps};
ghost use Rattle.monitor_ref.specs.Number.{stepped_from};

use constraint::{Call, Refusal};
use monitor::Monitor;

// A call on a monitor that is lent: it is copied out, stepped, and stored whole; a refusal leaves it as it is.
pub fn take_by_value(m: &mut Monitor, call: Call) -> Result<(), Refusal>
    ensures { Steps m.old (asks call) (stepped_from (number_in result) m.new) }
{
    *m = m.step(call)?;
    Ok(())
}
