//! That threads may share code. It is proved apart from all that it is shared with.
ghost use denote.Param.Send.{IsSync};
ghost use Rattle.task_code.specs.contracts.code.Code.{the_row};

use task_code::code::Code;

/// What a bound says.
fn may_share<C: Sync>(_code: &C)
    ensures { IsSync C.row }
{}

/// Threads may share code.
pub fn may_share_code(code: &Code)
    ensures { IsSync the_row }
{
    may_share(code);
}
