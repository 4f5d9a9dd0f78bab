//! Variables that another seat begins with.

ghost use Rattle.std.specs.Prelude.{◌≡◌, IfOk};
ghost use Rattle.ob_requests.specs.Tables.{variables_in};
ghost use Rattle.ob_seats.specs.Kept.{for_worker};

use ob_requests::Variables;
use std::alloc::AllocError;

/// A copy of variables for a worker, who has no open that waits. The only fault is out of memory.
pub(crate) fn variables_for_worker(variables: &Variables) -> Result<Variables, AllocError>
    ensures { IfOk result (λ copy. variables_in copy ≡ for_worker (variables_in variables.now)) }
{
    let processes = variables.processes.clone()?;
    let handles = variables.handles.without_tickets()?;
    Ok(Variables {
        alloc: variables.alloc,
        processes,
        handles,
        recent: variables.recent,
    })
}
