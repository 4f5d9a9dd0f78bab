//! Reports of how calls of commands end.

ghost use Rattle.std.specs.Prelude.{◌≡◌};
ghost use Rattle.ob_c_state.specs.Reports.{ReportsHandle, status_in, handle_in, process_in};

use ob_base::Status;
use ob_core::{Given, Reply};

/// The number of the status that a call ends with.
pub fn status_in(ended: &Result<Reply, Status>) -> u32
    ensures { result ≡ status_in ended.now }
{
    match ended {
        Ok(reply) => reply.status.code(),
        Err(status) => status.code(),
    }
}

/// Reports the handle that a call gives, 0 if it gives none; returns the number of the status.
pub fn report_handle(ended: &Result<Reply, Status>, handle: &mut u32) -> u32
    ensures { ReportsHandle result handle.new ended.now }
{
    *handle = handle_in(ended);
    status_in(ended)
}

// The value of the handle that a call gives; 0 if it gives none.
fn handle_in(ended: &Result<Reply, Status>) -> u32
    ensures { result ≡ handle_in ended.now }
{
    match ended {
        Ok(reply) => match &reply.given {
            Given::Handle(handle) => handle.0,
            _ => 0,
        },
        Err(_) => 0,
    }
}

/// The number of the process that a call gives; 0 if it gives none.
pub fn process_in(ended: &Result<Reply, Status>) -> u32
    ensures { result ≡ process_in ended.now }
{
    match ended {
        Ok(reply) => match &reply.given {
            Given::Process(child, _) => child.0,
            _ => 0,
        },
        Err(_) => 0,
    }
}
