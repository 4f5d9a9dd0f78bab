//! The replies that several commands share.

ghost use Rattle.std.specs.Prelude.{◌≡◌};
ghost use Rattle.ob_model.specs.declared.reply.Given.TheVariants as given;

use ob_base::{Handle, Status};
use ob_model::{Given, Reply};

/// A reply that is a status alone: it gives nothing. Source: this profile.
pub fn status_alone(status: Status) -> Reply
    ensures { result ≡ record { status = status; given = given.Nothing } }
{
    Reply {
        status,
        given: Given::Nothing,
    }
}

/// The reply of a status that gives a handle. Source: this profile.
pub fn with_handle(status: Status, value: Handle) -> Reply
    ensures { result ≡ record { status = status; given = given.Handle value } }
{
    Reply {
        status,
        given: Given::Handle(value),
    }
}
