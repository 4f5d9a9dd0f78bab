//! The replies that give something.

ghost use Rattle.std.specs.Prelude.{◌≡◌};
ghost use Rattle.ob_model.specs.declared.reply.Given.TheVariants as given;

use ob_base::{Handle, Status};
use ob_life::Child;
use ob_model::{Bytes, Given, Reply};
use ob_objects::Page;

/// The reply of a success that gives a text.
pub(crate) fn with_text(text: Bytes) -> Reply
    ensures { result ≡ record { status = Status.Success; given = given.Text text } }
{
    Reply {
        status: Status::Success,
        given: Given::Text(text),
    }
}

/// The reply of a success that gives a new process, with the values that it inherited.
pub(crate) fn with_process(child: Child) -> Reply
    ensures { result
        ≡ record { status = Status.Success; given = given.Process child.process child.values } }
{
    let Child { process, values } = child;
    Reply {
        status: Status::Success,
        given: Given::Process(process, values),
    }
}

/// The reply that gives a page, with its status.
pub(crate) fn with_page(page: Page) -> Reply
    ensures { result
        ≡ record { status = page.status; given = given.Page page.entries page.context } }
{
    let Page {
        status,
        entries,
        context,
    } = page;
    Reply {
        status,
        given: Given::Page { entries, context },
    }
}
