//! Rows of handle variables, and the parts of them that are written.

ghost use Rattle.std.specs.Prelude.{◌≡◌};
ghost use Rattle.ob_requests.specs.Rows.{no_row, written};

/// The row of a handle variable of a process: zeros where it was never set. (this profile)
#[derive(Clone, Copy)]
pub struct Variable {
    /// Its value.
    pub value: u32,
    /// Its context: where the next page of a directory begins, and 0 at its beginning.
    pub context: u64,
    /// The ticket of the open that waits under it: 0 where none does.
    pub ticket: u64,
}

// The part of a row that is written. (this profile)
#[derive(Clone, Copy)]
pub(crate) enum Write {
    // A value, and no context.
    Value(u32),
    // A context.
    Context(u64),
    // A ticket.
    Ticket(u64),
    // No context and no ticket: the value stays alone.
    Alone,
}

// The row of a variable that was never set.
pub(crate) fn no_row() -> Variable
    ensures { result ≡ no_row }
{
    Variable {
        value: 0,
        context: 0,
        ticket: 0,
    }
}

// A row after it was written.
pub(crate) fn written(row: Variable, write: Write) -> Variable
    ensures { result ≡ written row write }
{
    let Variable {
        value,
        context,
        ticket,
    } = row;
    match write {
        Write::Value(value) => Variable {
            value,
            context: 0,
            ticket,
        },
        Write::Context(context) => Variable {
            value,
            context,
            ticket,
        },
        Write::Ticket(ticket) => Variable {
            value,
            context,
            ticket,
        },
        Write::Alone => Variable {
            value,
            context: 0,
            ticket: 0,
        },
    }
}
