//! Values of the model that `==` finds equal are one.

ghost use Rattle.std.specs.Prelude.{◌≡◌, ◌↔◌, IsTrue, List};
ghost use Rattle.std.specs.Cmp.Lexicographic.{pointwise};
ghost use Rattle.ob_model.specs.declared.entries.Listed.{Listed};

use ob_model::{Answer, Command, Event, Given, Listed};
use ob_types::{TypeSet, laws};

/// Whether these are one event.
pub(crate) fn is_same_event<T: TypeSet>(a: &Event<T::Kind>, b: &Event<T::Kind>) -> bool
    ensures { IsTrue result ↔ a.now ≡ b.now }
{
    match (a, b) {
        (
            Event::Start { process, command },
            Event::Start {
                process: other,
                command: asked,
            },
        ) => process == other && is_same_command::<T>(command, asked),
        (
            Event::Resume { ticket, parse },
            Event::Resume {
                ticket: number,
                parse: run,
            },
        )
        | (
            Event::Abandon { ticket, parse },
            Event::Abandon {
                ticket: number,
                parse: run,
            },
        ) => ticket == number && parse == run,
        _ => false,
    }
}

/// Whether these are one command.
fn is_same_command<T: TypeSet>(a: &Command<T::Kind>, b: &Command<T::Kind>) -> bool
    ensures { IsTrue result ↔ a.now ≡ b.now }
{
    kinds_are_one::<T>();
    a == b
}

/// Equal kinds are one.
fn kinds_are_one<T: TypeSet>()
    ensures { (a b : T.Kind) → IsTrue (T.Kind.PartialEq.eq a b) ↔ a ≡ b }
{
    laws::one_kind::<T>();
    laws::own_kind::<T>();
    laws::equal_kinds::<T>();
}

/// Whether these are one answer.
pub(crate) fn is_same_answer(a: &Answer, b: &Answer) -> bool
    ensures { IsTrue result ↔ a.now ≡ b.now }
{
    match (a, b) {
        (Answer::Done(reply), Answer::Done(other)) => {
            reply.status == other.status && is_same_given(&reply.given, &other.given)
        }
        (Answer::Ticket(ticket), Answer::Ticket(other)) => ticket == other,
        _ => false,
    }
}

/// Whether the same is given.
fn is_same_given(a: &Given, b: &Given) -> bool
    ensures { IsTrue result ↔ a.now ≡ b.now }
{
    pages_are_one();
    a == b
}

/// Equal pages are one.
fn pages_are_one()
    ensures { (a b : List Listed) → IsTrue (pointwise ⟦<Listed as PartialEq>⟧.eq a b) ↔ a ≡ b }
{
    listed_are_one();
}

/// Equal entries of a page are one.
fn listed_are_one()
    ensures { (a b : Listed) → IsTrue (⟦<Listed as PartialEq>⟧.eq a b) ↔ a ≡ b }
{}
