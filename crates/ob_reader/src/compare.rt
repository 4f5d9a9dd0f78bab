//! The comparison of what a line says with an answer.

ghost use Rattle.std.specs.Prelude.{◌≡◌, ◌↔◌, IsTrue};
ghost use Rattle.ob_model.specs.declared.entries.Listed.{Listed};
ghost use Rattle.ob_reader.specs.Reading.{gift_of, said_of};

use crate::said::{Gift, Numbers, Said};
use ob_model::{Answer, Entries, Given, Handles, Listed};

/// Whether a line says this of an answer: the number of its status, and all that is given, each entry and each value in its
/// place. Takes no memory. (this profile)
pub fn is_said(said: &Said, answer: &Answer) -> bool
    ensures { IsTrue result ↔ said.now ≡ said_of answer.now }
{
    match (said, answer) {
        (Said::Ticket(ticket), Answer::Ticket(other)) => ticket == other,
        (Said::Done { status, gift }, Answer::Done(reply)) => {
            *status == u64::from(reply.status.code()) && is_gift(gift, &reply.given)
        }
        _ => false,
    }
}

// Whether a line says this of what is given.
fn is_gift(gift: &Gift, given: &Given) -> bool
    ensures { IsTrue result ↔ gift.now ≡ gift_of given.now }
{
    match (gift, given) {
        (Gift::Nothing, Given::Nothing) => true,
        (Gift::Handle(handle), Given::Handle(other)) => *handle == u64::from(other.0),
        (Gift::Text(text), Given::Text(other)) => text == other,
        (Gift::Process(process, numbers), Given::Process(other, handles)) => {
            *process == u64::from(other.0) && has_numbers(numbers, handles)
        }
        (
            Gift::Page { entries, context },
            Given::Page {
                entries: others,
                context: stamp,
            },
        ) => context == stamp && is_same_page(entries, others),
        _ => false,
    }
}

// Whether these are the same entries of a page, in the same order.
fn is_same_page(a: &Entries, b: &Entries) -> bool
    ensures { IsTrue result ↔ a.now ≡ b.now }
{
    listed_are_one();
    a == b
}

// Equal entries of a page are one.
fn listed_are_one()
    ensures { (a b : Listed) → IsTrue (⟦<Listed as PartialEq>⟧.eq a b) ↔ a ≡ b }
{}

// Whether these are the numbers of the handle values.
fn has_numbers(numbers: &Numbers, handles: &Handles) -> bool
    ensures { IsTrue result ↔ numbers.now ≡ handles.now }
{
    let (these, those) = (numbers.as_slice(), handles.as_slice());
    if these.len() != those.len() {
        return false;
    }
    for (i, number) in these.iter().enumerate() {
        let handle = those[i];
        if *number != u64::from(handle.0) {
            return false;
        }
    }
    true
}
