//! One entry of a journal.

ghost use Rattle.std.specs.Prelude.{◌≡◌, ◌↔◌, IsTrue};

use crate::alike::{is_same_answer, is_same_event};
use ob_model::{Answer, Event};
use ob_types::TypeSet;
use std::marker::Model;

/// One entry of a journal: an event of the history, who asked for it, and how it ended. `K` is the kind of an object of
/// the set of types. Contracts see the entry of a run: its number, its seat, its event and its answer. (this profile)
#[derive(Debug, Drop)]
pub struct Entry<K> {
    /// Its place in the journal, from 1.
    pub number: u64,
    /// The seat of the caller that asked: 0 to 1,023.
    pub seat: u32,
    /// The event that was asked for.
    pub step: Event<K>,
    /// How it ended: with a reply, or with an open that waits for its parse.
    pub reply: Answer,
}

impl<K> Model for Entry<K> {
    ghost use Rattle.ob_model.specs.Run as run;

    ghost Value = { run.Entry K };

    ghost view = { λ e.
        record { number = e.number; seat = e.seat; event = e.step; answer = e.reply } };
}

/// Whether these are one entry: of one number and one seat, with the same step and the same reply. Takes no memory. (this
/// profile)
pub fn is_same_entry<T: TypeSet>(a: &Entry<T::Kind>, b: &Entry<T::Kind>) -> bool
    ensures { IsTrue result ↔ a.now ≡ b.now }
{
    a.number == b.number
        && a.seat == b.seat
        && is_same_event::<T>(&a.step, &b.step)
        && is_same_answer(&a.reply, &b.reply)
}
