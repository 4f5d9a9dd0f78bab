//! Two viewers take turns with the writer.

use crate::writer::{Writer, sees};
use ob_published::Naming;
use ob_view::Viewer;
use std::sync::Wait;
use std::sync::ledger::Ledger;

/// Whether two viewers see a directory exactly from the publish after its creation to the publish after its deletion, the
/// first at once when it is given them, the second when it looks.
pub(crate) fn takes_turns<R: Wait, W: Wait + Drop, L: Ledger, J: Naming>(
    writer: &mut Writer<'_, R, W, L, J>,
    viewers: &mut [Viewer<J>],
) -> Option<bool> {
    let [first, second] = viewers else {
        return None;
    };
    Some(are_seen(writer, first, second) == Some(true))
}

/// The turns.
fn are_seen<R: Wait, W: Wait + Drop, L: Ledger, J: Naming>(
    writer: &mut Writer<'_, R, W, L, J>,
    first: &mut Viewer<J>,
    second: &mut Viewer<J>,
) -> Option<bool> {
    let handle = writer.make(b"\\A")?;
    let unseen = sees(first, b"A", false, 0) && sees(second, b"A", false, 0);
    let published = writer.publish()?;
    first.told(&published);
    let seen = published.number() == 1 && sees(first, b"A", true, 1);
    let closed = writer.closes(handle);
    let kept = sees(second, b"a", true, 1);
    let published = writer.publish()?;
    first.told(&published);
    let gone = published.number() == 2 && sees(first, b"A", false, 2);
    let again = writer.publish()?;
    let same = again.number() == 2 && again.count() == published.count();
    Some(unseen && seen && closed && kept && gone && same && sees(second, b"A", false, 2))
}
