//! A copy of a namespace over a caller's own objects.

use ob_base::{Handle, Proc};
use ob_core::{Bytes, Command, Core, Given, Pending, Place, Reply, SlabTable, Started};
use ob_host::{HostSet, Kind, arguments};
use std::alloc::Global;

/// A namespace over a caller's own objects. A struct without contracts, so that the tests are proved without a look
/// into the types of the set.
#[derive(Drop)]
struct Host {
    core: Core<HostSet, SlabTable>,
}

/// The namespace in the opening state.
fn opened(alloc: Global) -> Option<Host> {
    let core = Core::new(alloc, HostSet::new()).ok()?;
    Some(Host { core })
}

/// A copy of the namespace.
fn copied(host: &Host) -> Option<Host> {
    let core = host.core.copy().ok()?;
    Some(Host { core })
}

/// The reply to a command of process 1; none where memory runs out, or an open waits, which is given up.
fn replied(host: &mut Host, command: &Command<Kind>) -> Option<Reply> {
    match host.core.start(Proc(1), command) {
        Ok(Started::Done(reply)) => Some(reply),
        Ok(Started::Parsing(parsing)) => {
            host.core.abandon(Pending::Unrun(parsing));
            None
        }
        Err(_) => None,
    }
}

/// The command that makes an event with these user data, under a name or without one.
fn making(alloc: Global, name: &str, user_data: u64) -> Option<Command<Kind>> {
    let args = Bytes::from_slice(alloc, &arguments(user_data)).ok()?;
    let place = if name.is_empty() {
        Place::Unnamed
    } else {
        let name = Bytes::from_slice(alloc, name.as_bytes()).ok()?;
        Place::At { root: None, name }
    };
    Some(Command::CreateObject {
        place,
        attrs: 0,
        kind: Kind::Event,
        args,
    })
}

/// The handle that a reply gives, if any.
fn handle_of(reply: &Reply) -> Option<Handle> {
    match &reply.given {
        Given::Handle(handle) => Some(*handle),
        _ => None,
    }
}

/// Process 1 makes an event with these user data, under a name or without one; its handle.
fn made(alloc: Global, host: &mut Host, name: &str, user_data: u64) -> Option<Handle> {
    let command = making(alloc, name, user_data)?;
    let reply = replied(host, &command)?;
    handle_of(&reply)
}

/// Process 1 closes a handle; the user data of the object that is deleted then.
fn closed(host: &mut Host, handle: Handle) -> Option<u64> {
    let _ = replied(host, &Command::Close { handle })?;
    Some(host.core.take_next()?.user_data)
}

/// The counts of a namespace: its objects, their names, and its handles.
fn counts(host: &Host) -> (usize, usize, usize) {
    (host.core.objects(), host.core.names(), host.core.handles())
}

/// Whether a copy has the state of its namespace, and goes its own way from there, also in its set.
fn goes_its_own_way(alloc: Global) -> Option<bool> {
    let mut host = opened(alloc)?;
    let first = made(alloc, &mut host, "", 7)?;
    let named = made(alloc, &mut host, "\\Device\\a", 8)?;
    let kept = made(alloc, &mut host, "", 9)?;
    let _ = replied(&mut host, &Command::Close { handle: kept })?;
    let mut copy = copied(&host)?;
    let is_same = counts(&copy) == (8, 6, 2) && counts(&host) == (8, 6, 2);
    let first_deleted = copy.core.take_next()?.user_data;
    let then_deleted = closed(&mut copy, first);
    let last_deleted = closed(&mut copy, named);
    let is_apart = counts(&copy) == (6, 5, 0) && counts(&host) == (8, 6, 2);
    let is_deleted = first_deleted == 9 && then_deleted == Some(7) && last_deleted == Some(8);
    let is_still_kept = host.core.take_next()?.user_data == 9 && host.core.take_next().is_none();
    let is_like_it = made(alloc, &mut copied(&host)?, "", 1) == made(alloc, &mut host, "", 1);
    Some(is_same && is_apart && is_deleted && is_still_kept && is_like_it)
}

#[test]
fn a_copy_has_the_state_of_its_namespace_and_goes_its_own_way(rt: HostRuntime) {
    assert!(rt; goes_its_own_way(rt.alloc()) == Some(true));
}
