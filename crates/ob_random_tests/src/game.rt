//! A game: random turns of a namespace over a set of types, each beside the model.

ghost use Rattle.std.specs.Prelude.{◌≡◌, [], OnOk};
ghost use Rattle.ob_runner.specs.Begun.{AreAwaited, tickets_of, with_begun, without};

use crate::dice::Dice;
use crate::turn::Turn;
use crate::{devices, random};
use either::Either;
use ob_base::{Fault, Handle, Proc};
use ob_core::{Bytes, Cache, Command, Core, HandleTable, OpenTable, Place, SlabTable};
use ob_device::DeviceKind;
use ob_flat_model::{Ask, Deed, FlatKind, FlatName, FlatPath, Model, text};
use ob_plain::PlainKind;
use ob_runner::{Begun, Waits, begin_open, drop_open, end_open, give_all_up};
use ob_standard::{Standard, StandardKind};
use ob_survey::survey;
use ob_tree::{Style, tree_text};
use ob_types::TypeSet;
use std::alloc::{AllocError, Global};
use std::mem;
use std::num::NonZeroUsize;

// After how many turns the tree is drawn again.
const DRAWN: u32 = 50;

/// A set of types over which games are played, and whose calls are counted.
pub(crate) trait Played: TypeSet {
    /// The set's kind of objects of a kind; any, where it hasn't that.
    fn kind(of: FlatKind) -> Self::Kind;

    /// How often the set opened, closed and deleted an object.
    fn calls(&self) -> (u64, u64, u64);
}

impl Played for Standard {
    fn kind(of: FlatKind) -> StandardKind {
        match of {
            FlatKind::Mutant => Either::Left(PlainKind::Mutant),
            FlatKind::Section => Either::Left(PlainKind::Section),
            FlatKind::Device => Either::Right(Either::Left(DeviceKind::Device)),
            FlatKind::File => Either::Right(Either::Left(DeviceKind::File)),
            _ => Either::Left(PlainKind::Event),
        }
    }

    fn calls(&self) -> (u64, u64, u64) {
        (self.opens(), self.closes(), self.deletes())
    }
}

/// The game that is played.
#[derive(Clone, Copy)]
pub(crate) enum Game {
    /// Commands of a dozen processes, some of which have device maps.
    Commands,
    /// Opens of ten processes that wait for the parses of a device.
    Opens,
}

impl Game {
    // The next turn, where so many turns are done.
    fn turn(self, dice: &mut Dice, model: &Model, done: u32) -> Turn {
        match self {
            Game::Commands => random::turn(dice, model, done),
            Game::Opens => devices::turn(dice, model, done),
        }
    }
}

// The place of what is made.
fn place_of(alloc: Global, name: Option<FlatName>) -> Result<Place, AllocError> {
    match name {
        Some(name) => Ok(Place::At {
            root: handle_of(name),
            name: Bytes::new(text(alloc, name)?),
        }),
        None => Ok(Place::Unnamed),
    }
}

// The create of a directory, with a shadow where one is given.
fn make_directory<K>(
    alloc: Global,
    shadow: Option<u32>,
    name: Option<FlatName>,
    attrs: u32,
) -> Result<Command<K>, AllocError> {
    let place = place_of(alloc, name)?;
    Ok(match shadow {
        Some(shadow) => Command::CreateShadowed {
            place,
            attrs,
            shadow: Handle(shadow),
        },
        None => Command::CreateDirectory { place, attrs },
    })
}

// The create of a link.
fn make_link<K>(
    alloc: Global,
    path: FlatPath,
    name: Option<FlatName>,
    attrs: u32,
) -> Result<Command<K>, AllocError> {
    let root = None;
    let target = Bytes::new(text(alloc, FlatName { root, path })?);
    Ok(Command::CreateLink {
        place: place_of(alloc, name)?,
        attrs,
        target,
    })
}

// The create of an object of a set. A device has one file.
fn make_object<S: Played>(
    alloc: Global,
    of: FlatKind,
    name: Option<FlatName>,
    attrs: u32,
) -> Result<Command<S::Kind>, AllocError> {
    let args: &'static [u8] = match of {
        FlatKind::Device => b"com1",
        _ => b"",
    };
    let args = Bytes::from_slice(alloc, args)?;
    Ok(Command::CreateObject {
        place: place_of(alloc, name)?,
        attrs,
        kind: S::kind(of),
        args,
    })
}

fn open<S: Played>(
    want: Option<FlatKind>,
    root: Option<Handle>,
    name: Bytes,
    attrs: u32,
) -> Command<S::Kind> {
    let want = match want {
        Some(FlatKind::Directory) => return Command::OpenDirectory { root, name, attrs },
        Some(FlatKind::Link) => return Command::OpenLink { root, name, attrs },
        Some(of) => Some(S::kind(of)),
        None => None,
    };
    Command::OpenObject {
        root,
        name,
        attrs,
        want,
    }
}

// A context that a process gives is that of its last page.
fn on_handle<K>(handle: Handle, deed: Deed, context: u64) -> Command<K> {
    match deed {
        Deed::Close => Command::Close { handle },
        Deed::Turn { permanent: true } => Command::MakePermanent { handle },
        Deed::Turn { permanent: false } => Command::MakeTemporary { handle },
        Deed::Map => Command::SetDeviceMap { handle },
        Deed::Target => Command::QueryLink { handle },
        Deed::Name => Command::QueryName { handle },
        Deed::List(part) => Command::QueryDirectory {
            handle,
            context,
            room: part.room,
            single: part.single,
            restart: part.restart,
        },
        Deed::Duplicate { to, inherit } => Command::Duplicate {
            handle,
            to: Proc(to),
            inherit,
        },
    }
}

// The handle that a name is relative to.
fn handle_of(name: FlatName) -> Option<Handle> {
    Some(Handle(name.root?))
}

fn command<S: Played>(
    alloc: Global,
    ask: Ask,
    context: u64,
) -> Result<Command<S::Kind>, AllocError> {
    match ask {
        Ask::Make {
            of,
            target,
            shadow,
            name,
            attrs,
        } => match of {
            FlatKind::Directory => make_directory(alloc, shadow, name, attrs),
            FlatKind::Link => make_link(alloc, target, name, attrs),
            _ => make_object::<S>(alloc, of, name, attrs),
        },
        Ask::Open { want, name, attrs } => {
            let text = Bytes::new(text(alloc, name)?);
            Ok(open::<S>(want, handle_of(name), text, attrs))
        }
        Ask::Use { value, deed } => Ok(on_handle(Handle(value), deed, context)),
        Ask::Begin { inherit } => Ok(Command::NewProcess { inherit }),
        Ask::Exit => Ok(Command::ExitProcess),
    }
}

// Keeps the ticket of an open that begins to wait.
fn note(tickets: &mut Vec<u64>, begun: &Begun) -> Result<(), AllocError>
    ensures { OnOk result (tickets.new.items ≡ with_begun begun.now tickets.old.items) }
{
    match begun {
        Begun::Waits(ticket) => tickets.push(*ticket)?,
        Begun::Replied(_) => {}
    }
    Ok(())
}

// Forgets a ticket.
fn forget(tickets: &mut Vec<u64>, ticket: u64)
    ensures { tickets.new.items ≡ without ticket tickets.old.items }
{
    tickets.retain(|kept| *kept != ticket);
}

// Whether a command that a process asks for becomes what it is to.
fn starts<S: TypeSet, H: HandleTable>(
    core: &mut Core<S, H>,
    waits: &mut Waits<S>,
    tickets: &mut Vec<u64>,
    model: &mut Model,
    command: &Command<S::Kind>,
    process: u32,
    ask: Ask,
) -> Result<bool, AllocError>
    requires awaited { AreAwaited core.old waits.old }
    requires tickets { tickets.old.items ≡ tickets_of waits.old }
    ensures awaited { AreAwaited core.new waits.new }
    ensures tickets { OnOk result (tickets.new.items ≡ tickets_of waits.new) }
{
    let begun = begin_open(core, waits, Proc(process), command)?;
    let noted = note(tickets, &begun);
    let starts = model.starts(process, ask, &begun);
    mem::drop(begun);
    noted?;
    starts
}

// Whether the open that waits at a place ends as it is to.
fn ends<S: TypeSet, H: HandleTable>(
    core: &mut Core<S, H>,
    waits: &mut Waits<S>,
    tickets: &mut Vec<u64>,
    model: &mut Model,
    place: usize,
) -> Result<bool, AllocError>
    requires awaited { AreAwaited core.old waits.old }
    requires tickets { tickets.old.items ≡ tickets_of waits.old }
    ensures awaited { AreAwaited core.new waits.new }
    ensures tickets { OnOk result (tickets.new.items ≡ tickets_of waits.new) }
{
    let Some(waiting) = model.take(place) else {
        return Ok(false);
    };
    let ticket = waiting.ticket();
    if !tickets.contains(&ticket) {
        return Ok(false);
    }
    let begun = end_open(core, waits, model.alloc(), ticket)?;
    forget(tickets, ticket);
    let noted = note(tickets, &begun);
    let ends = model.ends(waiting, &begun);
    mem::drop(begun);
    noted?;
    ends
}

// Gives up the open that waits at a place: whether one waits under its ticket.
fn give_up<S: TypeSet, H: HandleTable>(
    core: &mut Core<S, H>,
    waits: &mut Waits<S>,
    tickets: &mut Vec<u64>,
    model: &mut Model,
    place: usize,
) -> bool
    requires awaited { AreAwaited core.old waits.old }
    requires tickets { tickets.old.items ≡ tickets_of waits.old }
    ensures awaited { AreAwaited core.new waits.new }
    ensures tickets { tickets.new.items ≡ tickets_of waits.new }
{
    let Some(waiting) = model.take(place) else {
        return false;
    };
    let ticket = waiting.ticket();
    if !tickets.contains(&ticket) {
        return false;
    }
    drop_open(core, waits, ticket);
    forget(tickets, ticket);
    true
}

// Whether what comes next ends as the model says.
fn is_agreed<S: Played, H: HandleTable>(
    core: &mut Core<S, H>,
    waits: &mut Waits<S>,
    tickets: &mut Vec<u64>,
    model: &mut Model,
    turn: Turn,
) -> Result<bool, AllocError>
    requires awaited { AreAwaited core.old waits.old }
    requires tickets { tickets.old.items ≡ tickets_of waits.old }
    ensures awaited { AreAwaited core.new waits.new }
    ensures tickets { OnOk result (tickets.new.items ≡ tickets_of waits.new) }
{
    match turn {
        Turn::Start(process, ask) => {
            let command = command::<S>(model.alloc(), ask, model.context(process))?;
            let starts = starts(core, waits, tickets, model, &command, process, ask);
            // (by a call, since the drop of a command is long)
            mem::drop(command);
            starts
        }
        Turn::End(place) => ends(core, waits, tickets, model, place),
        Turn::Drop(place) => Ok(give_up(core, waits, tickets, model, place)),
    }
}

// Whether there is as much as in the model, and as much was done, and a process has as many handles.
fn is_counted<S: Played, H: HandleTable>(core: &Core<S, H>, model: &Model, process: u32) -> bool {
    let own = core.handles_of(Proc(process));
    let counts = (core.objects(), core.handles(), own);
    counts == model.counts(process) && core.set().calls() == model.calls()
}

// Whether the tree of a namespace is that of the model.
fn is_drawn<S: Played, H: HandleTable>(
    core: &Core<S, H>,
    model: &Model,
) -> Result<bool, AllocError> {
    let seen = survey(model.alloc(), core)?;
    let tree = tree_text(model.alloc(), &seen, Style::Ascii)?;
    Ok(tree.as_slice() == model.tree()?.as_slice())
}

// How many of so many turns end as the model says, up to the first that doesn't.
fn play<S: Played, H: HandleTable>(
    core: &mut Core<S, H>,
    waits: &mut Waits<S>,
    tickets: &mut Vec<u64>,
    model: &mut Model,
    game: Game,
    dice: &mut Dice,
    count: u32,
) -> Result<u32, AllocError>
    requires awaited { AreAwaited core.old waits.old }
    requires tickets { tickets.old.items ≡ tickets_of waits.old }
    ensures awaited { AreAwaited core.new waits.new }
{
    for done in 0..count {
        let turn = game.turn(dice, model, done);
        let is_agreed = is_agreed(core, waits, tickets, model, turn)?;
        if !is_agreed || !is_counted(core, model, done % 12) {
            return Ok(done);
        }
        if done % DRAWN == 0 && !is_drawn(core, model)? {
            return Ok(done);
        }
    }
    Ok(count)
}

// The same from a state of the dice.
fn play_from<S: Played, H: HandleTable>(
    core: &mut Core<S, H>,
    waits: &mut Waits<S>,
    model: &mut Model,
    game: (Game, u64),
    count: u32,
) -> Result<u32, AllocError>
    requires awaited { AreAwaited core.old waits.old }
    requires none { tickets_of waits.old ≡ [] }
    ensures awaited { AreAwaited core.new waits.new }
{
    let (game, state) = game;
    let (mut tickets, mut dice) = (Vec::new(model.alloc()), Dice { state });
    play(core, waits, &mut tickets, model, game, &mut dice, count)
}

// How many turns end as the model says in a new namespace; none where giving all up that waits then changes what is
// counted.
fn agreed_in<S: Played, H: HandleTable>(
    core: &mut Core<S, H>,
    model: &mut Model,
    game: (Game, u64),
    count: u32,
) -> Result<u32, AllocError> {
    let mut waits = Waits::new(model.alloc());
    let done = play_from(core, &mut waits, model, game, count);
    give_all_up(core, waits);
    match is_counted(core, model, 1) {
        true => done,
        false => Ok(0),
    }
}

// For how many prefixes the caches of the two games from a state of the dice have room, the one over an `OpenTable` and the one
// over a `SlabTable`: as many as a cache has of itself, and two, by turns.
fn rooms(state: u64) -> (usize, usize) {
    match state % 2 {
        0 => (256, 2),
        _ => (2, 256),
    }
}

// How many of so many turns of a game from a state of the dice end as the model says, where names are looked up by a cache with
// room for so many prefixes, of which there is one at least.
fn agreed<H: HandleTable>(
    alloc: Global,
    game: (Game, u64),
    room: usize,
    count: u32,
) -> Result<u32, Fault> {
    let Some(room) = NonZeroUsize::new(room) else {
        return Ok(0);
    };
    let mut model = Model::new(alloc)?;
    let cache = Cache::with_room(alloc, room)?;
    agreed_over::<Standard, H>(&mut model, Standard::new(), cache, game, count)
}

// The same over a set of types, beside a model of the opening state.
fn agreed_over<S: Played, H: HandleTable>(
    model: &mut Model,
    set: S,
    cache: Cache,
    game: (Game, u64),
    count: u32,
) -> Result<u32, Fault> {
    let mut core: Core<S, H> = Core::with_cache(model.alloc(), set, cache)?;
    let done = agreed_in(&mut core, model, game, count);
    // (dropped by a call, since the drop of a namespace is long, and would be proved anew on each way out)
    mem::drop(core);
    Ok(done?)
}

/// How many turns of a game end so over each handle table, an `OpenTable` and a `SlabTable`.
pub(crate) fn agreed_by_tables(
    alloc: Global,
    game: Game,
    state: u64,
    count: u32,
) -> Result<(u32, u32), Fault> {
    let (room, other_room) = rooms(state);
    let over_maps = agreed::<OpenTable>(alloc, (game, state), room, count)?;
    let over_a_slab = agreed::<SlabTable>(alloc, (game, state), other_room, count)?;
    Ok((over_maps, over_a_slab))
}
