//! Callers on threads of their own.

use crate::asked::{Asked, What};
use crate::caller::{Caller, Devices, NoGate};
use ob_base::{Fault, Handle, Status};
use ob_device::DeviceKind;
use ob_shared::{Gate, Pass};
use std::alloc::{AllocError, Global};
use std::sync::Wait;
use std::sync::atomic::AtomicBool;
use std::sync::atomic::Ordering::SeqCst;
use std::sync::ledger::Ledger;
use std::thread;
use std::thread::Threads;
use std::time::{Clock, Duration};

/// The rounds that each of many callers makes so many times over.
#[derive(Clone, Copy)]
pub(crate) struct Rounds {
    /// Whether it makes rounds on a name of its own.
    pub(crate) on_its_own: bool,
    /// Whether it makes rounds on a name that all callers share. The answers there depend on the others.
    pub(crate) on_one: bool,
    /// How many times over.
    pub(crate) count: u32,
}

/// The deed of callers.
#[derive(Clone, Copy)]
pub(crate) enum Deed {
    /// Seat 0 opens a file of a device, and waits in its gate until seat 1 was answered.
    Meet,
    /// The caller of this seat makes eleven steps, an open by parse among them; the others do nothing.
    Work(u32),
    /// Seat 0 seals the journal while its open waits, after it was resumed, and at once again; the others do nothing.
    Seal,
    /// Each makes rounds.
    Rounds(Rounds),
    /// Each of so many makes rounds, and seat 0 seals the journal after each of its own, and writes what was sealed while the others go on.
    Write(Rounds, u32),
}

/// The deed of callers, and how far two of them have come.
#[derive(Drop)]
pub(crate) struct Play {
    deed: Deed,
    /// Seat 0 has entered its gate.
    entered: AtomicBool,
    /// Seat 1 was answered.
    answered: AtomicBool,
    /// The gate was left before that, or a seal didn't give what it should.
    failed: AtomicBool,
}

impl Play {
    /// A play that has not begun.
    pub(crate) fn new(deed: Deed) -> Play {
        Play {
            deed,
            entered: AtomicBool::new(false),
            answered: AtomicBool::new(false),
            failed: AtomicBool::new(false),
        }
    }

    /// Whether a gate was left too early, or a seal didn't give what it should.
    pub(crate) fn is_failed(&self) -> bool {
        self.failed.load(SeqCst)
    }
}

/// A gate that is left once the other caller was answered.
#[derive(Drop)]
struct UntilAnswered<'a, R> {
    rt: &'a R,
    play: &'a Play,
}

impl<R: Clock> Gate for UntilAnswered<'_, R> {
    fn between(&self) {
        self.play.entered.store(true, SeqCst);
        if !is_given(self.rt, &self.play.answered) {
            self.play.failed.store(true, SeqCst);
        }
    }
}

/// Waits for a signal, at most 10,000 times a millisecond; whether it was given.
fn is_given<R: Clock>(rt: &R, signal: &AtomicBool) -> bool {
    for _ in 0..10_000 {
        if signal.load(SeqCst) {
            return true;
        }
        thread::sleep(rt, Duration::from_millis(1));
    }
    false
}

/// Creates a device and opens a file of it, and waits in the gate of that until the other caller was answered.
fn open_slowly<R: Wait + Clock, L: Ledger>(
    rt: &R,
    alloc: Global,
    space: &Devices<L>,
    caller: &mut Caller<L>,
    play: &Play,
) {
    let device = Asked::Create(What::Device);
    caller.ask_through(rt, alloc, space, (device, b"\\Device\\D"), &NoGate);
    let file = Asked::Open(What::Device);
    let gate = UntilAnswered { rt, play };
    caller.ask_through(rt, alloc, space, (file, b"\\Device\\D\\x"), &gate);
}

/// Creates another device and asks for its path, once the other caller has entered its gate.
fn make_meanwhile<R: Wait + Clock, L: Ledger>(
    rt: &R,
    alloc: Global,
    space: &Devices<L>,
    caller: &mut Caller<L>,
    play: &Play,
) {
    if is_given(rt, &play.entered) {
        let made = caller.ask(
            rt,
            alloc,
            space,
            Asked::Create(What::Device),
            b"\\Device\\E",
        );
        let (_, handle) = made.unwrap_or((Status::Success, Handle(0)));
        caller.ask(rt, alloc, space, Asked::Name(handle), b"");
        play.answered.store(true, SeqCst);
    }
}

/// Creates a device and opens a file of it by a parse, and makes two rounds.
fn work<R: Wait, L: Ledger>(rt: &R, alloc: Global, space: &Devices<L>, caller: &mut Caller<L>) {
    caller.ask(
        rt,
        alloc,
        space,
        Asked::Create(What::Device),
        b"\\Device\\D",
    );
    caller.ask(
        rt,
        alloc,
        space,
        Asked::Open(What::Device),
        b"\\Device\\D\\x",
    );
    for _ in 0..2 {
        caller.round(rt, alloc, space, b"\\A");
    }
}

/// Creates a device, begins an open of a file of it, seals the journal, ends the open, and seals it twice.
fn seal_thrice<R: Wait, L: Ledger>(
    rt: &R,
    alloc: Global,
    space: &Devices<L>,
    caller: &mut Caller<L>,
    play: &Play,
) {
    let device = Asked::Create(What::Device);
    caller.ask(rt, alloc, space, device, b"\\Device\\D");
    let empty = Err(Fault::Refused(Status::InvalidParameter));
    let seals = caller.seal_around(rt, alloc, space, b"\\Device\\D\\x");
    if seals != Some([Ok((1, 1, 2)), Ok((2, 3, 1)), empty]) {
        play.failed.store(true, SeqCst);
    }
}

/// Makes rounds; it stops at a fault, so that entries are missing then.
fn make_rounds<R: Wait, L: Ledger>(
    rt: &R,
    alloc: Global,
    space: &Devices<L>,
    caller: &mut Caller<L>,
    rounds: Rounds,
) {
    let own = [b'\\', b'A' + (caller.seat() % 26) as u8];
    for _ in 0..rounds.count {
        let is_well = !rounds.on_its_own || caller.round(rt, alloc, space, &own) == Some(true);
        let is_made = !rounds.on_one || caller.round(rt, alloc, space, b"\\S").is_some();
        if !is_well || !is_made {
            return;
        }
    }
}

/// Makes so many rounds, and after each seals the journal of so many seats, and writes the segment.
fn write_segments<R: Wait, L: Ledger>(
    rt: &R,
    alloc: Global,
    space: &Devices<L>,
    caller: &mut Caller<L>,
    (count, seats): (u32, u32),
    play: &Play,
) {
    for _ in 0..count {
        let is_made = caller.round(rt, alloc, space, b"\\A") == Some(true);
        if !is_made || !caller.write_out(rt, alloc, space, seats) {
            play.failed.store(true, SeqCst);
            return;
        }
    }
}

/// Does what the caller of this pass does.
fn act<R: Wait + Clock, L: Ledger>(
    rt: &R,
    alloc: Global,
    space: &Devices<L>,
    pass: Pass<DeviceKind, L>,
    play: &Play,
) -> Caller<L> {
    let mut caller = Caller {
        pass: Some(pass),
        lines: Vec::new(alloc),
    };
    let seat = caller.seat();
    match play.deed {
        Deed::Meet if seat == 0 => open_slowly(rt, alloc, space, &mut caller, play),
        Deed::Meet => make_meanwhile(rt, alloc, space, &mut caller, play),
        Deed::Work(maker) if seat == maker => work(rt, alloc, space, &mut caller),
        Deed::Work(_) => {}
        Deed::Seal if seat == 0 => seal_thrice(rt, alloc, space, &mut caller, play),
        Deed::Seal => {}
        Deed::Write(rounds, seats) if seat == 0 => {
            write_segments(rt, alloc, space, &mut caller, (rounds.count, seats), play);
        }
        Deed::Rounds(rounds) | Deed::Write(rounds, _) => {
            make_rounds(rt, alloc, space, &mut caller, rounds);
        }
    }
    caller
}

/// Has the caller of each pass act on a thread of its own.
pub(crate) fn at_once<R: Threads + Wait + Clock + Sync, L: Ledger + Send + Sync>(
    rt: &R,
    alloc: Global,
    space: &Devices<L>,
    passes: Vec<Pass<DeviceKind, L>>,
    play: &Play,
) -> Result<Vec<Caller<L>>, AllocError> {
    thread::map_vec(rt, passes, &|pass| act(rt, alloc, space, pass, play))
}
