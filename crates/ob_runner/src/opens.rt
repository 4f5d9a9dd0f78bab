//! Opens that are begun, ended and given up.

ghost use Rattle.std.specs.Prelude.{◌≡◌, ◌≢◌, ◌==◌, ◌<◌, true, false, [], ◌∷◌, ◌++◌, All, List, IfOk, OnErr, OnOk};
ghost use Rattle.std.specs.List.{list_any};
ghost use Rattle.ob_base.specs.declared.status.Status.TheVariants.{Success};
ghost use Rattle.ob_model.specs.declared.reply.Event.TheVariants.{Start, Resume, Abandon};
ghost use Rattle.ob_model.specs.declared.reply.ParseRun.{ParseRun};
ghost use Rattle.ob_model.specs.declared.reply.ParseRun.TheVariants.{Unrun};
ghost use Rattle.ob_model.specs.Refusals.{answers};
ghost use Rattle.ob_model.specs.Step.{Step};
ghost use Rattle.ob_types.specs.Pending.{run_of, run_of_end, brought as end_of};
ghost use Rattle.ob_types.specs.Parse.{asked_of};
ghost use Rattle.ob_opens.specs.Waiting.{IsParseOf};
ghost use Rattle.ob_runner.specs.Completes.{Made, HasRun, GivesUp, Falters};
ghost use Rattle.ob_runner.specs.declared.begun.Begun.TheVariants as begun;
ghost use Rattle.ob_runner.specs.Begun.{answer_in, AreAwaited, GivesAllUp, IfWaits, tickets_of, with_begun, without};

use crate::{Begun, Core, Started, Waits};
use ob_base::Proc;
use ob_handles::HandleTable;
use ob_model::Command;
use ob_types::laws::own_face;
use ob_types::{Parsed, Parsing, Pending, TypeSet};
use std::alloc::{AllocError, Global};

/// Starts a command of a process, and keeps its parse where it is an open that waits for one. Until that open is ended or
/// given up, others may be begun, and other steps made.
///
/// The only fault is out of memory. Where it came before the first step, nothing has changed; where no memory was
/// left to keep a parse, its open is given up, which is a step of its own. The parses that were kept before stay.
///
/// Source: Windows Internals, Object Manager (parse methods); that a parse is run between two steps is this profile.
pub fn begin_open<T: TypeSet, H: HandleTable>(
    core: &mut Core<T, H>,
    waits: &mut Waits<T>,
    process: Proc,
    command: &Command<T::Kind>,
) -> Result<Begun, AllocError>
    requires awaited { AreAwaited core.old waits.old }
    ensures awaited { AreAwaited core.new waits.new }
    ensures begun { IfOk result (λ begun.
        Step T.procedures core.old (Start process command.now) (answer_in begun) core.new) }
    ensures tickets { IfOk result (λ begun. tickets_of waits.new
        ≡ with_begun begun (tickets_of waits.old)) }
    ensures fresh { IfOk result (λ begun. IfWaits begun (λ n.
        (n ≢ 0) × (list_any (λ k. k == n) (tickets_of waits.old) ≡ false))) }
    ensures faltered { OnErr result ((steps : List (Made T.Kind))
        × Falters T.procedures (Start process command.now) steps core.old core.new) }
    ensures kept { OnErr result (tickets_of waits.new ≡ tickets_of waits.old) }
{
    core.state_is_sound();
    match core.start(process, command) {
        Ok(Started::Done(reply)) => Ok(Begun::Replied(reply)),
        Ok(Started::Parsing(parsing)) => keep_parse(core, waits, parsing),
        Err(_) => Err(AllocError),
    }
}

/// Runs the parse of an open that waits, and goes on with the open: it is answered, or waits for another parse, under
/// another ticket.
///
/// The only fault is out of memory, and then the open is given up. A parse that finds no memory is no fault: its open
/// is answered `NoMemory`. The other parses stay.
///
/// Source: Windows Internals, Object Manager (parse methods); that a parse is run between two steps is this profile.
pub fn end_open<T: TypeSet, H: HandleTable>(
    core: &mut Core<T, H>,
    waits: &mut Waits<T>,
    alloc: Global,
    ticket: u64,
) -> Result<Begun, AllocError>
    requires awaited { AreAwaited core.old waits.old }
    requires there { list_any (λ k. k == ticket) (tickets_of waits.old) ≡ true }
    ensures awaited { AreAwaited core.new waits.new }
    ensures ended { IfOk result (λ begun. (parse : ParseRun) × HasRun parse
        × Step T.procedures core.old (Resume ticket parse) (answer_in begun) core.new) }
    ensures tickets { IfOk result (λ begun. tickets_of waits.new
        ≡ with_begun begun (without ticket (tickets_of waits.old))) }
    ensures fresh { IfOk result (λ begun. IfWaits begun (λ n.
        (n ≢ 0) × (list_any (λ k. k == n) (tickets_of waits.old) ≡ false))) }
    ensures faltered { OnErr result ((steps : List (Made T.Kind))
        × GivesUp T.procedures ticket steps core.old core.new) }
    ensures kept { OnErr result (tickets_of waits.new ≡ without ticket (tickets_of waits.old)) }
{
    core.state_is_sound();
    let parsing = waits.take(ticket);
    resume_open(core, waits, parsing.run(alloc))
}

/// Gives up an open that waits, without a run of its parse. Takes no memory, and the other parses stay.
///
/// Source: Windows Internals, Object Manager (parse methods); that an open is given up by its ticket is this profile.
pub fn drop_open<T: TypeSet, H: HandleTable>(
    core: &mut Core<T, H>,
    waits: &mut Waits<T>,
    ticket: u64,
)
    requires awaited { AreAwaited core.old waits.old }
    requires there { list_any (λ k. k == ticket) (tickets_of waits.old) ≡ true }
    ensures awaited { AreAwaited core.new waits.new }
    ensures step { Step T.procedures core.old (Abandon ticket Unrun) (answers Success) core.new }
    ensures tickets { tickets_of waits.new ≡ without ticket (tickets_of waits.old) }
{
    core.state_is_sound();
    let dropped = waits.take(ticket);
    abandon_open(core, Pending::Unrun(dropped));
}

/// Gives up all opens that wait, by rising tickets, without a run of their parses. Takes no memory.
///
/// Source: Windows Internals, Object Manager (parse methods); the order is this profile.
pub fn give_all_up<T: TypeSet, H: HandleTable>(core: &mut Core<T, H>, waits: Waits<T>)
    requires { AreAwaited core.old waits }
    ensures { GivesAllUp T.procedures (tickets_of waits) core.old core.new }
{
    let mut left = waits;
    while let Some(parsing) = left.take_first() {
        core.state_is_sound();
        abandon_open(core, Pending::Unrun(parsing));
    }
    left.destroy_empty();
}

/// Brings the parse of an open that waits, which is kept no longer, and goes on with the open: it is answered, or waits for
/// another parse, which is kept. Out of memory, the open is given up.
pub(crate) fn resume_open<T: TypeSet, H: HandleTable>(
    core: &mut Core<T, H>,
    waits: &mut Waits<T>,
    parsed: Parsed<T>,
) -> Result<Begun, AllocError>
    requires parse { IsParseOf core.old (asked_of parsed) }
    requires awaited { AreAwaited core.old waits.old }
    requires others { All (λ k. parsed.ticket ≢ k) (tickets_of waits.old) }
    ensures awaited { AreAwaited core.new waits.new }
    ensures ended { IfOk result (λ begun.
        Step T.procedures core.old (Resume parsed.ticket (run_of_end parsed.outcome))
        (answer_in begun) core.new) }
    ensures tickets { IfOk result (λ begun. tickets_of waits.new
        ≡ with_begun begun (tickets_of waits.old)) }
    ensures faltered { OnErr result ((steps : List (Made T.Kind))
        × GivesUp T.procedures parsed.ticket steps core.old core.new) }
    ensures kept { OnErr result (tickets_of waits.new ≡ tickets_of waits.old) }
{
    core.state_is_sound();
    match core.resume(parsed) {
        Ok(Started::Done(reply)) => Ok(Begun::Replied(reply)),
        Ok(Started::Parsing(next)) => keep_parse(core, waits, next),
        Err((_, parsed)) => {
            abandon_open(core, Pending::Run(parsed));
            Err(AllocError)
        }
    }
}

/// Keeps the parse of an open that begins to wait, and gives its ticket. Out of memory, the open is given up.
fn keep_parse<T: TypeSet, H: HandleTable>(
    core: &mut Core<T, H>,
    waits: &mut Waits<T>,
    parsing: Parsing<T>,
) -> Result<Begun, AllocError>
    requires awaited { AreAwaited core.old waits.old }
    requires parse { IsParseOf core.old parsing }
    requires newest { All (λ k. k < parsing.ticket) (tickets_of waits.old) }
    ensures awaited { AreAwaited core.new waits.new }
    ensures waiting { IfOk result (λ it. it ≡ begun.Waits parsing.ticket) }
    ensures still { OnOk result (core.new ≡ core.old) }
    ensures last { OnOk result (waits.new ≡ waits.old ++ parsing ∷ []) }
    ensures given_up { OnErr result (Step T.procedures core.old (Abandon parsing.ticket Unrun)
        (answers Success) core.new) }
    ensures unchanged { OnErr result (waits.new ≡ waits.old) }
{
    core.state_is_sound();
    let ticket = parsing.ticket();
    match waits.keep(parsing) {
        Ok(()) => Ok(Begun::Waits(ticket)),
        Err(back) => {
            abandon_open(core, Pending::Unrun(back));
            Err(AllocError)
        }
    }
}

/// Gives up the open that waits for a parse, whether that was run or not.
pub(crate) fn abandon_open<T: TypeSet, H: HandleTable>(core: &mut Core<T, H>, brought: Pending<T>)
    requires { IsParseOf core.old (asked_of (end_of brought)) }
    ensures { Step T.procedures core.old (Abandon (end_of brought).ticket (run_of brought))
        (answers Success) core.new }
{
    own_face::<T>();
    core.abandon(brought);
}
