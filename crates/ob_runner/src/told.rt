//! Opens that are ended and given up by what became of their parses.

ghost use Rattle.std.specs.Prelude.{◌≡◌, ◌≢◌, ◌==◌, true, false, List, IfOk, IfErr, OnErr, OnOk};
ghost use Rattle.std.specs.List.{list_any};
ghost use Rattle.ob_base.specs.declared.status.Status.TheVariants.{Success};
ghost use Rattle.ob_model.specs.declared.reply.Event.TheVariants.{Resume, Abandon};
ghost use Rattle.ob_model.specs.declared.reply.ParseRun.TheVariants.{NoMemory, Ran};
ghost use Rattle.ob_model.specs.Refusals.{answers};
ghost use Rattle.ob_model.specs.Step.{Step};
ghost use Rattle.ob_types.specs.Pending.{run_of, run_of_end, brought as end_of};
ghost use Rattle.ob_types.specs.Parse.{asked_of};
ghost use Rattle.ob_runner.specs.Completes.{Made, HasRun, GivesUp};
ghost use Rattle.ob_runner.specs.Begun.{answer_in, AreAwaited, IfWaits, tickets_of, with_begun, without};

use crate::opens::{abandon_open, resume_open};
use crate::{Begun, Core, Waits};
use ob_handles::HandleTable;
use ob_model::ParseRun;
use ob_types::{Parsed, Parsing, Pending, TypeSet};
use std::alloc::{AllocError, Global};

/// Ends an open that waits, by what became of its parse: where that `Ran`, it is run, and where it found `NoMemory`, it
/// isn't run, and ends as one that found none. Then it goes on with the open, which is answered, or waits for another
/// parse, under another ticket.
///
/// The only fault is out of memory, and then the open is given up; a parse that is said to have run, and finds no
/// memory here, is such a fault too. The other parses stay.
///
/// Source: Windows Internals, Object Manager (parse methods); that a parse is run between two steps, and that what became
/// of it is given, is this profile.
pub(crate) fn end_open_as<T: TypeSet, H: HandleTable>(
    core: &mut Core<T, H>,
    waits: &mut Waits<T>,
    alloc: Global,
    ticket: u64,
    parse: ParseRun,
) -> Result<Begun, AllocError>
    requires awaited { AreAwaited core.old waits.old }
    requires there { list_any (λ k. k == ticket) (tickets_of waits.old) ≡ true }
    requires run { HasRun parse }
    ensures awaited { AreAwaited core.new waits.new }
    ensures ended { IfOk result (λ begun.
        Step T.procedures core.old (Resume ticket parse) (answer_in begun) core.new) }
    ensures tickets { IfOk result (λ begun. tickets_of waits.new
        ≡ with_begun begun (without ticket (tickets_of waits.old))) }
    ensures fresh { IfOk result (λ begun. IfWaits begun (λ n.
        (n ≢ 0) × (list_any (λ k. k == n) (tickets_of waits.old) ≡ false))) }
    ensures faltered { OnErr result ((steps : List (Made T.Kind))
        × GivesUp T.procedures ticket steps core.old core.new) }
    ensures kept { OnErr result (tickets_of waits.new ≡ without ticket (tickets_of waits.old)) }
{
    core.state_is_sound();
    let parsing = waits.take(ticket);
    match bring_as(parsing, alloc, parse) {
        Ok(brought) => resume_open(core, waits, brought.into_parsed()),
        Err(parsed) => {
            abandon_open(core, Pending::Run(parsed));
            Err(AllocError)
        }
    }
}

/// Gives up an open that waits, by what became of its parse: where that `Ran`, it is run, and where it is `Unrun` or
/// found `NoMemory`, it isn't. The other parses stay.
///
/// The only fault is out of memory, of a parse that is said to have run: then the open is given up too, as one whose
/// parse found none.
///
/// Source: Windows Internals, Object Manager (parse methods); that an open is given up by its ticket, and that what became
/// of its parse is given, is this profile.
pub(crate) fn drop_open_as<T: TypeSet, H: HandleTable>(
    core: &mut Core<T, H>,
    waits: &mut Waits<T>,
    alloc: Global,
    ticket: u64,
    parse: ParseRun,
) -> Result<(), AllocError>
    requires awaited { AreAwaited core.old waits.old }
    requires there { list_any (λ k. k == ticket) (tickets_of waits.old) ≡ true }
    ensures awaited { AreAwaited core.new waits.new }
    ensures step { OnOk result (Step T.procedures core.old (Abandon ticket parse)
        (answers Success) core.new) }
    ensures given_up { OnErr result (Step T.procedures core.old (Abandon ticket NoMemory)
        (answers Success) core.new) }
    ensures wanted { OnErr result (parse ≡ Ran) }
    ensures tickets { tickets_of waits.new ≡ without ticket (tickets_of waits.old) }
{
    core.state_is_sound();
    let parsing = waits.take(ticket);
    match bring_as(parsing, alloc, parse) {
        Ok(brought) => {
            abandon_open(core, brought);
            Ok(())
        }
        Err(parsed) => {
            abandon_open(core, Pending::Run(parsed));
            Err(AllocError)
        }
    }
}

/// Brings a parse to what is said to have become of it: it stays unrun, is run, or ends as one that found no memory.
/// Where it is run and finds no memory, it is handed back as one that found none.
fn bring_as<T: TypeSet>(
    parsing: Parsing<T>,
    alloc: Global,
    parse: ParseRun,
) -> Result<Pending<T>, Parsed<T>>
    ensures told { IfOk result (λ brought. run_of brought ≡ parse) }
    ensures same { IfOk result (λ brought. asked_of (end_of brought) ≡ parsing) }
    ensures wanted { OnErr result (parse ≡ Ran) }
    ensures none { IfErr result (λ parsed. run_of_end parsed.outcome ≡ NoMemory) }
    ensures back { IfErr result (λ parsed. asked_of parsed ≡ parsing) }
{
    match parse {
        ParseRun::Unrun => Ok(Pending::Unrun(parsing)),
        ParseRun::NoMemory => Ok(Pending::Run(parsing.give_up())),
        ParseRun::Ran => {
            let parsed = parsing.run(alloc);
            if parsed.ran() {
                Ok(Pending::Run(parsed))
            } else {
                Err(parsed)
            }
        }
    }
}
