//! The opens that wait, of the core over the standard set.

ghost use Rattle.std.specs.Prelude.{◌≡◌, ◌≢◌, ◌==◌, true, false, [], List, IfOk, OnErr, OnOk};
ghost use Rattle.std.specs.List.{list_any};
ghost use Rattle.ob_base.specs.declared.status.Status.TheVariants.{Success};
ghost use Rattle.ob_model.specs.declared.reply.Event.TheVariants.{Start, Resume, Abandon};
ghost use Rattle.ob_model.specs.declared.reply.ParseRun.{ParseRun};
ghost use Rattle.ob_model.specs.declared.reply.ParseRun.TheVariants.{Unrun};
ghost use Rattle.ob_model.specs.Refusals.{answers};
ghost use Rattle.ob_model.specs.Step.{Step};
ghost use Rattle.ob_runner.specs.Completes.{Made, HasRun, GivesUp, Falters};
ghost use Rattle.ob_runner.specs.Begun.{answer_in, AreAwaited, GivesAllUp, IfWaits, tickets_of, with_begun, without};
ghost use Rattle.ob_runner.specs.Repeated.{AreAllKept, MayBe};
ghost use Rattle.ob_standard.specs.Standard.{StandardKind, standard};

use crate::standard_core::StandardCore;
use ob_base::Proc;
use ob_model::{Answer, Command, Event};
use ob_runner::{Begun, Waits, begin_open, drop_open, end_open, give_all_up, repeat_step};
use ob_standard::{Standard, StandardKind};
use std::alloc::{AllocError, Global};
use std::marker::Model;

/// The parses that opens of a [`StandardCore`] wait for, each under the ticket of its open. A contract sees them as the
/// list of these parses, by rising tickets.
///
/// It can't be dropped, since none of its parses can: each open that waits is ended or given up, all at once by
/// [`give_all_up`](StandardWaits::give_all_up). Each call takes a time that grows with the logarithm of the parses.
///
/// Source: Windows Internals, Object Manager (parse methods); that a parse is run between two steps is this profile.
pub struct StandardWaits {
    waits: Waits<Standard>,
}

impl Model for StandardWaits {
    ghost use Rattle.std.specs.Prelude.{List};
    ghost use Rattle.ob_types.specs.Parse.{ToRun};
    ghost use Rattle.ob_standard.specs.Standard.{StandardFace};

    ghost Value = { List (ToRun StandardFace) };

    ghost view = { λ a. a.waits };
}

impl StandardWaits {
    /// No open waits. Takes no memory. (this profile)
    pub fn new(alloc: Global) -> StandardWaits
        ensures { result ≡ [] }
    {
        StandardWaits {
            waits: Waits::new(alloc),
        }
    }

    /// Starts a command of a process, and keeps its parse where it is an open that waits for one. Until that open is ended
    /// or given up, others may be begun, and other steps made.
    ///
    /// The only fault is out of memory. Where it came before the first step, nothing has changed; where no memory was
    /// left to keep a parse, its open is given up, which is a step of its own. The parses that were kept before stay.
    ///
    /// Source: Windows Internals, Object Manager (parse methods); that a parse is run between two steps is this profile.
    pub fn begin(
        &mut self,
        core: &mut StandardCore,
        process: Proc,
        command: &Command<StandardKind>,
    ) -> Result<Begun, AllocError>
        requires awaited { AreAwaited core.old self.old }
        ensures awaited { AreAwaited core.new self.new }
        ensures begun { IfOk result (λ begun.
            Step standard core.old (Start process command.now) (answer_in begun) core.new) }
        ensures tickets { IfOk result (λ begun. tickets_of self.new
            ≡ with_begun begun (tickets_of self.old)) }
        ensures fresh { IfOk result (λ begun. IfWaits begun (λ n.
            (n ≢ 0) × (list_any (λ k. k == n) (tickets_of self.old) ≡ false))) }
        ensures faltered { OnErr result ((steps : List (Made StandardKind))
            × Falters standard (Start process command.now) steps core.old core.new) }
        ensures kept { OnErr result (tickets_of self.new ≡ tickets_of self.old) }
    {
        begin_open(&mut core.core, &mut self.waits, process, command)
    }

    /// Runs the parse of an open that waits, and goes on with the open: it is answered, or waits for another parse, under
    /// another ticket.
    ///
    /// The only fault is out of memory, and then the open is given up. A parse that finds no memory is no fault: its open
    /// is answered `NoMemory`. The other parses stay.
    ///
    /// Source: Windows Internals, Object Manager (parse methods); that a parse is run between two steps is this profile.
    pub fn end(
        &mut self,
        core: &mut StandardCore,
        alloc: Global,
        ticket: u64,
    ) -> Result<Begun, AllocError>
        requires awaited { AreAwaited core.old self.old }
        requires there { list_any (λ k. k == ticket) (tickets_of self.old) ≡ true }
        ensures awaited { AreAwaited core.new self.new }
        ensures ended { IfOk result (λ begun. (parse : ParseRun) × HasRun parse
            × Step standard core.old (Resume ticket parse) (answer_in begun) core.new) }
        ensures tickets { IfOk result (λ begun. tickets_of self.new
            ≡ with_begun begun (without ticket (tickets_of self.old))) }
        ensures fresh { IfOk result (λ begun. IfWaits begun (λ n.
            (n ≢ 0) × (list_any (λ k. k == n) (tickets_of self.old) ≡ false))) }
        ensures faltered { OnErr result ((steps : List (Made StandardKind))
            × GivesUp standard ticket steps core.old core.new) }
        ensures kept { OnErr result (tickets_of self.new ≡ without ticket (tickets_of self.old)) }
    {
        end_open(&mut core.core, &mut self.waits, alloc, ticket)
    }

    /// Gives up an open that waits, without a run of its parse. Takes no memory, and the other parses stay.
    ///
    /// Source: Windows Internals, Object Manager (parse methods); that an open is given up by its ticket is this profile.
    pub fn abandon(&mut self, core: &mut StandardCore, ticket: u64)
        requires awaited { AreAwaited core.old self.old }
        requires there { list_any (λ k. k == ticket) (tickets_of self.old) ≡ true }
        ensures awaited { AreAwaited core.new self.new }
        ensures step { Step standard core.old (Abandon ticket Unrun) (answers Success) core.new }
        ensures tickets { tickets_of self.new ≡ without ticket (tickets_of self.old) }
    {
        drop_open(&mut core.core, &mut self.waits, ticket);
    }

    /// Makes a step of a history again: a command is started, and an open that is pending is resumed or given up as the
    /// history says of its parse. An open that waits then is kept. It answers what the step does; only the value of a
    /// new handle may be another one than the history has.
    ///
    /// The only fault is out of memory, and then other steps may have been made that give an open up; the parses that are
    /// kept are still awaited.
    ///
    /// Source: Windows Internals, Object Manager (parse methods); that a parse is run between two steps is this profile.
    pub fn repeat(
        &mut self,
        core: &mut StandardCore,
        alloc: Global,
        step: &Event<StandardKind>,
    ) -> Result<Answer, AllocError>
        requires awaited { AreAwaited core.old self.old }
        requires all { AreAllKept core.old self.old }
        requires possible { MayBe core.old step.now }
        ensures awaited { AreAwaited core.new self.new }
        ensures step { IfOk result (λ answer. Step standard core.old step.now answer core.new) }
        ensures all { OnOk result (AreAllKept core.new self.new) }
    {
        repeat_step(&mut core.core, &mut self.waits, alloc, step)
    }

    /// Gives up all opens that wait, by rising tickets, without a run of their parses. Takes no memory.
    ///
    /// Source: Windows Internals, Object Manager (parse methods); the order is this profile.
    pub fn give_all_up(self, core: &mut StandardCore)
        requires { AreAwaited core.old self }
        ensures { GivesAllUp standard (tickets_of self) core.old core.new }
    {
        let StandardWaits { waits } = self;
        give_all_up(&mut core.core, waits);
    }

    /// Drops all parses that are kept, for who has no core any more whose opens they could end. Takes no memory. (this
    /// profile)
    pub fn let_go(self) {
        let StandardWaits { waits } = self;
        waits.let_go();
    }
}
