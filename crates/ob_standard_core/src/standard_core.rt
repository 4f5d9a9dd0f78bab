//! The core over the standard set.

ghost use Rattle.std.specs.Prelude.{◌≡◌, List, IsOk, IfOk, OnErr};
ghost use Rattle.std.specs.Option.{is_some, option_map};
ghost use Rattle.ob_model.specs.Choice.{revalued};
ghost use Rattle.ob_core.specs.Reached.{IsJustGiven, IsReached};
ghost use Rattle.ob_model.specs.Grants.{IsFreeValue};
ghost use Rattle.ob_model.specs.PendingOpens.{pending_of};
ghost use Rattle.ob_model.specs.declared.reply.Event.TheVariants.{Start};
ghost use Rattle.ob_model.specs.Opening.{opening};
ghost use Rattle.ob_model.specs.Sound.{IsSound};
ghost use Rattle.ob_model.specs.State.{held_of};
ghost use Rattle.ob_runner.specs.Completes.{Made, Completes, Falters};
ghost use Rattle.ob_space.specs.Early.{TakesNoMemory};
ghost use Rattle.ob_standard.specs.Standard.{IsFresh, StandardKind, Standard as StandardSet, standard};
ghost use Rattle.ob_standard_core.specs.Machine.{counts_of};
ghost use Rattle.ob_survey.specs.Surveying.{survey_of};
ghost use Rattle.ob_tree.specs.Index.{Rise};

use ob_base::{Handle, Proc};
use ob_core::Cache;
use ob_model::{Command, Reply};
use ob_output::Totals;
use ob_runner::{Core, SlabTable, run_command};
use ob_standard::{Standard, StandardKind};
use ob_survey::survey;
use ob_tree::Survey;
use std::alloc::{AllocError, Global};
use std::marker::Model;

/// The [`Core`](ob_core::Core) over the standard set of types and the handle table over a slab, with the calls of it that
/// scripts make.
///
/// Contracts see the state of the abstract machine. (this profile)
#[derive(Drop)]
pub struct StandardCore {
    pub(crate) core: Core<Standard, SlabTable>,
}

impl Model for StandardCore {
    ghost use Rattle.ob_standard_core.specs.Machine.{Space};

    ghost Value = { Space };

    ghost view = { λ a. a.core };
}

impl StandardCore {
    /// The opening state, in which the set has counted nothing. Names are looked up by a cache of 256 prefixes. The only fault
    /// is out of memory. (this profile)
    pub fn new(alloc: Global) -> Result<StandardCore, AllocError>
        ensures { IfOk result (λ core. (first : StandardSet) × IsFresh first
            × (core ≡ opening first)) }
    {
        let cache = Cache::new(alloc)?;
        StandardCore::with_cache(alloc, cache)
    }

    /// The same, whose names are looked up by this cache, which is emptied first. (this profile)
    pub fn with_cache(alloc: Global, cache: Cache) -> Result<StandardCore, AllocError>
        ensures { IfOk result (λ core. (first : StandardSet) × IsFresh first
            × (core ≡ opening first)) }
    {
        match Core::with_cache(alloc, Standard::new(), cache) {
            Ok(core) => Ok(StandardCore { core }),
            Err(_) => Err(AllocError),
        }
    }

    /// Runs a command of a process to its reply, and each parse that it waits for meanwhile, with nothing else done between
    /// these steps. The only fault is out of memory: before the first step, where nothing has changed, or after steps
    /// that give the open up. There is none for a close, the end of a process, and making an object permanent or temporary.
    ///
    /// Source: Windows Internals, Object Manager (parse methods); that a parse is run between two steps is this profile.
    pub fn run(
        &mut self,
        alloc: Global,
        process: Proc,
        command: &Command<StandardKind>,
    ) -> Result<Reply, AllocError>
        ensures done { IfOk result (λ reply. (steps : List (Made StandardKind))
            × Completes standard (Start process command.now) steps self.old reply self.new) }
        ensures faltered { OnErr result ((steps : List (Made StandardKind))
            × Falters standard (Start process command.now) steps self.old self.new) }
        ensures without_memory { TakesNoMemory command.now → IsOk result }
    {
        run_command(&mut self.core, alloc, process, command)
    }

    /// The counts of what there is now, and of what the set has counted. Takes no memory. (this profile)
    pub fn counts(&self) -> Totals
        ensures { result ≡ counts_of self.now }
    {
        let set = self.core.set();
        Totals {
            objects: self.core.objects(),
            handles: self.core.handles(),
            opens: set.opens(),
            closes: set.closes(),
            deletes: set.deletes(),
        }
    }

    /// The survey of the namespace as it is, which a tree shows. The only error is out of memory. (this profile)
    pub fn survey(&self, alloc: Global) -> Result<Survey, AllocError>
        ensures seen { IfOk result (λ survey. survey ≡ survey_of standard self.now) }
        ensures rise { IfOk result (λ survey. Rise survey.objects) }
    {
        survey(alloc, &self.core)
    }

    /// Whether a process has a handle of exactly this value; the low two bits count. Takes no memory.
    ///
    /// Source: Windows Internals, Object Manager: handles and the process handle table.
    pub fn holds(&self, process: Proc, handle: Handle) -> bool
        ensures { result ≡ is_some (held_of self.now process handle) }
    {
        self.core.holds(process, handle)
    }

    /// The process that asked for a pending open, live or not; none where no open is pending under this ticket. Takes no
    /// memory. Source: this profile.
    pub fn asker(&self, ticket: u64) -> Option<Proc>
        ensures { result ≡ option_map (λ pending. pending.process) (pending_of self.now ticket) }
    {
        self.core.asker(ticket)
    }

    /// The namespace in which the handle that the last step gave to this process, under the value `from`, has the value
    /// `to` instead, which that process doesn't use; nothing else differs.
    ///
    /// The only error is out of memory, and then the namespace is dropped.
    ///
    /// Source: handles are values of the system's choice (Windows Driver Kit); that a choice may be changed is this profile.
    pub fn revalue(
        self,
        process: Proc,
        from: Handle,
        to: Handle,
    ) -> Result<StandardCore, AllocError>
        requires given { IsJustGiven standard self process from }
        requires free { IsFreeValue self process to }
        ensures { IfOk result (λ core. core ≡ revalued to self) }
    {
        let StandardCore { core } = self;
        Ok(StandardCore {
            core: core.revalue(process, from, to)?,
        })
    }

    /// The number that the next process gets, whichever makes it: above those of all that ever were. Source: this
    /// profile.
    pub fn next_process(&self) -> Proc
        ensures { result ≡ self.now.next_process }
    {
        self.core.next_process()
    }

    /// The law that a run leads to the state of every core. The call does nothing; a caller makes it to have the fact.
    /// (this profile)
    pub fn state_is_reached(&self)
        ensures { IsReached standard self.now }
    {
        self.core.state_is_reached();
    }

    /// The law that the state of every core is sound. The call does nothing; a caller makes it to have the fact. (this
    /// profile)
    pub fn state_is_sound(&self)
        ensures { IsSound self.now }
    {
        self.core.state_is_sound();
    }
}
