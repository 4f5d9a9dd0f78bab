//! Commands that one caller runs to their replies, while others make steps.

ghost use Rattle.std.specs.Prelude.{IfOk, IfErr};
ghost use Rattle.ob_model.specs.declared.reply.Event.{Event};
ghost use Rattle.ob_model.specs.declared.reply.Event.TheVariants.{Start};
ghost use Rattle.ob_locked.specs.Passed.{Passed};
ghost use Rattle.ob_shared.specs.Chains.{IsCutShort, IsGivenUpAt, IsOnTheWay, IsRunToReply};

use crate::Shared;
use ob_base::{Fault, Proc};
use ob_core::HandleTable;
use ob_locked::{Parsing, Pass, Started};
use ob_model::{Command, Reply};
use ob_published::Publishing;
use ob_types::TypeSet;
use std::sync::Wait;
use std::sync::ledger::Ledger;

/// A call between the step that reaches a parsing object and the run of its parse. No lock is held meanwhile, so it may wait. (this
/// profile)
pub trait Gate {
    /// [`Shared::open_with`] calls this once before each parse.
    fn between(&self);
}

impl<T: TypeSet, H: HandleTable, L: Ledger, P: Publishing> Shared<T, H, L, P> {
    /// Runs a command to its reply, and returns the pass with the receipts of its steps. While its open is pending, it calls the gate, runs
    /// the parse and brings it.
    ///
    /// At a fault of the start nothing has changed. At a fault of a resume it abandons the open under the same lock; after `Memory` that is
    /// a step, of which the pass has the receipt. (this profile)
    pub fn open_with<R: Wait, G: Gate>(
        &self,
        rt: &R,
        pass: Pass<T::Kind, L>,
        process: Proc,
        command: &Command<T::Kind>,
        gate: &G,
    ) -> (Pass<T::Kind, L>, Result<Reply, Fault>)
        ensures reply { IfOk (result.1) (λ reply.
            IsRunToReply T.procedures pass (Start process command.now) reply (result.0)) }
        ensures fault { IfErr (result.1) (λ fault.
            IsCutShort T.procedures pass (Start process command.now) fault (result.0)) }
    {
        let (pass, started) = self.start(rt, pass, process, command);
        match started {
            Ok(Started::Done(reply)) => (pass, Ok(reply)),
            Ok(Started::Parsing(parsing)) => self.run_on(rt, pass, parsing, gate),
            Err(fault) => (pass, Err(fault)),
        }
    }

    /// Runs and brings the parses of an open until there is a reply.
    fn run_on<R: Wait, G: Gate>(
        &self,
        rt: &R,
        pass: Pass<T::Kind, L>,
        parsing: Parsing<T>,
        gate: &G,
    ) -> (Pass<T::Kind, L>, Result<Reply, Fault>)
        ensures reply { IfOk (result.1) (λ reply. (before : Passed T.Kind) (event : Event T.Kind)
            → IsOnTheWay before event parsing.ticket pass
            → IsRunToReply T.procedures before event reply (result.0)) }
        ensures fault { IfErr (result.1) (λ fault. (before : Passed T.Kind) (event : Event T.Kind)
            → IsOnTheWay before event parsing.ticket pass
            → IsGivenUpAt T.procedures before event fault (result.0)) }
    {
        let mut pass = pass;
        let mut parsing = parsing;
        for _ in rt.forever() {
            gate.between();
            let (back, brought) = self.bring(rt, pass, parsing.run(self.alloc()));
            match brought {
                Ok(Started::Done(reply)) => return (back, Ok(reply)),
                Ok(Started::Parsing(next)) => {
                    pass = back;
                    parsing = next;
                }
                Err(fault) => return (back, Err(fault)),
            }
        }
        unreachable!()
    }
}
