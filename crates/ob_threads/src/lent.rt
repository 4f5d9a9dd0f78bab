//! A shared namespace, lent to the seats of a script.

ghost use Rattle.std.specs.Prelude.{◌≡◌};
ghost use Rattle.ob_threads.specs.Faults.{IsFaultAt};

use ob_base::{Fault, Proc};
use ob_model::Command;
use ob_runner::SlabTable;
use ob_seats::{CallOutcome, Callers};
use ob_shared::{Parsing, Pass, Pending, Shared, Started};
use ob_standard::{Standard, StandardKind};
use std::alloc::Global;
use std::sync::Wait;
use std::sync::ledger::Ledger;

/// A shared namespace over the standard set of types, as it is lent to the threads of a script.
#[derive(Drop)]
pub(crate) struct Lent<'a, H: Wait, L: Ledger> {
    pub(crate) shared: &'a Shared<Standard, SlabTable, L>,
    pub(crate) rt: &'a H,
    pub(crate) alloc: Global,
}

impl<'a, H: Wait, L: Ledger> Callers for Lent<'a, H, L> {
    type Pass = Pass<StandardKind, L>;

    type Parsing = Parsing<Standard>;

    ghost seat_of = { λ pass. pass.seat };

    ghost receipts = { λ pass. pass.receipts };

    ghost ticket_of = { λ parsing. parsing.ticket };

    ghost gives_fault = { λ pass fault. IsFaultAt pass fault };

    fn ticket(parsing: &Parsing<Standard>) -> u64 {
        parsing.ticket()
    }

    fn count(pass: &Pass<StandardKind, L>) -> usize {
        pass.count()
    }

    fn start(
        &self,
        pass: Pass<StandardKind, L>,
        process: Proc,
        command: &Command<StandardKind>,
    ) -> (
        Pass<StandardKind, L>,
        Result<CallOutcome<Parsing<Standard>>, Fault>,
    ) {
        let (pass, started) = self.shared.start(self.rt, pass, process, command);
        match started {
            Ok(Started::Done(reply)) => (pass, Ok(CallOutcome::Replied(reply))),
            Ok(Started::Parsing(parsing)) => (pass, Ok(CallOutcome::Waits(parsing))),
            Err(fault) => (pass, Err(fault)),
        }
    }

    fn resume(
        &self,
        pass: Pass<StandardKind, L>,
        parsing: Parsing<Standard>,
    ) -> (
        Pass<StandardKind, L>,
        Result<CallOutcome<Parsing<Standard>>, Fault>,
    ) {
        let parsed = parsing.run(self.alloc);
        let (pass, brought) = self.shared.bring(self.rt, pass, parsed);
        match brought {
            Ok(Started::Done(reply)) => (pass, Ok(CallOutcome::Replied(reply))),
            Ok(Started::Parsing(next)) => (pass, Ok(CallOutcome::Waits(next))),
            Err(fault) => (pass, Err(fault)),
        }
    }

    fn abandon(
        &self,
        pass: Pass<StandardKind, L>,
        parsing: Parsing<Standard>,
    ) -> (Pass<StandardKind, L>, bool) {
        let before = pass.count();
        let pass = self.shared.abandon(self.rt, pass, Pending::Unrun(parsing));
        let is_made = pass.count() != before;
        (pass, is_made)
    }

    fn seal(&self, pass: Pass<StandardKind, L>) -> (Pass<StandardKind, L>, bool) {
        let (pass, sealed) = self.shared.seal(self.rt, pass);
        (pass, sealed.is_ok())
    }
}
