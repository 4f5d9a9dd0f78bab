//! A shared namespace, as a seat sees it.

ghost use Rattle.std.specs.Prelude.{◌≡◌, ◌⊎◌, ℕ, true, false, IfOk, IfErr, OnErr, length};
ghost use Rattle.ob_base.specs.declared.fault.Fault.{Fault};
ghost use Rattle.ob_base.specs.declared.status.Status.TheVariants.{Success};
ghost use Rattle.ob_model.specs.declared.reply.Event.TheVariants.{Start, Resume, Abandon};
ghost use Rattle.ob_model.specs.declared.reply.ParseRun.{ParseRun};
ghost use Rattle.ob_model.specs.declared.reply.ParseRun.TheVariants.{Unrun};
ghost use Rattle.ob_model.specs.Refusals.{answers};
ghost use Rattle.ob_runner.specs.Completes.{HasRun};
ghost use Rattle.ob_seats.specs.Received.{Entries, IsReceived, answer_of};

use ob_base::{Fault, Proc};
use ob_model::{Command, Reply};
use ob_standard::StandardKind;

/// How a step ended: with a reply, or with an open that waits for the parse `P`, which can be dropped only where `P` can.
pub enum CallOutcome<P> {
    /// The command is done, and this is its reply.
    Replied(Reply),
    /// An open reached an object whose kind parses, and waits for this parse.
    Waits(P),
}

/// The calls of a seat to a shared namespace over the standard set of types. Each call takes the seat's pass and hands
/// it back, with a receipt of the step where one was made: then the step is one of the namespace's journal. Other seats
/// may make steps at the same time. (this profile)
pub trait Callers {
    /// A seat's pass.
    type Pass: Drop + Send;

    /// A parse that an open waits for. It can't be dropped: it is brought or given up.
    type Parsing;

    /// The seat of a pass.
    ghost seat_of: { Self.Pass → ℕ };

    /// The receipts that a pass has, in their order: the entries of the steps that were made by it.
    ghost receipts: { Self.Pass → Entries };

    /// The ticket of a parse.
    ghost ticket_of: { Self.Parsing → ℕ };

    /// The facts about the fault that a call answers, by the pass that it hands back.
    ghost gives_fault: { Self.Pass → Fault → Type 0 };

    /// The ticket of the open that waits for a parse.
    fn ticket(parsing: &Self::Parsing) -> u64
        ensures { result ≡ ticket_of parsing.now };

    /// How many receipts a pass has.
    fn count(pass: &Self::Pass) -> usize
        ensures { result ≡ length (receipts pass.now) };

    /// Starts a command of a process. A fault leaves all as it was.
    fn start(
        &self,
        pass: Self::Pass,
        process: Proc,
        command: &Command<StandardKind>,
    ) -> (Self::Pass, Result<CallOutcome<Self::Parsing>, Fault>)
        ensures seat { seat_of (result.0) ≡ seat_of pass }
        ensures told { IfOk (result.1) (λ begun.
            IsReceived (receipts pass) (Start process command.now) (answer_of ticket_of begun)
            (receipts (result.0))) }
        ensures unmade { OnErr (result.1) (receipts (result.0) ≡ receipts pass) }
        ensures fault { IfErr (result.1) (λ fault. gives_fault (result.0) fault) };

    /// Runs the parse that an open waits for, with nothing held, and brings it. At a fault no step was made by it, and the open is
    /// given up, so that it doesn't wait any longer.
    fn resume(
        &self,
        pass: Self::Pass,
        parsing: Self::Parsing,
    ) -> (Self::Pass, Result<CallOutcome<Self::Parsing>, Fault>)
        ensures seat { seat_of (result.0) ≡ seat_of pass }
        ensures told { IfOk (result.1) (λ begun. (parse : ParseRun) × HasRun parse
            × IsReceived (receipts pass) (Resume (ticket_of parsing) parse)
            (answer_of ticket_of begun) (receipts (result.0))) }
        ensures given_up { OnErr (result.1) ((receipts (result.0) ≡ receipts pass)
            ⊎ ((parse : ParseRun)
            × IsReceived (receipts pass) (Abandon (ticket_of parsing) parse) (answers Success)
            (receipts (result.0)))) }
        ensures fault { IfErr (result.1) (λ fault. gives_fault (result.0) fault) };

    /// Gives an open up whose parse wasn't run, and returns whether that was a step: it was none if the parse is a stranger's, which is
    /// dropped. Takes no memory.
    fn abandon(&self, pass: Self::Pass, parsing: Self::Parsing) -> (Self::Pass, bool)
        ensures seat { seat_of (result.0) ≡ seat_of pass }
        ensures made { result.1 ≡ true
            → IsReceived (receipts pass) (Abandon (ticket_of parsing) Unrun) (answers Success)
            (receipts (result.0)) }
        ensures unmade { result.1 ≡ false → receipts (result.0) ≡ receipts pass };

    /// Seals the open segment of the journal, and returns whether a segment was sealed: none is where the open segment is empty, where as many
    /// segments are sealed as may be, and where there is no memory. It makes no step.
    fn seal(&self, pass: Self::Pass) -> (Self::Pass, bool)
        ensures seat { seat_of (result.0) ≡ seat_of pass }
        ensures unmade { receipts (result.0) ≡ receipts pass };
}
