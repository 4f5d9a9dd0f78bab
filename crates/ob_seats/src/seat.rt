//! A seat, and the run of its lines.

ghost use Rattle.std.specs.Prelude.{◌≡◌, ◌+◌, ◌≤◌, ◌<◌, ◌^◌, ◌++◌, [], true, length, IfOk, IfErr, OnOk};
ghost use Rattle.ob_lines.specs.Grammar.{FormHasTexts, form_seen};
ghost use Rattle.ob_requests.specs.Tables.{variables_in};
ghost use Rattle.ob_requests.specs.Variables.{first_variables};
ghost use Rattle.ob_worker_lines.specs.Cuts.{AreSeatLines};
ghost use Rattle.ob_worker_lines.specs.Forms.{SeatFormHasTexts, seat_form_seen};
ghost use Rattle.ob_worker_lines.specs.Parts.{lines_in};
ghost use Rattle.ob_seats.specs.Received.{Entries};
ghost use Rattle.ob_seats.specs.Played.{AreGivenUp, ArePlayed, IsLinePlayed, IsScriptLinePlayed, IsSeatPlayed};
ghost use Rattle.ob_seats.specs.Stopped.{
  AreLetGo,
  IsLineBegun,
  IsPartStopped,
  IsScriptLineBegun,
  IsSeatStopped,
};
ghost use Rattle.ob_seats.specs.Kept.{AreHeld, for_worker};

use crate::asking::answer;
use crate::callers::Callers;
use crate::copies::variables_for_worker;
use crate::stop::{Stop, Stopped};
use crate::waiting::carry_on;
use crate::waits::SeatWaits;
use ob_lines::Form;
use ob_requests::Variables;
use ob_worker_lines::{Part, SeatForm, read_seat_line};
use std::alloc::{AllocError, Global};
use std::sync::Wait;

/// The state of a seat between its lines: the variables of its script, and the opens that wait under them. It can't be
/// dropped: what waits is given up at its [end](Seat::end). Contracts see the variables by `variables_in`, and ask as `AreHeld`
/// that the opens that wait are those under them. (this profile)
pub struct Seat<C: Callers> {
    pub(crate) variables: Variables,
    pub(crate) waits: SeatWaits<C>,
}

impl<C: Callers> Seat<C> {
    /// A seat that has run no line: `p1` is process 1, and no open waits. The only fault is out of memory. (this profile)
    pub fn new(alloc: Global) -> Result<Seat<C>, AllocError>
        ensures first { IfOk result (λ seat. variables_in seat.variables ≡ first_variables) }
        ensures held { IfOk result (λ seat. AreHeld (variables_in seat.variables).tickets seat.waits) }
    {
        let variables = Variables::new(alloc)?;
        Ok(Seat {
            variables,
            waits: SeatWaits::new(alloc),
        })
    }

    /// A seat that begins with these variables, under none of which an open waits. Takes no memory. (this profile)
    pub fn with_variables(variables: Variables) -> Seat<C>
        requires none { AreHeld (variables_in variables).tickets [] }
        ensures variables { variables_in result.variables ≡ variables_in variables }
        ensures held { AreHeld (variables_in result.variables).tickets result.waits }
    {
        let waits = SeatWaits::new(variables.alloc);
        Seat { variables, waits }
    }

    /// The variables that a worker begins with: the same, with their contexts, and under none of them an open waits. The only fault is out of memory.
    /// (this profile)
    pub fn variables_for_worker(&self) -> Result<Variables, AllocError>
        ensures variables { IfOk result (λ variables. variables_in variables
            ≡ for_worker (variables_in self.now.variables)) }
        ensures none { IfOk result (λ variables. AreHeld (variables_in variables).tickets []) }
    {
        variables_for_worker(&self.variables)
    }

    /// Runs the lines of a part, one after another, by a pass, which comes back with the receipts of their steps. Ok gives the number after
    /// that of the last line.
    ///
    /// The fault says which line could not be run to its end, and why. The lines before it were played, and of its own steps a beginning. Where a call
    /// answered a fault, that is the reason; an open that waited for a parse in this line is abandoned. (this profile)
    pub fn run_part<R: Wait>(
        &mut self,
        rt: &R,
        callers: &C,
        pass: C::Pass,
        part: Part<'_>,
    ) -> (C::Pass, Result<u64, Stopped>)
        requires lines { AreSeatLines (lines_in part) }
        requires numbers { part.first + length (lines_in part) < 2 ^ 64 }
        requires held { AreHeld (variables_in self.old.variables).tickets self.old.waits }
        ensures held { AreHeld (variables_in self.new.variables).tickets self.new.waits }
        ensures played { OnOk (result.1) ((entries : Entries) × (C.receipts (result.0)
            ≡ C.receipts pass ++ entries)
            × ArePlayed (lines_in part.entry) (variables_in self.old.variables) entries
            (variables_in self.new.variables)) }
        ensures number { IfOk (result.1) (λ number. number
            ≡ part.entry.first + length (lines_in part.entry)) }
        ensures line { IfErr (result.1) (λ stopped. (part.entry.first ≤ stopped.line)
            × (stopped.line < part.entry.first + length (lines_in part.entry))) }
        ensures stopped { IfErr (result.1) (λ stopped. (entries : Entries) × (C.receipts (result.0)
            ≡ C.receipts pass ++ entries)
            × IsPartStopped (C.gives_fault (result.0)) part.entry.first (lines_in part.entry)
            (variables_in self.old.variables) entries stopped (variables_in self.new.variables)) }
        ensures seat { C.seat_of (result.0) ≡ C.seat_of pass }
    {
        let mut pass = pass;
        let mut rest = part.text;
        let mut number = part.first;
        while let Some((form, behind)) = read_seat_line(rest) {
            let Some(form) = form else {
                unreachable!();
            };
            let (back, done) = self.perform(rt, callers, pass, form);
            pass = back;
            if let Err(why) = done {
                return (pass, Err(Stopped { line: number, why }));
            }
            rest = behind;
            number += 1;
        }
        (pass, Ok(number))
    }

    /// Does what a line of this form says. A seal that is refused, or that finds no memory, does nothing.
    fn perform<R: Wait>(
        &mut self,
        rt: &R,
        callers: &C,
        pass: C::Pass,
        form: SeatForm<&[u8]>,
    ) -> (C::Pass, Result<(), Stop>)
        requires texts { SeatFormHasTexts (seat_form_seen form) }
        requires held { AreHeld (variables_in self.old.variables).tickets self.old.waits }
        ensures held { AreHeld (variables_in self.new.variables).tickets self.new.waits }
        ensures played { OnOk (result.1) ((entries : Entries) × (C.receipts (result.0)
            ≡ C.receipts pass ++ entries)
            × IsLinePlayed (seat_form_seen form.entry) (variables_in self.old.variables) entries
            (variables_in self.new.variables)) }
        ensures begun { IfErr (result.1) (λ why. (entries : Entries) × (C.receipts (result.0)
            ≡ C.receipts pass ++ entries)
            × IsLineBegun (C.gives_fault (result.0)) (seat_form_seen form.entry)
            (variables_in self.old.variables) entries why (variables_in self.new.variables)) }
        ensures seat { C.seat_of (result.0) ≡ C.seat_of pass }
    {
        match form {
            SeatForm::Seal => {
                let (pass, _is_sealed) = callers.seal(pass);
                (pass, Ok(()))
            }
            SeatForm::Line(form) => self.perform_script_line(rt, callers, pass, form),
        }
    }

    /// Does what a line of this form of a script without workers says; `stat` does nothing.
    fn perform_script_line<R: Wait>(
        &mut self,
        rt: &R,
        callers: &C,
        pass: C::Pass,
        form: Form<&[u8]>,
    ) -> (C::Pass, Result<(), Stop>)
        requires texts { FormHasTexts (form_seen form) }
        requires held { AreHeld (variables_in self.old.variables).tickets self.old.waits }
        ensures held { AreHeld (variables_in self.new.variables).tickets self.new.waits }
        ensures played { OnOk (result.1) ((entries : Entries) × (C.receipts (result.0)
            ≡ C.receipts pass ++ entries)
            × IsScriptLinePlayed (form_seen form.entry) (variables_in self.old.variables) entries
            (variables_in self.new.variables)) }
        ensures begun { IfErr (result.1) (λ why. (entries : Entries) × (C.receipts (result.0)
            ≡ C.receipts pass ++ entries)
            × IsScriptLineBegun (C.gives_fault (result.0)) (form_seen form.entry)
            (variables_in self.old.variables) entries why (variables_in self.new.variables)) }
        ensures seat { C.seat_of (result.0) ≡ C.seat_of pass }
    {
        match form {
            Form::Nothing => (pass, Ok(())),
            Form::Stat => (pass, Ok(())),
            Form::Asks { process, request } => {
                let process = self.variables.process_of(process);
                answer(rt, callers, &mut self.variables, pass, process, request)
            }
            Form::Waits { process, pending } => {
                let process = self.variables.process_of(process);
                carry_on(
                    callers,
                    &mut self.variables,
                    &mut self.waits,
                    pass,
                    process,
                    pending,
                )
            }
        }
    }

    /// Ends the seat: all opens that wait are given up, by rising tickets, and their parses aren't run. It returns whether each was given up by a step, as
    /// it is unless a parse is a stranger's. Takes no memory. (this profile)
    pub fn end(self, callers: &C, pass: C::Pass) -> (C::Pass, bool)
        requires held { AreHeld (variables_in self.variables).tickets self.waits }
        ensures given_up { result.1 ≡ true → (entries : Entries) × (C.receipts (result.0)
            ≡ C.receipts pass ++ entries) × AreGivenUp (variables_in self.variables) entries }
        ensures let_go { (entries : Entries) × (C.receipts (result.0) ≡ C.receipts pass ++ entries)
            × AreLetGo (variables_in self.variables) entries }
        ensures seat { C.seat_of (result.0) ≡ C.seat_of pass }
    {
        let Seat {
            variables: _,
            mut waits,
        } = self;
        let mut pass = pass;
        let mut is_whole = true;
        while let Some(parsing) = waits.take_first() {
            let (back, is_made) = callers.abandon(pass, parsing);
            pass = back;
            is_whole = is_whole && is_made;
        }
        waits.destroy_empty();
        (pass, is_whole)
    }
}

/// Runs the lines of a part, and ends the seat: a whole run of a worker, or of what is left of a seat's lines. Ok is the run of all its lines.
///
/// The fault is that of [`Seat::run_part`]; where all lines were run and an open that waited is a stranger's, it names
/// the line after the last. Opens that waited are given up at either end. (this profile)
pub fn run_seat<R: Wait, C: Callers>(
    rt: &R,
    callers: &C,
    seat: Seat<C>,
    pass: C::Pass,
    part: Part<'_>,
) -> (C::Pass, Result<(), Stopped>)
    requires lines { AreSeatLines (lines_in part) }
    requires numbers { part.first + length (lines_in part) < 2 ^ 64 }
    requires held { AreHeld (variables_in seat.variables).tickets seat.waits }
    ensures played { OnOk (result.1) ((entries : Entries) × (C.receipts (result.0) ≡ C.receipts pass
        ++ entries)
        × IsSeatPlayed (lines_in part.entry) (variables_in seat.variables) entries) }
    ensures line { IfErr (result.1) (λ stopped. (part.entry.first ≤ stopped.line)
        × (stopped.line ≤ part.entry.first + length (lines_in part.entry))) }
    ensures stopped { IfErr (result.1) (λ stopped. (entries : Entries) × (C.receipts (result.0)
        ≡ C.receipts pass ++ entries)
        × IsSeatStopped (λ fault. (last : C.Pass) × C.gives_fault last fault)
        part.entry.first (lines_in part.entry) (variables_in seat.variables) entries stopped) }
    ensures seat { C.seat_of (result.0) ≡ C.seat_of pass }
{
    let mut seat = seat;
    let (pass, ran) = seat.run_part(rt, callers, pass, part);
    let (pass, is_whole) = seat.end(callers, pass);
    match ran {
        Err(stopped) => (pass, Err(stopped)),
        Ok(_) if is_whole => (pass, Ok(())),
        Ok(line) => {
            let why = Stop::Refused;
            (pass, Err(Stopped { line, why }))
        }
    }
}
