//! A journal that is played again, line by line.

ghost use Rattle.std.specs.Prelude.{◌≡◌, ◌≤◌, false, IfErr, IfOk};
ghost use Rattle.ob_model.specs.declared.reply.Answer.{Answer};
ghost use Rattle.ob_model.specs.Opening.{opening};
ghost use Rattle.ob_model.specs.Step.{Step};
ghost use Rattle.ob_runner.specs.Repeated.{MayBe};
ghost use Rattle.ob_standard.specs.Standard.{IsFresh, Standard as StandardSet, standard};
ghost use Rattle.ob_reader.specs.declared.line.SegmentLine.TheVariants as says;
ghost use Rattle.ob_reader.specs.Reading.{said_of};
ghost use Rattle.ob_journal.specs.Journal.{after_first, after_header, early_causes, first_cause, first_of, lacks_ticket as is_lacking, next_header, report_of, said_after, IsNoReply, IsRefused, IsRefusedLine};
ghost use Rattle.ob_journal.specs.declared.report.Cause.TheVariants.{Reply};
ghost use Rattle.ob_journal.specs.Played.{resumes_unrun, IfRefused, IsKeptBeside, PlaysEntry, PlaysLine};

use crate::choice::{choice_of, taken};
use crate::position::{Position, follows, seats};
use crate::{Cause, Report};
use ob_model::{Event, ParseRun};
use ob_reader::{Header, Line, SegmentLine, is_said, read_line, read_segment_line};
use ob_standard::StandardKind;
use ob_standard_core::{StandardCore, StandardWaits};
use std::alloc::{AllocError, Global};
use std::marker::Model;

/// Why a line isn't played.
pub(crate) enum Stop {
    /// It is refused, for this cause.
    Refused(Cause),
    /// Memory ran out.
    Memory,
}

/// A journal, as far as it was played again: the core that its entries lead to, with the parses of all pending opens, and the position
/// that its lines lead to. It can't be dropped, since no parse can: it is finished.
pub(crate) struct Replay {
    core: StandardCore,
    waits: StandardWaits,
    position: Position,
}

impl Model for Replay {
    ghost use Rattle.ob_journal.specs.Played.{IsKeptBeside, Played};

    ghost Value = { Played };

    ghost view = { λ a. record { state = a.core; position = a.position } };

    ghost invariant = { λ a. IsKeptBeside a.core a.waits };
}

impl Replay {
    /// A journal with this first header, of which no further line was played: the opening state. The only error is out of memory.
    pub(crate) fn new(alloc: Global, header: Header) -> Result<Replay, AllocError>
        ensures { IfOk result (λ replay. (first : StandardSet) × IsFresh first
            × (replay ≡ record { state = opening first; position = after_first header })) }
    {
        Ok(Replay {
            core: StandardCore::new(alloc)?,
            waits: StandardWaits::new(alloc),
            position: Position::after_first(header),
        })
    }

    /// Plays a line: it begins the next segment, or its step is made and leads to the reply that it says. Where that
    /// isn't so the line is refused, and the journal is finished.
    pub(crate) fn play(self, alloc: Global, text: &[u8]) -> Result<Replay, Stop>
        ensures played { IfOk result (λ next. PlaysLine self text.now next) }
        ensures refused { IfErr result (λ stop.
            IfRefused stop (IsRefusedLine self.state self.position text.now)) }
    {
        match read_after(alloc, self.position.header, text) {
            Ok(SegmentLine::Header(found)) => self.begin_segment(found),
            Ok(SegmentLine::Entry(Some(line))) => self.play_entry(alloc, &line),
            Ok(SegmentLine::Entry(None)) => Err(self.stop(Stop::Refused(Cause::Syntax))),
            Err(_) => Err(self.stop(Stop::Memory)),
        }
    }

    // Begins the next segment, where this is its header.
    fn begin_segment(self, found: Option<Header>) -> Result<Replay, Stop>
        ensures begun { IfOk result (λ next. (found ≡ Some (next_header self.position))
            × (first_of self.position.header ≤ self.position.count)
            × (next ≡ record {
              state = self.state;
              position = after_header self.position;
            })) }
        ensures refused { IfErr result (λ stop.
            IfRefused stop (IsRefused self.state self.position (says.Header found))) }
    {
        let Some(position) = self.position.after_header(found) else {
            return Err(self.stop(Stop::Refused(Cause::Header)));
        };
        let Replay {
            core,
            waits,
            position: _,
        } = self;
        Ok(Replay {
            core,
            waits,
            position,
        })
    }

    // Plays an entry: it is the next one, and its step leads to the reply that the line says.
    fn play_entry(self, alloc: Global, line: &Line) -> Result<Replay, Stop>
        ensures played { IfOk result (λ next. PlaysEntry self line.now next) }
        ensures refused { IfErr result (λ stop.
            IfRefused stop (IsRefused self.state self.position (says.Entry (Some line.now)))) }
    {
        match self.judge(line) {
            Some(cause) => Err(self.stop(Stop::Refused(cause))),
            None => self.make(alloc, line),
        }
    }

    // Makes the step of a line that nothing was found wrong with before.
    fn make(self, alloc: Global, line: &Line) -> Result<Replay, Stop>
        requires pending { is_lacking self.state line.now.step ≡ false }
        ensures made { IfOk result (λ next. (answer : Answer)
            × Step standard self.state line.now.step answer next.state
            × (said_of answer ≡ line.now.reply)
            × (next.position ≡ record {
              header = self.position.header;
              count = line.now.number;
            })) }
        ensures refused { IfErr result (λ stop. IfRefused stop (λ why. (why ≡ Reply)
            × IsNoReply self.state line.now)) }
    {
        if is_unrun(&line.step) {
            return Err(self.stop(Stop::Refused(Cause::Reply)));
        }
        let Replay {
            core,
            waits,
            position: Position { header, count: _ },
        } = self;
        let (core, waits) = make_step(core, waits, alloc, line)?;
        Ok(Replay {
            core,
            waits,
            position: Position {
                header,
                count: line.number,
            },
        })
    }

    // Why a line is refused before its step is made, if it is.
    fn judge(&self, line: &Line) -> Option<Cause>
        ensures { result
            ≡ first_cause (early_causes self.now.state self.now.position line.now) }
    {
        if !follows(line.number, self.position.count) || !self.position.has_room() {
            Some(Cause::Number)
        } else if line.seat >= u64::from(seats(self.position.header)) {
            Some(Cause::Seat)
        } else if self.lacks_ticket(&line.step) {
            Some(Cause::Ticket)
        } else {
            None
        }
    }

    // Whether the ticket of a resume or an abandon isn't pending.
    fn lacks_ticket(&self, step: &Event<StandardKind>) -> bool
        ensures { result ≡ is_lacking self.now.state step.now }
    {
        match step {
            Event::Start {
                process: _,
                command: _,
            } => false,
            Event::Resume { ticket, parse: _ } | Event::Abandon { ticket, parse: _ } => {
                self.core.asker(*ticket).is_none()
            }
        }
    }

    // Gives up what waits, and reports why.
    fn stop(self, why: Stop) -> Stop
        ensures { result ≡ why }
    {
        self.finish();
        why
    }

    /// Gives up what waits, and reports how many entries were played, and what there was after them.
    pub(crate) fn finish(self) -> Report
        ensures { result ≡ report_of self.position self.state }
    {
        let Replay {
            mut core,
            waits,
            position,
        } = self;
        let counts = core.counts();
        waits.give_all_up(&mut core);
        Report {
            entries: position.count as usize,
            objects: counts.objects,
            handles: counts.handles,
        }
    }
}

// Reads a line after such a header: in version 1 no line except the first is a header.
fn read_after(alloc: Global, header: Header, text: &[u8]) -> Result<SegmentLine, AllocError>
    ensures { IfOk result (λ found. found ≡ said_after header text.now) }
{
    match header {
        Header::Whole { seats: _ } => Ok(SegmentLine::Entry(read_line(alloc, text)?)),
        Header::Segment {
            seats: _,
            segment: _,
            first: _,
        } => read_segment_line(alloc, text),
    }
}

// Whether an open is resumed whose parse was not run, which is no step.
fn is_unrun(step: &Event<StandardKind>) -> bool
    ensures { result ≡ resumes_unrun step.now }
{
    match step {
        Event::Resume { ticket: _, parse } => *parse == ParseRun::Unrun,
        _ => false,
    }
}

// Makes the step of a line, and gives the core after it, with the value of a new handle that the line says.
fn make_step(
    core: StandardCore,
    waits: StandardWaits,
    alloc: Global,
    line: &Line,
) -> Result<(StandardCore, StandardWaits), Stop>
    requires kept { IsKeptBeside core waits }
    requires possible { MayBe core line.now.step }
    ensures made { IfOk result (λ behind. (answer : Answer)
        × Step standard core line.now.step answer (behind.0)
        × (said_of answer ≡ line.now.reply) × IsKeptBeside (behind.0) (behind.1)) }
    ensures refused { IfErr result (λ stop. IfRefused stop (λ why. (why ≡ Reply)
        × IsNoReply core line.now)) }
{
    core.state_is_sound();
    core.state_is_reached();
    let choice = choice_of(&core, line);
    let (mut core, mut waits) = (core, waits);
    let Ok(answer) = waits.repeat(&mut core, alloc, &line.step) else {
        waits.give_all_up(&mut core);
        return Err(Stop::Memory);
    };
    if is_said(&line.reply, &answer) {
        return Ok((core, waits));
    }
    let Some((choice, chosen)) = taken(line, choice, answer) else {
        waits.give_all_up(&mut core);
        return Err(Stop::Refused(Cause::Reply));
    };
    match core.revalue(choice.process, chosen, choice.value) {
        Ok(core) => Ok((core, waits)),
        Err(_) => {
            waits.let_go();
            Err(Stop::Memory)
        }
    }
}
