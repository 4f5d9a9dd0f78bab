//! A script's session with a namespace.

ghost use Rattle.std.specs.Prelude.{◌≡◌, IfOk, OnErr, IfSome};
ghost use Rattle.ob_lines.specs.Grammar.{HasTexts, FormHasTexts, form_seen, request_seen};
ghost use Rattle.ob_lines.specs.Script.{found_seen};
ghost use Rattle.ob_requests.specs.Tables.{variables_in};
ghost use Rattle.ob_effects.specs.Effects.{FoundMemory, IsAnswered, IsLineWithoutMemory, IsUnanswered, IsRequestDone, IsDone, TakesNone};
ghost use Rattle.ob_effects.specs.Kept.{IsFirst, IsSession, space_of, variables_of};
ghost use Rattle.ob_effects.specs.Waiting.{Steps, GiveAllUp};
ghost use Rattle.ob_standard.specs.Standard.{standard};
ghost use Rattle.ob_survey.specs.Surveying.{survey_of};
ghost use Rattle.ob_tree.specs.Index.{Rise};

use crate::asking::begin_child;
use crate::outcome::LineOutcome;
use ob_base::Proc;
use ob_lines::{Change, Form, Request};
use ob_model::Reply;
use ob_requests::{Variables, command_of};
use ob_standard_core::{StandardCore, StandardWaits};
use ob_tree::Survey;
use std::alloc::{AllocError, Global};

/// A script's session with a namespace over the standard set of types: the namespace, the variables of the script, and
/// the opens that wait under its variables. It can't be dropped: what waits is given up at its [end](Session::end).
///
/// A contract sees the variables by `variables_of`, the state of the abstract machine by `space_of`, and what holds of both
/// and of the opens that wait as `IsSession`. (this profile)
pub struct Session {
    pub(crate) core: StandardCore,
    pub(crate) variables: Variables,
    pub(crate) waits: StandardWaits,
}

impl Session {
    /// A session in which nothing was done: the opening state, and `p1` is process 1. The only fault is out of
    /// memory. (this profile)
    pub fn new(alloc: Global) -> Result<Session, AllocError>
        ensures first { IfOk result IsFirst }
        ensures kept { IfOk result IsSession }
    {
        let core = StandardCore::new(alloc)?;
        let variables = Variables::new(alloc)?;
        let waits = StandardWaits::new(alloc);
        Ok(Session {
            core,
            variables,
            waits,
        })
    }

    /// Does what a line of this form says; none: a line that is no script line, which does nothing. Every growth
    /// comes before the first step, or its open is given up: so no reply is lost. A close, the end of a process, and a line
    /// that makes an object permanent or temporary take no memory. (this profile)
    pub fn perform(&mut self, form: Option<Form<&[u8]>>) -> LineOutcome
        requires kept { IsSession self.old }
        requires texts { IfSome form (λ form. FormHasTexts (form_seen form)) }
        ensures kept { IsSession self.new }
        ensures done { IsDone (found_seen form.entry) (variables_of self.old) (space_of self.old) result
            (variables_of self.new) (space_of self.new) }
        ensures without_memory { IsLineWithoutMemory (found_seen form.entry) → FoundMemory result }
    {
        match &form {
            None => LineOutcome::NoLine,
            Some(Form::Nothing) => LineOutcome::Idle,
            Some(Form::Stat) => LineOutcome::Counted(self.core.counts()),
            Some(Form::Asks { process, request }) => {
                let process = self.variables.process_of(process);
                self.answer(process, request)
            }
            Some(Form::Waits { process, pending }) => {
                let process = self.variables.process_of(process);
                self.carry_on(process, *pending)
            }
        }
    }

    /// The survey of the namespace as it is, which a tree shows, with the opens that are pending. The only error is out of memory. (this profile)
    pub fn survey(&self, alloc: Global) -> Result<Survey, AllocError>
        ensures seen { IfOk result (λ survey.
            survey ≡ survey_of standard (space_of self.now)) }
        ensures rise { IfOk result (λ survey. Rise survey.objects) }
    {
        self.core.survey(alloc)
    }

    /// Ends the session: all opens that wait are given up, by rising tickets, and their parses aren't run. (this
    /// profile)
    pub fn end(self)
        requires { IsSession self }
        ensures { (steps : Steps) × GiveAllUp (variables_of self) (space_of self) steps }
    {
        let Session {
            mut core,
            variables: _,
            waits,
        } = self;
        waits.give_all_up(&mut core);
    }

    // Answers the request of a process.
    fn answer(&mut self, process: Proc, request: &Request<&[u8]>) -> LineOutcome
        requires kept { IsSession self.old }
        requires texts { HasTexts (request_seen request.now) }
        ensures kept { IsSession self.new }
        ensures done { IsRequestDone (request_seen request.now) process (variables_of self.old)
            (space_of self.old) result (variables_of self.new) (space_of self.new) }
        ensures without_memory { TakesNone (request_seen request.now) → FoundMemory result }
    {
        self.core.state_is_sound();
        match reply_to(&mut self.core, &mut self.variables, process, request) {
            Ok(reply) => LineOutcome::Replied(reply),
            Err(_) => LineOutcome::NoMemory,
        }
    }
}

// Runs the request of a process, and changes the variables that its reply changes. All that can need memory
// comes before the step.
fn reply_to(
    core: &mut StandardCore,
    variables: &mut Variables,
    process: Proc,
    request: &Request<&[u8]>,
) -> Result<Reply, AllocError>
    requires { HasTexts (request_seen request.now) }
    ensures answered { IfOk result (λ reply.
        IsAnswered (request_seen request.now) process (variables_in variables.old) core.old
        reply (variables_in variables.new) core.new) }
    ensures wanting { OnErr result (IsUnanswered (request_seen request.now) process
        (variables_in variables.old) core.old core.new) }
    ensures kept { OnErr result (variables_in variables.new ≡ variables_in variables.old) }
{
    let (command, change) = command_of(variables, process, request)?;
    if let Change::SetsProcess {
        process: child,
        inherit,
    } = change
    {
        return begin_child(core, variables, process, &command, child, inherit);
    }
    let reply = core.run(variables.alloc, process, &command)?;
    variables.apply(process, change, &reply);
    Ok(reply)
}
