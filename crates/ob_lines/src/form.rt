//! The forms of a line.

ghost use Rattle.std.specs.Prelude.{◌≡◌, ◌+◌, ◌≤◌, ◌↔◌, ℕ, List, length, IsTrue, IfSome, IfNone};
ghost use Rattle.ob_lines.specs.declared.form.Form.{Form};
ghost use Rattle.ob_lines.specs.declared.pending.PendingForm.{PendingForm};
ghost use Rattle.ob_lines.specs.declared.request.Request.{Request};
ghost use Rattle.ob_lines.specs.Grammar.{IsLine, form_seen, LinesHaveOneForm};

use crate::pending::{PendingForm, pending_of};
use crate::request::{Request, request_of};
use ob_parts::take_process;

/// The most bytes that a line may have, without its LF: 262,144.
pub const LONGEST_LINE: usize = 262_144;

/// The form of a line. `T` is how bytes are held: as slices of the line, or, in contracts, as lists.
#[derive(Clone, Copy, PartialEq, Eq, Debug)]
pub enum Form<T> {
    /// An empty line or a comment.
    Nothing,
    /// `stat`: the counts are printed.
    Stat,
    /// `P REQUEST`: a request of a process.
    Asks {
        /// The process variable.
        process: T,
        /// The request.
        request: Request<T>,
    },
    /// `P begin ..`, `P end V` or `P drop V`: a line on a pending open of a process.
    Waits {
        /// The process variable.
        process: T,
        /// The request for the pending open.
        pending: PendingForm<T>,
    },
}

// Whether a line without its LF does nothing: it is empty or a comment, and has at most 262,144 bytes.
fn is_idle(line: &[u8]) -> bool
    ensures { IsTrue result ↔ IsLine line.now Form.Nothing }
{
    line.len() <= LONGEST_LINE && (line.is_empty() || line[0] == b'#')
}

/// The form of a line without its LF: none where it is no line of a script, as one of more than
/// 262,144 bytes.
pub fn form_of(line: &[u8]) -> Option<Form<&[u8]>>
    ensures found { IfSome result (λ form. IsLine line.now (form_seen form)) }
    ensures none { IfNone result ((form : Form (List ℕ)) → ¬ IsLine line.now form) }
{
    if is_idle(line) {
        return Some(Form::Nothing);
    }
    if line.len() > LONGEST_LINE {
        return None;
    }
    if line == b"stat".as_slice() {
        return Some(Form::Stat);
    }
    asking_of(line)
}

// The form of a line of a process: a request, or a line on a pending open.
fn asking_of(line: &[u8]) -> Option<Form<&[u8]>>
    requires { length line.now ≤ 262144 }
    ensures found { IfSome result (λ form. IsLine line.now (form_seen form)) }
    ensures none { IfNone result (((process : List ℕ) (request : Request (List ℕ))
        → ¬ IsLine line.now (Form.Asks process request))
        × ((process : List ℕ) (pending : PendingForm (List ℕ))
        → ¬ IsLine line.now (Form.Waits process pending))) }
{
    let (process, rest) = take_process(line)?;
    if let Some(request) = request_of(rest) {
        return Some(Form::Asks { process, request });
    }
    let pending = pending_of(rest)?;
    Some(Form::Waits { process, pending })
}

/// The law that a line has at most one form. The call does nothing; a caller makes it to have the
/// fact.
pub fn lines_have_one_form()
    ensures { LinesHaveOneForm }
{}
