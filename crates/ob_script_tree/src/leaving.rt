//! The lines of a script, run for what they leave.

ghost use Rattle.std.specs.Prelude.{◌≤◌, length};
ghost use Rattle.ob_effects.specs.Kept.{IsSession, space_of, variables_of};
ghost use Rattle.ob_lines.specs.Lines.{lines_of};
ghost use Rattle.ob_output.specs.declared.reading.TheConstants.{SCRIPT_LIMIT};
ghost use Rattle.ob_script_tree.specs.Drawing.{Leaves, left_by};

use ob_effects::{LineOutcome, Session};
use ob_lines::first_line;
use ob_scripts::{Ending, ending_of, perform_line};

/// The line at which a run ended.
#[derive(Drop)]
pub(crate) struct Stop {
    /// Its number, from 1.
    pub number: u64,
    /// Its outcome.
    pub outcome: LineOutcome,
    /// How that ends the run.
    pub ending: Ending,
}

/// Runs the lines of a script in a session, and shows nothing; the line that ended the run, if one did.
pub(crate) fn run_lines(session: &mut Session, script: &[u8]) -> Option<Stop>
    requires kept { IsSession session.old }
    requires script { length script.now ≤ SCRIPT_LIMIT }
    ensures kept { IsSession session.new }
    ensures left { Leaves 1 (lines_of script.now) (variables_of session.old)
        (space_of session.old) (left_by result (space_of session.new)) }
{
    let mut rest = script;
    let mut number: u64 = 0;
    while let Some((line, behind)) = first_line(rest) {
        number += 1;
        let outcome = perform_line(session, line);
        if let Some(ending) = ending_of(number, &outcome) {
            return Some(Stop {
                number,
                outcome,
                ending,
            });
        }
        rest = behind;
    }
    None
}
