//! Where a line that is no script line stops being one.

ghost use Rattle.std.specs.Prelude.{◌≤◌, ℕ, List, length, IfSome, IfNone};
ghost use Rattle.ob_lines.specs.declared.form.Form.{Form};
ghost use Rattle.ob_lines.specs.Grammar.{IsLine};
ghost use Rattle.ob_lines.specs.Misfits.{HasSorts, IsFew, IsMisfit, LinesHaveOneMisfit, StopsLine};
ghost use Rattle.ob_lines.specs.Verbs.{Sorts};

use crate::form::{LONGEST_LINE, form_of};
use crate::verb::{PartSorts, row_of};
use ob_parts::{LastForm, PartForm, split_at, stop_of, take_process};

/// The part that should be where a line stops.
#[derive(Clone, Copy, PartialEq, Eq, Debug)]
pub enum Expected {
    /// A process variable, `stat`, or in a session `tree`.
    Line,
    /// A verb and its operands, or `exit` alone.
    Verb,
    /// Parts of these sorts, and nothing after them.
    Parts {
        /// The sorts of those with a space after them.
        parts: &'static [PartForm],
        /// The sort of the last one.
        last: LastForm,
    },
    /// Nothing: the line has more than 262,144 bytes.
    End,
}

/// Where a line that is no script line stops being one, and what should be there.
#[derive(Clone, Copy, PartialEq, Eq, Debug)]
pub struct Misfit {
    /// The column of the first byte that is wrong or missing, from 1.
    pub column: usize,
    /// The part that the line should go on with from that byte on.
    pub expected: Expected,
}

/// The misfit of a line without its LF; none where it is a script line.
pub fn misfit_of(line: &[u8]) -> Option<Misfit>
    ensures found { IfSome result (λ misfit. IsMisfit line.now misfit) }
    ensures few { IfSome result (λ misfit. IsFew misfit.expected) }
    ensures none { IfNone result ((form : Form (List ℕ)) × IsLine line.now form) }
{
    if form_of(line).is_some() {
        return None;
    }
    if line.len() > LONGEST_LINE {
        return Some(Misfit {
            column: LONGEST_LINE + 1,
            expected: Expected::End,
        });
    }
    let (expected, rest) = stop_in(line);
    Some(Misfit {
        column: line.len() - rest.len() + 1,
        expected,
    })
}

// The part that should be where a line stops, and the rest of the line from there on.
fn stop_in(line: &[u8]) -> (Expected, &[u8])
    requires short { length line.now ≤ 262144 }
    requires no_form { (form : Form (List ℕ)) → ¬ IsLine line.now form }
    ensures stop { StopsLine line.now result.0 result.1.now }
    ensures few { IsFew result.0 }
    ensures shorter { length result.1.now ≤ length line.now }
{
    let Some((_process, request)) = take_process(line) else {
        return (Expected::Line, line);
    };
    let Some((word, operands)) = split_at(request, b' ') else {
        return match sorts_after(request) {
            Some((parts, last)) => (Expected::Parts { parts, last }, &request[request.len()..]),
            None => (Expected::Verb, request),
        };
    };
    let Some((parts, last)) = sorts_after(word) else {
        return (Expected::Verb, request);
    };
    match stop_of(parts, last, operands) {
        Some((parts, rest)) => (Expected::Parts { parts, last }, rest),
        None => unreachable!(),
    }
}

// The sorts of what follows a word and a space.
fn sorts_after(word: &[u8]) -> Option<PartSorts>
    ensures found { IfSome result (λ sorts. HasSorts word.now (sorts.0.now, sorts.1)) }
    ensures few { IfSome result (λ sorts. length sorts.0.now ≤ 4) }
    ensures none { IfNone result ((sorts : Sorts) → ¬ HasSorts word.now sorts) }
{
    match word {
        b"begin" => Some((
            &[PartForm::Want, PartForm::Name, PartForm::Flags],
            LastForm::SetsVariable,
        )),
        b"end" | b"drop" => Some((&[], LastForm::Variable)),
        _ => row_of(word)?.sorts,
    }
}

/// The law that a line has at most one misfit: two misfits of a line are in the same column and expect the same.
/// The call does nothing; a caller makes it to have the fact.
pub fn lines_have_one_misfit()
    ensures { LinesHaveOneMisfit }
{}
