//! The run of a session.

ghost use Rattle.std.specs.Prelude.{◌≡◌, ◌≤◌, ◌<◌, ◌^◌, [], ℕ, List, None, vec_capacity, IfErr, IfOk};
ghost use Rattle.std.specs.Io.KnownBytes.{Appends};
ghost use Rattle.ob_output.specs.Writing.{AppendsFront};
ghost use Rattle.ob_effects.specs.declared.outcome.LineOutcome.TheVariants as outcomes;
ghost use Rattle.ob_lines.specs.Script.{HasForm};
ghost use Rattle.ob_output.specs.Gathering.{Gathers};
ghost use Rattle.ob_effects.specs.Kept.{IsFirst, IsSession, space_of, variables_of};
ghost use Rattle.ob_session.specs.Session.{HasAnswered, IsAnswer, IsConversation, IsConversationCut, IsTreeOf, IsTurn, IsTurnCut, is_tree};
ghost use Rattle.ob_standard.specs.Standard.{standard};
ghost use Rattle.ob_survey.specs.Surveying.{survey_of};
ghost use Rattle.ob_tree.specs.Tree.{tree_of};

use crate::reading::take_line;
use ob_effects::{LineOutcome, Session};
use ob_lines::misfit_of;
use ob_output::{ShellFault, Unwritten, push_misfit_line, write_out};
use ob_scripts::{perform_line, write_outcome};
use ob_tree::{Style, tree_text};
use std::alloc::{AllocError, Global};
use std::io::{BufRead, Write};

// The bytes of output that are written at once.
const BLOCK: usize = 65_536;

/// Reads lines of a script, and performs each and writes its reply before it reads the next one, from the opening state with the standard set of
/// types, until the reader is at its end; docs/script.md has the language. Opens that are pending then are abandoned.
///
/// The line `tree` is answered by the tree of the namespace as it is then, in the characters of boxes, and changes nothing. A line that is no script
/// line has a reply that says in which column it stops and what was expected there; one that finds no memory has a reply
/// that says so. After both the session continues. So a session ends with a fault alone: `Read`
/// and `Memory`, after which each line that was taken has its reply, and `Write`, after which a beginning of the last one's was written. A line
/// that finds no memory while it is read is the fault `Memory`. A session of 2^64 - 2 lines ends with `TooLong`. The writer is not flushed.
/// (this profile)
pub fn run_session<R: BufRead, W: Write>(
    alloc: Global,
    reader: &mut R,
    writer: &mut W,
) -> Result<(), ShellFault>
    ensures played { IfOk result (λ _. IsConversation (R.remaining reader.old)
        (W.contents writer.old) (W.contents writer.new)) }
    ensures cut { IfErr result (λ fault. IsConversationCut fault (R.remaining reader.old)
        (W.contents writer.old) (W.contents writer.new)) }
{
    let mut session = Session::new(alloc)?;
    let ended = converse(alloc, &mut session, reader, writer);
    session.end();
    ended
}

/// Runs the lines in a session in which nothing was done.
fn converse<R: BufRead, W: Write>(
    alloc: Global,
    session: &mut Session,
    reader: &mut R,
    writer: &mut W,
) -> Result<(), ShellFault>
    requires first { IsFirst session.old }
    requires kept { IsSession session.old }
    ensures kept { IsSession session.new }
    ensures played { IfOk result (λ _. HasAnswered (variables_of session.old) (space_of session.old)
        (R.remaining reader.old) (W.contents writer.old) (W.contents writer.new)
        (variables_of session.new) (space_of session.new)) }
    ensures cut { IfErr result (λ fault. IsConversationCut fault (R.remaining reader.old)
        (W.contents writer.old) (W.contents writer.new)) }
{
    let mut line = Vec::new(alloc);
    let mut block = Vec::with_capacity(alloc, BLOCK)?;
    for number in 1..u64::MAX {
        if !answer_next(
            alloc, session, reader, writer, &mut line, &mut block, number,
        )? {
            return Ok(());
        }
    }
    Err(ShellFault::TooLong)
}

/// Takes the reader's next line, performs it in a session, and writes its reply, under this number: all before it returns, so before another
/// line is taken. `false` if the reader is at its end, and then nothing is done. The block has room for at least 192 bytes and is empty before and
/// after; the line's bytes are put into `line`.
///
/// The faults are `Read` and `Memory`, after which only bytes of the reader were consumed, and `Write`, after which the line
/// was performed and a beginning of its reply was written. (this profile)
pub fn answer_next<R: BufRead, W: Write>(
    alloc: Global,
    session: &mut Session,
    reader: &mut R,
    writer: &mut W,
    line: &mut Vec<u8>,
    block: &mut Vec<u8>,
    number: u64,
) -> Result<bool, ShellFault>
    requires kept { IsSession session.old }
    requires empty { block.old.items ≡ [] }
    requires capacity { 192 ≤ vec_capacity block.old }
    ensures kept { IsSession session.new }
    ensures empty { IfOk result (λ _. block.new.items ≡ []) }
    ensures capacity { vec_capacity block.old ≤ vec_capacity block.new }
    ensures turn { IfOk result (λ there. IsTurn there number (R.remaining reader.old)
        (R.remaining reader.new) (variables_of session.old) (space_of session.old)
        (W.contents writer.old) (W.contents writer.new) (variables_of session.new)
        (space_of session.new)) }
    ensures cut { IfErr result (λ fault. IsTurnCut fault number (R.remaining reader.old)
        (variables_of session.old) (space_of session.old) (W.contents writer.old)
        (W.contents writer.new)) }
{
    if !take_line(reader, line)? {
        return Ok(false);
    }
    let text = line.as_slice();
    if is_tree(text) {
        write_tree(alloc, session, writer, block, number)?;
        return Ok(true);
    }
    let outcome = perform_line(session, text);
    write_answer(writer, block, number, text, &outcome)?;
    Ok(true)
}

/// Whether a line is `tree`.
fn is_tree(line: &[u8]) -> bool
    ensures { result ≡ is_tree line.now }
{
    line == b"tree".as_slice()
}

/// Writes the answer to a line `tree` of this number.
fn write_tree<W: Write>(
    alloc: Global,
    session: &Session,
    writer: &mut W,
    block: &mut Vec<u8>,
    number: u64,
) -> Result<(), Unwritten>
    requires empty { block.old.items ≡ [] }
    requires capacity { 192 ≤ vec_capacity block.old }
    ensures ok { IfOk result (λ _. (text : List ℕ)
        × IsTreeOf number (space_of session.now) text
        × Appends (W.contents writer.old) (W.contents writer.new) text) }
    ensures front { IfErr result (λ _. (text : List ℕ)
        × IsTreeOf number (space_of session.now) text
        × AppendsFront (W.contents writer.old) (W.contents writer.new) text) }
    ensures empty { IfOk result (λ _. block.new.items ≡ []) }
    ensures capacity { vec_capacity block.old ≤ vec_capacity block.new }
{
    match tree_of(alloc, session) {
        Ok(tree) => write_out(writer, tree.as_slice()),
        Err(_) => write_answer(writer, block, number, b"tree", &LineOutcome::NoMemory),
    }
}

/// The tree of the namespace of a session.
fn tree_of(alloc: Global, session: &Session) -> Result<Vec<u8>, AllocError>
    ensures { IfOk result (λ text.
        text.items ≡ tree_of Style.Boxes (survey_of standard (space_of session.now))) }
{
    let survey = session.survey(alloc)?;
    tree_text(alloc, &survey, Style::Boxes)
}

/// Writes the answer to the line of this number, a line of output or none, by way of the block.
fn write_answer<W: Write>(
    writer: &mut W,
    block: &mut Vec<u8>,
    number: u64,
    line: &[u8],
    outcome: &LineOutcome,
) -> Result<(), Unwritten>
    requires formed { outcome.now ≡ outcomes.NoLine → HasForm line.now None }
    requires empty { block.old.items ≡ [] }
    requires capacity { 192 ≤ vec_capacity block.old }
    ensures ok { IfOk result (λ _. (text : List ℕ) × IsAnswer number line.now outcome.now text
        × Appends (W.contents writer.old) (W.contents writer.new) text) }
    ensures front { IfErr result (λ _. (text : List ℕ) × IsAnswer number line.now outcome.now text
        × AppendsFront (W.contents writer.old) (W.contents writer.new) text) }
    ensures empty { IfOk result (λ _. block.new.items ≡ []) }
    ensures capacity { vec_capacity block.old ≤ vec_capacity block.new }
{
    gather_answer(writer, block, number, line, outcome)?;
    write_out(writer, block.as_slice())?;
    block.clear();
    Ok(())
}

/// Puts the answer to the line of this number into the block, which is empty.
fn gather_answer<W: Write>(
    writer: &mut W,
    block: &mut Vec<u8>,
    number: u64,
    line: &[u8],
    outcome: &LineOutcome,
) -> Result<(), Unwritten>
    requires formed { outcome.now ≡ outcomes.NoLine → HasForm line.now None }
    requires empty { block.old.items ≡ [] }
    requires capacity { 192 ≤ vec_capacity block.old }
    ensures ok { IfOk result (λ _. (text : List ℕ) × IsAnswer number line.now outcome.now text
        × Gathers (W.contents writer.old) (W.contents writer.new) [] text block.new.items) }
    ensures front { IfErr result (λ _. (text : List ℕ) × IsAnswer number line.now outcome.now text
        × AppendsFront (W.contents writer.old) (W.contents writer.new) text) }
    ensures capacity { vec_capacity block.old ≤ vec_capacity block.new }
{
    match outcome {
        LineOutcome::NoLine => match misfit_of(line) {
            Some(misfit) => {
                push_misfit_line(block, number, misfit);
                Ok(())
            }
            None => unreachable!(),
        },
        _ => write_outcome(writer, block, number, outcome),
    }
}
