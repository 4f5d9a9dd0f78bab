//! The lines of a script, one after another.

ghost use Rattle.std.specs.Prelude.{◌≡◌, ◌<◌, ◌∷◌, [], length, IfSome, IfNone};
ghost use Rattle.ob_lines.specs.Lines.{IsFirstLine, lines_of};
ghost use Rattle.ob_lines.specs.Grammar.{FormHasTexts, form_seen};
ghost use Rattle.ob_lines.specs.Script.{BeginsWithLine, found_seen, HasReading, ScriptsHaveOneReading};

use crate::form::{Form, form_of};
use ob_parts::split_at;

/// The form of a script's first line, and the rest of the script after the line; none where the
/// script is over.
///
/// A line ends at its LF, or at the script's end. The form is none where the line is no script line,
/// as one of more than 262,144 bytes.
pub fn read_line(script: &[u8]) -> Option<(Option<Form<&[u8]>>, &[u8])>
    // The first line is of this form, and the rest follows it.
    ensures found { IfSome result (λ read.
        BeginsWithLine script.now (found_seen read.0) read.1.now) }
    ensures shorter { IfSome result (λ read. length read.1.now < length script.now) }

    // The form's texts are texts, so that each can be decoded.
    ensures texts { IfSome result (λ read. IfSome read.0 (λ form. FormHasTexts (form_seen form))) }

    ensures none { IfNone result (script.now ≡ []) }
{
    let (line, rest) = first_line(script)?;
    Some((form_of(line), rest))
}

/// The first line of a text, without its LF, and the text after it; none where the text is empty. A line ends at its
/// LF, or at the text's end.
pub fn first_line(bytes: &[u8]) -> Option<(&[u8], &[u8])>
    ensures found { IfSome result (λ x. lines_of bytes.now ≡ x.0.now ∷ lines_of x.1.now) }
    ensures cut { IfSome result (λ x. IsFirstLine bytes.now x.0.now x.1.now) }
    ensures shorter { IfSome result (λ x. length x.1.now < length bytes.now) }
    ensures none { IfNone result (bytes.now ≡ []) }
{
    if bytes.is_empty() {
        return None;
    }
    match split_at(bytes, b'\n') {
        Some((line, rest)) => Some((line, rest)),
        None => {
            let nothing: &[u8] = &[];
            Some((bytes, nothing))
        }
    }
}

/// Each script has a reading: forms of all its lines. [`scripts_have_one_reading`] says that there is no
/// other. The call reads the script line by line and returns nothing; a caller makes it to have the fact.
/// A contract that says a fact of each reading of a script says it of this one.
pub fn every_script_has_a_reading(script: &[u8])
    ensures { HasReading script.now }
{
    let mut rest = script;
    while let Some((_form, behind)) = read_line(rest) {
        rest = behind;
    }
}

/// The law that a script is read in one way: of two readings of it from its first line on, one is the
/// beginning of the other. The call does nothing; a caller makes it to have the fact.
pub fn scripts_have_one_reading()
    ensures { ScriptsHaveOneReading }
{}
