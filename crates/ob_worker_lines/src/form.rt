//! The forms of a line of a seat.

ghost use Rattle.std.specs.Prelude.{◌≡◌, ◌<◌, [], ℕ, List, length, IfSome, IfNone};
ghost use Rattle.ob_worker_lines.specs.declared.form.SeatForm.{SeatForm};
ghost use Rattle.ob_worker_lines.specs.Forms.{
  BeginsWithSeatLine,
  IsLineOfSeat,
  SealIsNoScriptLine,
  SeatFormHasTexts,
  SeatLinesHaveOneForm,
  seat_form_seen,
  seat_found_seen,
};

use ob_lines::{Form, first_line, form_of};

/// The form of a seat's line. `B` is how bytes are held: as slices of the line, or, in contracts, as lists. (this profile)
#[derive(Clone, Copy, PartialEq, Eq, Debug)]
pub enum SeatForm<B> {
    /// `seal`: the open segment of the journal is sealed.
    Seal,
    /// A line of a script without workers.
    Line(Form<B>),
}

/// The form of the first line of a seat's lines, and the rest of them after it; none where there is no line.
///
/// A line ends at its LF, or at the end of the text. The form is none where the line is no line of a seat, as `thread`, `join` and one of
/// more than 262,144 bytes. Source: this profile.
pub fn read_seat_line(script: &[u8]) -> Option<(Option<SeatForm<&[u8]>>, &[u8])>
    // The first line is of this form, and the rest follows it.
    ensures found { IfSome result (λ read.
        BeginsWithSeatLine script.now (seat_found_seen read.0) read.1.now) }
    ensures shorter { IfSome result (λ read. length read.1.now < length script.now) }

    // The form's texts are texts, so that each can be decoded.
    ensures texts { IfSome result (λ read.
        IfSome read.0 (λ form. SeatFormHasTexts (seat_form_seen form))) }

    ensures none { IfNone result (script.now ≡ []) }
{
    let (line, rest) = first_line(script)?;
    Some((seat_form_of(line), rest))
}

// The form of a line of a seat, without its LF; none where it is no line of a seat.
pub(crate) fn seat_form_of(line: &[u8]) -> Option<SeatForm<&[u8]>>
    ensures found { IfSome result (λ form. IsLineOfSeat line.now (seat_form_seen form)) }
    ensures texts { IfSome result (λ form. SeatFormHasTexts (seat_form_seen form)) }
    ensures none { IfNone result ((form : SeatForm (List ℕ)) → ¬ IsLineOfSeat line.now form) }
{
    if line == b"seal".as_slice() {
        return Some(SeatForm::Seal);
    }
    let form = form_of(line)?;
    Some(SeatForm::Line(form))
}

/// The law that a line has at most one form of a line of a seat, and that the line `seal` is none of a script without workers. The call does
/// nothing; a caller makes it to have the fact.
pub fn seat_lines_have_one_form()
    ensures one { SeatLinesHaveOneForm }
    ensures seal { SealIsNoScriptLine }
{}
