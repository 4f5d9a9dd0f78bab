//! Lines for a pending open.

ghost use Rattle.std.specs.Prelude.{◌≡◌, ◌≤◌, ℕ, List, length, IfSome, IfNone};
ghost use Rattle.ob_lines.specs.declared.pending.PendingForm.{PendingForm};
ghost use Rattle.ob_lines.specs.Grammar.{IsPending, pending_seen};

use ob_parts::{KindForm, NameForm, behind, is_variable, want_name_flags_and_variable};

/// The request of a line for a pending open. `T` is how bytes are held: as slices of the
/// line, or, in contracts, as lists.
#[derive(Clone, Copy, PartialEq, Eq, Debug)]
pub enum PendingForm<T> {
    /// `begin WANT NAME FLAGS =V`: an open is begun, and not run to its end.
    Begin {
        /// The kind that the object must have; none for `any`.
        want: Option<KindForm>,
        /// The object's name.
        name: NameForm<T>,
        /// The attribute flags, as raw bits.
        attrs: u32,
        /// The handle variable under which the open is pending, and which its end sets.
        variable: T,
    },
    /// `end V`: the parse of the pending open under a handle variable is run, and the open resumed.
    End {
        /// The handle variable.
        variable: T,
    },
    /// `drop V`: the pending open under a handle variable is abandoned, and its parse not run.
    Drop {
        /// The handle variable.
        variable: T,
    },
}

// The request of a line for a pending open, after the process variable and a space.
pub fn pending_of(bytes: &[u8]) -> Option<PendingForm<&[u8]>>
    requires { length bytes.now ≤ 262144 }
    ensures found { IfSome result (λ pending. IsPending bytes.now (pending_seen pending)) }
    ensures none { IfNone result ((pending : PendingForm (List ℕ))
        → ¬ IsPending bytes.now pending) }
{
    if let Some(operands) = behind(bytes, b"begin ") {
        let (want, name, attrs, variable) = want_name_flags_and_variable(operands)?;
        return Some(PendingForm::Begin {
            want,
            name,
            attrs,
            variable,
        });
    }
    if let Some(variable) = behind(bytes, b"end ") {
        if !is_variable(variable) {
            return None;
        }
        return Some(PendingForm::End { variable });
    }
    let variable = behind(bytes, b"drop ")?;
    if !is_variable(variable) {
        return None;
    }
    Some(PendingForm::Drop { variable })
}
