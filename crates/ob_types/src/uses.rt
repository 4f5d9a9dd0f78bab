//! Consequences for every lawful set.

ghost use Rattle.std.specs.Prelude.{◌≡◌, ◌↔◌, None, Some, OnErr, IfOk, IfErr, IsTrue};

use crate::{Reason, TypeSet, laws};

/// Opens by the open procedure of the set. At an error, the number that the procedure refuses
/// with, the set and the inner value are as they were. (this profile)
pub fn open_or_leave<T: TypeSet>(
    set: &mut T,
    inner: &mut T::Inner,
    reason: Reason,
) -> Result<(), u16>
    ensures accepted { IfOk result (λ _. (T.procedures).refuses_to_open set.old inner.old reason
        ≡ None) }
    ensures refused { IfErr result (λ code. (T.procedures).refuses_to_open set.old inner.old reason
        ≡ Some code) }
    ensures opened { IfOk result (λ _. (set.new, inner.new)
        ≡ (T.procedures).opened set.old inner.old reason) }
    ensures set_left { OnErr result (set.new ≡ set.old) }
    ensures inner_left { OnErr result (inner.new ≡ inner.old) }
{
    laws::refused_open::<T>();
    set.on_open(inner, reason)
}

/// The calls for an object whose last handle in the system goes: close, with no handle left,
/// and then delete. (Windows Internals, Object Manager: object retention; the order: this profile)
pub fn close_last<T: TypeSet>(set: &mut T, inner: T::Inner)
    ensures { let left = (T.procedures).closed set.old inner 0 0 in set.new
        ≡ (T.procedures).deleted left.0 left.1 }
{
    let mut inner = inner;
    set.on_close(&mut inner, 0, 0);
    laws::closed_idle::<T>();
    set.on_delete(inner);
}

/// Whether two kinds are one kind.
pub fn is_one_kind<T: TypeSet>(a: T::Kind, b: T::Kind) -> bool
    ensures { IsTrue result ↔ a ≡ b }
{
    laws::one_kind::<T>();
    laws::own_kind::<T>();
    laws::equal_kinds::<T>();
    a == b
}
