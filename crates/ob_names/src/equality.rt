//! When two names are equal.

ghost use Rattle.std.specs.Prelude.{◌≡◌};
ghost use Rattle.ob_model.specs.Names.{same_name};

/// Whether two texts, of any length and with any bytes, are equal: byte by byte, or, with `fold`,
/// with `a` to `z` equal to `A` to `Z`. No other bytes are equal to one another.
///
/// Source: OBJECT_ATTRIBUTES structure (Windows Driver Kit), OBJ_CASE_INSENSITIVE; that only the
/// ASCII letters have a case is this profile.
pub fn same(a: &[u8], b: &[u8], fold: bool) -> bool
    ensures { result ≡ same_name fold a.now b.now }
{
    if fold {
        a.eq_ignore_ascii_case(b)
    } else {
        a == b
    }
}
