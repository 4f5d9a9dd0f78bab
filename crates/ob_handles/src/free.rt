//! An unused handle value.

ghost use Rattle.std.specs.Prelude.{◌≡◌, ◌<◌, ℕ, None, length, All};
ghost use Rattle.std.specs.BTreeMap.{is_at, keys, IsOrdered};
ghost use Rattle.std.specs.Map.{lookup};
ghost use Rattle.std.specs.Ordering.{nat_cmp};
ghost use Rattle.ob_model.specs.State.{most_handles};
ghost use Rattle.ob_model.specs.Grants.{IsHandleValue};
ghost use Rattle.ob_handles.specs.Indexed.{gap};

use std::collections::BTreeMap;

/// The greatest handle value. (this profile)
const GREATEST: u32 = 262_140;

/// A handle value that no key is: the one after the greatest key, or, where there is none after it,
/// the least.
pub(crate) fn unused_value(values: &BTreeMap<u32, u64>) -> u32
    requires values { All IsHandleValue (keys values.now) }
    requires room { length values.now.entries < most_handles }
    ensures value { IsHandleValue result }
    ensures unused { lookup (is_at (nat_cmp result)) values.now.entries ≡ None }
{
    match values.last_key_value() {
        None => 4,
        Some((greatest, _)) if *greatest < GREATEST => *greatest + 4,
        Some(_) => least_unused(values),
    }
}

/// The least multiple of four from 4 on that no key is.
fn least_unused(values: &BTreeMap<u32, u64>) -> u32
    requires values { All IsHandleValue (keys values.now) }
    requires room { length values.now.entries < most_handles }
    ensures least { result ≡ gap 4 (keys values.now) }

    // The invariant of every map.
    ensures ordered { IsOrdered nat_cmp values.now }
{
    let mut least = 4;
    for value in values.keys() {
        if *value != least {
            return least;
        }
        least += 4;
    }
    least
}
