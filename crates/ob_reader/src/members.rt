//! The values of a line, by their keys.

ghost use Rattle.std.specs.Prelude.{◌≡◌, option_map};
ghost use Rattle.serde_json.specs.View.{view, items_view};
ghost use Rattle.ob_reader.specs.Reading.{has_members, has_items, has_key, u64_in, u32_in, u64_at, u32_at, bool_at, text_at, items_at};

use serde_json::Value;

/// Whether a value is an object of so many keys. (this profile)
pub(crate) fn has_members(value: &Value, count: usize) -> bool
    ensures { result ≡ has_members count (view value.now) }
{
    match value.as_object() {
        Some(members) => members.len() == count,
        None => false,
    }
}

/// Whether a value is a list of so many items. (this profile)
pub(crate) fn has_items(value: &Value, count: usize) -> bool
    ensures { result ≡ has_items count (view value.now) }
{
    match value.as_array() {
        Some(items) => items.len() == count,
        None => false,
    }
}

/// Whether a value is an object with this key. (this profile)
pub(crate) fn has_key(value: &Value, key: &str) -> bool
    ensures { result ≡ has_key key.now (view value.now) }
{
    match value.get(key) {
        Some(_) => true,
        None => false,
    }
}

/// The whole number below 2^64 that a value is. (this profile)
pub(crate) fn u64_in(value: &Value) -> Option<u64>
    ensures { result ≡ u64_in (view value.now) }
{
    value.as_u64()
}

/// The whole number below 2^32 that a value is. (this profile)
pub(crate) fn u32_in(value: &Value) -> Option<u32>
    ensures { result ≡ u32_in (view value.now) }
{
    let number = value.as_u64()?;
    if number < 0x1_0000_0000 {
        Some(number as u32)
    } else {
        None
    }
}

/// The whole number below 2^64 under a key. (this profile)
pub(crate) fn u64_at(value: &Value, key: &str) -> Option<u64>
    ensures { result ≡ u64_at key.now (view value.now) }
{
    u64_in(value.get(key)?)
}

/// The whole number below 2^32 under a key. (this profile)
pub(crate) fn u32_at(value: &Value, key: &str) -> Option<u32>
    ensures { result ≡ u32_at key.now (view value.now) }
{
    u32_in(value.get(key)?)
}

/// The truth value under a key. (this profile)
pub(crate) fn bool_at(value: &Value, key: &str) -> Option<bool>
    ensures { result ≡ bool_at key.now (view value.now) }
{
    value.get(key)?.as_bool()
}

/// The string under a key. (this profile)
pub(crate) fn text_at<'a>(value: &'a Value, key: &str) -> Option<&'a str>
    ensures { option_map (λ text. text.now) result ≡ text_at key.now (view value.now) }
{
    value.get(key)?.as_str()
}

/// The items of the list under a key. (this profile)
pub(crate) fn items_at<'a>(value: &'a Value, key: &str) -> Option<&'a [Value]>
    ensures { option_map (λ items. items_view items.now) result
        ≡ items_at key.now (view value.now) }
{
    let items = value.get(key)?.as_array()?;
    Some(items.as_slice())
}
