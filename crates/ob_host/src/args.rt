//! The arguments of a caller's objects.

ghost use Rattle.std.specs.Prelude.{◌≡◌, []};
ghost use Rattle.ob_host.specs.Objects.{user_data_of, text_of};

use std::array;

// The bytes of user data in arguments.
const USER_DATA_BYTES: usize = 8;

/// The arguments of an object with this user data and no text: the user data's eight bytes, the lowest first. (this profile)
pub fn arguments(user_data: u64) -> [u8; 8]
    ensures user_data { user_data_of result ≡ user_data }
    ensures text { text_of result ≡ [] }
{
    user_data.to_le_bytes()
}

// The user data of arguments: their first eight bytes, the lowest first; those that aren't there are 0.
pub(crate) fn user_data_of(args: &[u8]) -> u64
    ensures { result ≡ user_data_of args.now }
{
    let bytes: [u8; USER_DATA_BYTES] = array::from_fn(|place| args
        .get(place)
        .copied()
        .unwrap_or(0));
    u64::from_le_bytes(bytes)
}

// The text of arguments: the bytes after the user data.
pub(crate) fn text_of(args: &[u8]) -> &[u8]
    ensures { result.now ≡ text_of args.now }
{
    args.get(USER_DATA_BYTES..).unwrap_or(b"")
}
