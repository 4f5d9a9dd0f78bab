//! The objects that names lead to through a caller's own devices and keys, outside of a namespace.

use ob_host::{HostInner, HostObject, HostSet, Kind};
use ob_types::{Outcome, TypeSet, run_parse};
use std::alloc::Global;

// The end that a name leads to: the object itself, or one of a kind with a text.
#[derive(Clone, Copy)]
enum Led {
    Itself,
    To(Kind, &'static [u8]),
}

// An object by its kind and its arguments, the rest of a name there, and what that leads to.
type Case = (Kind, &'static [u8], &'static [u8], Led);

const CASES: [Case; 16] = [
    (Kind::Device, b"12345678", b"", Led::To(Kind::File, b"")),
    (Kind::Device, b"12345678", b"\\", Led::To(Kind::File, b"\\")),
    (
        Kind::Device,
        b"12345678",
        b"\\a",
        Led::To(Kind::File, b"\\a"),
    ),
    (Kind::Device, b"12345678", b"a", Led::To(Kind::File, b"a")),
    (
        Kind::Device,
        b"12345678",
        b"\\\\a\\",
        Led::To(Kind::File, b"\\\\a\\"),
    ),
    (
        Kind::Device,
        b"12345678",
        b"\x01/\x7f",
        Led::To(Kind::File, b"\x01/\x7f"),
    ),
    (
        Kind::Device,
        b"12345678",
        b"\\a\\b\\c",
        Led::To(Kind::File, b"\\a\\b\\c"),
    ),
    (
        Kind::Device,
        b"12345678\\v",
        b"",
        Led::To(Kind::File, b"\\v\\"),
    ),
    (
        Kind::Device,
        b"12345678\\v",
        b"\\a",
        Led::To(Kind::File, b"\\v\\a"),
    ),
    (
        Kind::Device,
        b"12345678\\v",
        b"a",
        Led::To(Kind::File, b"\\v\\a"),
    ),
    (Kind::Key, b"12345678", b"", Led::Itself),
    (Kind::Key, b"12345678", b"\\A", Led::To(Kind::Key, b"\\A")),
    (Kind::Key, b"12345678", b"A\\B", Led::To(Kind::Key, b"A\\B")),
    (Kind::Key, b"12345678\\A", b"", Led::Itself),
    (
        Kind::Key,
        b"12345678\\A",
        b"\\B",
        Led::To(Kind::Key, b"\\A\\B"),
    ),
    (
        Kind::Key,
        b"12345678A",
        b"B\\C",
        Led::To(Kind::Key, b"A\\B\\C"),
    ),
];

// The user data of these objects, which those that they lead to have too.
const USER_DATA: u64 = 0x3837_3635_3433_3231;

// Whether a new object is the one that is wanted.
fn is_object(object: &HostObject, kind: Kind, text: &[u8]) -> bool {
    object.kind == kind && object.user_data == USER_DATA && object.text.as_slice() == text
}

// Whether a parse ended so.
fn is_end(outcome: &Outcome<HostObject, HostInner>, wanted: Led) -> bool {
    match (outcome, wanted) {
        (Outcome::Itself, Led::Itself) => true,
        (Outcome::Made(object, inner), Led::To(kind, text)) => {
            is_object(object, kind, text) && inner.handles() == 0
        }
        _ => false,
    }
}

// Whether an object leads so.
fn leads(alloc: Global, case: Case) -> bool {
    let (kind, args, rest, wanted) = case;
    let Ok((object, _inner)) = HostSet::make(alloc, kind, args) else {
        return false;
    };
    if !HostSet::parses(HostSet::kind_of(&object)) {
        return false;
    }
    let outcome = run_parse::<HostSet>(alloc, &object, rest);
    is_end(&outcome, wanted)
}

#[test]
fn devices_lead_to_files_and_keys_to_keys(rt: HostRuntime) {
    for (place, case) in CASES.iter().enumerate() {
        assert!(rt; leads(rt.alloc(), *case), "at {place}");
    }
}
