//! Flags known by their bits, and bytes that are kept and given back, which no crate above asks for.

use ob_base::Attrs;
use ob_model::Bytes;
use std::alloc::Global;

// The bits of lawful flags.
fn bits_of(bits: u32) -> Option<u32> {
    match Attrs::check(bits) {
        Ok(attrs) => Some(attrs.bits()),
        Err(_) => None,
    }
}

// Whether a copy of bytes gives them back.
fn keeps(alloc: Global, bytes: &[u8]) -> bool {
    match Bytes::from_slice(alloc, bytes) {
        Ok(copy) => copy.as_slice() == bytes,
        Err(_) => false,
    }
}

#[test]
fn flags_tell_their_bits_and_bytes_are_given_back(rt: HostRuntime) {
    assert!(rt; bits_of(0x1D2) == Some(0x1D2) && bits_of(0x200).is_none());
    assert!(rt; keeps(rt.alloc(), b"\\A\x00\xff"));
    assert!(rt; keeps(rt.alloc(), b"\\seventeen bytes!"));
}
