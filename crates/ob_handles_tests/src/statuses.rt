//! Statuses: their words and numbers.

use ob_base::{Fault, Status};
use std::alloc::AllocError;

// The word and the number of each status, as the public tables and this profile have them.
const STATUSES: [(Status, &'static str, u32); 23] = [
    (Status::Success, "SUCCESS", 0x0000_0000),
    (Status::MoreEntries, "MORE_ENTRIES", 0x0000_0105),
    (Status::ObjectNameExists, "OBJECT_NAME_EXISTS", 0x4000_0000),
    (Status::NoMoreEntries, "NO_MORE_ENTRIES", 0x8000_001A),
    (Status::InvalidHandle, "INVALID_HANDLE", 0xC000_0008),
    (Status::InvalidParameter, "INVALID_PARAMETER", 0xC000_000D),
    (Status::NoMemory, "NO_MEMORY", 0xC000_0017),
    (Status::AccessDenied, "ACCESS_DENIED", 0xC000_0022),
    (Status::BufferTooSmall, "BUFFER_TOO_SMALL", 0xC000_0023),
    (
        Status::ObjectTypeMismatch,
        "OBJECT_TYPE_MISMATCH",
        0xC000_0024,
    ),
    (
        Status::ObjectNameInvalid,
        "OBJECT_NAME_INVALID",
        0xC000_0033,
    ),
    (
        Status::ObjectNameNotFound,
        "OBJECT_NAME_NOT_FOUND",
        0xC000_0034,
    ),
    (
        Status::ObjectNameCollision,
        "OBJECT_NAME_COLLISION",
        0xC000_0035,
    ),
    (
        Status::ObjectPathNotFound,
        "OBJECT_PATH_NOT_FOUND",
        0xC000_003A,
    ),
    (
        Status::ObjectPathSyntaxBad,
        "OBJECT_PATH_SYNTAX_BAD",
        0xC000_003B,
    ),
    (
        Status::InsufficientResources,
        "INSUFFICIENT_RESOURCES",
        0xC000_009A,
    ),
    (Status::NameTooLong, "NAME_TOO_LONG", 0xC000_0106),
    (Status::ReparseLimit, "REPARSE_LIMIT", 0xE000_0001),
    (Status::ProcessGone, "PROCESS_GONE", 0xE000_0002),
    (Status::JournalFull, "JOURNAL_FULL", 0xE000_0003),
    (Status::TypeRefused(0), "TYPE_REFUSED", 0xE001_0000),
    (Status::TypeRefused(7), "TYPE_REFUSED", 0xE001_0007),
    (Status::TypeRefused(65_535), "TYPE_REFUSED", 0xE001_FFFF),
];

#[test]
fn statuses_have_words_and_numbers_and_are_faults(rt: HostRuntime) {
    for (status, text, code) in STATUSES.iter() {
        assert!(rt; status.text() == *text && status.code() == *code, "{text}");
        assert!(rt; Fault::from(*status) == Fault::Refused(*status));
    }
    assert!(rt; Fault::from(AllocError) == Fault::Memory);
}
