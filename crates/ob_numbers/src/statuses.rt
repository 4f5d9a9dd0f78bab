//! The numbers and the texts of statuses.

ghost use Rattle.std.specs.Prelude.{◌≡◌, IfSome, IfNone};
ghost use Rattle.ob_base.specs.Status.{text_of};
ghost use Rattle.ob_base.specs.declared.status.Status.{Status as StatusValue};
ghost use Rattle.ob_numbers.specs.Texts.{IsCode, IsStatusText, zero_ended};

use ob_base::Status;

/// The text of the status that has this number, with a byte 0 after it; `None` if no status has the number.
pub fn status_text(code: u32) -> Option<&'static str>
    ensures found { IfSome result (λ text. IsStatusText code text.now) }
    ensures none { IfNone result ((status : StatusValue) → IsCode code status → ⊥) }
{
    status_of(code).map(ended_text)
}

// The status that has this number.
fn status_of(code: u32) -> Option<Status>
    ensures found { IfSome result (λ status. IsCode code status) }
    ensures none { IfNone result ((status : StatusValue) → IsCode code status → ⊥) }
{
    match code {
        0x0000_0000 => Some(Status::Success),
        0x0000_0105 => Some(Status::MoreEntries),
        0x4000_0000 => Some(Status::ObjectNameExists),
        0x8000_001A => Some(Status::NoMoreEntries),
        0xC000_0008 => Some(Status::InvalidHandle),
        0xC000_000D => Some(Status::InvalidParameter),
        0xC000_0017 => Some(Status::NoMemory),
        0xC000_0022 => Some(Status::AccessDenied),
        0xC000_0023 => Some(Status::BufferTooSmall),
        0xC000_0024 => Some(Status::ObjectTypeMismatch),
        0xC000_0033 => Some(Status::ObjectNameInvalid),
        0xC000_0034 => Some(Status::ObjectNameNotFound),
        0xC000_0035 => Some(Status::ObjectNameCollision),
        0xC000_003A => Some(Status::ObjectPathNotFound),
        0xC000_003B => Some(Status::ObjectPathSyntaxBad),
        0xC000_009A => Some(Status::InsufficientResources),
        0xC000_0106 => Some(Status::NameTooLong),
        0xE000_0001 => Some(Status::ReparseLimit),
        0xE000_0002 => Some(Status::ProcessGone),
        0xE000_0003 => Some(Status::JournalFull),
        0xE001_0000..=0xE001_FFFF => Some(Status::TypeRefused((code - 0xE001_0000) as u16)),
        _ => None,
    }
}

// The text of a status, with a byte 0 after it.
fn ended_text(status: Status) -> &'static str
    ensures { result.now ≡ zero_ended (text_of status) }
{
    match status {
        Status::Success => "SUCCESS\0",
        Status::MoreEntries => "MORE_ENTRIES\0",
        Status::ObjectNameExists => "OBJECT_NAME_EXISTS\0",
        Status::NoMoreEntries => "NO_MORE_ENTRIES\0",
        Status::InvalidHandle => "INVALID_HANDLE\0",
        Status::InvalidParameter => "INVALID_PARAMETER\0",
        Status::NoMemory => "NO_MEMORY\0",
        Status::AccessDenied => "ACCESS_DENIED\0",
        Status::BufferTooSmall => "BUFFER_TOO_SMALL\0",
        Status::ObjectTypeMismatch => "OBJECT_TYPE_MISMATCH\0",
        Status::ObjectNameInvalid => "OBJECT_NAME_INVALID\0",
        Status::ObjectNameNotFound => "OBJECT_NAME_NOT_FOUND\0",
        Status::ObjectNameCollision => "OBJECT_NAME_COLLISION\0",
        Status::ObjectPathNotFound => "OBJECT_PATH_NOT_FOUND\0",
        Status::ObjectPathSyntaxBad => "OBJECT_PATH_SYNTAX_BAD\0",
        Status::InsufficientResources => "INSUFFICIENT_RESOURCES\0",
        Status::NameTooLong => "NAME_TOO_LONG\0",
        Status::ReparseLimit => "REPARSE_LIMIT\0",
        Status::ProcessGone => "PROCESS_GONE\0",
        Status::JournalFull => "JOURNAL_FULL\0",
        Status::TypeRefused(_) => "TYPE_REFUSED\0",
    }
}
