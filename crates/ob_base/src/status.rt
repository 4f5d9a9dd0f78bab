//! Statuses: what a step answers.

ghost use Rattle.std.specs.Prelude.{◌≡◌};
ghost use Rattle.ob_base.specs.Status.{code_of, text_of, CodesTellStatuses, TextsTellStatuses};

/// The answer of a step: one of the NTSTATUS values that the namespace uses, or a status of its own.
///
/// Numbers and words up to `NameTooLong` are those of the Windows Driver Kit's "NTSTATUS values";
/// the others are this profile's, and their numbers have bit 29 set, which NTSTATUS leaves to its
/// users. Which status a refusal answers is this profile's in every case.
#[derive(Clone, Copy, PartialEq, Eq, Debug)]
pub enum Status {
    /// The request was carried out. (STATUS_SUCCESS)
    Success,
    /// Entries of a directory were shown, and some are left after them. (STATUS_MORE_ENTRIES)
    MoreEntries,
    /// A create opened the object that has the name already. (STATUS_OBJECT_NAME_EXISTS)
    ObjectNameExists,
    /// No entry of a directory is left to be shown. (STATUS_NO_MORE_ENTRIES)
    NoMoreEntries,
    /// The process has no handle of that value. (STATUS_INVALID_HANDLE)
    InvalidHandle,
    /// A parameter, or the attribute flags, may not have that value. (STATUS_INVALID_PARAMETER)
    InvalidParameter,
    /// Memory was wanted and there was none. (STATUS_NO_MEMORY)
    NoMemory,
    /// Another process holds a handle to the exclusive object. (STATUS_ACCESS_DENIED)
    AccessDenied,
    /// The first entry to be shown does not fit the room. (STATUS_BUFFER_TOO_SMALL)
    BufferTooSmall,
    /// The object is of another type than the request asks for. (STATUS_OBJECT_TYPE_MISMATCH)
    ObjectTypeMismatch,
    /// A name has a byte or a component that no name may have. (STATUS_OBJECT_NAME_INVALID)
    ObjectNameInvalid,
    /// The last component of a name is no entry of its directory. (STATUS_OBJECT_NAME_NOT_FOUND)
    ObjectNameNotFound,
    /// A create found the name taken. (STATUS_OBJECT_NAME_COLLISION)
    ObjectNameCollision,
    /// A component before the last is no entry of its directory. (STATUS_OBJECT_PATH_NOT_FOUND)
    ObjectPathNotFound,
    /// A name is absolute where it has to be relative, or the other way round, or empty where it
    /// may not be. (STATUS_OBJECT_PATH_SYNTAX_BAD)
    ObjectPathSyntaxBad,
    /// A table is full, or a number that is never used again has run out.
    /// (STATUS_INSUFFICIENT_RESOURCES)
    InsufficientResources,
    /// A name is longer than 32,767 bytes. (STATUS_NAME_TOO_LONG)
    NameTooLong,
    /// A lookup would start again for the 33rd time. (this profile)
    ReparseLimit,
    /// The process has ended, or there never was one of that number. (this profile)
    ProcessGone,
    /// The journal has no room for another entry. (this profile)
    JournalFull,
    /// A procedure of the object's type refused, with this number of its own, from 0 to 65,535.
    /// (this profile)
    TypeRefused(u16),
}

impl Status {
    /// The status as a number of 32 bits: its NTSTATUS value, or this profile's number, which is
    /// 0xE0000001 to 0xE0000003, and 0xE0010000 + n for `TypeRefused(n)`. No two statuses share a
    /// number.
    pub fn code(self) -> u32
        ensures { result ≡ code_of self }
    {
        match self {
            Status::Success => 0x0000_0000,
            Status::MoreEntries => 0x0000_0105,
            Status::ObjectNameExists => 0x4000_0000,
            Status::NoMoreEntries => 0x8000_001A,
            Status::InvalidHandle => 0xC000_0008,
            Status::InvalidParameter => 0xC000_000D,
            Status::NoMemory => 0xC000_0017,
            Status::AccessDenied => 0xC000_0022,
            Status::BufferTooSmall => 0xC000_0023,
            Status::ObjectTypeMismatch => 0xC000_0024,
            Status::ObjectNameInvalid => 0xC000_0033,
            Status::ObjectNameNotFound => 0xC000_0034,
            Status::ObjectNameCollision => 0xC000_0035,
            Status::ObjectPathNotFound => 0xC000_003A,
            Status::ObjectPathSyntaxBad => 0xC000_003B,
            Status::InsufficientResources => 0xC000_009A,
            Status::NameTooLong => 0xC000_0106,
            Status::ReparseLimit => 0xE000_0001,
            Status::ProcessGone => 0xE000_0002,
            Status::JournalFull => 0xE000_0003,
            Status::TypeRefused(number) => 0xE001_0000 + u32::from(number),
        }
    }

    /// The status as a word: the name of its NTSTATUS value without `STATUS_`, or this profile's
    /// word, in the same spelling. The word of `TypeRefused(n)` is `TYPE_REFUSED`, without the n.
    /// No two other statuses share a word.
    pub fn text(self) -> &'static str
        ensures { result.now ≡ text_of self }
    {
        match self {
            Status::Success => "SUCCESS",
            Status::MoreEntries => "MORE_ENTRIES",
            Status::ObjectNameExists => "OBJECT_NAME_EXISTS",
            Status::NoMoreEntries => "NO_MORE_ENTRIES",
            Status::InvalidHandle => "INVALID_HANDLE",
            Status::InvalidParameter => "INVALID_PARAMETER",
            Status::NoMemory => "NO_MEMORY",
            Status::AccessDenied => "ACCESS_DENIED",
            Status::BufferTooSmall => "BUFFER_TOO_SMALL",
            Status::ObjectTypeMismatch => "OBJECT_TYPE_MISMATCH",
            Status::ObjectNameInvalid => "OBJECT_NAME_INVALID",
            Status::ObjectNameNotFound => "OBJECT_NAME_NOT_FOUND",
            Status::ObjectNameCollision => "OBJECT_NAME_COLLISION",
            Status::ObjectPathNotFound => "OBJECT_PATH_NOT_FOUND",
            Status::ObjectPathSyntaxBad => "OBJECT_PATH_SYNTAX_BAD",
            Status::InsufficientResources => "INSUFFICIENT_RESOURCES",
            Status::NameTooLong => "NAME_TOO_LONG",
            Status::ReparseLimit => "REPARSE_LIMIT",
            Status::ProcessGone => "PROCESS_GONE",
            Status::JournalFull => "JOURNAL_FULL",
            Status::TypeRefused(_) => "TYPE_REFUSED",
        }
    }
}

/// The law that a number determines its status: two statuses with one number are one status. The call
/// does nothing; a caller makes it to have the fact.
pub fn codes_tell_statuses()
    ensures { CodesTellStatuses }
{}

/// The law that a word determines its status: two statuses with one word are one status, or both are
/// `TypeRefused`. The call does nothing; a caller makes it to have the fact.
pub fn texts_tell_statuses()
    ensures { TextsTellStatuses }
{}
