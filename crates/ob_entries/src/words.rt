//! The words of a journal: its operations, and what became of a parse.

ghost use Rattle.std.specs.Prelude.{◌≡◌};
ghost use Rattle.ob_entries.specs.Lines.{parse_word};
ghost use Rattle.ob_entries.specs.Words.{operation_word, operation_for, parse_for};

use ob_model::ParseRun;

/// The operation that a step of a journal asks for. (this profile)
#[derive(Clone, Copy, PartialEq, Eq, Debug)]
pub enum Operation {
    /// Makes a directory.
    Directory,
    /// Makes a directory with a shadow.
    Shadow,
    /// Makes a symbolic link.
    Link,
    /// Makes an object of a kind of the set.
    Make,
    /// Opens a directory.
    OpenDirectory,
    /// Opens a symbolic link.
    OpenLink,
    /// Opens an object.
    Open,
    /// Closes a handle.
    Close,
    /// Makes an object temporary.
    Temporary,
    /// Makes an object permanent.
    Permanent,
    /// Asks for the target of a link.
    Target,
    /// Asks for the path of an object.
    Name,
    /// Sets the device map of a process.
    DeviceMap,
    /// Duplicates a handle.
    Duplicate,
    /// Asks for a page of a directory.
    Page,
    /// Makes a child of a process.
    NewProcess,
    /// Ends a process.
    Exit,
    /// Brings the parse of a pending open.
    Resume,
    /// Gives a pending open up.
    Abandon,
}

impl Operation {
    /// The word for the operation under the key `op`. (this profile)
    pub fn word(self) -> &'static str
        ensures { result.now ≡ operation_word self }
    {
        match self {
            Operation::Directory => "dir",
            Operation::Shadow => "shadow",
            Operation::Link => "link",
            Operation::Make => "make",
            Operation::OpenDirectory => "opendir",
            Operation::OpenLink => "openlink",
            Operation::Open => "open",
            Operation::Close => "close",
            Operation::Temporary => "temp",
            Operation::Permanent => "perm",
            Operation::Target => "target",
            Operation::Name => "name",
            Operation::DeviceMap => "map",
            Operation::Duplicate => "dup",
            Operation::Page => "list",
            Operation::NewProcess => "new",
            Operation::Exit => "exit",
            Operation::Resume => "resume",
            Operation::Abandon => "abandon",
        }
    }

    /// The operation that a word means under the key `op`: none where it is the word of none. Takes no memory. (this
    /// profile)
    pub fn from_word(word: &str) -> Option<Operation>
        ensures { result ≡ operation_for word.now }
    {
        match word {
            "dir" => Some(Operation::Directory),
            "shadow" => Some(Operation::Shadow),
            "link" => Some(Operation::Link),
            "make" => Some(Operation::Make),
            "opendir" => Some(Operation::OpenDirectory),
            "openlink" => Some(Operation::OpenLink),
            "open" => Some(Operation::Open),
            "close" => Some(Operation::Close),
            "temp" => Some(Operation::Temporary),
            "perm" => Some(Operation::Permanent),
            "target" => Some(Operation::Target),
            "name" => Some(Operation::Name),
            "map" => Some(Operation::DeviceMap),
            "dup" => Some(Operation::Duplicate),
            "list" => Some(Operation::Page),
            "new" => Some(Operation::NewProcess),
            "exit" => Some(Operation::Exit),
            "resume" => Some(Operation::Resume),
            "abandon" => Some(Operation::Abandon),
            _ => None,
        }
    }
}

/// The word for what became of a parse under the key `parse`. (this profile)
pub fn word_of_parse(parse: ParseRun) -> &'static str
    ensures { result.now ≡ parse_word parse }
{
    match parse {
        ParseRun::Unrun => "none",
        ParseRun::Ran => "ran",
        ParseRun::NoMemory => "nomem",
    }
}

/// The outcome of a parse that a word means, under the key `parse`: nothing where it is none of the three words. Takes
/// no memory. (this profile)
pub fn parse_of_word(word: &str) -> Option<ParseRun>
    ensures { result ≡ parse_for word.now }
{
    match word {
        "none" => Some(ParseRun::Unrun),
        "ran" => Some(ParseRun::Ran),
        "nomem" => Some(ParseRun::NoMemory),
        _ => None,
    }
}
