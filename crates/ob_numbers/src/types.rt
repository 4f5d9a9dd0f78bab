//! The numbers and the names of types.

ghost use Rattle.std.specs.Prelude.{◌≡◌, IfSome, IfNone, List, ℕ};
ghost use Rattle.ob_host.specs.Kinds.{name_of};
ghost use Rattle.ob_host.specs.declared.kind.Kind.{Kind as KindValue};
ghost use Rattle.ob_numbers.specs.Types.{IsType, IsTypeText, IsTypeNumber, type_of_kind};
ghost use Rattle.ob_numbers.specs.Texts.{zero_ended};

use ob_host::Kind;

/// The number of a directory's type.
pub const DIRECTORY: u32 = 1;

/// The number of a symbolic link's type.
pub const LINK: u32 = 2;

// The number of the first kind's type.
const FIRST_KIND: u32 = 3;

/// The number of a kind's type: 3 for the first kind, and so on in their order.
pub fn type_of_kind(kind: Kind) -> u32
    ensures { result ≡ type_of_kind kind }
{
    kind.index() as u32 + FIRST_KIND
}

/// The kind whose type has this number; `None` if there is none.
pub fn kind_of(number: u32) -> Option<Kind>
    ensures found { IfSome result (λ kind. number ≡ type_of_kind kind) }
    ensures none { IfNone result ((kind : KindValue) → number ≡ type_of_kind kind → ⊥) }
{
    if number < FIRST_KIND {
        return None;
    }
    Kind::from_index((number - FIRST_KIND) as usize)
}

/// The number of the type that has this name; 0 if no type has it.
pub fn type_named(name: &str) -> u32
    ensures { IsTypeNumber name.now result }
{
    if name == "Directory" {
        return DIRECTORY;
    }
    if name == "SymbolicLink" {
        return LINK;
    }
    kind_named(name).map_or(0, type_of_kind)
}

// The kind whose type has this name; `None` if there is none.
fn kind_named(name: &str) -> Option<Kind>
    ensures found { IfSome result (λ kind. name.now ≡ name_of kind) }
    ensures none { IfNone result ((kind : KindValue) → name.now ≡ name_of kind → ⊥) }
{
    let mut index = 0;
    while let Some(kind) = Kind::from_index(index) {
        if kind.type_name() == name {
            return Some(kind);
        }
        index += 1;
    }
    None
}

/// The name of the type that has this number, with a byte 0 after it; `None` if no type has the number.
pub fn type_text(number: u32) -> Option<&'static str>
    ensures found { IfSome result (λ text. IsTypeText number text.now) }
    ensures none { IfNone result ((name : List ℕ) → IsType name number → ⊥) }
{
    match number {
        DIRECTORY => Some("Directory\0"),
        LINK => Some("SymbolicLink\0"),
        _ => kind_of(number).map(ended_name),
    }
}

// The name of a kind's type, with a byte 0 after it.
fn ended_name(kind: Kind) -> &'static str
    ensures { result.now ≡ zero_ended (name_of kind) }
{
    match kind {
        Kind::Event => "Event\0",
        Kind::Mutant => "Mutant\0",
        Kind::Semaphore => "Semaphore\0",
        Kind::Timer => "Timer\0",
        Kind::Section => "Section\0",
        Kind::Job => "Job\0",
        Kind::IoCompletion => "IoCompletion\0",
        Kind::AlpcPort => "ALPC Port\0",
        Kind::Key => "Key\0",
        Kind::Device => "Device\0",
        Kind::Driver => "Driver\0",
        Kind::File => "File\0",
        Kind::WindowStation => "WindowStation\0",
        Kind::Desktop => "Desktop\0",
        Kind::Process => "Process\0",
        Kind::Thread => "Thread\0",
        Kind::Token => "Token\0",
        Kind::Callback => "Callback\0",
        Kind::Profile => "Profile\0",
        Kind::KeyedEvent => "KeyedEvent\0",
        Kind::Session => "Session\0",
        Kind::Partition => "Partition\0",
        Kind::Controller => "Controller\0",
        Kind::Adapter => "Adapter\0",
        Kind::EtwRegistration => "EtwRegistration\0",
        Kind::TmTm => "TmTm\0",
        Kind::TmTx => "TmTx\0",
        Kind::TmRm => "TmRm\0",
        Kind::TmEn => "TmEn\0",
        Kind::WaitablePort => "WaitablePort\0",
        Kind::TpWorkerFactory => "TpWorkerFactory\0",
        Kind::FilterConnectionPort => "FilterConnectionPort\0",
        Kind::PowerRequest => "PowerRequest\0",
        Kind::DebugObject => "DebugObject\0",
        Kind::EtwConsumer => "EtwConsumer\0",
        Kind::WmiGuid => "WmiGuid\0",
    }
}
