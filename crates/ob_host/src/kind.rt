//! The kinds of a caller's objects.

ghost use Rattle.std.specs.Prelude.{◌≡◌, ◌≤◌, ◌↔◌, IfSome, IsNone};
ghost use Rattle.std.specs.Cmp.{partial_equiv_from_equiv};
ghost use Rattle.ob_host.specs.Kinds.{index_of, name_of, kind_count, same_kind};
ghost use Rattle.ob_host.specs.KindLaws.{kinds_equiv};

/// The kinds of a caller's objects: the types of objects of Windows but directories, symbolic links and
/// types themselves, which are no caller's (Windows Internals, Object Manager: object types).
///
/// They have a fixed order, in which each has its index, from 0. (this profile)
#[derive(Clone, Copy, Debug)]
pub enum Kind {
    /// An event.
    Event,
    /// A mutant, which other interfaces call a mutex.
    Mutant,
    /// A semaphore.
    Semaphore,
    /// A timer.
    Timer,
    /// A section of memory.
    Section,
    /// A job.
    Job,
    /// A completion port.
    IoCompletion,
    /// A port of local calls.
    AlpcPort,
    /// A key of the registry, which parses.
    Key,
    /// A device, which parses.
    Device,
    /// A driver.
    Driver,
    /// A file, a directory of files or a volume, as it was opened on its device.
    File,
    /// A window station.
    WindowStation,
    /// A desktop.
    Desktop,
    /// A process.
    Process,
    /// A thread.
    Thread,
    /// An access token.
    Token,
    /// A callback.
    Callback,
    /// A profile.
    Profile,
    /// A keyed event.
    KeyedEvent,
    /// A session.
    Session,
    /// A partition of memory.
    Partition,
    /// A controller.
    Controller,
    /// An adapter.
    Adapter,
    /// A registration of a provider of events for tracing.
    EtwRegistration,
    /// A transaction manager.
    TmTm,
    /// A transaction.
    TmTx,
    /// A resource manager.
    TmRm,
    /// An enlistment in a transaction.
    TmEn,
    /// A port that can be waited for.
    WaitablePort,
    /// A factory of worker threads.
    TpWorkerFactory,
    /// A connection port of the filter manager.
    FilterConnectionPort,
    /// A power request.
    PowerRequest,
    /// A debug object.
    DebugObject,
    /// A consumer of events for tracing.
    EtwConsumer,
    /// A GUID of management instrumentation.
    WmiGuid,
}

// The kinds in their order.
const KINDS: [Kind; 36] = [
    Kind::Event,
    Kind::Mutant,
    Kind::Semaphore,
    Kind::Timer,
    Kind::Section,
    Kind::Job,
    Kind::IoCompletion,
    Kind::AlpcPort,
    Kind::Key,
    Kind::Device,
    Kind::Driver,
    Kind::File,
    Kind::WindowStation,
    Kind::Desktop,
    Kind::Process,
    Kind::Thread,
    Kind::Token,
    Kind::Callback,
    Kind::Profile,
    Kind::KeyedEvent,
    Kind::Session,
    Kind::Partition,
    Kind::Controller,
    Kind::Adapter,
    Kind::EtwRegistration,
    Kind::TmTm,
    Kind::TmTx,
    Kind::TmRm,
    Kind::TmEn,
    Kind::WaitablePort,
    Kind::TpWorkerFactory,
    Kind::FilterConnectionPort,
    Kind::PowerRequest,
    Kind::DebugObject,
    Kind::EtwConsumer,
    Kind::WmiGuid,
];

impl Kind {
    /// The kind with this index; `None` from 36 on.
    pub fn from_index(index: usize) -> Option<Kind>
        ensures found { IfSome result (λ kind. index_of kind ≡ index) }
        ensures none { IsNone result ↔ (kind_count ≤ index) }
    {
        KINDS.get(index).copied()
    }

    /// The kind's index: how many kinds come before it.
    pub fn index(self) -> usize
        ensures { result ≡ index_of self }
    {
        self as usize
    }

    /// The name of the kind's type, as Windows spells it.
    pub fn type_name(self) -> &'static str
        ensures { result.now ≡ name_of self }
    {
        match self {
            Kind::Event => "Event",
            Kind::Mutant => "Mutant",
            Kind::Semaphore => "Semaphore",
            Kind::Timer => "Timer",
            Kind::Section => "Section",
            Kind::Job => "Job",
            Kind::IoCompletion => "IoCompletion",
            Kind::AlpcPort => "ALPC Port",
            Kind::Key => "Key",
            Kind::Device => "Device",
            Kind::Driver => "Driver",
            Kind::File => "File",
            Kind::WindowStation => "WindowStation",
            Kind::Desktop => "Desktop",
            Kind::Process => "Process",
            Kind::Thread => "Thread",
            Kind::Token => "Token",
            Kind::Callback => "Callback",
            Kind::Profile => "Profile",
            Kind::KeyedEvent => "KeyedEvent",
            Kind::Session => "Session",
            Kind::Partition => "Partition",
            Kind::Controller => "Controller",
            Kind::Adapter => "Adapter",
            Kind::EtwRegistration => "EtwRegistration",
            Kind::TmTm => "TmTm",
            Kind::TmTx => "TmTx",
            Kind::TmRm => "TmRm",
            Kind::TmEn => "TmEn",
            Kind::WaitablePort => "WaitablePort",
            Kind::TpWorkerFactory => "TpWorkerFactory",
            Kind::FilterConnectionPort => "FilterConnectionPort",
            Kind::PowerRequest => "PowerRequest",
            Kind::DebugObject => "DebugObject",
            Kind::EtwConsumer => "EtwConsumer",
            Kind::WmiGuid => "WmiGuid",
        }
    }
}

/// Two kinds are one where they have one index.
impl PartialEq for Kind {
    ghost eq = { same_kind };

    ghost laws = { partial_equiv_from_equiv kinds_equiv };

    fn eq(&self, other: &Kind) -> bool {
        self.index() == other.index()
    }
}

impl Eq for Kind {
    ghost laws = { kinds_equiv };
}
