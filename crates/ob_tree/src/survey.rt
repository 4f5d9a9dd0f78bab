//! The survey of a namespace, which a tree shows.

ghost use Rattle.std.specs.Prelude.{◌≡◌};

use ob_base::{ObjId, Proc};
use ob_model::{Bytes, Held, Row};
use std::marker::Model;

/// The part of a survey that describes an object.
#[derive(Debug, Drop)]
pub struct Seen {
    /// Its id.
    pub id: ObjId,
    /// The row that names it, where it has a name.
    pub row: Option<Row>,
    /// The name of its type.
    pub type_name: Bytes,
    /// The shadow of a directory, where it has one.
    pub shadow: Option<ObjId>,
    /// The target of a link.
    pub target: Option<Bytes>,
    /// Whether it keeps its name and its life without a handle.
    pub permanent: bool,
    /// Whether one process alone may hold handles to it.
    pub exclusive: bool,
    /// How many handles lead to it, of all processes.
    pub handles: u64,
    /// How many opens are pending at it.
    pub pins: u64,
}

/// Handles in the order in which they were opened. Contracts see the list.
#[derive(Drop)]
pub struct HeldList {
    items: Vec<Held>,
}

impl Model for HeldList {
    ghost use Rattle.std.specs.Prelude.{List};
    ghost use Rattle.ob_model.specs.declared.state.Held.{Held};

    ghost Value = { List Held };

    ghost view = { λ h. h.items.items };
}

impl HeldList {
    /// The handles of a vector, which is taken as it is: no memory is taken.
    pub fn new(items: Vec<Held>) -> HeldList
        ensures { result ≡ items.items }
    {
        HeldList { items }
    }

    /// The handles, as a slice.
    pub fn as_slice(&self) -> &[Held]
        ensures { result.now ≡ self.now }
    {
        self.items.as_slice()
    }
}

/// The part of a survey that describes a process.
#[derive(Drop)]
pub struct SeenProcess {
    /// Its number.
    pub number: Proc,
    /// The directory of its device map, where it has one.
    pub map: Option<ObjId>,
    /// Its handles.
    pub handles: HeldList,
}

/// The survey of a namespace: its objects, by rising ids, and its live processes, by rising numbers. Contracts see
/// the two lists.
#[derive(Drop)]
pub struct Survey {
    objects: Vec<Seen>,
    processes: Vec<SeenProcess>,
}

impl Model for Survey {
    ghost use Rattle.ob_tree.specs.Surveyed.{Surveyed};

    ghost Value = { Surveyed };

    ghost view = { λ s. record { objects = s.objects.items; processes = s.processes.items } };
}

impl Survey {
    /// A survey of these objects and these processes: no memory is taken.
    pub fn new(objects: Vec<Seen>, processes: Vec<SeenProcess>) -> Survey
        ensures { result ≡ record { objects = objects.items; processes = processes.items } }
    {
        Survey { objects, processes }
    }

    /// The objects.
    pub fn objects(&self) -> &[Seen]
        ensures { result.now ≡ self.now.objects }
    {
        self.objects.as_slice()
    }

    /// The processes.
    pub fn processes(&self) -> &[SeenProcess]
        ensures { result.now ≡ self.now.processes }
    {
        self.processes.as_slice()
    }
}
