//! A plain model of the namespace over flat lists, which are searched from their beginning: what each command is
//! answered, and what it leaves.

mod answers;
mod lookup;
mod pages;
mod tree;

use crate::asks::{Ask, Deed, EXCLUSIVE, FlatKind, INHERIT, PERMANENT, Waiting, is_wanted};
use crate::names::{FlatName, FlatPath, joined, text};
use ob_base::{Handle, Status};
use ob_model::{Given, Reply};
use ob_runner::Begun;
use std::alloc::{AllocError, Global};

// The number of the root directory.
const ROOT: u32 = 1;

// The number of `\GLOBAL??`, which is also the map of a process that has none.
const GLOBAL: u32 = 2;

// The path `\??`, to which `\DosDevices` leads.
const VIEW_PATH: FlatPath = FlatPath {
    way: b"?",
    last: None,
};

// Where a name is: a directory, by its number, and the letter there.
#[derive(Clone, Copy)]
struct Spot {
    directory: u32,
    letter: u8,
}

/// An object.
#[derive(Clone, Copy)]
pub struct FlatObject {
    /// Its number, which rises in the order of making, from 1.
    pub number: u32,
    of: FlatKind,
    // That of a link.
    target: FlatPath,
    // The number of a directory's shadow.
    shadow: Option<u32>,
    spot: Option<Spot>,
    // It rises in the order of making; what never had a name has 0.
    stamp: u64,
    is_permanent: bool,
    is_exclusive: bool,
}

// A handle: its process, its value, the number of its object, whether that is one of the set's, and whether children get
// it.
#[derive(Clone, Copy)]
struct Open {
    process: u32,
    value: u32,
    object: u32,
    is_of_set: bool,
    inherit: bool,
}

impl Open {
    // Whether it goes where a process closes a value, or all, where the value is 0.
    fn is_closed(&self, process: u32, value: u32) -> bool {
        self.process == process && (value == 0 || self.value == value)
    }
}

// A live process, the directory of its map, which is GLOBAL where it has no map, whether it has one, and the context that its last page
// gave, 0 before the first.
#[derive(Clone, Copy)]
struct Live {
    number: u32,
    map: u32,
    is_mapped: bool,
    context: u64,
}

// The answer to a command: a refusal, an object that is made, one that is found, with the status that says so, what
// needs no object, or a wait for a parse, and whether the device has its file.
#[derive(Clone, Copy)]
enum Answer {
    Refused(Status),
    New(Option<Spot>),
    Found(FlatObject, Status),
    Done,
    Waits(bool),
}

/// The model: what there is, in lists. Where it finds no memory it is left with a part of what it was to do, and no use any more.
#[derive(Drop)]
pub struct Model {
    alloc: Global,
    objects: Vec<FlatObject>,
    handles: Vec<Open>,
    processes: Vec<Live>,
    waiting: Vec<Waiting>,
    last_object: u32,
    last_stamp: u64,
    last_process: u32,
    calls: (u64, u64, u64),
}

impl Model {
    /// The opening state. The only error is out of memory.
    pub fn new(alloc: Global) -> Result<Model, AllocError> {
        let mut model = Model {
            alloc,
            objects: Vec::new(alloc),
            handles: Vec::new(alloc),
            processes: Vec::new(alloc),
            waiting: Vec::new(alloc),
            last_object: 0,
            last_stamp: 0,
            last_process: 1,
            calls: (0, 0, 0),
        };
        model.fill()?;
        Ok(model)
    }

    // The first objects and the first process.
    fn fill(&mut self) -> Result<(), AllocError> {
        self.add(ROOT, FlatKind::Directory, VIEW_PATH, None, None, PERMANENT)?;
        for letter in b"GLDNS".as_slice() {
            let letter = *letter;
            let of = match letter {
                b'L' => FlatKind::Link,
                _ => FlatKind::Directory,
            };
            let (number, directory) = (self.last_object.wrapping_add(1), ROOT);
            self.add(
                number,
                of,
                VIEW_PATH,
                None,
                Some(Spot { directory, letter }),
                PERMANENT,
            )?;
        }
        self.processes.push(Live {
            number: 1,
            map: GLOBAL,
            is_mapped: false,
            context: 0,
        })?;
        Ok(())
    }

    /// How many objects and handles there are, and how many handles a process has.
    pub fn counts(&self, process: u32) -> (usize, usize, usize) {
        let mut own: usize = 0;
        for open in &self.handles {
            if open.process == process {
                own = own.wrapping_add(1);
            }
        }
        (self.objects.len(), self.handles.len(), own)
    }

    fn live(&self, process: u32) -> Option<Live> {
        for live in &self.processes {
            if live.number == process {
                return Some(*live);
            }
        }
        None
    }

    /// The context that the last page of a process gave.
    pub fn context(&self, process: u32) -> u64 {
        match self.live(process) {
            Some(live) => live.context,
            None => 0,
        }
    }

    fn numbered(&self, number: u32) -> Option<FlatObject> {
        for object in &self.objects {
            if object.number == number {
                return Some(*object);
            }
        }
        None
    }

    /// The object that a handle of a process leads to. The low two bits of its value don't count.
    pub fn behind(&self, process: u32, value: u32) -> Option<FlatObject> {
        for open in &self.handles {
            if open.process == process && open.value == value & !3 {
                return self.numbered(open.object);
            }
        }
        None
    }

    // Whether an object has a handle, except those of one process. There is no process 0.
    fn is_held(&self, object: u32, but: u32) -> bool {
        for open in &self.handles {
            if open.object == object && open.process != but {
                return true;
            }
        }
        false
    }

    /// The value of the first handle from a place on of a process to what is wanted.
    pub fn value_from(&self, place: usize, process: u32, want: Option<FlatKind>) -> Option<u32> {
        for open in self.handles.get(place..)? {
            if let Some(object) = self.numbered(open.object)
                && open.process == process
                && is_wanted(object.of, want)
            {
                return Some(open.value);
            }
        }
        None
    }

    /// The value of the handle at a place in the list of all; none after them.
    pub fn value_at(&self, place: usize) -> Option<u32> {
        Some(self.handles.get(place)?.value)
    }

    /// The number of the process at a place among those that are live, the oldest of them first; none after them.
    pub fn process_at(&self, place: usize) -> Option<u32> {
        Some(self.processes.get(place)?.number)
    }

    /// Where its lists are.
    pub fn alloc(&self) -> Global {
        self.alloc
    }

    /// How many handles there are.
    pub fn handles(&self) -> usize {
        self.handles.len()
    }

    /// How many processes are live.
    pub fn processes(&self) -> usize {
        self.processes.len()
    }

    /// How many opens wait.
    pub fn waiting(&self) -> usize {
        self.waiting.len()
    }

    /// How often the set opened, closed and deleted an object.
    pub fn calls(&self) -> (u64, u64, u64) {
        self.calls
    }

    /// Takes the open out that waits at a place, so that nothing of it is left; none where none waits there.
    pub fn take(&mut self, place: usize) -> Option<Waiting> {
        if place >= self.waiting.len() {
            return None;
        }
        Some(self.waiting.remove(place))
    }

    /// Whether what a process asked for became of it what is to; then the model is what it leaves. The only error is out of memory.
    pub fn starts(&mut self, process: u32, ask: Ask, begun: &Begun) -> Result<bool, AllocError> {
        match (self.answer(process, ask)?, begun) {
            (Answer::Waits(is_there), Begun::Waits(ticket)) => {
                self.last_object = self.last_object.wrapping_add(1);
                let number = self.last_object;
                self.waiting.push(Waiting {
                    number,
                    process,
                    ask,
                    is_there,
                })?;
                Ok(*ticket == u64::from(number))
            }
            (answer, Begun::Replied(reply)) => self.agrees(process, ask, answer, reply),
            _ => Ok(false),
        }
    }

    /// Whether an open that waited ends as it is to; then the model is what it leaves. A file that its parse made is
    /// there, and goes where no handle to it is granted. The only error is out of memory.
    pub fn ends(&mut self, waiting: Waiting, begun: &Begun) -> Result<bool, AllocError> {
        let Begun::Replied(reply) = begun else {
            return Ok(false);
        };
        if waiting.is_there {
            self.add(waiting.number, FlatKind::File, VIEW_PATH, None, None, 0)?;
        }
        let answer = self.end_of(waiting);
        self.agrees(waiting.process, waiting.ask, answer, reply)
    }

    // Whether a reply is the answer to what a process asked for; then the model is what the command leaves.
    fn agrees(
        &mut self,
        process: u32,
        ask: Ask,
        answer: Answer,
        reply: &Reply,
    ) -> Result<bool, AllocError> {
        let status = match answer {
            Answer::Refused(status) | Answer::Found(_, status) => status,
            Answer::New(_) | Answer::Done => Status::Success,
            Answer::Waits(_) => return Ok(false),
        };
        if reply.status != status {
            return Ok(false);
        }
        let is_given = self.change(process, ask, answer, &reply.given)?;
        self.settle()?;
        Ok(is_given)
    }

    // Makes the changes of an answer, where a command is given this.
    fn change(
        &mut self,
        process: u32,
        ask: Ask,
        answer: Answer,
        given: &Given,
    ) -> Result<bool, AllocError> {
        match (ask, answer) {
            (
                Ask::Make {
                    of,
                    target,
                    shadow,
                    attrs,
                    ..
                },
                Answer::New(spot),
            ) => {
                let number = self.last_object.wrapping_add(1);
                let shadow = self.number_behind(process, shadow);
                let object = self.add(number, of, target, shadow, spot, attrs)?;
                return self.hold(process, object, attrs & INHERIT != 0, given);
            }
            (Ask::Make { attrs, .. } | Ask::Open { attrs, .. }, Answer::Found(object, _)) => {
                return self.hold(process, object, attrs & INHERIT != 0, given);
            }
            (Ask::Use { value, deed }, Answer::Found(object, _)) => {
                return self.do_with(process, value, object, deed, given);
            }
            (Ask::Begin { inherit }, Answer::Done) => return self.begin(process, inherit, given),
            (Ask::Exit, Answer::Done) => self.exit(process),
            _ => {}
        }
        Ok(matches!(given, Given::Nothing))
    }

    // A process does with an object of a handle what it asked for.
    fn do_with(
        &mut self,
        process: u32,
        value: u32,
        object: FlatObject,
        deed: Deed,
        given: &Given,
    ) -> Result<bool, AllocError> {
        match deed {
            Deed::List(part) => return Ok(self.turn_to(process, object.number, part, given)),
            Deed::Duplicate { to, inherit } => return self.hold(to, object, inherit, given),
            Deed::Target | Deed::Name => return self.tells(object, deed, given),
            Deed::Turn { permanent } => self.turn(object.number, permanent),
            Deed::Map => self.set(process, Some(object.number), None),
            Deed::Close => self.close(process, value & !3),
        }
        Ok(matches!(given, Given::Nothing))
    }

    // Whether the target or the path of an object is given.
    fn tells(&self, object: FlatObject, deed: Deed, given: &Given) -> Result<bool, AllocError> {
        let Given::Text(bytes) = given else {
            return Ok(false);
        };
        let (root, path) = (None, object.target);
        let text = match deed {
            Deed::Target => text(self.alloc, FlatName { root, path })?,
            _ => self.path(object)?,
        };
        Ok(bytes.as_slice() == text.as_slice())
    }

    // The number of the object that a handle of a process leads to, where a value is given.
    fn number_behind(&self, process: u32, value: Option<u32>) -> Option<u32> {
        Some(self.behind(process, value?)?.number)
    }

    // A new object of a number, named at a spot where there is one.
    fn add(
        &mut self,
        number: u32,
        of: FlatKind,
        target: FlatPath,
        shadow: Option<u32>,
        spot: Option<Spot>,
        attrs: u32,
    ) -> Result<FlatObject, AllocError> {
        self.last_object = self.last_object.max(number);
        self.last_stamp = self.last_stamp.wrapping_add(u64::from(spot.is_some()));
        let object = FlatObject {
            number,
            of,
            target,
            shadow,
            spot,
            stamp: match spot {
                Some(_) => self.last_stamp,
                None => 0,
            },
            is_permanent: (spot.is_some() || number == ROOT) && attrs & PERMANENT != 0,
            is_exclusive: attrs & EXCLUSIVE != 0,
        };
        self.objects.push(object)?;
        Ok(object)
    }

    // A process gets a handle to an object, by the value that is given.
    fn hold(
        &mut self,
        process: u32,
        object: FlatObject,
        inherit: bool,
        given: &Given,
    ) -> Result<bool, AllocError> {
        let Given::Handle(value) = given else {
            return Ok(false);
        };
        let is_used = self.behind(process, value.0).is_some();
        self.grant(Open {
            process,
            value: value.0,
            object: object.number,
            is_of_set: is_of_set(object.of),
            inherit,
        })?;
        Ok(!is_used && value.0 % 4 == 0 && value.0 != 0)
    }

    // There is a handle more.
    fn grant(&mut self, handle: Open) -> Result<(), AllocError> {
        self.calls.0 = self.calls.0.wrapping_add(u64::from(handle.is_of_set));
        self.handles.push(handle)?;
        Ok(())
    }

    // The handle of a process of a value goes, or each of its handles, where the value is 0.
    fn close(&mut self, process: u32, value: u32) {
        for open in &self.handles {
            if open.is_closed(process, value) {
                self.calls.1 = self.calls.1.wrapping_add(u64::from(open.is_of_set));
            }
        }
        self.handles.retain(|open| !open.is_closed(process, value));
    }

    // A process ends.
    fn exit(&mut self, process: u32) {
        self.close(process, 0);
        self.processes.retain(|live| live.number != process);
    }

    // A child of a process begins, with what it inherits: the handles that are marked, in their order.
    fn begin(&mut self, process: u32, inherit: bool, given: &Given) -> Result<bool, AllocError> {
        let (Given::Process(child, values), Some(live)) = (given, self.live(process)) else {
            return Ok(false);
        };
        self.last_process = self.last_process.wrapping_add(1);
        let (mut same, mut values) = (child.0 == self.last_process, values.as_slice().iter());
        self.processes.push(Live {
            number: child.0,
            context: 0,
            ..live
        })?;
        for place in 0..self.handles.len() {
            if let Some(open) = self.handles.get(place).copied()
                && inherit
                && open.inherit
                && open.process == process
            {
                same = same && values.next() == Some(&Handle(open.value));
                self.grant(Open {
                    process: child.0,
                    ..open
                })?;
            }
        }
        Ok(same && values.next().is_none())
    }

    // The object of a number is permanent, where it has a name or was so before, or temporary.
    fn turn(&mut self, number: u32, permanent: bool) {
        for object in self.objects.iter_mut() {
            if object.number == number {
                object.is_permanent = permanent && (object.spot.is_some() || object.is_permanent);
            }
        }
    }

    // The directory of a number becomes the map of a process, or this the context that its last page gave.
    fn set(&mut self, process: u32, map: Option<u32>, context: Option<u64>) {
        for live in self.processes.iter_mut() {
            if live.number == process {
                live.is_mapped = live.is_mapped || map.is_some();
                live.map = map.unwrap_or(live.map);
                live.context = context.unwrap_or(live.context);
            }
        }
    }

    // The path of an object: the empty text, where it or a directory above it has no name.
    fn path(&self, object: FlatObject) -> Result<Vec<u8>, AllocError> {
        let (mut letters, mut at) = (Vec::new(self.alloc), Some(object));
        for _ in &self.objects {
            if let Some(object) = at
                && let Some(spot) = object.spot
            {
                letters.push(spot.letter)?;
                at = self.numbered(spot.directory);
            }
        }
        letters.reverse();
        match at {
            Some(top) if top.number == ROOT => joined(self.alloc, letters.as_slice()),
            _ => Ok(Vec::new(self.alloc)),
        }
    }

    // The end of a step: names and objects that don't stay go, judged in the state before.
    fn settle(&mut self) -> Result<(), AllocError> {
        let (mut kept, mut deletes) = (Vec::new(self.alloc), self.calls.2);
        for object in &self.objects {
            let mut object = *object;
            if !self.keeps(object) {
                deletes = deletes.wrapping_add(u64::from(is_of_set(object.of)));
                continue;
            }
            if !self.keeps_name(object) {
                object.spot = None;
            }
            kept.push(object)?;
        }
        self.calls.2 = deletes;
        self.objects = kept;
        Ok(())
    }

    // Whether the name of an object stays.
    fn keeps_name(&self, object: FlatObject) -> bool {
        object.spot.is_some() && (object.is_permanent || self.is_held(object.number, 0))
    }

    // Whether an object stays: by itself, or as the shadow of a directory that stays by itself.
    fn keeps(&self, object: FlatObject) -> bool {
        let mut keeps = self.keeps_itself(object);
        for other in &self.objects {
            if other.shadow == Some(object.number) {
                keeps = keeps || self.keeps_itself(*other);
            }
        }
        keeps
    }

    // Whether an object stays by itself.
    fn keeps_itself(&self, object: FlatObject) -> bool {
        let number = object.number;
        let mut keeps = number == ROOT
            || number == GLOBAL
            || (object.spot.is_some() && object.is_permanent)
            || self.is_held(number, 0);
        for live in &self.processes {
            keeps = keeps || live.map == number;
        }
        for other in &self.objects {
            if let Some(spot) = other.spot
                && spot.directory == number
            {
                keeps = keeps || self.keeps_name(*other);
            }
        }
        keeps
    }
}

// Whether objects of a kind are the set's.
fn is_of_set(of: FlatKind) -> bool {
    !matches!(of, FlatKind::Directory | FlatKind::Link)
}
