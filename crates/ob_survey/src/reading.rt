//! Reading a core.

ghost use Rattle.std.specs.Prelude.{◌≡◌, ◌+◌, [], map, IfOk};
ghost use Rattle.std.specs.Option.{option_and_then, option_map_or};
ghost use Rattle.ob_model.specs.Enumeration.{body_type_name};
ghost use Rattle.ob_model.specs.Naming.{row_of, target_of};
ghost use Rattle.ob_model.specs.State.{body_of, shadow_in, table_size};
ghost use Rattle.ob_survey.specs.Surveying.{handles_from, process_seen, processes_from, seen_of, survey_of};
ghost use Rattle.ob_tree.specs.Index.{Rise};

use ob_base::{ObjId, Proc};
use ob_core::{Core, HandleTable, Referent};
use ob_model::{Bytes, Held, Row};
use ob_tree::{HeldList, Seen, SeenProcess, Survey};
use ob_types::TypeSet;
use std::alloc::{AllocError, Global};

/// The survey of a namespace, which a tree shows: of each object its name, its type, what holds of it, and how many handles and pending opens lead to it; of each
/// live process the directory of its device map, and its handles in the order in which they were opened. The only error is out of memory. (this
/// profile)
pub fn survey<T: TypeSet, H: HandleTable>(
    alloc: Global,
    core: &Core<T, H>,
) -> Result<Survey, AllocError>
    ensures seen { IfOk result (λ survey. survey ≡ survey_of T.procedures core.now) }
    ensures rise { IfOk result (λ survey. Rise survey.objects) }
{
    core.state_is_sound();
    let objects = see_objects(alloc, core)?;
    let processes = see_processes(alloc, core)?;
    Ok(Survey::new(objects, processes))
}

// The objects, by rising ids.
fn see_objects<T: TypeSet, H: HandleTable>(
    alloc: Global,
    core: &Core<T, H>,
) -> Result<Vec<Seen>, AllocError>
    ensures { IfOk result (λ seen. seen.items
        ≡ map (λ o. seen_of T.procedures core.now o.id) core.now.objects) }
{
    core.state_is_sound();
    let mut seen = Vec::new(alloc);
    let mut next: u64 = 0;
    while let Some(id) = core.first_from(ObjId(next)) {
        seen.push(see(alloc, core, id)?)?;
        next = one_above(id)?;
    }
    Ok(seen)
}

// The number above an id. The only error is that there is none.
fn one_above(id: ObjId) -> Result<u64, AllocError>
    ensures { IfOk result (λ next. next ≡ id + 1) }
{
    id.0.checked_add(1).ok_or(AllocError)
}

// An object.
fn see<T: TypeSet, H: HandleTable>(
    alloc: Global,
    core: &Core<T, H>,
    id: ObjId,
) -> Result<Seen, AllocError>
    ensures { IfOk result (λ seen. seen ≡ seen_of T.procedures core.now id) }
{
    let row = see_row(alloc, core, id)?;
    let type_name = see_type(alloc, core, id)?;
    let target = see_target(alloc, core, id)?;
    Ok(Seen {
        id,
        row,
        type_name,
        shadow: see_shadow(core, id),
        target,
        permanent: core.is_permanent(id),
        exclusive: core.is_exclusive(id),
        handles: core.count_of(id) as u64,
        pins: core.pins_of(id) as u64,
    })
}

// The row that names an object.
fn see_row<T: TypeSet, H: HandleTable>(
    alloc: Global,
    core: &Core<T, H>,
    id: ObjId,
) -> Result<Option<Row>, AllocError>
    ensures { IfOk result (λ row. row ≡ row_of core.now id) }
{
    let Some(named) = core.name_of(id) else {
        return Ok(None);
    };
    let name = Bytes::from_slice(alloc, named.name())?;
    Ok(Some(Row {
        stamp: named.stamp(),
        directory: named.directory,
        name,
        object: id,
    }))
}

// The name of the type of an object.
fn see_type<T: TypeSet, H: HandleTable>(
    alloc: Global,
    core: &Core<T, H>,
    id: ObjId,
) -> Result<Bytes, AllocError>
    ensures { IfOk result (λ name. name
        ≡ option_map_or (body_type_name T.procedures) (body_of core.now id) []) }
{
    match core.object(id) {
        None => Bytes::from_slice(alloc, b""),
        Some(Referent::Directory(_)) => Bytes::from_slice(alloc, b"Directory"),
        Some(Referent::Link(_)) => Bytes::from_slice(alloc, b"SymbolicLink"),
        Some(Referent::Other { face, inner: _ }) => {
            Bytes::from_slice(alloc, T::type_name(T::kind_of(face)).as_bytes())
        }
    }
}

// The shadow of a directory.
fn see_shadow<T: TypeSet, H: HandleTable>(core: &Core<T, H>, id: ObjId) -> Option<ObjId>
    ensures { result ≡ option_and_then shadow_in (body_of core.now id) }
{
    match core.object(id) {
        Some(Referent::Directory(shadow)) => *shadow,
        _ => None,
    }
}

// The target of a link.
fn see_target<T: TypeSet, H: HandleTable>(
    alloc: Global,
    core: &Core<T, H>,
    id: ObjId,
) -> Result<Option<Bytes>, AllocError>
    ensures { IfOk result (λ target. target ≡ option_and_then target_of (body_of core.now id)) }
{
    match core.object(id) {
        Some(Referent::Link(target)) => Ok(Some(Bytes::from_slice(alloc, target)?)),
        _ => Ok(None),
    }
}

// The live processes, by rising numbers.
fn see_processes<T: TypeSet, H: HandleTable>(
    alloc: Global,
    core: &Core<T, H>,
) -> Result<Vec<SeenProcess>, AllocError>
    ensures { IfOk result (λ seen. seen.items ≡ processes_from core.now.next_process core.now 0) }
{
    let mut seen = Vec::new(alloc);
    let mut last = Proc(0);
    let next = core.next_process();
    for step in 0..next.0 {
        let Some(process) = core.process_after(last) else {
            return Ok(seen);
        };
        seen.push(see_process(alloc, core, process)?)?;
        last = process;
    }
    Ok(seen)
}

// A process.
fn see_process<T: TypeSet, H: HandleTable>(
    alloc: Global,
    core: &Core<T, H>,
    process: Proc,
) -> Result<SeenProcess, AllocError>
    ensures { IfOk result (λ seen. seen ≡ process_seen core.now process) }
{
    let handles = see_handles(alloc, core, process)?;
    Ok(SeenProcess {
        number: process,
        map: core.map_of(process),
        handles: HeldList::new(handles),
    })
}

// The handles of a process, in the order in which they were opened.
fn see_handles<T: TypeSet, H: HandleTable>(
    alloc: Global,
    core: &Core<T, H>,
    process: Proc,
) -> Result<Vec<Held>, AllocError>
    ensures { IfOk result (λ seen. seen.items
        ≡ handles_from (table_size core.now process) core.now process 0) }
{
    let mut seen = Vec::new(alloc);
    let mut order: u64 = 0;
    let count = core.handles_of(process);
    for step in 0..count {
        let Some(held) = core.handle_after(process, order) else {
            return Ok(seen);
        };
        let opened = held.order;
        seen.push(held)?;
        order = opened;
    }
    Ok(seen)
}
