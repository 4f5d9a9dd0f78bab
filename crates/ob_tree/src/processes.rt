//! The lines of processes.

ghost use Rattle.std.specs.Prelude.{◌≡◌, ◌++◌, OnOk};
ghost use Rattle.ob_tree.specs.Tree.{handle_text, handles_text, process_text, processes_text};

use crate::names::Names;
use crate::paths::{push_path, push_place};
use crate::survey::SeenProcess;
use crate::texts::{push_flag, push_number};
use ob_model::Held;
use std::alloc::{AllocError, Global};

/// Adds the line of a handle of this number.
fn push_handle(
    alloc: Global,
    out: &mut Vec<u8>,
    names: &Names<'_>,
    number: u64,
    held: &Held,
) -> Result<(), AllocError>
    ensures { OnOk result (out.new.items ≡ out.old.items ++ handle_text names.now number held.now) }
{
    out.extend_from_slice(b"    ")?;
    push_number(out, number)?;
    out.extend_from_slice(b" ")?;
    push_path(alloc, out, names, held.object)?;
    push_flag(out, b" inherit", held.inherit)?;
    out.extend_from_slice(b"\n")
}

/// Adds the lines of handles, numbered from 1 on.
fn push_handles(
    alloc: Global,
    out: &mut Vec<u8>,
    names: &Names<'_>,
    handles: &[Held],
) -> Result<(), AllocError>
    ensures { OnOk result (out.new.items ≡ out.old.items ++ handles_text names.now 1 handles.now) }
{
    for (place, held) in handles.iter().enumerate() {
        push_handle(alloc, out, names, place as u64 + 1, held)?;
    }
    Ok(())
}

/// Adds the lines of a process.
fn push_process(
    alloc: Global,
    out: &mut Vec<u8>,
    names: &Names<'_>,
    process: &SeenProcess,
) -> Result<(), AllocError>
    ensures { OnOk result (out.new.items ≡ out.old.items ++ process_text names.now process.now) }
{
    out.extend_from_slice(b"process ")?;
    push_number(out, u64::from(process.number.0))?;
    push_place(alloc, out, names, b" map ", process.map)?;
    out.extend_from_slice(b"\n")?;
    push_handles(alloc, out, names, process.handles.as_slice())
}

/// Adds the lines of processes.
pub(crate) fn push_processes(
    alloc: Global,
    out: &mut Vec<u8>,
    names: &Names<'_>,
    processes: &[SeenProcess],
) -> Result<(), AllocError>
    ensures { OnOk result (out.new.items ≡ out.old.items ++ processes_text names.now processes.now) }
{
    for process in processes {
        push_process(alloc, out, names, process)?;
    }
    Ok(())
}
