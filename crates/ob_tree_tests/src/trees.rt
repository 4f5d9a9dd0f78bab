//! Trees of small namespaces.

use ob_base::Proc;
use ob_core::{Bytes, Command, Core, Place, SlabTable, Started};
use ob_device::{DeviceKind, DeviceSet};
use ob_survey::survey;
use ob_tree::{Style, tree_text};
use std::alloc::{AllocError, Global};

type Devices = Core<DeviceSet, SlabTable>;

// The opening state.
const OPENING: &[u8] = b"\\                                        Directory permanent
|-- BaseNamedObjects                     Directory permanent
|-- Device                               Directory permanent
|-- DosDevices                           SymbolicLink permanent -> \\??
|-- GLOBAL??                             Directory permanent
`-- Sessions                             Directory permanent
process 1
";

// The same with a device, and a link to it.
const DEVICE: &[u8] = b"\\                                        Directory permanent
|-- BaseNamedObjects                     Directory permanent
|-- Device                               Directory permanent
|   |-- Disk                             Device handles 1
|   `-- L                                SymbolicLink handles 1 -> \\Device\\Disk
|-- DosDevices                           SymbolicLink permanent -> \\??
|-- GLOBAL??                             Directory permanent
`-- Sessions                             Directory permanent
process 1
    1 \\Device\\Disk inherit
    2 \\Device\\L
";

// Whether the tree of a core is this text.
fn is_tree(alloc: Global, core: &Devices, text: &[u8]) -> Result<bool, AllocError> {
    let seen = survey(alloc, core)?;
    Ok(tree_text(alloc, &seen, Style::Ascii)?.as_slice() == text)
}

// Runs a command of process 1 that takes one step.
fn runs(core: &mut Devices, command: &Command<DeviceKind>) -> Result<(), AllocError> {
    match core.start(Proc(1), command) {
        Ok(Started::Done(_)) => Ok(()),
        Ok(Started::Parsing(parsing)) => {
            core.abandon(ob_core::Pending::Unrun(parsing));
            Err(AllocError)
        }
        Err(_) => Err(AllocError),
    }
}

// The place of an absolute name.
fn place(alloc: Global, name: &[u8]) -> Result<Place, AllocError> {
    let name = Bytes::from_slice(alloc, name)?;
    Ok(Place::At { root: None, name })
}

// Makes a device, whose handle is inherited, and a link to it.
fn makes(alloc: Global, core: &mut Devices) -> Result<(), AllocError> {
    let device = Command::CreateObject {
        place: place(alloc, b"\\Device\\Disk")?,
        attrs: 2,
        kind: DeviceKind::Device,
        args: Bytes::from_slice(alloc, b"")?,
    };
    runs(core, &device)?;
    let link = Command::CreateLink {
        place: place(alloc, b"\\Device\\L")?,
        attrs: 0,
        target: Bytes::from_slice(alloc, b"\\Device\\Disk")?,
    };
    runs(core, &link)
}

// Whether both trees are as they should be.
fn are_trees(alloc: Global) -> Result<bool, AllocError> {
    let Ok(mut core) = Devices::new(alloc, DeviceSet) else {
        return Err(AllocError);
    };
    let opening = is_tree(alloc, &core, OPENING)?;
    makes(alloc, &mut core)?;
    Ok(opening && is_tree(alloc, &core, DEVICE)?)
}

#[test]
fn trees_show_the_names_and_the_handles(rt: HostRuntime) {
    assert_eq!(rt; are_trees(rt.alloc()).ok(), Some(true));
}
