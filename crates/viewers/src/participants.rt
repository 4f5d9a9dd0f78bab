//! The participants of a scene, and the one function that owns them.

ghost use Rattle.std.specs.Prelude.{◌≡◌};
ghost use Rattle.ob_device.specs.Device.{device_procedures};
ghost use Rattle.ob_shared.specs.Publisher.{IsNamed};

use crate::scenes::{Scene, SceneOutcome, play};
use crate::writer::Writer;
use ob_core::SlabTable;
use ob_device::DeviceSet;
use ob_published::{Naming, Opened};
use ob_view::{ViewedNamespace, Viewer, open_viewed};
use std::alloc::Global;
use std::sync::Wait;
use std::sync::ledger::{Blank, Ledger};
use std::thread::Threads;

/// A namespace with devices and its one caller, and the viewers that see it.
#[derive(Drop)]
pub(crate) struct Participants<'a, R: Wait, W: Wait + Drop, L: Ledger, J: Naming> {
    writer: Writer<'a, R, W, L, J>,
    viewers: Vec<Viewer<J>>,
}

/// Opens a namespace for one caller and so many viewers, 1 to 16; none if their number is out of range, or out of memory.
fn open<'a, R: Wait, W: Wait + Drop, L: Ledger, J: Naming>(
    rt: &'a R,
    wait: W,
    alloc: Global,
    blank: Blank,
    opened: Opened,
    viewers: u32,
) -> Option<Participants<'a, R, W, L, J>>
    requires name { blank.name ≡ L.name }
    requires parts { blank.parts ≡ L.parts }
    requires whole { L.parts ≡ 1024 }
    requires book { opened.seen.book ≡ J.book }
    requires named { IsNamed device_procedures J.opening J.leads }
{
    let viewed = open_viewed::<DeviceSet, SlabTable, L, J, W>(
        alloc, wait, blank, opened, DeviceSet, 1, viewers,
    );
    let ViewedNamespace {
        shared,
        mut passes,
        viewers,
    } = viewed.ok()?;
    let writer = Writer {
        rt,
        alloc,
        space: shared,
        pass: passes.pop(),
    };
    Some(Participants { writer, viewers })
}

/// Opens a namespace, and lends it and its viewers to a scene; the outcome, if memory sufficed.
pub(crate) fn outcome_of<
    R: Threads + Wait + Sync,
    W: Wait + Drop,
    L: Ledger,
    J: Naming + Send + Sync,
>(
    rt: &R,
    wait: W,
    alloc: Global,
    blank: Blank,
    opened: Opened,
    scene: Scene,
) -> Option<SceneOutcome>
    requires name { blank.name ≡ L.name }
    requires parts { blank.parts ≡ L.parts }
    requires whole { L.parts ≡ 1024 }
    requires book { opened.seen.book ≡ J.book }
    requires named { IsNamed device_procedures J.opening J.leads }
{
    let participants: Participants<'_, R, W, L, J> = open(
        rt,
        wait,
        alloc,
        blank,
        opened,
        scene.viewers(),
    )?;
    let Participants {
        mut writer,
        mut viewers,
    } = participants;
    play(scene, &mut writer, viewers.as_mut_slice())
}
