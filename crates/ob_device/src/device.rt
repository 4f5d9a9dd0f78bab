//! The set of devices and files.

ghost use Rattle.std.specs.Prelude.{◌≡◌, true, refl};
ghost use Rattle.std.proofs.Common.{rules};
ghost use Rattle.ob_model.specs.Names.{begins_with_separator};
ghost use Rattle.ob_plain.specs.Handles.{IsIdle};
ghost use Rattle.ob_device.specs.Device.{device_procedures, same_device_kind};
ghost use Rattle.ob_device.specs.DeviceLaws.{device_front, device_itself, device_parsed_idle, device_own_face, device_same_answers};
ghost use Rattle.ob_device.specs.declared.device.DeviceKind.TheVariants.{Device, File};

use crate::PathTable;
use ob_plain::{HandleCount, Path, is_readable, without_separator};
use ob_types::{ParseAnswer, Reason, Refusal, TypeSet};
use std::alloc::{AllocError, Global};

/// The kinds of this set (Windows Internals, Object Manager: object types).
#[derive(Clone, Copy, PartialEq, Eq, Debug)]
pub enum DeviceKind {
    /// A device, which leads to its files.
    Device,
    /// A file of a device.
    File,
}

/// The part of a device or a file that never changes. (this profile)
#[derive(Debug, Drop)]
pub enum DeviceFace {
    /// A device's table: the paths of its files.
    Device(PathTable),
    /// A file's path on its device; the empty one where the device itself was named.
    File(Path),
}

/// The set of devices and files. Its value holds nothing.
#[derive(Debug, Drop)]
pub struct DeviceSet;

/// A device is made from the paths of its files, between semicolons; empty arguments are an empty table. Refused
/// with 1 are arguments with an empty path, also at a semicolon that leads, trails or follows
/// another, those that are longer than 65,535 bytes, and those with a byte outside 0x20 to 0x7E. A file is
/// never made so: 5 is answered whatever the arguments are.
///
/// A device parses. The empty rest leads to a file with the empty path. Another rest, without one leading backslash
/// where it has one, leads to the file of that path, byte by byte, where the table has it; else it is refused
/// with 3. A file doesn't parse. An open is never refused, and adds one to the number of handles, which
/// stops at the greatest u32. A close sets it to the handles left in the system. (this profile; parse
/// methods: Windows Internals, Object Manager)
impl TypeSet for DeviceSet {
    type Kind = DeviceKind;

    type Face = DeviceFace;

    type Inner = HandleCount;

    ghost procedures = { device_procedures };

    ghost idle = { IsIdle };

    fn type_name(kind: DeviceKind) -> &'static str {
        match kind {
            DeviceKind::Device => "Device",
            DeviceKind::File => "File",
        }
    }

    fn kind_of(face: &DeviceFace) -> DeviceKind {
        match face {
            DeviceFace::Device(_) => DeviceKind::Device,
            DeviceFace::File(_) => DeviceKind::File,
        }
    }

    fn parses(kind: DeviceKind) -> bool {
        kind == DeviceKind::Device
    }

    fn same(a: &DeviceFace, b: &DeviceFace) -> bool {
        match (a, b) {
            (DeviceFace::Device(a), DeviceFace::Device(b)) => a == b,
            (DeviceFace::File(a), DeviceFace::File(b)) => a == b,
            _ => false,
        }
    }

    fn make(
        alloc: Global,
        kind: DeviceKind,
        args: &[u8],
    ) -> Result<(DeviceFace, HandleCount), Refusal> {
        if kind == DeviceKind::File {
            return Err(Refusal::Code(5));
        }
        if !is_readable(args) {
            return Err(Refusal::Code(1));
        }
        let table = PathTable::read(alloc, args)?;
        if table.has_empty() {
            return Err(Refusal::Code(1));
        }
        Ok((DeviceFace::Device(table), HandleCount::new()))
    }

    fn parse(
        alloc: Global,
        face: &DeviceFace,
        rest: &[u8],
    ) -> Result<ParseAnswer<DeviceFace, HandleCount>, AllocError> {
        let DeviceFace::Device(table) = face else {
            return Ok(ParseAnswer::Refused(3));
        };
        let path = without_separator(rest);
        if !rest.is_empty() && !table.has(path) {
            return Ok(ParseAnswer::Refused(3));
        }
        Ok(ParseAnswer::Front {
            used: rest.len(),
            next: DeviceFace::File(Path::new(alloc, path)?),
            inner: HandleCount::new(),
        })
    }

    fn on_open(&mut self, handles: &mut HandleCount, _reason: Reason) -> Result<(), u16> {
        handles.add_handle();
        Ok(())
    }

    fn on_close(&mut self, handles: &mut HandleCount, _process_left: u32, system_left: u32) {
        handles.set_handles(system_left);
    }

    fn on_delete(&mut self, _handles: HandleCount) {}

    ghost refused_open = { λ set inner _ _ told. Prim.search rules };

    ghost made_idle = { λ _ _ _. refl };

    ghost closed_idle = { λ _ _ _. refl };

    ghost front_is_used = { device_front };

    ghost itself_at_end = { device_itself };

    ghost parsed_idle = { device_parsed_idle };

    ghost own_face = { device_own_face };

    ghost same_answers = { device_same_answers };

    ghost one_kind = { elim [
      | Device ↦ elim [ Device ↦ λ _. refl | File ↦ λ e. Prim.search rules ]
      | File ↦ elim [ Device ↦ λ e. Prim.search rules | File ↦ λ _. refl ]
    ] };

    ghost own_kind = { elim [ Device ↦ refl | File ↦ refl ] };

    ghost equal_kinds = { elim [
      | Device ↦ elim [ Device ↦ refl | File ↦ refl ]
      | File ↦ elim [ Device ↦ refl | File ↦ refl ]
    ] };
}
