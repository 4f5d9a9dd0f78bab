//! The part of a caller's object that the procedures change.

ghost use Rattle.std.specs.Prelude.{◌≡◌, IfOk};
ghost use Rattle.ob_host.specs.Host.{deletion_of, one_more, unopened};

use crate::chain::Chain;
use crate::{HostDeletion, HostObject};
use ob_types::Copied;
use std::alloc::{AllocError, Global};
use std::marker::Model;

/// The part of an object that the procedures change: the handles that are open to it, and the serial that its first open drew. The object
/// is beside them, whether a parse made it, and a place for it in the list of the deletions, so that its delete takes no
/// memory. (this profile)
#[derive(Drop)]
pub struct HostInner {
    object: HostObject,
    handles: u32,
    serial: u64,
    parsed: bool,
    place: Box<Chain>,
}

impl Model for HostInner {
    ghost use Rattle.ob_host.specs.Kept.{Kept};

    ghost Value = { Kept };

    ghost view = { λ inner. record { object = inner.object; handles = inner.handles; serial = inner.serial; parsed = inner.parsed } };
}

impl HostInner {
    /// An object that no handle is open to, made by a parse or by a create, with its place. The only error is out of
    /// memory.
    pub(crate) fn new(
        alloc: Global,
        object: HostObject,
        parsed: bool,
    ) -> Result<HostInner, AllocError>
        ensures { IfOk result (λ inner. inner ≡ unopened parsed object) }
    {
        Ok(HostInner {
            object,
            handles: 0,
            serial: 0,
            parsed,
            place: Box::new(alloc, Chain::End)?,
        })
    }

    /// The object.
    pub fn object(&self) -> &HostObject
        ensures { result.now ≡ self.now.object }
    {
        &self.object
    }

    /// The handles that are open to the object; at the greatest u32, that many or more.
    pub fn handles(&self) -> u32
        ensures { result ≡ self.now.handles }
    {
        self.handles
    }

    /// The serial that the object's first open drew, from 1 in the order of first opens; 0 before.
    pub fn serial(&self) -> u64
        ensures { result ≡ self.now.serial }
    {
        self.serial
    }

    /// Whether a parse made the object.
    pub fn is_parsed(&self) -> bool
        ensures { result ≡ self.now.parsed }
    {
        self.parsed
    }

    // Gives the object a serial.
    pub(crate) fn set_serial(&mut self, serial: u64)
        ensures { self.new ≡ record self.old { serial = serial } }
    {
        self.serial = serial;
    }

    // Counts one handle more, up to the greatest u32.
    pub(crate) fn add_handle(&mut self)
        ensures { self.new ≡ one_more self.old }
    {
        self.handles = self.handles.saturating_add(1);
    }

    // Sets the number of handles.
    pub(crate) fn set_handles(&mut self, handles: u32)
        ensures { self.new ≡ record self.old { handles = handles } }
    {
        self.handles = handles;
    }

    // The deletion of the object, and its place in the list of the deletions.
    pub(crate) fn into_deletion(self) -> (HostDeletion, Box<Chain>)
        ensures { result.0 ≡ deletion_of self }
    {
        let HostInner {
            object,
            handles: _,
            serial,
            parsed,
            place,
        } = self;
        let HostObject {
            kind,
            user_data,
            text,
        } = object;
        let deletion = HostDeletion {
            kind,
            user_data,
            text,
            serial,
            parsed,
        };
        (deletion, place)
    }
}

/// A copy has a place of its own in the list of the deletions. (this profile)
impl Copied for HostInner {
    fn copied(&self) -> Result<HostInner, AllocError> {
        let alloc = *Box::allocator(&self.place);
        Ok(HostInner {
            object: self.object.clone()?,
            handles: self.handles,
            serial: self.serial,
            parsed: self.parsed,
            place: Box::new(alloc, Chain::End)?,
        })
    }
}
