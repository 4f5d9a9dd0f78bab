//! The memory that a start needs beside the namespace.

ghost use Rattle.std.specs.Prelude.{◌≡◌, IfOk};

use crate::place::ReceiptPlace;
use ob_model::Command;
use std::alloc::{AllocError, Global};
use std::marker::Model;
use std::mem;

/// The memory of a start beside the namespace, taken before the lock, so that the lock is held for the step alone: two copies of the command,
/// for the journal and for the receipt, and the places of two receipts. Contracts see the command. (this profile)
#[derive(Drop)]
pub struct Prepared<K: Copy> {
    pub(crate) command: Command<K>,
    pub(crate) again: Command<K>,
    pub(crate) place: ReceiptPlace<K>,
    pub(crate) later: ReceiptPlace<K>,
}

impl<K: Copy> Model for Prepared<K> {
    ghost use Rattle.std.specs.Prelude.{◌≡◌};
    ghost use Rattle.ob_model.specs.declared.command.Command as commands;

    ghost Value = { commands.Command K };

    ghost view = { λ p. p.command };

    ghost invariant = { λ p. p.again ≡ p.command };
}

impl<K: Copy> Prepared<K> {
    /// Prepares the start of a command. The only error is out of memory. (this profile)
    pub fn new(alloc: Global, command: &Command<K>) -> Result<Prepared<K>, AllocError>
        ensures { IfOk result (λ prepared. prepared ≡ command.now) }
    {
        let (command, again) = two_copies(command)?;
        match two_places(alloc) {
            Ok((place, later)) => Ok(Prepared {
                command,
                again,
                place,
                later,
            }),
            Err(refused) => {
                mem::drop(command);
                mem::drop(again);
                Err(refused)
            }
        }
    }
}

/// Two copies. The only error is out of memory.
fn two_copies<K: Copy>(command: &Command<K>) -> Result<(Command<K>, Command<K>), AllocError>
    ensures copy { IfOk result (λ copies. copies.0 ≡ command.now) }
    ensures again { IfOk result (λ copies. copies.1 ≡ command.now) }
{
    let copy = command.clone()?;
    match command.clone() {
        Ok(again) => Ok((copy, again)),
        Err(refused) => {
            mem::drop(copy);
            Err(refused)
        }
    }
}

/// Two places. The only error is out of memory.
fn two_places<K: Copy>(alloc: Global) -> Result<(ReceiptPlace<K>, ReceiptPlace<K>), AllocError> {
    let place = ReceiptPlace::new(alloc)?;
    match ReceiptPlace::new(alloc) {
        Ok(later) => Ok((place, later)),
        Err(refused) => {
            mem::drop(place);
            Err(refused)
        }
    }
}
