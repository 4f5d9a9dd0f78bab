//! Devices, which lead to files, and files.
#![tactic(auto)]

mod device;
mod table;

pub use device::{DeviceFace, DeviceKind, DeviceSet};
pub use table::PathTable;
