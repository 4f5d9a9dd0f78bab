//! Device maps: the directories of DOS device names that `\??` means, process by process.
#![tactic(auto)]

mod maps;
mod view;

pub use maps::Maps;
pub use view::View;
