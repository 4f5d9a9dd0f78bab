//! Parts of a script's lines: what spells each, and a parser that finds exactly that.
//!
//! A part is a variable, a text, a handle, a name, a place, a kind, flags, a room, a mode, an inheritance, or the
//! variable that is set. A parser finds a part at the front of bytes, where there is one, and gives what follows
//! it and a space; or it finds several parts after one another, up to the end. A found part has its
//! variables and texts as slices of the line. Nothing here knows which lines there are. docs/script.md has the
//! language.
#![tactic(auto)]

mod flags;
mod handle;
mod kind;
mod name;
mod page;
mod parts;
mod process;
mod sort;
mod split;
mod text;

pub use handle::{HandleForm, Offset, handle_of, offset_value};
pub use kind::{KindForm, take_kind};
pub use name::{NameForm, PlaceForm};
pub use page::{PageMode, mode_of, take_room};
pub use parts::{
    flags_and_variable, name_flags_and_variable, place_flags_text_and_variable, take_place,
    variable_set, want_name_flags_and_variable,
};
pub use process::{process_set, take_handle, take_inherit, take_process};
pub use sort::{LastForm, PartForm, stop_of};
pub use split::{behind, split_at};
pub use text::{decode, is_variable, texts_spell_one_thing};
