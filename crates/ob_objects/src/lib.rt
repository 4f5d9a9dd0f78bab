//! The objects of a namespace by their ids: directories with their entries, symbolic links, and
//! objects of a set of types.
#![tactic(auto)]

mod changes;
mod laws;
mod listing;
mod named;
mod object;
mod shadows;
mod slots;
mod standing;
mod store;
mod types;
mod walk;

pub use laws::stored_is_the_object;
pub use listing::Page;
pub use named::{EntryPlace, Named};
pub use object::{StoredBody, StoredObject};
pub use standing::Standing;
pub use store::Store;
