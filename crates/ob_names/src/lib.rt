//! Names: what a name may be, when two are equal, how a text is split into components, and what a
//! link's target and the rest after it make together.
//!
//! A name is counted bytes, with no byte that ends it. Contracts see a name as the list of its
//! bytes, and speak of it in the words of `ob_model`'s names.
#![tactic(auto)]

mod component;
mod equality;
mod name;
mod substitution;

pub use component::{Component, first, splitting_joins_back};
pub use equality::same;
pub use name::{LONGEST_NAME, Name, NameBuf, is_profile_text};
pub use substitution::substitute;
