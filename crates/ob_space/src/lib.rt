//! The parts of a namespace, and the changes of them that its commands share.
//!
//! A [`Space`] is plain data: the set of types, the store of objects and names, the live processes
//! with their handles, the pending opens, and the numbers that come next. The functions here are what commands are put
//! together from: what is read off the parts, a name looked up, a handle granted, an object placed, a
//! handle closed, and what a close releases. Each is specified over the state of the abstract machine that the
//! parts represent, `state_of`.
//!
//! Which refusals a command makes, in which order, and what it replies is the commands' own, a crate
//! above. A change asks that the state is orderly, `IsOrderly`, and leaves it so. Where it runs
//! out of memory, the state is as it was.
#![tactic(auto)]

mod first_store;
mod giving;
mod granting;
mod judge;
mod looking;
mod placing;
mod replies;
mod room;
mod roots;
mod space;
mod wanted;

pub use first_store::opening_store;
pub use giving::{give_handle, open_at};
pub use granting::grant;
pub use judge::{judge_create, judge_open};
pub use looking::{look_up, look_up_again};
pub use placing::{Spot, delete_body, place_new};
pub use replies::{status_alone, with_handle};
pub use room::try_room;
pub use roots::root_object;
pub use space::{
    GLOBAL, ROOT, Space, held_of, is_full, is_full_without, is_live, is_stampless, is_store_full,
    is_table_full,
};
pub use wanted::is_wanted_at;
