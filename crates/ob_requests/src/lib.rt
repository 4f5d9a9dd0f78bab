//! Requests of a script: the command that each spells by the script's variables, and the variables after its reply.
#![tactic(auto)]

mod changes;
mod commands;
pub mod laws;
mod table;
mod variable;
mod variable_name;
mod variable_tables;
mod variables;

pub use changes::given_handle;
pub use commands::{SpelledCommand, command_of};
pub use table::{Table, keep};
pub use variable::Variable;
pub use variable_name::VariableName;
pub use variable_tables::VariableTables;
pub use variables::Variables;
