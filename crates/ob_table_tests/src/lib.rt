//! Worked cases over both handle tables: the scripts of the program, which runs them over a `SlabTable` alone.
#![tactic(auto)]

#[cfg(test)]
mod cases;
#[cfg(test)]
mod played;
