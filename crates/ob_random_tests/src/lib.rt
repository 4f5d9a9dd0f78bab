//! Random commands of many processes, beside a plain model of the namespace over flat lists (`ob_flat_model`). The crate holds tests alone, since a
//! crate with tests is proved twice.
#![tactic(auto)]

#[cfg(test)]
mod devices;
#[cfg(test)]
mod dice;
#[cfg(test)]
mod draw;
#[cfg(test)]
mod game;
#[cfg(test)]
mod random;
#[cfg(test)]
mod turn;
