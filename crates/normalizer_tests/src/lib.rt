//! Tests of the crates below: values from outside, and what no contract says.
#![tactic(auto)]

#[cfg(test)]
mod delegates;
#[cfg(test)]
mod documented;
#[cfg(test)]
mod in_memory;
#[cfg(test)]
mod over_rows;
#[cfg(test)]
mod program;
#[cfg(test)]
mod sinks;
