//! Runs of the program over folders and streams in memory.
#![tactic(auto)]

#[cfg(test)]
mod tests;
