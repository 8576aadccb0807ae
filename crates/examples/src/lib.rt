//! Worked examples of the crates, each proved and then run.
#![tactic(auto)]

#[cfg(test)]
mod directory_listed;
#[cfg(test)]
mod lines_read;
#[cfg(test)]
mod notices_coded;
#[cfg(test)]
mod ring_kept;
