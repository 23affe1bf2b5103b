//! Tests of the program: scripts, sessions and embedded sessions through the top call, over streams and a folder in
//! memory, and what a call that fails leaves.
//!
//! They stand above the crates that they test, as Rust's integration tests do: a change of a test is no change of
//! those. What `folder_tests` uses too is public. It asserts nothing, since only tests may.
#![tactic(auto)]

#[cfg(test)]
mod asked_calls;
#[cfg(test)]
mod asserts;
#[cfg(test)]
mod closing;
#[cfg(test)]
mod command_faults;
#[cfg(test)]
mod dead_leaves;
#[cfg(test)]
mod deletion_windows;
#[cfg(test)]
mod drawn_lines;
pub mod draws;
#[cfg(test)]
mod embedded_sessions;
#[cfg(test)]
mod failing_calls;
#[cfg(test)]
mod faults;
pub mod fixtures;
#[cfg(test)]
mod folders;
#[cfg(test)]
mod lists;
#[cfg(test)]
mod live_files;
#[cfg(test)]
mod merged_segments;
#[cfg(test)]
mod range_stories;
#[cfg(test)]
mod rows;
#[cfg(test)]
mod runs;
#[cfg(test)]
mod same_documents;
#[cfg(test)]
mod scripts;
#[cfg(test)]
mod sessions;
#[cfg(test)]
mod stored_files;
#[cfg(test)]
mod stories;
