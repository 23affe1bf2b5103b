//! Tests of the program's commands through the top call, over a folder in memory: what loads, generates, explains,
//! checks, counts and batches, what each leaves in the folder, and what it tells of folders that were changed.
//!
//! They stand beside those of `program_tests`, from which they have what runs the program, so that both are proved at
//! once.
#![tactic(auto)]

#[cfg(test)]
mod answers;
#[cfg(test)]
mod asserts;
#[cfg(test)]
mod batching;
#[cfg(test)]
mod batching_merges;
#[cfg(test)]
mod checked_entries;
#[cfg(test)]
mod checked_folders;
#[cfg(test)]
mod checking;
#[cfg(test)]
mod counting;
#[cfg(test)]
mod drawn_counts;
#[cfg(test)]
mod drawn_ranges;
#[cfg(test)]
mod eight_dimensions;
#[cfg(test)]
mod explaining;
#[cfg(test)]
mod exporting;
#[cfg(test)]
mod gates;
#[cfg(test)]
mod generating;
#[cfg(test)]
mod load_faults;
#[cfg(test)]
mod loading;
#[cfg(test)]
mod loading_many;
#[cfg(test)]
mod other_words;
#[cfg(test)]
mod worked_commands;
