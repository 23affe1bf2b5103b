//! The tests of the files and of the cache of their pages. They stand above what they test, so that there only the
//! tests themselves are proved.
#![tactic(auto)]

#[cfg(test)]
mod asserts;
#[cfg(test)]
mod commit_list_bodies;
#[cfg(test)]
mod commit_list_files;
#[cfg(test)]
mod file_names_names;
#[cfg(test)]
mod merge_policy_choices;
#[cfg(test)]
mod outer_io_folders;
#[cfg(test)]
mod outer_io_streams;
#[cfg(test)]
mod page_cache_pages;
#[cfg(test)]
mod samples;
#[cfg(test)]
mod segment_build_five;
#[cfg(test)]
mod segment_build_pieces;
#[cfg(test)]
mod segment_file_leaves;
#[cfg(test)]
mod segment_file_open;
#[cfg(test)]
mod segment_file_write;
