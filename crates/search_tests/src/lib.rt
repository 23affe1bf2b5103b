//! Tests of search: walks over a segment, the nearest of segments and a buffer, and views of several segments.
//!
//! They stand above the crates that they test, as Rust's integration tests do: a change of a test is no change of
//! those.
#![tactic(auto)]

#[cfg(test)]
mod asserts;
#[cfg(test)]
mod box_relations;
#[cfg(test)]
mod counts;
#[cfg(test)]
mod drawn_edges;
#[cfg(test)]
mod index_forms;
#[cfg(test)]
mod leaf_pages;
#[cfg(test)]
mod long_leaves;
#[cfg(test)]
mod near_leaf_pages;
#[cfg(test)]
mod nearest_entries;
#[cfg(test)]
mod nearest_ones;
#[cfg(test)]
mod nested_cells;
#[cfg(test)]
mod number_rows;
#[cfg(test)]
mod one_leaf;
#[cfg(test)]
mod reached_entries;
#[cfg(test)]
mod ring_parity_rings;
#[cfg(test)]
mod stored;
#[cfg(test)]
mod views;
#[cfg(test)]
mod walks;
