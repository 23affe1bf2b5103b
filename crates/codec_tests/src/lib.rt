//! The tests of the codecs and of the builder of trees. They stand above what they test, so that there only the tests
//! themselves are proved.
#![tactic(auto)]

#[cfg(test)]
mod asserts;
#[cfg(test)]
mod bkd_build_cuts;
#[cfg(test)]
mod bkd_build_trees;
#[cfg(test)]
mod byte_cursor_fields;
#[cfg(test)]
mod inner_pack_bytes;
#[cfg(test)]
mod inner_pack_packed;
#[cfg(test)]
mod inner_pack_vectors;
#[cfg(test)]
mod leaf_codec_leaves;
#[cfg(test)]
mod live_bits_bodies;
#[cfg(test)]
mod number_text_numbers;
#[cfg(test)]
mod page_file_pages;
#[cfg(test)]
mod point_codec_points;
#[cfg(test)]
mod samples;
