//! The tests of the crates that read and write texts: lines of a script, polygons, CSV, words of the command line,
//! damages. They stand above what they test, so that there only the tests themselves are proved.
#![tactic(auto)]

#[cfg(test)]
mod asserts;
#[cfg(test)]
mod command_words_lines;
#[cfg(test)]
mod csv_load_records;
#[cfg(test)]
mod damage_text_lines;
#[cfg(test)]
mod drawn_points_draws;
#[cfg(test)]
mod polygon_query_texts;
#[cfg(test)]
mod range_docs_commands;
#[cfg(test)]
mod range_docs_lines;
#[cfg(test)]
mod script_lang_lines;
#[cfg(test)]
mod script_lang_replies;
