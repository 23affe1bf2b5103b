//! Words that are none of a command, which leave the folder as it was.

use crate::asserts::{holds, same, same_at};
use bkd_top::code;
use outer_io::{FileName, MemFolder};
use program_tests::fixtures::called;
use std::test::Fail;

/// Words that are none of a command.
const OTHER_WORDS: &[&[&str]] = &[
    &[],
    &["."],
    &[".", "scan"],
    &[".", "--help"],
    &[".", "run", "--help"],
    &[".", "run", "-h"],
    &[".", "run", "more"],
    &[".", "run", "--cache"],
    &[".", "run", "--cache", "0"],
    &[".", "run", "--cache", "65537"],
    &[".", "run", "--cache", "1", "--cache", "1"],
    &[".", "run", "--forks", "7"],
    &[".", "run", "--docs", "1"],
    &[".", "load"],
    &[".", "load", "--columns", ","],
    &[".", "load", "--columns", ""],
    &[".", "load", "--columns", "a,,b"],
    &[".", "load", "--columns", "a,b,c,d,e,f,g,h,i"],
    &[".", "load", "--columns", "a", "--forks", "7"],
    &[".", "load", "--columns", "a", "--columns", "b"],
    &[".", "load", "--columns", "a", "--cache", "1"],
    &[".", "explain", "--cache", "0"],
    &[".", "explain", "--forks", "1"],
    &[".", "generate", "--docs", "0", "--seed", "1"],
    &[".", "generate", "--docs", "1000001", "--seed", "1"],
    &[".", "generate", "--docs", "1", "--seed", "0"],
    &[".", "generate", "--docs", "1", "--seed", "2147483647"],
    &[".", "generate", "--docs", "1"],
    &[".", "check", "more"],
    &[".", "export", "more"],
    &[".", "export", "--as-ranges", "--as-ranges"],
    &[".", "export", "--forks", "1"],
    &[".", "info", "--as-ranges"],
];

#[test]
fn other_words_do_nothing(rt: HostRuntime) -> Result<(), Fail> {
    let alloc = rt.alloc();
    for words in OTHER_WORDS {
        let mut folder = MemFolder::new(alloc, Vec::new(alloc));
        let (status, text) = called(&rt, alloc, words, "a,b\n1,2\n", &mut folder)?;
        same_at(&rt, code(&status), 1, &words);
        same(&rt, text.as_str(), "");
        holds(&rt, folder.get(&FileName::Commit).is_none());
    }
    Ok(())
}
