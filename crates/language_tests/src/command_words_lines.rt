use crate::asserts::{same, same_at};
use command_words::{Words, WordsFault, read_words};
use std::alloc::Global;
use std::test::Fail;

/// Commands with what is read of them.
const COMMANDS: [(&str, &str); 18] = [
    (". run", "Run { cache_pages: 1024, forks: 1 }"),
    (". run --", "Run { cache_pages: 1024, forks: 1 }"),
    ("run run --cache 1", "Run { cache_pages: 1, forks: 1 }"),
    (
        ". run --cache 65536 --forks 6",
        "Run { cache_pages: 65536, forks: 6 }",
    ),
    (
        "folder run --forks=0 --cache=05",
        "Run { cache_pages: 5, forks: 0 }",
    ),
    (
        ". run --cache +5 --forks=-0",
        "Run { cache_pages: 5, forks: 0 }",
    ),
    (
        ". load --columns a,bc",
        "Load { columns: [Bytes { items: [97] }, Bytes { items: [98, 99] }], forks: 1 }",
    ),
    (
        ". load --forks 2 --columns=a",
        "Load { columns: [Bytes { items: [97] }], forks: 2 }",
    ),
    (". explain", "Explain { cache_pages: 1024 }"),
    (". explain --cache 16", "Explain { cache_pages: 16 }"),
    (". check", "Check"),
    (
        ". generate --docs 1 --seed 1",
        "Generate { docs: 1, seed: 1, forks: 1 }",
    ),
    (
        ". generate --seed 2147483646 --docs 1000000",
        "Generate { docs: 1000000, seed: 2147483646, forks: 1 }",
    ),
    (
        ". generate --docs 20000 --seed 7 --forks 3",
        "Generate { docs: 20000, seed: 7, forks: 3 }",
    ),
    (
        ". generate --forks 0 --docs 007 --seed +9",
        "Generate { docs: 7, seed: 9, forks: 0 }",
    ),
    (". batch --forks 2", "Batch { forks: 2 }"),
    (". batch --merge", "MergingBatch { forks: 1 }"),
    (". batch --merge --forks=0", "MergingBatch { forks: 0 }"),
];

/// Words that are none of a command.
const REFUSED: [&str; 46] = [
    ".",
    ". scan",
    ". Run",
    ". ",
    ". --help",
    ". help",
    ". run --help",
    ". run -h",
    ". run --version",
    ". check --help",
    ". run extra",
    ". run -- extra",
    ". run --cache",
    ". run --cache 0",
    ". run --cache 65537",
    ". run --cache 18446744073709551617",
    ". run --cache x",
    ". run --cache=",
    ". run --cache 1.0",
    ". run --cache 1 --cache 1",
    ". run --forks 7",
    ". run --forks -1",
    ". run --forks=-1",
    ". run --forks 0 --forks 0",
    ". run --columns a",
    ". run cache 1",
    ". run -cache 1",
    ". load",
    ". load a,b",
    ". load --columns ,",
    ". load --columns a,",
    ". load --columns a,,b",
    ". load --columns a --columns b",
    ". load --columns a --cache 1",
    ". explain --forks 1",
    ". check extra",
    ". check --cache 1",
    ". generate --docs 1",
    ". generate --docs 0 --seed 1",
    ". generate --docs 1000001 --seed 1",
    ". generate --docs 1 --seed 0",
    ". generate --docs 1 --seed 2147483647",
    ". batch --merge true",
    ". batch --merge=true",
    ". batch merge",
    ". run --merge",
];

/// The words between single spaces.
fn words_of(alloc: Global, line: &str) -> Result<Vec<String>, Fail> {
    let mut words = Vec::new(alloc);
    for word in line.split(' ') {
        words.push(word.to_string(alloc)?)?;
    }
    Ok(words)
}

#[test]
fn reads_commands(rt: HostRuntime) -> Result<(), Fail> {
    let alloc = rt.alloc();
    for (line, read) in COMMANDS {
        let words = words_of(alloc, line)?;
        let asked = read_words(alloc, words.as_slice())?;
        same_at(&rt, format!(in alloc; "{asked:?}")?.as_str(), read, &line);
    }
    Ok(())
}

#[test]
fn refuses_other_words(rt: HostRuntime) -> Result<(), Fail> {
    let alloc = rt.alloc();
    same(&rt, read_words(alloc, &[]).err(), Some(WordsFault::Usage));
    for line in REFUSED {
        let words = words_of(alloc, line)?;
        same_at(
            &rt,
            read_words(alloc, words.as_slice()).err(),
            Some(WordsFault::Usage),
            &line,
        );
    }
    Ok(())
}

#[test]
fn takes_eight_columns(rt: HostRuntime) -> Result<(), Fail> {
    let alloc = rt.alloc();
    let words = words_of(alloc, ". load --columns a,b,c,d,e,f,g,a")?;
    let asked = read_words(alloc, words.as_slice())?;
    let names = match &asked {
        Words::Load { columns, .. } => columns.as_slice(),
        _ => &[],
    };
    assert_eq!(rt; names.len(), 8);
    same(&rt, names[7].as_slice(), b"a".as_slice());
    let words = words_of(alloc, ". load --columns a,b,c,d,e,f,g,h,i")?;
    same(
        &rt,
        read_words(alloc, words.as_slice()).err(),
        Some(WordsFault::Usage),
    );
    Ok(())
}
