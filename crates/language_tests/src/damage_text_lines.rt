//! The text of each damage, whole.

use crate::asserts::same;
use byte_cursor::Bytes;
use damage_text::put_damage;
use outer_io::FileName;
use page_cache::Damage;
use page_file::PageBytes;
use std::alloc::Global;
use std::process::Abort;
use std::test::Fail;

fn check(rt: &impl Abort, alloc: Global, damage: &Damage, want: &str) -> Result<(), Fail> {
    let mut text = String::new(alloc);
    put_damage(&mut text, damage)?;
    same(rt, text.as_str(), want);
    Ok(())
}

const SEGMENT: FileName = FileName::Segment(26);

const LIVE: FileName = FileName::Live {
    segment: 26,
    generation: 3,
};

#[test]
fn damages_of_pages(rt: HostRuntime) -> Result<(), Fail> {
    let alloc = rt.alloc();
    let page = Damage::Page {
        file: SEGMENT,
        number: 2,
        bytes: Box::new(alloc, PageBytes { b: [0; 4096] })?,
    };
    check(&rt, alloc, &page, "seg-000000000000001a.bkd page 2")?;
    let leaf = Damage::Leaf {
        file: SEGMENT,
        number: 2,
        offset: 352,
        length: 15,
        bytes: Box::new(alloc, PageBytes { b: [0; 4096] })?,
    };
    check(
        &rt,
        alloc,
        &leaf,
        "seg-000000000000001a.bkd page 2 leaf at 352",
    )
}

#[test]
fn damages_of_files(rt: HostRuntime) -> Result<(), Fail> {
    let alloc = rt.alloc();
    let body = Damage::Body {
        file: FileName::Commit,
        bytes: Bytes::new(Vec::new(alloc)),
    };
    check(&rt, alloc, &body, "commit.bkd body")?;
    let missing = Damage::Missing { file: LIVE };
    check(
        &rt,
        alloc,
        &missing,
        "live-000000000000001a-0000000000000003.bkd missing",
    )?;
    let size = Damage::Size {
        file: SEGMENT,
        size: 12_287,
        needed: 12_288,
    };
    check(
        &rt,
        alloc,
        &size,
        "seg-000000000000001a.bkd has 12287 bytes, needs 12288",
    )?;
    let unequal = Damage::Unequal {
        file: LIVE,
        said: 5,
        found: 4,
    };
    check(
        &rt,
        alloc,
        &unequal,
        "live-000000000000001a-0000000000000003.bkd says 5, found 4",
    )
}

#[test]
fn damages_of_documents(rt: HostRuntime) -> Result<(), Fail> {
    let alloc = rt.alloc();
    check(
        &rt,
        alloc,
        &Damage::NotGiven { doc: 7, next: 7 },
        "document 7 beyond 7",
    )?;
    check(&rt, alloc, &Damage::Doubled { doc: 7 }, "document 7 twice")
}
