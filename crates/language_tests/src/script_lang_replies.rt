//! Lines as they are parted, and replies as they are spelled.

use crate::asserts::{same, same_at};
use crate::script_lang_lines::first;
use point_codec::Near;
use polygon_query::GeoFault;
use script_lang::LineFault::{
    BadK, BadName, Dims, Geo, LeafSize, NoIndex, NotTwo, NotUtf8, Number, TooLong, Unknown, Words,
};
use script_lang::{
    First, LineFault, Refusal, first_line, put_deleted, put_doc, put_hits, put_line_fault,
    put_near, put_ok, put_refusal,
};
use std::test::Fail;

#[test]
fn long_lines(rt: HostRuntime) -> Result<(), Fail> {
    let mut line = vec![in rt.alloc(); b' '; 4_194_304]?;
    same(&rt, first(&line), Ok(First::Blank));
    line.push(b'\r')?;
    same(&rt, first(&line), Ok(First::Blank));
    line.push(b'\r')?;
    same(&rt, first(&line), Err(TooLong));
    Ok(())
}

/// Bytes, the first line of them, and the rest.
const LINES: [(&[u8], (&[u8], &[u8])); 3] = [
    (b"a\r\n\nb", (b"a\r", b"\nb")),
    (b"\n", (b"", b"")),
    (b"b", (b"b", b"")),
];

/// The first line and the rest, where there are bytes.
fn parted(bytes: &[u8]) -> Option<(&[u8], &[u8])> {
    if bytes.is_empty() {
        return None;
    }
    Some(first_line(bytes))
}

#[test]
fn lines_end(rt: HostRuntime) {
    for (bytes, wanted) in LINES {
        same_at(&rt, parted(bytes), Some(wanted), &bytes);
    }
}

const REFUSALS: &[u8] = b"line 12: too long\n\
line 12: not utf-8\n\
line 12: no index\n\
line 12: unknown command\n\
line 12: bad name\n\
line 12: not two dimensions\n\
line 12: wrong words\n\
line 12: bad number in word 3\n\
line 12: dims\n\
line 12: leaf size\n\
line 12: bad k\n\
line 12: polygon is not json\n\
line 12: not a polygon\n\
line 12: polygon has too many positions\n\
line 12: polygon ring 0 position 1 is not whole\n\
line 12: polygon ring 2 has too few positions\n\
line 12: polygon ring 10 is not closed\n\
line 3: index exists\n\
line 3: full\n\
line 3: merge begun\n\
line 3: no merge begun\n\
line 3: unknown snapshot\n\
line 3: name taken\n\
line 3: too many snapshots\n\
line 3: not a query\n";

#[test]
fn replies(rt: HostRuntime) -> Result<(), Fail> {
    let mut out = Vec::new(rt.alloc());
    put_ok(&mut out)?;
    put_doc(&mut out, 7)?;
    put_deleted(&mut out, 0)?;
    put_hits(&mut out, &[0, 4_294_967_295])?;
    put_hits(&mut out, &[])?;
    put_near(
        &mut out,
        &[Near {
            dist2: 147_573_952_520_956_936_200,
            doc: 0,
        }],
    )?;
    same(
        &rt,
        out.as_slice(),
        b"ok\ndoc 7\ndeleted 0\nhits 2\n0\n4294967295\nhits 0\nnear 1\n0 147573952520956936200\n".as_slice(),
    );
    Ok(())
}

/// Every fault of a line, and every reason why one is refused.
const EVERY_FAULT: [LineFault; 17] = [
    TooLong,
    NotUtf8,
    NoIndex,
    Unknown,
    BadName,
    NotTwo,
    Words,
    Number { word: 3 },
    Dims,
    LeafSize,
    BadK,
    Geo(GeoFault::NotJson),
    Geo(GeoFault::NotPolygon),
    Geo(GeoFault::TooMany),
    Geo(GeoFault::NotWhole {
        ring: 0,
        position: 1,
    }),
    Geo(GeoFault::TooFew { ring: 2 }),
    Geo(GeoFault::NotClosed { ring: 10 }),
];

const EVERY_REASON: [Refusal; 8] = [
    Refusal::Exists,
    Refusal::Full,
    Refusal::Begun,
    Refusal::NotBegun,
    Refusal::UnknownSnapshot,
    Refusal::NameTaken,
    Refusal::TooManySnapshots,
    Refusal::NotQuery,
];

#[test]
fn refusals(rt: HostRuntime) -> Result<(), Fail> {
    let mut out = Vec::new(rt.alloc());
    for fault in EVERY_FAULT {
        put_line_fault(&mut out, 12, &fault)?;
    }
    for why in EVERY_REASON {
        put_refusal(&mut out, 3, why)?;
    }
    same(&rt, out.as_slice(), REFUSALS);
    Ok(())
}
