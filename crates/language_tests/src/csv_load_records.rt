use crate::asserts::{same, same_at};
use byte_cursor::Bytes;
use csv_load::{CsvFault, check_points, read_entries};
use std::alloc::Global;
use std::fmt::Write;
use std::test::Fail;

/// The names of two columns that are loaded.
fn columns(alloc: Global, first: &[u8], second: &[u8]) -> Result<[Bytes; 2], Fail> {
    Ok([
        Bytes::new(first.to_vec(alloc)?),
        Bytes::new(second.to_vec(alloc)?),
    ])
}

#[test]
fn loads_points(rt: HostRuntime) -> Result<(), Fail> {
    let columns = columns(rt.alloc(), b"x", b"y")?;
    for (text, points) in [
        (b"x,y\n".as_slice(), [].as_slice()),
        (b"y,name,x\n2,Berlin,1\n-4,Rome,3", &[[1, 2], [3, -4]]),
        (b"x,x,y\n1,2,3\n", &[[1, 3]]),
        (
            b"\"x\",\"a\r\nb\",y\r\n\"3\",\"in \"\"quotes\"\"\n\",4\r\n",
            &[[3, 4]],
        ),
        (b"x,y\n 3\t,\t -2147483648 \n", &[[3, -2_147_483_648]]),
        (b"x,other,y\n1,\xff\xfe,2\n", &[[1, 2]]),
        (b"\n\nx,y\n\n1,2\n\n", &[[1, 2]]),
    ] {
        check_points::<2>(rt.alloc(), text, &columns)?;
        let loaded = read_entries::<2>(rt.alloc(), text, &columns, 7)?;
        same_at(&rt, loaded.len(), points.len(), &text);
        let mut doc = 7_u32;
        for (entry, c) in loaded.iter().zip(points) {
            same_at(&rt, (entry.doc, entry.point.c), (doc, *c), &text);
            doc = doc.wrapping_add(1);
        }
    }
    Ok(())
}

#[test]
fn names_the_first_fault(rt: HostRuntime) -> Result<(), Fail> {
    let columns = columns(rt.alloc(), b"x", b"y")?;
    for (text, fault) in [
        (b"".as_slice(), CsvFault::NoColumn { column: 0 }),
        (b"y\na,b\n", CsvFault::NoColumn { column: 0 }),
        (b"x\na,b\n", CsvFault::NoColumn { column: 1 }),
        (b"x,y\n1,2\n3\n", CsvFault::Length { row: 2 }),
        (b"x,y\n1,2\n+5,4,5\n", CsvFault::Length { row: 2 }),
        (
            b"id,x,y\n1,\"3\",4\n2,5,6\n3,2147483648,1\n",
            CsvFault::Value { row: 3, column: 0 },
        ),
        (b"y,x\na,b\n1\n", CsvFault::Value { row: 1, column: 0 }),
        (b"x,y\n1,a\n2\n", CsvFault::Value { row: 1, column: 1 }),
        (b"x,y\n1,+5\n", CsvFault::Value { row: 1, column: 1 }),
        (b"x,y\n1.0,5\n", CsvFault::Value { row: 1, column: 0 }),
        (b"x,y\n1e2,5\n", CsvFault::Value { row: 1, column: 0 }),
        (b"x,y\n1 2,5\n", CsvFault::Value { row: 1, column: 0 }),
        (b"x,y\n,5\n", CsvFault::Value { row: 1, column: 0 }),
        (b"x,y\n\xff,5\n", CsvFault::Value { row: 1, column: 0 }),
    ] {
        let loaded = read_entries::<2>(rt.alloc(), text, &columns, 0);
        same_at(&rt, loaded.err(), Some(fault), &text);
        let checked = check_points::<2>(rt.alloc(), text, &columns);
        same_at(&rt, checked.err(), Some(fault), &text);
    }
    Ok(())
}

#[test]
fn loads_cities_and_many_records(rt: HostRuntime) -> Result<(), Fail> {
    let places = columns(rt.alloc(), b"lon", b"lat")?;
    let cities =
        b"name,lon,lat\nBerlin,13404954,52520008\nParis,2352222,48856613\nRome,12496366,41902782\n";
    let loaded = read_entries::<2>(rt.alloc(), cities, &places, 0)?;
    assert_eq!(rt; loaded.len(), 3);
    same(&rt, loaded[0].point.c, [13_404_954, 52_520_008]);
    same(&rt, loaded[2].point.c, [12_496_366, 41_902_782]);

    let mut text = String::from_str(rt.alloc(), "x,y\n")?;
    for i in 0..334 {
        writeln!(text, "{i},0")?;
    }
    let pair = columns(rt.alloc(), b"x", b"y")?;
    let loaded = read_entries::<2>(rt.alloc(), text.as_bytes(), &pair, 0)?;
    assert_eq!(rt; loaded.len(), 334);
    same(&rt, loaded[333].point.c, [333, 0]);
    Ok(())
}
