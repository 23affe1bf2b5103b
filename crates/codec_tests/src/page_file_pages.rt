//! Digests from outside, and bytes that are no page for their place.

use crate::asserts::{holds, holds_at, same};
use page_file::{PAGE_LEN, PAYLOAD_LEN, PageBytes, PageView, seal};

/// The digest of the payload `abc` in page 0x090a0b0c of file 0x0102030405060708 of kind 1.
const ABC: [u8; 32] = [
    0xf9, 0xed, 0x56, 0x4c, 0x1d, 0x24, 0xeb, 0xaa, 0x6f, 0x68, 0x6e, 0xcf, 0x18, 0x36, 0x66, 0x77,
    0xe2, 0x84, 0xb7, 0x6c, 0x40, 0xe2, 0xec, 0x87, 0xba, 0x60, 0x83, 0x8e, 0xf2, 0xb4, 0x35, 0x14,
];

/// That of the empty payload in page 0 of file 0 of kind 3.
const EMPTY: [u8; 32] = [
    0x81, 0xc2, 0xb2, 0xca, 0x85, 0xf9, 0x51, 0x61, 0xc9, 0x85, 0x88, 0x00, 0xfd, 0xa9, 0xcb, 0xc5,
    0x93, 0x76, 0x5c, 0x94, 0x88, 0x89, 0x4a, 0xa5, 0xc7, 0x7c, 0x37, 0xc6, 0x0d, 0x26, 0x61, 0xd8,
];

/// That of 4,064 bytes 0xff in page 1 of file 7 of kind 2.
const FULL: [u8; 32] = [
    0xe3, 0x8e, 0x54, 0xd4, 0x5f, 0x63, 0x64, 0x97, 0xa6, 0xd2, 0x99, 0xf5, 0xc5, 0x31, 0xd3, 0x92,
    0x5b, 0x3e, 0xb3, 0x4d, 0xc8, 0xb7, 0x7a, 0xff, 0xc9, 0xe2, 0x51, 0x4d, 0x9e, 0x04, 0xa2, 0xbe,
];

/// The payload of a full page.
const WHOLE: [u8; PAYLOAD_LEN] = [0xff; PAYLOAD_LEN];

/// Kinds, files, page numbers and payloads, with their digests.
const PAGES: [(u8, u64, u32, &[u8], &[u8; 32]); 3] = [
    (1, 0x0102_0304_0506_0708, 0x090a_0b0c, b"abc", &ABC),
    (3, 0, 0, b"", &EMPTY),
    (2, 7, 1, &WHOLE, &FULL),
];

/// The page of a payload, of which as much is taken as fits.
fn page_of(kind: u8, file: u64, number: u32, payload: &[u8]) -> PageBytes {
    seal(
        kind,
        file,
        number,
        payload.split_at(payload.len().min(PAYLOAD_LEN)).0,
    )
}

#[test]
fn pages(rt: HostRuntime) {
    for (kind, file, number, payload, digest) in PAGES {
        let page = page_of(kind, file, number, payload);
        same(&rt, &page.b[PAYLOAD_LEN..], digest.as_slice());
        let (front, _) = page.b.split_at(payload.len().min(PAYLOAD_LEN));
        same(&rt, front, payload);
        let mut filling = page.b[..PAYLOAD_LEN].iter().skip(payload.len());
        holds(&rt, filling.all(|b| *b == 0));
    }
}

/// Whether these bytes are a page of this place.
fn is_page(kind: u8, file: u64, number: u32, page: &PageBytes) -> bool {
    PageView::check(kind, file, number, page).is_some()
}

#[test]
fn pages_of_places(rt: HostRuntime) {
    for (kind, file, number, payload, _) in PAGES {
        let page = page_of(kind, file, number, payload);
        same(
            &rt,
            PageView::check(kind, file, number, &page).map(|v| v.payload()),
            Some(&page.b[..PAYLOAD_LEN]),
        );
        holds(&rt, !is_page(kind ^ 1, file, number, &page));
        holds(&rt, !is_page(kind, file ^ 1 << 63, number, &page));
        holds(&rt, !is_page(kind, file, number ^ 1, &page));
    }
}

#[test]
fn changed(rt: HostRuntime) {
    let mut page = seal(1, 2, 3, b"some payload");
    for at in 0..PAGE_LEN {
        page.b[at] ^= 0x10;
        holds_at(&rt, !is_page(1, 2, 3, &page), &at);
        page.b[at] ^= 0x10;
    }
    holds(&rt, is_page(1, 2, 3, &page));
}
