//! Page bytes, views of valid pages, and the sealing of a payload.

ghost use Rattle.std.specs.Prelude.{◌≡◌, ◌≤◌, ◌++◌, ◌-◌, ◌+◌, ◌↔◌, length, take, drop, replicate, IsSome, IfSome};
ghost use Rattle.page_file.specs.Page.{IsPage, payload_of};

use crate::digest::digest_of;

/// The bytes of a page.
pub const PAGE_LEN: usize = 4096;

/// The bytes of a page's payload.
pub const PAYLOAD_LEN: usize = 4064;

/// The bytes of a page, valid or not.
#[derive(Debug, Drop)]
pub struct PageBytes {
    pub b: [u8; 4096],
}

/// A valid page, and the place that it is valid for. Nobody hashes it again.
#[derive(Clone, Copy, Debug)]
pub struct PageView<'a> {
    /// The kind of the file.
    pub kind: u8,
    /// The number of the file.
    pub file: u64,
    /// The number of the page in the file, from 0.
    pub number: u32,
    pub bytes: &'a PageBytes,
    pub ghost valid: { IsPage kind file number bytes.now.b },
}

impl<'a> PageView<'a> {
    /// A view of the bytes, if they are a page for that place. None exactly where the digest is another.
    pub fn check(kind: u8, file: u64, number: u32, b: &'a PageBytes) -> Option<PageView<'a>>
        ensures valid { IsSome result ↔ IsPage kind file number b.now.b }
        ensures place { IfSome result (λ v. (v.kind ≡ kind) × (v.file ≡ file) × (v.number ≡ number)) }
        ensures bytes { IfSome result (λ v. v.bytes.now.b ≡ b.now.b) }
    {
        let (payload, stored) = b.b.as_slice().split_at(PAYLOAD_LEN);
        let digest = digest_of(kind, file, number, payload);
        if stored == digest.as_slice() {
            Some(PageView {
                kind,
                file,
                number,
                bytes: b,
            })
        } else {
            None
        }
    }

    /// A view of bytes that are known to be a page for that place: it computes no digest.
    pub fn of_valid(kind: u8, file: u64, number: u32, b: &'a PageBytes) -> PageView<'a>
        requires { IsPage kind file number b.now.b }
        ensures place { (result.kind ≡ kind) × (result.file ≡ file) × (result.number ≡ number) }
        ensures bytes { result.bytes.now.b ≡ b.now.b }
    {
        PageView {
            kind,
            file,
            number,
            bytes: b,
        }
    }

    /// The payload, 4,064 bytes of the page.
    pub fn payload(&self) -> &'a [u8]
        ensures bytes { result.now ≡ payload_of self.now.bytes.now.b }
        ensures len { length result.now ≡ PAYLOAD_LEN }
    {
        let (payload, _) = self.bytes.b.as_slice().split_at(PAYLOAD_LEN);
        payload
    }
}

/// The page for that place with that payload, filled with zeros.
pub fn seal(kind: u8, file: u64, number: u32, payload: &[u8]) -> PageBytes
    requires { length payload.now ≤ PAYLOAD_LEN }
    ensures page { IsPage kind file number result.b }
    ensures payload { payload_of result.b ≡ payload.now ++ replicate (PAYLOAD_LEN - length payload.now) 0 }
{
    let mut page = PageBytes { b: [0; PAGE_LEN] };
    put_at(&mut page.b, 0, payload);
    seal_in_place(kind, file, number, &mut page.b);
    page
}

/// Makes bytes a page for that place, where they stand: their payload stays, and its digest comes behind it.
pub fn seal_in_place(kind: u8, file: u64, number: u32, page: &mut [u8])
    requires { length page.old ≡ PAGE_LEN }
    ensures page { IsPage kind file number page.new }
    ensures payload { payload_of page.new ≡ payload_of page.old }
{
    let (payload, _) = page.split_at(PAYLOAD_LEN);
    let digest = digest_of(kind, file, number, payload);
    put_at(page, PAYLOAD_LEN, &digest);
}

/// Writes the part over the bytes from `at` on.
fn put_at(out: &mut [u8], at: usize, part: &[u8])
    requires { at + length part.now ≤ length out.old }
    ensures { out.new ≡ take at out.old ++ part.now ++ drop (at + length part.now) out.old }
{
    out[at..at + part.len()].copy_from_slice(part);
}
