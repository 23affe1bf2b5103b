//! Cuts a body into payloads, and seals each as a page of its file.

ghost use Rattle.std.specs.Prelude.{◌≡◌, ◌≤◌, ◌<◌, ◌+◌, ◌^◌, length, take, drop, vec_len, vec_capacity};
ghost use Rattle.std.specs.Prelude.{OnOk, OnErr, IfOk};
ghost use Rattle.page_cache.specs.Bodies.{pages_for as pages_of_body, IsBodyFile, AppendsPage, AppendsPages};

use crate::faults::Memory;
use crate::read::place_of;
use outer_io::FileName;
use page_file::{PAGE_LEN, PAYLOAD_LEN, seal_in_place};
use std::alloc::Global;

/// How many pages a body of so many bytes fills.
pub fn pages_for(len: u32) -> u32
    ensures { result ≡ pages_of_body len }
{
    ((u64::from(len) + (PAYLOAD_LEN as u64 - 1)) / PAYLOAD_LEN as u64) as u32
}

/// Appends one page with this payload, filled with zeros. The room for it is there.
fn put_page(out: &mut Vec<u8>, name: &FileName, number: u32, part: &[u8])
    requires part { length part.now ≤ 4064 }
    requires room { vec_len out.old + 4096 ≤ vec_capacity out.old }
    ensures page { AppendsPage name.now number part.now out.old.items out.new.items }
    ensures len { vec_len out.new ≡ vec_len out.old + 4096 }
    ensures capacity { vec_capacity out.old ≤ vec_capacity out.new }
{
    let from = out.len();
    out.extend_from_slice(part).unwrap();
    seal_from(out, name, number, from);
}

/// Makes a page of what stands from `from` on, which is a payload at most: zeros come behind it, and the digest. The
/// room for it is there.
pub fn seal_from(out: &mut Vec<u8>, name: &FileName, number: u32, from: usize)
    requires from { from ≤ vec_len out.old }
    requires payload { vec_len out.old ≤ from + 4064 }
    requires room { from + 4096 ≤ vec_capacity out.old }
    ensures page { AppendsPage name.now number (drop from out.old.items) (take from out.old.items) out.new.items }
    ensures len { vec_len out.new ≡ from + 4096 }
    ensures capacity { vec_capacity out.old ≤ vec_capacity out.new }
{
    let (kind, file) = place_of(name);
    out.resize(from + PAGE_LEN, 0).unwrap();
    let (_, page) = out.as_mut_slice().split_at_mut(from);
    seal_in_place(kind, file, number, page);
}

/// Appends the pages of a body, numbered from `first` on as pages of the file of this name. Each is sealed once.
/// Memory is taken once for all of them.
pub fn put_pages(out: &mut Vec<u8>, name: &FileName, first: u32, body: &[u8]) -> Result<(), Memory>
    requires { first + pages_of_body (length body.now) < 2 ^ 32 }
    ensures ok { OnOk result (AppendsPages name.now first body.now out.old.items out.new.items) }
    ensures err { OnErr result (out.new.items ≡ out.old.items) }
{
    let pages = ((body.len() + (PAYLOAD_LEN - 1)) / PAYLOAD_LEN) as u32;
    out.reserve(pages as usize * PAGE_LEN)?;
    let mut rest = body;
    'pages: for i in 0..pages {
        let (part, others) = rest.split_at(rest.len().min(PAYLOAD_LEN));
        put_page(out, name, first + i, part);
        rest = others;
    }
    Ok(())
}

/// The file of this name that is this body: its pages.
pub fn pages_of(alloc: Global, name: &FileName, body: &[u8]) -> Result<Vec<u8>, Memory>
    requires { pages_of_body (length body.now) < 2 ^ 32 }
    ensures { IfOk result (λ v. IsBodyFile name.now v.items body.now) }
{
    let mut out = Vec::new(alloc);
    put_pages(&mut out, name, 0, body)?;
    Ok(out)
}
