//! Writes and reads the files that hold the live bits of segments, one file for each generation.

ghost use Rattle.std.specs.Prelude.{◌≡◌, ◌≢◌, ◌≤◌, ◌+◌, ◌*◌, ◌/◌, ◌++◌, ℕ, List, length, vec_len, IsTrue, IfOk, OnOk};
ghost use Rattle.std.specs.Prelude.{IsErrOf};
ghost use Rattle.outer_io.specs.Files.{bytes_of, SameBut};
ghost use Rattle.outer_io.specs.declared.file_name.FileName.TheVariants.{Live};
ghost use Rattle.live_bits.specs.LiveSet.{LiveSet, IsLiveSet};
ghost use Rattle.live_bits.specs.LiveBody.{IsLiveBody, SaysLength};
ghost use Rattle.page_cache.specs.declared.faults.PageFault.TheVariants as page;
ghost use Rattle.page_cache.specs.Bodies.{pages_for as pages_for_body};
ghost use Rattle.outer_io.specs.Faults.{HasWriteCause};
ghost use Rattle.page_cache.specs.Causes.{HasPageCause};
ghost use Rattle.page_cache.specs.Evidence.{OnDamage, NotDamaged};
ghost use Rattle.segment_file.specs.LiveFiles.{pages_once, IsLiveFile, IsSetOf};
ghost use Rattle.segment_file.specs.Kept.{OnFault};
ghost use Rattle.segment_file.specs.Damages.{BeginsNoSet, IsBodyDamage, IsLiveDamage, IsLiveDamageOf};

use crate::payloads::{all_payloads, is_blank};
use byte_cursor::{Bytes, Memory};
use live_bits::{BitsFault, LiveBits, body_len};
use outer_io::{FileName, Folder, Pages, WriteFault};
use page_cache::{Damage, FirstPage, PageFault, pages_for, pages_of};
use std::alloc::Global;

/// Writes the live bits of a segment as the file of this generation. On a refusal that file holds any bytes or
/// isn't there.
pub fn write_live<F: Folder>(
    alloc: Global,
    folder: &mut F,
    id: u64,
    generation: u64,
    live: &LiveBits,
) -> Result<(), WriteFault>
    ensures written { IsTrue F.told
        → OnOk result (IsLiveFile id generation (bytes_of (F.files folder.new (Live id generation))) live.now) }
    ensures others { IsTrue F.told → SameBut (Live id generation) (F.files folder.old) (F.files folder.new) }
    ensures reads { F.reads folder.new ≡ F.reads folder.old }
    ensures cause { HasWriteCause (F.faults folder.old) (F.faults folder.new) result }
{
    let name = FileName::Live {
        segment: id,
        generation,
    };
    let pages = live_pages(alloc, id, generation, live)?;
    folder.write_file(&name, pages.as_slice())?;
    Ok(())
}

/// The file of the live bits: its pages.
fn live_pages(alloc: Global, id: u64, generation: u64, live: &LiveBits) -> Result<Vec<u8>, Memory>
    ensures { IfOk result (λ v. IsLiveFile id generation v.items live.now) }
{
    let name = FileName::Live {
        segment: id,
        generation,
    };
    let body = live.write(alloc, id, generation)?;
    pages_of(alloc, &name, body.as_slice())
}

/// Reads the live bits of a segment from the file of this generation. The damages are those of this file: it is
/// missing, its size, a page of it, its body.
pub fn read_live<F: Pages>(
    alloc: Global,
    folder: &mut F,
    id: u64,
    generation: u64,
) -> Result<LiveBits, PageFault>
    ensures files { IsTrue F.told → F.files folder.new ≡ F.files folder.old }
    ensures live { IsTrue F.told
        → IfOk result (IsLiveFile id generation (bytes_of (F.files folder.old (Live id generation)))) }
    ensures set { IfOk result IsLiveSet }
    // a file that has a set is read page by page once, whatever is answered
    ensures reads { IsTrue F.told → (live : LiveSet)
        → IsLiveFile id generation (bytes_of (F.files folder.old (Live id generation))) live
        → F.reads folder.new ≤ F.reads folder.old + length (bytes_of (F.files folder.old (Live id generation))) / 4096 }
    // and so is any other
    ensures once { IsTrue F.told
        → F.reads folder.new ≤ F.reads folder.old + pages_once (bytes_of (F.files folder.old (Live id generation))) }
    ensures cause { HasPageCause (F.faults folder.old) (F.faults folder.new) result }
    ensures shown { OnDamage result (IsLiveDamage id generation) }
    ensures damage { IsTrue F.told → OnDamage result (IsLiveDamageOf (F.files folder.old)) }
    ensures whole { IsTrue F.told → (live : LiveSet)
        → IsLiveFile id generation (bytes_of (F.files folder.old (Live id generation))) live → NotDamaged result }
{
    let name = FileName::Live {
        segment: id,
        generation,
    };
    let first = FirstPage::read(alloc, folder, &name)?;
    let len = said_len(alloc, id, generation, first.payload())?;
    let pages = pages_for(len);
    first.check_size(pages)?;
    let joined = all_payloads(alloc, folder, &name, &first, pages)?;
    set_of(alloc, id, generation, joined, len)
}

/// How long the body is that the first page begins. Where no body begins so, the damage carries the payload.
fn said_len(alloc: Global, id: u64, generation: u64, payload: &[u8]) -> Result<u32, PageFault>
    requires long { length payload.now ≡ 4064 }
    ensures len { IfOk result
        (λ n. (s : LiveSet) (body x y : List ℕ) → IsLiveBody id generation s body → payload.now ++ x ≡ body ++ y
        → length body ≡ n) }
    ensures said { IfOk result (SaysLength id generation payload.now) }
    ensures few { IfOk result (λ n. (36 ≤ n) × (n ≤ 2097188)) }
    ensures shown { OnDamage result (IsLiveDamage id generation) }
    ensures carried { OnDamage result (IsBodyDamage (Live id generation) payload.now) }
    ensures no_fault { IsErrOf result page.Failed → ⊥ }
{
    match body_len(id, generation, payload) {
        Some(len) => Ok(len),
        None => Err(no_body(alloc, id, generation, payload)),
    }
}

/// The damage that these payloads of a file of live bits are those of no body.
fn no_body(alloc: Global, id: u64, generation: u64, payloads: &[u8]) -> PageFault
    requires { BeginsNoSet id generation payloads.now }
    ensures shown { OnFault result (IsLiveDamage id generation) }
    ensures carried { OnFault result (IsBodyDamage (Live id generation) payloads.now) }
    ensures no_fault { result ≢ page.Failed }
{
    match Vec::from_slice(alloc, payloads) {
        Ok(bytes) => PageFault::Damaged(Damage::Body {
            file: FileName::Live {
                segment: id,
                generation,
            },
            bytes: Bytes::new(bytes),
        }),
        Err(_) => PageFault::Memory,
    }
}

/// The set whose body, of this length, fills the payloads.
fn set_of(
    alloc: Global,
    id: u64,
    generation: u64,
    payloads: Vec<u8>,
    len: u32,
) -> Result<LiveBits, PageFault>
    requires few { (36 ≤ len) × (len ≤ 2097188) }
    requires long { vec_len payloads ≡ 4064 * pages_for_body len }
    requires said { (s : LiveSet) (body x y : List ℕ) → IsLiveBody id generation s body
        → payloads.items ++ x ≡ body ++ y
        → length body ≡ len }
    ensures set { IfOk result (IsSetOf id generation payloads.items) }
    ensures long { OnOk result (length payloads.items ≡ 4064 * pages_for_body len) }
    ensures shown { OnDamage result (IsLiveDamage id generation) }
    ensures carried { OnDamage result (IsBodyDamage (Live id generation) payloads.items) }
    ensures no_fault { IsErrOf result page.Failed → ⊥ }
{
    let (body, rest) = payloads.as_slice().split_at(len as usize);
    if !is_blank(rest) {
        return Err(no_body(alloc, id, generation, payloads.as_slice()));
    }
    match LiveBits::read(
        alloc,
        id,
        generation,
        Bytes::new(Vec::from_slice(alloc, body)?),
    ) {
        Ok(live) => Ok(live),
        Err(BitsFault::NotBits { b: _ }) => Err(no_body(
            alloc,
            id,
            generation,
            payloads.as_slice(),
        )),
        Err(BitsFault::Memory) => Err(PageFault::Memory),
    }
}
