//! The digest of a page.

ghost use Rattle.std.specs.Prelude.{◌≡◌, length};
ghost use Rattle.page_file.specs.Page.{page_digest};

use sha2::{Digest, Sha256};

/// The digest that stands in a page's last 32 bytes.
#[tactic(auto, unfolding(crate::specs::Page::page_digest))]
pub(crate) fn digest_of(kind: u8, file: u64, number: u32, payload: &[u8]) -> [u8; 32]
    ensures value { result ≡ page_digest kind file number payload.now }
    ensures len { length result ≡ 32 }
{
    let mut hasher = Sha256::new();
    hasher.update([kind]);
    hasher.update(file.to_be_bytes());
    hasher.update(number.to_be_bytes());
    hasher.update(payload);
    hasher.finalize()
}
