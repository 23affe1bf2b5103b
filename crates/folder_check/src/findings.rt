//! What was found in the leaves of the segments, looked through once all leaves are read.

ghost use Rattle.std.specs.Prelude.{◌≡◌, ◌≤◌, ◌<◌, ◌^◌, ◌-◌, length, min, All, IsErrOf, OnOk, IfNone, IfSome};
ghost use Rattle.std.specs.List.{AllZip};
ghost use Rattle.page_cache.specs.declared.faults.Damage.TheVariants as damage;
ghost use Rattle.page_cache.specs.declared.faults.PageFault.TheVariants as page;
ghost use Rattle.page_cache.specs.Evidence.{OnDamage};
ghost use Rattle.folder_check.specs.Found.{AreFine, HasAll, IsWrong, IsLacking, IsCrowding, IsLeastOf, IsMoreThanGiven};
ghost use Rattle.folder_check.specs.Found.{all_entries, lesser};

use commit_list::Listed;
use outer_io::FileName;
use page_cache::{Damage, PageFault};

/// What the leaves of a segment have.
#[derive(Clone, Copy, PartialEq, Eq, Debug)]
pub(crate) struct Finding {
    /// How many of its live numbers have an entry. The rest says something only where all have one.
    pub(crate) found: u32,
    /// The least live number that has one point twice, or more than 16 entries.
    pub(crate) crowded: Option<u32>,
    /// How many entries have a live number.
    pub(crate) entries: u64,
}

/// Whether what was found in the listed segments is that of an index with so many points given. Looked for are, in
/// this order: a live number without an entry, a crowded number, and more live entries than points.
pub(crate) fn judge(
    listed: &[Listed],
    points_given: u32,
    findings: &[Finding],
) -> Result<(), PageFault>
    requires { length findings.now ≡ length listed.now }
    ensures on_ok { OnOk result (AreFine listed.now points_given findings.now) }
    ensures wrong { OnDamage result (IsWrong listed.now points_given findings.now) }
    ensures no_fault { IsErrOf result page.Failed → ⊥ }
{
    check_found(listed, findings)?;
    check_crowded(findings)?;
    check_given(points_given, findings)
}

/// Whether each live number of each segment has an entry. Of the first segment in which one has none the file of live
/// bits is named.
fn check_found(listed: &[Listed], findings: &[Finding]) -> Result<(), PageFault>
    requires { length findings.now ≡ length listed.now }
    ensures all { OnOk result (AllZip HasAll listed.now findings.now) }
    ensures lacking { OnDamage result (IsLacking listed.now findings.now) }
    ensures no_fault { IsErrOf result page.Failed → ⊥ }
{
    for i in 0..listed.len() {
        let s = listed[i];
        let found = findings[i].found;
        if s.live != found {
            let file = FileName::Live {
                segment: s.segment,
                generation: s.generation,
            };
            return Err(unequal(file, u64::from(s.live), u64::from(found)));
        }
    }
    Ok(())
}

/// The damage that a number that is said is another than the one found.
fn unequal(file: FileName, said: u64, found: u64) -> PageFault
    ensures { result ≡ page.Damaged (damage.Unequal file said found) }
{
    PageFault::Damaged(Damage::Unequal { file, said, found })
}

/// Whether no live number has one point twice or more than 16 entries. The least one that has is told.
fn check_crowded(findings: &[Finding]) -> Result<(), PageFault>
    ensures none { OnOk result (All (λ f. f.crowded ≡ None) findings.now) }
    ensures crowding { OnDamage result (IsCrowding findings.now) }
    ensures no_fault { IsErrOf result page.Failed → ⊥ }
{
    match least_crowded(findings) {
        None => Ok(()),
        Some(doc) => Err(PageFault::Damaged(Damage::Doubled { doc })),
    }
}

/// The least of the crowded numbers.
fn least_crowded(findings: &[Finding]) -> Option<u32>
    ensures none { IfNone result (All (λ f. f.crowded ≡ None) findings.now) }
    ensures some { IfSome result (IsLeastOf findings.now) }
{
    let mut least = None;
    for finding in findings {
        least = lesser(least, finding.crowded);
    }
    least
}

/// The lesser of two numbers, where there are two.
fn lesser(a: Option<u32>, b: Option<u32>) -> Option<u32>
    ensures { result ≡ lesser a b }
{
    match (a, b) {
        (Some(x), Some(y)) => Some(x.min(y)),
        (None, other) | (other, None) => other,
    }
}

/// Whether the live entries of all segments are no more than the points given. Where they are, the Commit file is
/// named.
fn check_given(points_given: u32, findings: &[Finding]) -> Result<(), PageFault>
    ensures few { OnOk result (all_entries findings.now ≤ points_given) }
    ensures more { OnDamage result (IsMoreThanGiven points_given findings.now) }
    ensures no_fault { IsErrOf result page.Failed → ⊥ }
{
    let entries = live_entries(findings);
    let points_given = u64::from(points_given);
    if entries <= points_given {
        return Ok(());
    }
    Err(unequal(FileName::Commit, points_given, entries))
}

/// How many live entries the segments have together, as far as 64 bits hold it.
fn live_entries(findings: &[Finding]) -> u64
    ensures { result ≡ min (all_entries findings.now) (2 ^ 64 - 1) }
{
    let mut entries: u64 = 0;
    for finding in findings {
        entries = entries.saturating_add(finding.entries);
    }
    entries
}
