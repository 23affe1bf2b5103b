//! Checking that bytes are a tree.

ghost use Rattle.std.specs.Prelude.{◌≡◌, ◌≤◌, ◌<◌, ◌+◌, ◌-◌, length, IfSome, IsSomeAnd};
ghost use Rattle.std.specs.Prelude.{IsTrue, ◌↔◌, slice_set};
ghost use Rattle.point_codec.specs.Seen.{region_of};
ghost use Rattle.inner_pack.specs.Places.{leaf_begin};
ghost use Rattle.inner_pack.specs.Trees.{IndexTree, IsInCell};
ghost use Rattle.inner_pack.specs.Bodies.{first_length};
ghost use Rattle.inner_pack.specs.Spelled.{IsNodeOf};
ghost use Rattle.inner_pack.specs.Heads.{SpansFrom, IsSpanOf, spot_of};

use crate::fields::is_cell;
use crate::head::{Head, NodeBytes, read_head};
use crate::leaf::read_leaf;
use crate::place::Mark;
use point_codec::Cell;

/// From where a node's first leaf begins to where its last one ends.
#[derive(Clone, Copy, Debug)]
pub(crate) struct Span {
    pub begin: Mark,
    pub end: Mark,
}

/// The span of the leaves next behind the mark, where the part is a node of so many leaves. It calls itself once a
/// node, and at most 24 deep.
pub(crate) fn check_node<const D: usize>(
    form: u8,
    leaves: u32,
    path: &Cell<D>,
    references: &[[u8; 4]; D],
    part: NodeBytes,
    behind: Mark,
) -> Option<Span>
    requires dims { (1 ≤ D) × (D ≤ 8) }
    requires form { (1 ≤ form) × (form ≤ 3) }
    requires leaves { 1 ≤ leaves }
    requires room { behind.page + leaves ≤ 8388608 }
    requires offset { behind.offset ≤ 4064 }
    ensures found { IfSome result
        (SpansFrom D form leaves (spot_of behind)
        (region_of path.now) references.now part.entry.bytes.now part.entry.places.now) }
    ensures only { (t : IndexTree)
        → IsNodeOf D form leaves (leaf_begin (spot_of behind) (first_length t))
        (region_of path.now) references.now part.entry.bytes.now part.entry.places.now t
        → IsSomeAnd result (IsSpanOf (spot_of behind) t) }
    ensures page { IfSome result (λ x. x.end.page ≤ behind.page + leaves) }
    ensures end { IfSome result (λ x. x.end.offset ≤ 4064) }
{
    if leaves == 1 {
        return check_leaf(form, path, references, part, behind);
    }
    is_cell(path);
    let head = read_head(form, leaves, references, part)?;
    if !is_in_cell(path, head.dimension, head.at) {
        return None;
    }
    let (left_path, right_path) = path.split(head.dimension, head.at);
    let references = with_key(references, head.dimension, head.key);
    let left = check_node(
        form,
        leaves - leaves / 2,
        &left_path,
        &references,
        head.left,
        behind,
    )?;
    let right = check_node(
        form,
        leaves / 2,
        &right_path,
        &references,
        head.right,
        left.end,
    )?;
    if !tells(&head, left.begin, right.begin) {
        return None;
    }
    Some(Span {
        begin: left.begin,
        end: right.end,
    })
}

/// The span of the leaf next behind the mark.
fn check_leaf<const D: usize>(
    form: u8,
    path: &Cell<D>,
    references: &[[u8; 4]; D],
    part: NodeBytes,
    behind: Mark,
) -> Option<Span>
    requires form { (1 ≤ form) × (form ≤ 3) }
    requires room { behind.page < 8388608 }
    requires offset { behind.offset ≤ 4064 }
    ensures found { IfSome result
        (SpansFrom D form 1 (spot_of behind)
        (region_of path.now) references.now part.entry.bytes.now part.entry.places.now) }
    ensures only { (t : IndexTree)
        → IsNodeOf D form 1 (leaf_begin (spot_of behind) (first_length t))
        (region_of path.now) references.now part.entry.bytes.now part.entry.places.now t
        → IsSomeAnd result (IsSpanOf (spot_of behind) t) }
    ensures page { IfSome result (λ x. x.end.page ≤ behind.page + 1) }
    ensures end { IfSome result (λ x. x.end.offset ≤ 4064) }
{
    let _references = *references;
    let length = read_leaf(form, path, part, behind)?;
    let begin = behind.fit(length);
    Some(Span {
        begin,
        end: begin.behind(length),
    })
}

/// Whether the value lies in the cell in the dimension.
pub(crate) fn is_in_cell<const D: usize>(path: &Cell<D>, dimension: usize, at: i32) -> bool
    requires { dimension < D }
    ensures { IsTrue result ↔ IsInCell D (region_of path.now) dimension at }
{
    if at < path.lo.c[dimension] {
        return false;
    }
    at <= path.hi.c[dimension]
}

/// The references below a split with this key.
pub(crate) fn with_key<const D: usize>(
    references: &[[u8; 4]; D],
    dimension: usize,
    key: [u8; 4],
) -> [[u8; 4]; D]
    requires { dimension < D }
    ensures { result ≡ slice_set references.now dimension key }
{
    let mut moved = *references;
    moved[dimension] = key;
    moved
}

/// Whether the head says where the right child's first leaf begins, the node's own first leaf beginning at `begin`.
fn tells(head: &Head, begin: Mark, right: Mark) -> bool
    ensures { IsTrue result ↔ ((head.now.pages ≡ right.page - begin.page) × (head.now.offset ≡ right.offset)) }
{
    if right.page.saturating_sub(begin.page) != head.pages {
        return false;
    }
    right.offset == head.offset
}
