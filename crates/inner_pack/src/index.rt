//! An index: the bytes of its tree, and what has to be known beside them.

ghost use Rattle.std.specs.Prelude.{◌≡◌, ◌≤◌, ℕ, IfOk, IfErr, IfSome, IsSome, IsSomeAnd, List, map};
ghost use Rattle.point_codec.specs.Points.{Region};
ghost use Rattle.point_codec.specs.Seen.{region_of};
ghost use Rattle.point_codec.specs.Keys.{key};
ghost use Rattle.inner_pack.specs.Places.{front};
ghost use Rattle.inner_pack.specs.Trees.{IndexTree, IsShaped};
ghost use Rattle.inner_pack.specs.Bodies.{SpellsIndex, IsIndex, HasTree, pages_of};
ghost use Rattle.inner_pack.specs.Spelled.{spelled_part, told_part, tree_bytes, IsTreeOf, IsTreeIn};
ghost use Rattle.inner_pack.specs.Heads.{JoinsRoot};

use crate::check::check_node;
use crate::fields::{cell_of, coordinates, is_cell};
use crate::head::NodeBytes;
use crate::node::NodeAt;
use crate::place::Mark;
use byte_cursor::{Bytes, Memory, cut};
use point_codec::{Cell, Point, sortable};
use std::alloc::Global;
use std::marker::Model;

/// The bytes are no index of that form and that number of leaves. They are handed back.
#[derive(Debug, Drop)]
pub struct NotIndex {
    pub b: Bytes,
}

/// The index of a segment. Contracts see its form, its number of leaves and its bytes; these have one root cell and one
/// tree.
#[derive(Debug, Drop)]
pub struct Index<const D: usize> {
    form: u8,
    leaves: u32,
    pages: u32,
    root: Cell<D>,
    bytes: Vec<u8>,
    ghost valid: { ∥ IsIndex D form leaves bytes.items (region_of root) pages ∥₁ },
}

impl<const D: usize> Model for Index<D> {
    ghost use Rattle.inner_pack.specs.Bodies.{Body};

    ghost Value = { Body };

    ghost view = { λ i. record { form = i.form; leaves = i.leaves; bytes = i.bytes.items } };
}

impl<const D: usize> Index<D> {
    ghost use Rattle.inner_pack.specs.Bodies.{SpellsIndex, IsSpelled, HasTree, pages_of};
    ghost use Rattle.inner_pack.specs.Trees.{IndexTree};
    ghost use Rattle.inner_pack.specs.Nodes.{IsAt};
    ghost use Rattle.inner_pack.specs.Places.{front};

    /// The index of that form and number of leaves that the bytes spell. They are handed back exactly where they
    /// spell none. No memory is taken.
    pub fn read(form: u8, leaves: u32, b: Bytes) -> Result<Index<D>, NotIndex>
        requires { (1 ≤ D) × (D ≤ 8) }
        ensures ok { IfOk result (λ i. i ≡ record { form = form; leaves = leaves; bytes = b }) }
        ensures spelled { IfOk result (λ i. IsSpelled D i) }
        ensures err { IfErr result
            (λ e. (e.b ≡ b) × ((root : Region) (t : IndexTree) → SpellsIndex D form leaves b root t → ⊥)) }
    {
        let b = match checked::<D>(form, leaves, b.as_slice()) {
            Some((root, pages)) => return Ok(Index::of_parts(
                form,
                leaves,
                pages,
                root,
                b.into_vec(),
            )),
            None => b,
        };
        Err(NotIndex { b })
    }

    /// The index of these parts.
    pub(crate) fn of_parts(
        form: u8,
        leaves: u32,
        pages: u32,
        root: Cell<D>,
        bytes: Vec<u8>,
    ) -> Index<D>
        requires { IsIndex D form leaves bytes.items (region_of root) pages }
        ensures { result ≡ record { form = form; leaves = leaves; bytes = bytes.items } }
    {
        Index {
            form,
            leaves,
            pages,
            root,
            bytes,
        }
    }

    /// The bytes of the body.
    pub fn body(&self) -> &[u8]
        ensures { result.now ≡ self.now.bytes }
    {
        self.bytes.as_slice()
    }

    /// The form, 1 to 3.
    pub fn form(&self) -> u8
        ensures { result ≡ self.now.form }
    {
        self.form
    }

    /// How many leaves the index has a place for.
    pub fn leaves(&self) -> u32
        ensures { result ≡ self.now.leaves }
    {
        self.leaves
    }

    /// How many leaf pages the leaves take.
    pub fn leaf_pages(&self) -> u32
        ensures { (root : Region) (t : IndexTree) → HasTree D self.now root t → result ≡ pages_of t }
    {
        self.pages
    }

    /// An index spells a tree: said for proofs, nothing is done.
    pub fn is_spelled(&self)
        ensures { ∥ IsSpelled D self.now ∥₁ }
    {
        let _form = self.form;
    }

    /// The root of the tree, from which a walk begins.
    pub fn walk(&self) -> NodeAt<'_, D>
        ensures { (root : Region) (t : IndexTree) → HasTree D self.now root t → IsAt result 0 front root t }
    {
        let (_, rest) = self.bytes.as_slice().split_at(8 * D);
        let Some(part) = root_part(self.form, self.leaves, rest) else {
            unreachable!()
        };
        let front = Mark { page: 0, offset: 0 };
        NodeAt::new(
            self.form,
            self.leaves,
            0,
            front,
            &self.root,
            &keys_of(self.root.lo()),
            part,
        )
    }

    /// The same index once more.
    pub fn copy(&self, alloc: Global) -> Result<Index<D>, Memory>
        ensures { IfOk result (λ i. i ≡ self.now) }
    {
        let bytes = self.bytes.as_slice().to_vec(alloc)?;
        Ok(Index {
            form: self.form,
            leaves: self.leaves,
            pages: self.pages,
            root: self.root,
            bytes,
        })
    }
}

/// The root cell of the index that the bytes spell, and how many leaf pages it takes.
fn checked<const D: usize>(form: u8, leaves: u32, b: &[u8]) -> Option<(Cell<D>, u32)>
    requires { (1 ≤ D) × (D ≤ 8) }
    ensures found { IfSome result (λ x. IsIndex D form leaves b.now (region_of x.0) x.1) }
    ensures only { (root : Region) (t : IndexTree) → SpellsIndex D form leaves b.now root t → IsSome result }
{
    if form < 1 {
        return None;
    }
    if form > 3 {
        return None;
    }
    if leaves < 1 {
        return None;
    }
    if leaves > 8_388_608 {
        return None;
    }
    let (front, rest) = cut(b, 8 * D)?;
    let root = cell_of::<D>(front)?;
    is_cell(&root);
    let pages = checked_tree(form, leaves, &root, rest)?;
    Some((root, pages))
}

/// How many leaf pages the tree over the root cell takes that the bytes spell.
fn checked_tree<const D: usize>(form: u8, leaves: u32, root: &Cell<D>, b: &[u8]) -> Option<u32>
    requires form { (1 ≤ form) × (form ≤ 3) }
    requires leaves { (1 ≤ leaves) × (leaves ≤ 8388608) }
    ensures found { IfSome result (IsTreeOf D form leaves (region_of root.now) b.now) }
    ensures only { (t : IndexTree) → IsTreeIn D form leaves (region_of root.now) b.now t → IsSome result }
{
    is_cell(root);
    let part = root_part(form, leaves, b)?;
    let front = Mark { page: 0, offset: 0 };
    let span = check_node(form, leaves, root, &keys_of(root.lo()), part, front)?;
    Some(span.end.page + 1)
}

/// The part of the root in what follows the root cell.
fn root_part(form: u8, leaves: u32, b: &[u8]) -> Option<NodeBytes<'_>>
    requires form { 1 ≤ form }
    requires leaves { (1 ≤ leaves) × (leaves ≤ 8388608) }
    ensures found { IfSome result (λ part. JoinsRoot form b.now part.bytes.now part.places.now) }
    ensures only { (references : List (List ℕ)) (t : IndexTree) → IsShaped leaves t
        → b.now ≡ tree_bytes form references t
        → IsSomeAnd result
        (λ part. (part.bytes.now ≡ spelled_part form references front t) × (part.places.now ≡ told_part form front t)) }
{
    if form == 1 {
        let (bytes, places) = cut(b, 5 * (leaves as usize - 1))?;
        return Some(NodeBytes { bytes, places });
    }
    let (places, bytes) = b.split_at(0);
    Some(NodeBytes { bytes, places })
}

/// The keys of the coordinates.
pub(crate) fn keys_of<const D: usize>(p: &Point<D>) -> [[u8; 4]; D]
    ensures { result ≡ map key p.now.c }
{
    let c = coordinates(p);
    let mut keys = [[0; 4]; D];
    for d in 0..D {
        keys[d] = sortable(c[d]);
    }
    keys
}
