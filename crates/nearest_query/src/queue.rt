//! The nodes that wait, of which one stands in front.

ghost use Rattle.std.specs.Prelude.{◌≡◌, ◌∷◌, [], OnOk, OnErr, IfOk, IfSome, IfNone, IsTrue};
ghost use Rattle.std.specs.List.Sorted.{IsPermutation};
ghost use Rattle.std.specs.BinaryHeap.{heap_items, IsHeap};
ghost use Rattle.nearest_query.specs.Fronts.{wait_cmp, IsNearestWaiting};

use crate::frontier::Waiting;
use std::alloc::{AllocError, Global};
use std::collections::BinaryHeap;
use std::marker::Model;

/// Nodes that wait. One that none is nearer than may stand in front of the others: a node's nearer child mostly does,
/// and it is taken out again with no work.
#[derive(Drop)]
pub struct Queue {
    front: Option<Waiting>,
    others: BinaryHeap<Waiting>,
}

impl Model for Queue {
    ghost use Rattle.std.specs.Prelude.{◌≡◌, ◌++◌, List, Some, option_to_list};
    ghost use Rattle.std.specs.BinaryHeap.{heap_items, IsHeap};
    ghost use Rattle.nearest_query.specs.declared.frontier.Waiting.{Waiting};
    ghost use Rattle.nearest_query.specs.Fronts.{wait_cmp, IsNearestWaiting};

    ghost Value = { List Waiting };

    ghost view = { λ q. option_to_list q.front ++ heap_items q.others };

    ghost invariant = { λ q. IsHeap wait_cmp (heap_items q.others)
        × ((t : Waiting) → q.front ≡ Some t → IsNearestWaiting t (heap_items q.others)) };
}

impl Queue {
    /// A queue in which none waits.
    pub fn new(alloc: Global) -> Queue
        ensures { result ≡ [] }
    {
        Queue {
            front: None,
            others: BinaryHeap::new(alloc),
        }
    }

    /// Adds one that waits. For want of memory the queue stays as it was.
    pub fn push(&mut self, waiting: Waiting) -> Result<(), AllocError>
        ensures put { OnOk result (IsPermutation (waiting ∷ self.old) self.new) }
        ensures same { OnErr result (self.new ≡ self.old) }
    {
        if let Some(front) = self.front {
            self.front = Some(push_farther(&mut self.others, front, waiting)?);
            return Ok(());
        }
        if is_least(&waiting, &self.others) {
            self.front = Some(waiting);
            return Ok(());
        }
        self.others.push(waiting)?;
        Ok(())
    }

    /// Takes out one that none is nearer than.
    pub fn pop(&mut self) -> Option<Waiting>
        ensures some { IfSome result (λ t. IsPermutation self.old (t ∷ self.new)) }
        ensures least { IfSome result (λ t. IsNearestWaiting t self.new) }
        ensures none { IfNone result (self.old ≡ []) }
    {
        if let Some(front) = self.front.take() {
            return Some(front);
        }
        self.others.pop()
    }
}

/// Puts the farther one of the two among the others, and answers with the nearer one.
fn push_farther(
    others: &mut BinaryHeap<Waiting>,
    front: Waiting,
    waiting: Waiting,
) -> Result<Waiting, AllocError>
    requires heap { IsHeap wait_cmp (heap_items others.old) }
    requires least { IsNearestWaiting front (heap_items others.old) }
    ensures heap { IsHeap wait_cmp (heap_items others.new) }
    ensures least { IfOk result (λ t. IsNearestWaiting t (heap_items others.new)) }
    ensures put { IfOk result
        (λ t. IsPermutation (waiting ∷ (front ∷ heap_items others.old)) (t ∷ heap_items others.new)) }
    ensures same { OnErr result (heap_items others.new ≡ heap_items others.old) }
{
    if waiting.dist2.0 < front.dist2.0 {
        others.push(front)?;
        return Ok(waiting);
    }
    others.push(waiting)?;
    Ok(front)
}

/// Whether none of the others is nearer.
fn is_least(waiting: &Waiting, others: &BinaryHeap<Waiting>) -> bool
    requires { IsHeap wait_cmp (heap_items others.now) }
    ensures { IsTrue result → IsNearestWaiting waiting.now (heap_items others.now) }
{
    match others.peek() {
        Some(top) => waiting.dist2.0 <= top.dist2.0,
        None => true,
    }
}
