//! The nodes that wait.
ghost use Rattle.std.specs.Prelude.{◌≡◌, [], ◌∷◌, OnOk, IfSome, IfNone, IsPermutation};
ghost use Rattle.std.proofs.Props.{props};
ghost use Rattle.std.specs.BinaryHeap.{heap_items, IsHeap};
ghost use Rattle.best_first.specs.Queue.{item_of, waiting, IsNext};

use std::alloc::{AllocError, Global};
use std::cmp::Reverse;
use std::collections::BinaryHeap;

/// A node that waits. Of equal bounds the lower level goes first, so that places are found sooner.
#[derive(Clone, Copy, PartialEq, Eq, PartialOrd, Ord)]
pub struct Waiting {
    /// No place below it costs less.
    pub bound: u64,
    /// Its level.
    pub level: u8,
    /// Its page.
    pub page: u32,
}

/// The nodes that wait, the one of least bound first.
#[derive(Drop)]
pub struct Queue {
    pub heap: BinaryHeap<Reverse<Waiting>>,
    ghost ordered: { IsHeap ⟦<Reverse<Waiting> as Ord>⟧.cmp (heap_items heap) } by { Prim.hlevel props },
}

impl Queue {
    /// Makes a queue in which no node waits.
    pub fn new(alloc: Global) -> Queue
        ensures { waiting (heap_items result.heap) ≡ [] }
    {
        Queue {
            heap: BinaryHeap::new(alloc),
        }
    }

    /// Adds a node that waits.
    #[inline(always)]
    pub fn put(&mut self, node: Waiting) -> Result<(), AllocError>
        ensures { OnOk result (IsPermutation (item_of node ∷ waiting (heap_items self.old.heap)) (waiting (heap_items self.new.heap))) }
    {
        self.heap.push(Reverse(node))?;
        Ok(())
    }

    /// Takes out the node of least bound, or returns `None` if no node waits.
    #[inline(always)]
    pub fn next(&mut self) -> Option<Waiting>
        ensures some { IfSome result (λ node. IsNext (item_of node) (waiting (heap_items self.new.heap)) (waiting (heap_items self.old.heap))) }
        ensures none { IfNone result (waiting (heap_items self.old.heap) ≡ []) }
    {
        match self.heap.pop() {
            Some(Reverse(node)) => Some(node),
            None => None,
        }
    }
}
