//! The walk of the free list.
ghost use Rattle.std.specs.Prelude.{◌≡◌, OnOk, IsErrOf};
ghost use Rattle.page_face.specs.Calls.{FailsReading, Reads};
ghost use Rattle.btree_nodes.specs.Damages.{AreReadable};
ghost use Rattle.page_walks.specs.Met.{held, Meets, any_page};
ghost use Rattle.page_walks.specs.Chains.{IsBrokenChain, IsMetChain};

use crate::enter;
use btree_nodes::damaged;
use page_face::{Damage, PageFault, Pages, free_next};
use std::collections::BTreeSet;

/// Walks the free list from its first page, and meets each of its pages.
///
/// Returns `Damaged` at the first page on the way that is broken: with `Link` or `Shared` as [`enter`] does, so that a ring is `Shared`,
/// and with `Kind` or `Spare` if the page hasn't a free page's form. Returns `Disk`, `Stopped` or `Memory` otherwise. Pages of the list may
/// then have been met.
///
/// Looks once at each page on the way, and takes memory for its number. Ends on any bytes, since each page on the way is new.
pub fn walk_free<P: Pages>(pages: &mut P, met: &mut BTreeSet<u32>) -> Result<(), PageFault>
    ensures chain { AreReadable (P.pages pages.old) (P.count pages.old)
        → OnOk result (IsMetChain (P.pages pages.old) (P.count pages.old) (held met.old) (held met.new) (P.first pages.old)) }
    ensures damaged { AreReadable (P.pages pages.old) (P.count pages.old)
        → (damage : Damage) → IsErrOf result (PageFault.Damaged damage)
        → IsBrokenChain (P.pages pages.old) (P.count pages.old) (held met.old) (P.first pages.old) damage }
    ensures meets { Meets any_page (P.asked pages.old) (P.asked pages.new) (held met.old) (held met.new) }
    ensures fails { FailsReading P.Pages pages.old pages.new result }
    ensures frame { Reads P.Pages pages.old pages.new }
{
    let mut next = pages.first_free();
    'chain: while next != 0 {
        match enter(pages, next, met) {
            Ok(()) => {}
            Err(fault) => return Err(fault),
        }
        match free_next(pages.looked()) {
            Ok(page) => next = page,
            Err(rule) => return Err(damaged(next, rule)),
        }
    }
    Ok(())
}
