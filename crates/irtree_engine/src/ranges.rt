//! Whether a change leaves page 0's fields in their ranges.
ghost use Rattle.std.specs.Prelude.{◌≡◌, ◌≢◌, ◌<◌, ◌≤◌, OnOk, OnErr, IfErr};
ghost use Rattle.page_store.specs.Superblock.{IsInRange};
ghost use Rattle.irtree_engine.specs.Changes.{block_with};

use crate::fault::broken_by_head;
use page_face::{Damage, Head, Pages, Rule};
use page_store::Superblock;

/// Returns what is damaged if page 0 is to have these fields, and not all of them are in their ranges.
///
/// It is Link at the tree's root if that isn't counted. A tree whose root gives way has such a root if a damaged page names it as the only
/// child. Else it is Counts at page 0. Makes no call of the disk.
pub(crate) fn check_head<P: Pages>(pages: &P, head: &Head) -> Result<(), Damage>
    ensures in_range { OnOk result (IsInRange (block_with (P.count pages.now) (P.first pages.now) head.now)) }
    ensures refuses { OnErr result (¬ IsInRange (block_with (P.count pages.now) (P.first pages.now) head.now)) }
    ensures link { IfErr result (λ damage. P.count pages.now ≤ head.now.tree → damage ≡ record { page = head.now.tree; rule = Rule.Link }) }
    ensures counts { IfErr result (λ damage. head.now.tree < P.count pages.now → damage ≡ record { page = 0; rule = Rule.Counts }) }
    ensures no_head { IfErr result (λ damage. damage.rule ≢ Rule.Head) }
{
    let block = Superblock {
        counted: pages.counted(),
        first_free: pages.first_free(),
        head: *head,
    };
    if block.is_in_range() {
        return Ok(());
    }
    if head.tree >= block.counted {
        return Err(Damage {
            page: head.tree,
            rule: Rule::Link,
        });
    }
    Err(broken_by_head(Rule::Counts))
}
