//! A page in its place in a tree: the child at a key.
ghost use Rattle.std.specs.Prelude.{◌≡◌, ◌+◌, ◌*◌, ◌<◌, ◌≤◌, length, IfOk, IfErr};
ghost use Rattle.page_face.specs.Number.{number};
ghost use Rattle.page_face.specs.Nodes.{count_of};
ghost use Rattle.btree_nodes.specs.Nodes.{IsInner, entries_in};
ghost use Rattle.btree_nodes.specs.Tree.{IsPlaceFor};
ghost use Rattle.btree_nodes.specs.Bounds.{upper_of};
ghost use Rattle.btree_nodes.specs.Damages.{BreaksInner};

use crate::{Form, check_inner, place};
use page_face::{Damage, Page, PageFault, Rule};

/// The place of the entry that a key belongs to, and how many entries there are.
#[derive(Clone, Copy, Debug, PartialEq, Eq)]
pub struct Found {
    /// The entry's place.
    pub at: usize,
    /// How many entries there are.
    pub count: usize,
}

/// A broken rule at a page.
pub fn damaged(page: u32, rule: Rule) -> PageFault
    ensures { result ≡ PageFault.Damaged (record { page = page; rule = rule }) }
{
    PageFault::Damaged(Damage { page, rule })
}

/// The place of the entry that a key belongs to.
///
/// Refuses the rule that the page breaks between these bounds.
#[tactic(auto, using(crate::proofs::Spots::fits_at))]
pub fn find_place(
    page: &Page,
    form: Form,
    least: usize,
    level: u8,
    low: &[u8],
    high: &[u8],
    key: &[u8],
) -> Result<Found, Rule>
    requires least { 2 ≤ least }
    requires low { length low.now ≡ form.key }
    requires high { 0 < length high.now → length high.now ≡ form.key }
    requires key { length key.now ≡ form.key }
    ensures place { IfOk result (λ found. IsPlaceFor (entries_in form page.now) (number key.now) found.at) }
    ensures within { IfOk result (λ found. (found.at < found.count) × (found.count ≡ count_of page.now) × (16 + (form.key + 4) * found.count ≤ 4096) × (2 ≤ found.count)) }
    ensures sound { IfOk result (λ found. IsInner form least level page.now) }
    ensures breaks { IfErr result (λ rule. BreaksInner rule form least level (number low.now) (upper_of form.key high.now) page.now) }
{
    let width = form.key + 4;
    let count = check_inner(page, form, least, level, low, high)?;
    let at = place(page, key, true, width, count);
    Ok(Found { at: at - 1, count })
}
