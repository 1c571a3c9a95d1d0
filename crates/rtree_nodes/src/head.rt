//! A node's level and its mask.
ghost use Rattle.std.specs.Prelude.{◌≡◌, MatchResult};
ghost use Rattle.page_face.specs.declared.fault.Rule.TheVariants.{Kind, Fill};
ghost use Rattle.rtree_nodes.specs.Pages.{level_in, mask_of as mask_in};
ghost use Rattle.rtree_nodes.specs.Breaks.{Keeps, BreaksHeader};

use crate::Header;
use crate::layout::{NODE_KIND, level_of, mask_of};
use page_face::{Page, Rule};

/// Returns the level and the mask of a page whose byte 0 is a node's kind, and looks at no slot.
///
/// Refuses `Kind` exactly if byte 0 isn't 3, and otherwise `Fill` exactly if no slot is used.
pub fn header(page: &Page) -> Result<Header, Rule>
    ensures { MatchResult result (λ head. (head.level ≡ level_in page.now) × (head.used ≡ mask_in page.now) × Keeps Kind page.now × Keeps Fill page.now) (λ rule. BreaksHeader rule page.now) }
{
    if page[0] != NODE_KIND {
        return Err(Rule::Kind);
    }
    let used = mask_of(page);
    if used == 0 {
        return Err(Rule::Fill);
    }
    Ok(Header {
        level: level_of(page),
        used,
    })
}
