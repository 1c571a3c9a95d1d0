//! The parting of a node in two.
ghost use Rattle.std.specs.Prelude.{◌≡◌, ◌<◌, true, if◌then◌else◌};
ghost use Rattle.rtree_nodes.specs.Slots.{without_slot};
ghost use Rattle.rtree_nodes.specs.Masks.{kept_of, moved_of};
ghost use Rattle.rtree_nodes.specs.Pages.{level_in, is_form, slots_in};

use crate::layout::is_set;
use crate::{SLOTS, clear_slot};
use page_face::Page;

// Clears a slot of one of two pages.
fn clear_one(moves: bool, page: &mut Page, other: &mut Page, at: usize)
    requires { at < 32 }
    ensures form { is_form page.old ≡ true → is_form page.new ≡ true }
    ensures other_form { is_form other.old ≡ true → is_form other.new ≡ true }
    ensures level { level_in page.new ≡ level_in page.old }
    ensures other_level { level_in other.new ≡ level_in other.old }
    ensures slots { is_form page.old ≡ true → slots_in page.new ≡ (if moves then without_slot at (slots_in page.old) else slots_in page.old) }
    ensures other_slots { is_form other.old ≡ true → slots_in other.new ≡ (if moves then slots_in other.old else without_slot at (slots_in other.old)) }
{
    if moves {
        clear_slot(page, at);
    } else {
        clear_slot(other, at);
    }
}

/// Moves the items of the slots that a mask names out of a node into a new node of the same level, and returns the new node's page. Each
/// item keeps the number of its slot. Slots that the mask doesn't name stay.
pub fn split_off(page: &mut Page, mask: u32) -> Page
    ensures form { is_form page.old ≡ true → is_form page.new ≡ true }
    ensures its_form { is_form page.old ≡ true → is_form result ≡ true }
    ensures kept { is_form page.old ≡ true → slots_in page.new ≡ kept_of mask (slots_in page.old) }
    ensures moved { is_form page.old ≡ true → slots_in result ≡ moved_of mask (slots_in page.old) }
    ensures level { level_in page.new ≡ level_in page.old }
    ensures its_level { level_in result ≡ level_in page.old }
{
    let mut other = *page;
    for i in 0..SLOTS {
        clear_one(is_set(mask, i), page, &mut other, i);
    }
    other
}
