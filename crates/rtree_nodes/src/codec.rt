//! Nodes as pages, and back.
ghost use Rattle.std.specs.Prelude.{◌≡◌, ◌<◌, ◌^◌, ◌==◌, ◌&&◌, ◌↔◌, true, false, not, IsTrue, IsErr, IfOk, IfErr, if◌then◌else◌, Some, Option};
ghost use Rattle.std.specs.Int.{bit_at};
ghost use Rattle.spatial_base.specs.Key.{Auto, form_of};
ghost use Rattle.rtree_nodes.specs.Trees.{with_slot};
ghost use Rattle.rtree_nodes.specs.Kinds.{is_leaf};
ghost use Rattle.rtree_nodes.specs.Reach.{item_of, place_item, child_item, origin as zero_point, origin_rect as zero_rect};
ghost use Rattle.rtree_nodes.specs.Pages.{mask_of as mask_in, level_in, is_used, item_at, cell_at, is_form, node_of, slots_in, has_values};
ghost use Rattle.rtree_nodes.specs.Cells.{has_form};
ghost use Rattle.rtree_nodes.specs.Breaks.{BreaksFirst};
ghost use Rattle.rtree_nodes.specs.Nodes.{view_of, slot_of, IsPlain, IsLeafSlot, IsInnerSlot, HoldsAll};

use crate::layout::{is_set, level_of};
use crate::reach::{origin, origin_rect};
use crate::spare::has_clear_spares;
use crate::{Header, Node, SLOTS, Slot, Slots, header, new_node, put_slot, slot_at};
use page_face::{Page, Rule};
use spatial_base::{Key, Point, Rect};

impl Slots {
    /// What the arrays hold at a slot, whether it is used or not.
    pub fn slot(&self, at: usize) -> Slot
        requires { at < 32 }
        ensures { result ≡ slot_of self.now at }
    {
        match self {
            Slots::Leaf { points, keys } => Slot::Place {
                point: points[at],
                key: keys[at],
            },
            Slots::Inner { rects, children } => Slot::Child {
                rect: rects[at],
                page: children[at],
            },
        }
    }
}

// Puts what the arrays hold at a slot into the page, if the node uses it.
fn put_used(page: &mut Page, node: &Node, at: usize)
    requires { at < 32 }
    ensures form { is_form page.old ≡ true → level_in page.old ≡ node.now.level → is_form page.new ≡ true }
    ensures slots { is_form page.old ≡ true → level_in page.old ≡ node.now.level
        → slots_in page.new ≡ (if bit_at node.now.used at == 1 then with_slot at (item_of (slot_of node.now.slots at)) (slots_in page.old) else slots_in page.old) }
    ensures level { level_in page.new ≡ level_in page.old }
    ensures fits { mask_in page.old < 2 ^ 32 → mask_in page.new < 2 ^ 32 }
{
    if is_set(node.used, at) {
        put_slot(page, at, &node.slots.slot(at));
    }
}

// A place of a leaf.
#[derive(Clone, Copy)]
struct LeafSlot {
    point: Point,
    key: Key,
}

// A child of an inner node.
#[derive(Clone, Copy)]
struct InnerSlot {
    rect: Rect,
    child: u32,
}

// A slot's place, or the content of an unused one.
fn leaf_slot(slot: &Option<Slot>) -> LeafSlot
    ensures { IsLeafSlot slot.now result.point result.key }
{
    match slot {
        Some(Slot::Place { point, key }) => LeafSlot {
            point: *point,
            key: *key,
        },
        _ => LeafSlot {
            point: origin(),
            key: Key::auto(0),
        },
    }
}

// The place in a slot of a leaf, or the content of an unused one if the slot isn't used.
fn place_or_origin(page: &Page, at: usize) -> Result<LeafSlot, Rule>
    requires { at < 32 }
    ensures value { IsErr result ↔ IsTrue (is_used page.now at && not (has_form (level_in page.now) (cell_at page.now at))) }
    ensures rule { IfErr result (λ rule. rule ≡ Rule.Value) }
    ensures used { level_in page.now ≡ 0 → is_used page.now at ≡ true → IfOk result (λ place. place_item place.point (form_of place.key) ≡ item_at page.now at) }
    ensures unused { is_used page.now at ≡ false → IfOk result (λ place. (place.point ≡ zero_point) × (place.key ≡ Auto 0)) }
{
    let slot = slot_at(page, at)?;
    Ok(leaf_slot(&slot))
}

// A slot's child, or the content of an unused one.
fn inner_slot(slot: &Option<Slot>) -> InnerSlot
    ensures { IsInnerSlot slot.now result.rect result.child }
{
    match slot {
        Some(Slot::Child { rect, page }) => InnerSlot {
            rect: *rect,
            child: *page,
        },
        _ => InnerSlot {
            rect: origin_rect(),
            child: 0,
        },
    }
}

// The child in a slot of an inner node, or the content of an unused one if the slot isn't used.
fn child_or_origin(page: &Page, at: usize) -> Result<InnerSlot, Rule>
    requires { at < 32 }
    ensures value { IsErr result ↔ IsTrue (is_used page.now at && not (has_form (level_in page.now) (cell_at page.now at))) }
    ensures rule { IfErr result (λ rule. rule ≡ Rule.Value) }
    ensures used { 0 < level_in page.now → is_used page.now at ≡ true → IfOk result (λ child. child_item child.rect child.child ≡ item_at page.now at) }
    ensures unused { is_used page.now at ≡ false → IfOk result (λ child. (child.rect ≡ zero_rect) × (child.child ≡ 0)) }
{
    let slot = slot_at(page, at)?;
    Ok(inner_slot(&slot))
}

// The places of a leaf.
fn leaf_slots(page: &Page) -> Result<Slots, Rule>
    requires { level_in page.now ≡ 0 }
    ensures value { IsErr result ↔ (has_values page.now ≡ false) }
    ensures rule { IfErr result (λ rule. rule ≡ Rule.Value) }
    ensures kind { IfOk result (λ slots. is_leaf slots ≡ true) }
    ensures slots { IfOk result (λ slots. HoldsAll page.now slots) }
{
    let mut points = [origin(); 32];
    let mut keys = [Key::auto(0); 32];
    for i in 0..SLOTS {
        let place = place_or_origin(page, i)?;
        points[i] = place.point;
        keys[i] = place.key;
    }
    Ok(Slots::Leaf { points, keys })
}

// The children of an inner node.
fn inner_slots(page: &Page) -> Result<Slots, Rule>
    requires { 0 < level_in page.now }
    ensures value { IsErr result ↔ (has_values page.now ≡ false) }
    ensures rule { IfErr result (λ rule. rule ≡ Rule.Value) }
    ensures kind { IfOk result (λ slots. is_leaf slots ≡ false) }
    ensures slots { IfOk result (λ slots. HoldsAll page.now slots) }
{
    let mut rects = [origin_rect(); 32];
    let mut children = [0; 32];
    for i in 0..SLOTS {
        let child = child_or_origin(page, i)?;
        rects[i] = child.rect;
        children[i] = child.child;
    }
    Ok(Slots::Inner { rects, children })
}

// The slots of a node of this level.
fn slots_at(page: &Page, level: u8) -> Result<Slots, Rule>
    requires { level ≡ level_in page.now }
    ensures value { IsErr result ↔ (has_values page.now ≡ false) }
    ensures rule { IfErr result (λ rule. rule ≡ Rule.Value) }
    ensures kind { IfOk result (λ slots. is_leaf slots ≡ (level == 0)) }
    ensures slots { IfOk result (λ slots. HoldsAll page.now slots) }
{
    if level == 0 {
        leaf_slots(page)
    } else {
        inner_slots(page)
    }
}

impl Node {
    /// Returns the node's page. Unused slots are written as zeros.
    pub fn encode(&self) -> Page
        ensures form { is_form result ≡ true }
        ensures node { node_of result ≡ view_of self.now }
        ensures used { mask_in result ≡ self.now.used }
    {
        let mut page = new_node(self.level);
        for i in 0..SLOTS {
            put_used(&mut page, self, i);
        }
        page
    }

    /// Returns the node in a page. An unused slot holds the point 0 0 and the automatic key 0, or the rectangle of 0 0 and child 0.
    ///
    /// Refuses the first of these rules that the page breaks: `Kind` (byte 0 is 3), `Fill` (a slot is used), `Spare` (spare bytes are 0),
    /// `Value` (used slots are well-formed).
    pub fn decode(page: &Page) -> Result<Node, Rule>
        ensures form { IfOk result (λ node. is_form page.now ≡ true) }
        ensures node { IfOk result (λ node. view_of node ≡ node_of page.now) }
        ensures used { IfOk result (λ node. node.used ≡ mask_in page.now) }
        ensures plain { IfOk result IsPlain }
        ensures breaks { IfErr result (λ rule. BreaksFirst rule page.now) }
    {
        let Header { level, used } = header(page)?;
        if !has_clear_spares(page) {
            return Err(Rule::Spare);
        }
        let slots = slots_at(page, level)?;
        Ok(Node { level, used, slots })
    }
}

/// A law: two pages that hold the same node are the same bytes. So the encoded page of a decoded node is the page that it
/// was decoded from. Does nothing when it runs.
pub fn same_page(first: &Page, second: &Page)
    ensures { is_form first.now ≡ true → is_form second.now ≡ true → node_of first.now ≡ node_of second.now → first.now ≡ second.now }
{
    let _levels = (level_of(first), level_of(second));
}
