//! A search over a small tree: its pages are in memory, and what its nodes give is in a table.
ghost use Rattle.std.specs.Prelude.{◌≡◌, ◌≤◌, length, None, IsTrue, IfOk, IfErr};
ghost use Rattle.std.specs.List.{AllByRecursion};
ghost use Rattle.best_first.specs.Items.{IsGivenAt};
ghost use Rattle.best_first.specs.Faults.{held_with};

use crate::small_tree::write_hits;
use best_first::{Item, Ranked, first_k};
use page_face::{MemoryPages, PageFault, Pages};
use place_values::Hit;
use spatial_base::{Key, Point};
use std::alloc::Global;
use std::fmt::Write;

// What a node gives: a place's key and what it costs, or "", a child's bound and its page.
type Given = (&'static str, u64, u32);

// What the node of each page gives: a root at page 1 above leaves at pages 2, 3 and 4.
static ITEMS: [(u32, Given); 9] = [
    (1, ("", 9, 4)),
    (1, ("", 1, 2)),
    (1, ("", 5, 3)),
    (2, ("c", 7, 0)),
    (2, ("b", 5, 0)),
    (2, ("a", 1, 0)),
    (3, ("aa", 5, 0)),
    (3, ("d", 6, 0)),
    (4, ("e", 9, 0)),
];

// An opener by the table of items. It promises nothing of what it leads to.
#[derive(Drop)]
struct Table {
    root: u32,
    level: u8,
    // the pages opened so far
    opened: Vec<u32>,
    held: Option<PageFault>,
}

// The fault that is held after one more.
fn hold(fault: PageFault, held: Option<PageFault>) -> Option<PageFault>
    ensures { result ≡ held_with fault held }
{
    match fault {
        PageFault::Memory => held,
        other => Some(other),
    }
}

// Whether a node of this level may give the item.
fn is_given(level: u8, item: &Item) -> bool
    ensures { IsTrue result → IsGivenAt level item.now }
{
    match item {
        Item::Node { level: lower, .. } => level > 0 && *lower == level - 1,
        Item::Place(_) => level == 0,
    }
}

// An item of the table.
fn item_of(given: &Given) -> Option<Item> {
    let (key, cost, page) = given;
    if key.is_empty() {
        return Some(Item::Node {
            page: *page,
            level: 0,
            bound: *cost,
        });
    }
    Some(Item::Place(Hit {
        cost: *cost,
        key: Key::of_text(key).ok()?,
        dist: *cost,
        text: 0,
        point: Point::new(0, 0)?,
    }))
}

// What the node of a page gives by the table.
#[tactic(auto, using(best_first::specs::Lists::all_append))]
fn given(alloc: Global, page: u32, level: u8) -> Result<Vec<Item>, PageFault>
    ensures few { IfOk result (λ items. length items.items ≤ 32) }
    ensures children { IfOk result (λ items. AllByRecursion (IsGivenAt level) items.items) }
    ensures cause { IfErr result (λ fault. fault ≡ PageFault.Memory) }
{
    let mut items = Vec::new(alloc);
    for (at, given) in &ITEMS {
        if let Some(item) = item_of(given) {
            if *at == page && is_given(level, &item) && items.len() < 32 {
                if items.push(item).is_err() {
                    return Err(PageFault::Memory);
                }
            }
        }
    }
    Ok(items)
}

impl<P: Pages> Ranked<P> for Table {
    ghost use Rattle.std.specs.Prelude.{[]};
    ghost use Rattle.best_first.specs.declared.item.Item.{Item};

    ghost fits = { λ s p. ⊥ };

    ghost told = { λ s p. Unit {0} };

    ghost starts = { λ s p. [] };

    ghost opens = { λ s p page level. [] };

    ghost root = { λ s. s.root };

    ghost has_node = { λ s p page level. ⊥ };

    ghost is_node = { λ s p page. Unit {0} };

    ghost stands = { λ bytes level item. Unit {0} };

    ghost has_level = { λ bytes level. Unit {0} };

    ghost harms = { λ s p old new damage. Unit {0} };

    ghost held = { λ s. s.held };

    ghost starts_bounded = { λ s p f. tt };

    ghost starts_in = { λ s p f. tt };

    ghost opens_in = { λ s p page level f h. tt };

    ghost harms_sooner = { λ s p old more new damage h. tt };

    ghost mislevelled = { λ s p old new page level below off. tt };

    fn start(&mut self, alloc: Global, pages: &mut P) -> Result<Vec<Item>, PageFault> {
        let mut items = Vec::new(alloc);
        let root = Item::Node {
            page: self.root,
            level: self.level,
            bound: 0,
        };
        match items.push(root) {
            Ok(()) => Ok(items),
            Err(_) => Err(PageFault::Memory),
        }
    }

    fn open(
        &mut self,
        alloc: Global,
        pages: &mut P,
        node: u32,
        level: u8,
        _most: Option<u64>,
    ) -> Result<Vec<Item>, PageFault> {
        if let Err(fault) = pages.look(node) {
            self.held = hold(fault, self.held);
            return Err(fault);
        }
        if self.opened.push(node).is_err() {
            return Err(PageFault::Memory);
        }
        given(alloc, node, level)
    }
}

// Writes the first k places with what they cost, and the pages that were opened.
fn tell(
    alloc: Global,
    pages: &mut MemoryPages,
    table: &mut Table,
    k: u16,
    out: &mut String,
) -> Option<()>
    requires { table.old.held ≡ None }
{
    match first_k(alloc, pages, table, k) {
        Ok(found) => write_hits(out, &found)?,
        Err(fault) => write!(out, "{fault:?} ").ok()?,
    }
    write!(out, "opened").ok()?;
    for page in &table.opened {
        write!(out, " {page}").ok()?;
    }
    Some(())
}

// Whether the first k places are these, if so many pages are counted after page 0.
fn readable(alloc: Global, counted: u32, k: u16, wanted: &str) -> bool {
    let mut pages = MemoryPages::new(alloc, 9);
    for _ in 0..counted {
        if pages.take().is_err() {
            return false;
        }
    }
    let mut table = Table {
        root: 1,
        level: 1,
        opened: Vec::new(alloc),
        held: None,
    };
    let mut out = String::new(alloc);
    tell(alloc, &mut pages, &mut table, k, &mut out).is_some() && out.as_str() == wanted
}

// How many pages are counted, how many places are requested, and these with what they cost, and the pages that are opened.
static TOLD: [(u32, u16, &str); 6] = [
    (4, 0, "opened"),
    (4, 1, "a 1, opened 1 2"),
    // A node goes before a place of equal cost.
    (4, 2, "a 1, aa 5, opened 1 2 3"),
    // Places are ordered by cost and key.
    (4, 4, "a 1, aa 5, b 5, d 6, opened 1 2 3"),
    (4, 1000, "a 1, aa 5, b 5, d 6, c 7, e 9, opened 1 2 3 4"),
    // A page that isn't counted ends the search.
    (2, 3, "Damaged(Damage { page: 3, rule: Link }) opened 1 2"),
];

#[test]
fn places_are_ordered_by_cost_and_key_and_few_nodes_are_opened(rt: HostRuntime) {
    for (counted, k, wanted) in &TOLD {
        assert!(rt; readable(rt.alloc(), *counted, *k, wanted));
    }
}
