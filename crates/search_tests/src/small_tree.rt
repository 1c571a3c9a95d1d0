//! Trees from tables: places in leaves below a root at page 3, with the rows of words.
ghost use Rattle.std.specs.Prelude.{◌<◌};

use node_filter::Ids;
use node_inverted::{Tree, set_row};
use page_face::{MemoryPages, PageFault, Pages};
use place_values::{Expr, Hit};
use rtree_nodes::{Slot, new_node, put_slot};
use spatial_base::{Key, Point, Rect};
use std::alloc::Global;
use std::fmt::Write;
use term_impacts::{Word, one_word};

// A place: its leaf's page, its slot, its key, and its coordinates.
pub(crate) type Place = (u32, usize, &'static str, i32, i32);

// A leaf below the root: its slot there, its page, and its west, south, east and north.
pub(crate) type Leaf = (usize, u32, [i32; 4]);

// A row: its node, its word's number, and slots with their bytes; all other bytes are 0.
pub(crate) type Row = (u32, u64, &'static [(usize, u8)]);

// A tree in memory, and the numbers of the words that are known.
#[derive(Drop)]
pub(crate) struct Grown {
    pub(crate) pages: MemoryPages,
    pub(crate) tree: Tree,
    pub(crate) ids: Ids,
}

// Writes a leaf.
fn put_leaf(pages: &mut MemoryPages, page: u32, places: &[Place]) -> Option<()> {
    let mut leaf = new_node(0);
    for (of, at, key, x, y) in places {
        if *of == page && *at < 32 {
            let point = Point::new(*x, *y)?;
            let key = Key::of_text(key).ok()?;
            put_slot(&mut leaf, *at, &Slot::Place { point, key });
        }
    }
    pages.write(page, &leaf).ok()
}

// Writes the root and the leaves.
fn put_nodes(pages: &mut MemoryPages, leaves: &[Leaf], places: &[Place]) -> Option<()> {
    let mut root = new_node(1);
    for (at, page, sides) in leaves {
        if *at < 32 {
            let rect = Rect::new(sides[0], sides[1], sides[2], sides[3])?;
            put_slot(&mut root, *at, &Slot::Child { rect, page: *page });
            put_leaf(pages, *page, places)?;
        }
    }
    pages.write(3, &root).ok()
}

// The bytes of a row.
fn bytes_of(slots: &[(usize, u8)]) -> [u8; 32] {
    let mut bytes = [0; 32];
    for &(at, byte) in slots {
        if at < bytes.len() {
            bytes[at] = byte;
        }
    }
    bytes
}

// Sets the rows.
fn put_rows(pages: &mut MemoryPages, tree: &mut Tree, rows: &[Row]) -> Option<()> {
    for (node, word, slots) in rows {
        set_row(pages, tree, *node, *word, &bytes_of(slots)).ok()?;
    }
    Some(())
}

// Writes a tree of up to four pages, and the rows after them.
fn put_tree(
    pages: &mut MemoryPages,
    leaves: &[Leaf],
    places: &[Place],
    rows: &[Row],
) -> Option<Tree> {
    for _ in 0..4 {
        pages.take().ok()?;
    }
    put_nodes(pages, leaves, places)?;
    let mut tree = Tree { root: 3, rows: 0 };
    put_rows(pages, &mut tree, rows)?;
    Some(tree)
}

pub(crate) fn word(alloc: Global, text: &str) -> Option<Word> {
    one_word(alloc, text).ok()?
}

// The numbers of words.
fn known(alloc: Global, words: &[(&str, u64)]) -> Option<Ids> {
    let mut list = Vec::new(alloc);
    for (text, number) in words {
        list.push((word(alloc, text)?.bytes(), *number)).ok()?;
    }
    Some(Ids::from_vec(list))
}

// The tree of these tables.
pub(crate) fn planted(
    alloc: Global,
    leaves: &[Leaf],
    places: &[Place],
    rows: &[Row],
    words: &[(&str, u64)],
) -> Option<Grown> {
    let ids = known(alloc, words)?;
    let mut pages = MemoryPages::new(alloc, 99);
    let tree = put_tree(&mut pages, leaves, places, rows)?;
    Some(Grown { pages, tree, ids })
}

// A filter that requires one word and the lack of another one; "" is none.
pub(crate) fn filter(alloc: Global, has: &str, lacks: &str) -> Option<Expr> {
    if lacks.is_empty() {
        return Some(Expr::Has(word(alloc, has)?));
    }
    let lack = Expr::Not(Box::new(alloc, Expr::Has(word(alloc, lacks)?)).ok()?);
    if has.is_empty() {
        return Some(lack);
    }
    let has = Box::new(alloc, Expr::Has(word(alloc, has)?)).ok()?;
    Some(Expr::And(Box::new(alloc, lack).ok()?, has))
}

// Writes the keys and costs of hits.
pub(crate) fn write_hits(out: &mut String, hits: &[Hit]) -> Option<()> {
    for hit in hits {
        write!(out, "{} {}, ", hit.key.text().unwrap_or(""), hit.cost).ok()?;
    }
    Some(())
}

// Whether the keys and costs of an answer are these.
pub(crate) fn readable(alloc: Global, answer: &Result<Vec<Hit>, PageFault>, wanted: &str) -> bool {
    let mut out = String::new(alloc);
    match answer {
        Ok(hits) => write_hits(&mut out, hits).is_some() && out.as_str() == wanted,
        Err(_) => false,
    }
}
