//! Reads the nodes of a store's tree from the bytes of its pages, in the layout of `docs/FORMAT.md`, and what bounds the places below
//! each: the least rectangle, and the greatest impact of each word.
use place_map::State;
use spatial_base::{Key, Point, Rect};
use std::alloc::Global;
use std::collections::BTreeMap;
use std::test::Fail;
use term_impacts::{Word, Words};

// How many words the places have: those of `crate::dice`, `w00` to `w39`.
const WORDS: usize = 40;

/// What bounds some places: their rectangle, and the greatest impact of each word.
#[derive(Clone, Copy)]
pub(crate) struct Round {
    /// The least rectangle around the places.
    pub(crate) rect: Rect,
    impacts: [u8; WORDS],
}

impl Round {
    // The bounds of one place.
    fn of(point: &Point, words: &Words) -> Round {
        let mut round = Round {
            rect: Rect::of(point),
            impacts: [0; WORDS],
        };
        round.raise(words);
        round
    }

    // Extends the bounds to one more place.
    fn add(&mut self, point: &Point, words: &Words) {
        self.rect = self.rect.join(&Rect::of(point));
        self.raise(words);
    }

    fn raise(&mut self, words: &Words) {
        for (word, impact) in words.pairs() {
            if let Some(most) = self.impacts.get_mut(number_of(word)) {
                *most = (*most).max(*impact);
            }
        }
    }

    /// Returns the greatest impact of a word among the places, or 0 if none has it.
    pub(crate) fn impact(&self, word: &Word) -> u8 {
        match self.impacts.get(number_of(word)) {
            Some(impact) => *impact,
            None => 0,
        }
    }
}

// The number of a word of `crate::dice`. Any other word gives a number that no place's word has.
fn number_of(word: &Word) -> usize {
    match word.text().as_bytes() {
        [b'w', tens, ones] => {
            10 * usize::from(tens.saturating_sub(b'0')) + usize::from(ones.saturating_sub(b'0'))
        }
        _ => WORDS,
    }
}

/// A node of the tree.
#[derive(Clone, Copy)]
pub(crate) struct Node {
    /// The page of the node that has this one as a child, 0 for the root.
    pub(crate) parent: u32,
    /// What bounds the places below the node, or `None` until one was found.
    pub(crate) round: Option<Round>,
}

/// A tree: its nodes by their pages, and the leaf of each place.
#[derive(Drop)]
pub(crate) struct Tree {
    pub(crate) nodes: BTreeMap<u32, Node>,
    pub(crate) leaves: BTreeMap<Key, u32>,
}

impl Tree {
    // Extends the bounds of a leaf, and of all nodes above it, to a place.
    fn add(&mut self, leaf: u32, point: &Point, words: &Words) {
        let mut page = leaf;
        for _ in 0..10 {
            let Some(node) = self.nodes.get_mut(&page) else {
                return;
            };
            match &mut node.round {
                Some(round) => round.add(point, words),
                None => node.round = Some(Round::of(point, words)),
            }
            page = node.parent;
        }
    }
}

/// Returns the number in the four bytes at an offset of a page.
pub(crate) fn number_at(pages: &[u8], page: u32, at: u32) -> Result<u32, Fail> {
    let start = page as usize * 4096 + at as usize;
    let rest = pages.get(start..).ok_or("no such page")?;
    let (number, _) = rest.split_first_chunk::<4>().ok_or("no such page")?;
    Ok(u32::from_be_bytes(*number))
}

// The byte at an offset of a page.
fn byte_at(pages: &[u8], page: u32, at: u32) -> Result<u8, Fail> {
    Ok((number_at(pages, page, at)? >> 24) as u8)
}

// The point and the key at an offset of a leaf.
fn place_at(pages: &[u8], page: u32, at: u32) -> Result<(Point, Key), Fail> {
    let x = i32::from_be_bytes(number_at(pages, page, at)?.to_be_bytes());
    let y = i32::from_be_bytes(number_at(pages, page, at.saturating_add(4))?.to_be_bytes());
    let point = Point::new(x, y).ok_or("off the map")?;
    let start = page as usize * 4096 + at as usize + 8;
    let rest = pages.get(start..).ok_or("no such page")?;
    let (form, _) = rest.split_first_chunk::<66>().ok_or("no such page")?;
    let key = Key::of_bytes(form).ok_or("no key")?;
    Ok((point, key))
}

// Adds a slot of a leaf, whose place must be that of the state.
fn take_place(
    tree: &mut Tree,
    pages: &[u8],
    state: &State,
    leaf: u32,
    at: u32,
) -> Result<(), Fail> {
    let (point, key) = place_at(pages, leaf, at)?;
    let Some((stands, words, _)) = state.show(&key) else {
        return Err("no such place".into());
    };
    if stands != point {
        return Err("another point".into());
    }
    tree.add(leaf, &point, words);
    tree.leaves.insert(key, leaf)?;
    Ok(())
}

// Adds the places of a leaf, or puts the children of an inner node on the waiting list.
fn take_node(
    tree: &mut Tree,
    waiting: &mut Vec<(u32, u32)>,
    pages: &[u8],
    state: &State,
    page: u32,
) -> Result<(), Fail> {
    let level = byte_at(pages, page, 1)?;
    let used = number_at(pages, page, 4)?;
    for slot in 0..32 {
        if used >> slot & 1 == 0 {
            continue;
        }
        if level == 0 {
            take_place(tree, pages, state, page, 16 + 74 * slot)?;
        } else {
            waiting.push((number_at(pages, page, 32 + 20 * slot)?, page))?;
        }
    }
    Ok(())
}

/// Returns the tree in the pages of a store that holds the places of a state.
pub(crate) fn tree_in(alloc: Global, pages: &[u8], state: &State) -> Result<Tree, Fail> {
    let mut tree = Tree {
        nodes: BTreeMap::new(alloc),
        leaves: BTreeMap::new(alloc),
    };
    let mut waiting = Vec::new(alloc);
    waiting.push((number_at(pages, 0, 32)?, 0))?;
    for _ in 0..number_at(pages, 0, 8)? {
        let Some((page, parent)) = waiting.pop() else {
            break;
        };
        let node = Node {
            parent,
            round: None,
        };
        tree.nodes.insert(page, node)?;
        take_node(&mut tree, &mut waiting, pages, state, page)?;
    }
    if tree.leaves.len() == state.count() as usize {
        Ok(tree)
    } else {
        Err("a place has no entry".into())
    }
}

/// Returns whether a page is one of the words by text, or one of the rows of words. For a query by rarity it may be one of the words by
/// number, too.
pub(crate) fn is_of_words(pages: &[u8], page: u32, by_rarity: bool) -> Result<bool, Fail> {
    let (kind, map) = (byte_at(pages, page, 0)?, byte_at(pages, page, 1)?);
    Ok((kind == 1 || kind == 2) && (map == 2 || map == 4 || by_rarity && map == 3))
}
