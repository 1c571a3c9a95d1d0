//! Trees that grow and shrink in memory, checked node by node.
ghost use Rattle.std.specs.Prelude.{◌<◌};

use node_inverted::{Tree, row};
use page_face::{MemoryPages, Page, PageFault, Pages, free_next};
use row_codec::PAIRS_MAX;
use rtree_nodes::{Node, Slot, child_at, slot_at};
use spatial_base::{Key, Point, Rect};
use split_condense::{Entry, delete, insert};
use split_policy::{Halving, Quadratic, SplitPolicy};
use std::alloc::Global;
use std::test::Fail;
use text_policy::WordAware;

static EMPTY: Tree = Tree { root: 0, rows: 0 };

// How many words the places have together.
const WORDS: usize = 64;

// How many places come and go.
const PLACES: u64 = 1_500;

// A policy that chooses badly, and keeps its last choices. An entry goes where its mirror image across the map would go, and a full node is
// parted as if its entries lay elsewhere.
#[derive(Drop)]
struct Worst {
    lawful: Halving,
    chosen: u8,
    moved: u64,
}

impl Worst {
    fn new() -> Worst {
        Worst {
            lawful: Halving::new(),
            chosen: 0,
            moved: 0,
        }
    }
}

// The point of a rectangle's corner mirrored at the middle of the map.
fn across(rect: &Rect) -> Rect {
    let (x, y) = (rect.west().saturating_neg(), rect.south().saturating_neg());
    Rect::new(x, y, x, y).unwrap_or(*rect)
}

impl SplitPolicy for Worst {
    ghost count = { λ policy. policy.lawful };

    ghost chooses = { λ _ _ _ _ _ _. Unit {0} };

    ghost splits_by = { λ _ _ _ _. Unit {0} };

    fn choose(&mut self, used: u32, rects: &[Rect; 32], add: &Rect, shared: &[u32; 32]) -> u8 {
        let chosen = self.lawful.choose(used, rects, &across(add), shared);
        self.chosen = chosen;
        chosen
    }

    fn split(&mut self, rects: &[Rect; 33], like: &[[u32; 33]; 33]) -> u64 {
        let mut elsewhere = *rects;
        for i in 0..33 {
            elsewhere[i] = rects[i * 7 % 33];
        }
        let moved = self.lawful.split(&elsewhere, like);
        self.moved = moved;
        moved
    }

    fn splits(&self) -> u64 {
        self.lawful.splits()
    }
}

// How many words a place of this number has: none, one to five, or all there are.
fn word_count(number: u64) -> u8 {
    match number % 16 {
        0 => 0,
        1 => 64,
        some => (some % 5) as u8 + 1,
    }
}

// The entry of a place by its number, as it is put for the nth time, somewhere on the map.
fn entry(number: u64, nth: u64) -> Result<Entry, Fail> {
    let mixed = number.wrapping_add(nth.wrapping_mul(31));
    let east = i32::try_from(mixed.wrapping_mul(7_919) % 3_001)?;
    let north = i32::try_from(mixed.wrapping_mul(104_729) % 1_501)?;
    let x = east.saturating_sub(1_500).saturating_mul(1_000_000);
    let y = north.saturating_sub(750).saturating_mul(1_000_000);
    let count = word_count(mixed);
    let first = if count == 64 { 0 } else { mixed % 60 };
    let mut pairs = [(0, 0); PAIRS_MAX];
    for i in 0..count {
        let impact = u8::try_from(mixed.wrapping_add(u64::from(i)) % 50)?.saturating_add(1);
        if let Some(pair) = pairs.get_mut(usize::from(i)) {
            *pair = (first.saturating_add(u64::from(i)), impact);
        }
    }
    Ok(Entry {
        key: Key::auto(number),
        point: Point::new(x, y).ok_or("off the map")?,
        count,
        pairs,
    })
}

// A tree in memory, and for each number of a place how often it was put, 0 if it isn't there.
#[derive(Drop)]
struct Grove {
    pages: MemoryPages,
    tree: Tree,
    lives: Vec<u64>,
}

// An empty tree, for places of as many numbers.
fn empty_grove(alloc: Global, places: usize) -> Result<Grove, Fail> {
    Ok(Grove {
        lives: vec![in alloc; 0; places]?,
        pages: MemoryPages::new(alloc, 4_096),
        tree: EMPTY,
    })
}

// Puts a place for the nth time, after taking it out if it lives; if `nth` is 0, only takes it out.
fn change(
    alloc: Global,
    grove: &mut Grove,
    policy: &mut dyn SplitPolicy,
    number: u64,
    nth: u64,
) -> Result<(), Fail> {
    let life = grove
        .lives
        .get_mut(usize::try_from(number)?)
        .ok_or("no place")?;
    if *life != 0 {
        let old = entry(number, *life)?;
        if !delete(alloc, &mut grove.pages, &mut grove.tree, policy, &old)? {
            return Err(Fail::new("a place that isn't there"));
        }
    }
    if nth != 0 {
        let new = entry(number, nth)?;
        insert(alloc, &mut grove.pages, &mut grove.tree, policy, &new)?;
    }
    *life = nth;
    Ok(())
}

// A node that is still to be looked at: its page, and the level and rectangle that its parent gives it.
#[derive(Clone, Copy)]
struct Said {
    page: u32,
    form: Option<(u8, Rect)>,
}

// The impacts of each word at each slot.
type Table = [[u8; 32]; WORDS];

fn is_used(node: &Node, at: u32) -> bool {
    node.used.checked_shr(at).unwrap_or(0) % 2 == 1
}

// Notes the impacts of a place's words at a slot. Refuses a place that isn't where it was put last.
fn note_place(
    point: &Point,
    key: &Key,
    at: usize,
    lives: &[u64],
    table: &mut Table,
) -> Result<(), Fail>
    requires { at < 32 }
{
    let number = key.serial().ok_or("another key")?;
    let nth = lives.get(usize::try_from(number)?).ok_or("no place")?;
    let place = entry(number, *nth)?;
    if place.point != *point {
        return Err(Fail::new("a place elsewhere"));
    }
    for (word, impact) in place.words() {
        let line = table.get_mut(usize::try_from(*word)?).ok_or("no word")?;
        line[at] = *impact;
    }
    Ok(())
}

// The greatest byte.
fn greatest(bytes: &[u8; 32]) -> u8 {
    let mut greatest = 0;
    for byte in bytes {
        greatest = greatest.max(*byte);
    }
    greatest
}

// Notes the greatest impacts of the words in a child's rows at a slot.
fn note_child(
    pages: &mut MemoryPages,
    tree: &Tree,
    child: u32,
    at: usize,
    table: &mut Table,
) -> Result<(), PageFault>
    requires { at < 32 }
{
    for word in 0..WORDS {
        table[word][at] = greatest(&row(pages, tree, child, word as u64)?);
    }
    Ok(())
}

// Refuses a node whose rows hold other impacts than are below its slots.
fn judge_words(
    pages: &mut MemoryPages,
    tree: &Tree,
    page: u32,
    node: &Node,
    lives: &[u64],
) -> Result<(), Fail> {
    let mut table = [[0; 32]; WORDS];
    for at in 0..32 {
        if is_used(node, at as u32) {
            match node.slots.slot(at) {
                Slot::Place { point, key } => note_place(&point, &key, at, lives, &mut table)?,
                Slot::Child { page, .. } => note_child(pages, tree, page, at, &mut table)?,
            }
        }
    }
    for word in 0..WORDS {
        if row(pages, tree, page, word as u64)? != table[word] {
            return Err(Fail::new("other words"));
        }
    }
    Ok(())
}

// What is still to be found: nodes, and for each number of a place how often it was put, 0 if it isn't there or was found already.
#[derive(Drop)]
struct Ahead {
    nodes: Vec<Said>,
    places: Vec<u64>,
}

// Notes that a place was found, or that a child of a node of this level is to be looked at.
fn come_upon(ahead: &mut Ahead, slot: &Slot, level: u8) -> Result<(), Fail> {
    match slot {
        Slot::Place { key, .. } => {
            let number = key.serial().ok_or("another key")?;
            let place = ahead.places.get_mut(usize::try_from(number)?);
            let place = place.ok_or("no place")?;
            if *place == 0 {
                return Err(Fail::new("a place that is there twice, or not at all"));
            }
            *place = 0;
        }
        Slot::Child { rect, page } => {
            let level = level.checked_sub(1).ok_or("a child of a leaf")?;
            ahead.nodes.push(Said {
                page: *page,
                form: Some((level, *rect)),
            })?;
        }
    }
    Ok(())
}

// The least rectangle around another one, if there is one, and a slot's.
fn joined(all: Option<Rect>, slot: &Slot) -> Rect {
    match all {
        None => slot.rect(),
        Some(rect) => rect.join(&slot.rect()),
    }
}

// How many slots of a node are used, and the least rectangle around them. Notes the places and children found there.
fn sum_of(node: &Node, ahead: &mut Ahead) -> Result<(u32, Option<Rect>), Fail> {
    let mut used: u32 = 0;
    let mut all: Option<Rect> = None;
    for at in 0..32 {
        if is_used(node, at as u32) {
            let slot = node.slots.slot(at);
            used = used.saturating_add(1);
            all = Some(joined(all, &slot));
            come_upon(ahead, &slot, node.level)?;
        }
    }
    Ok((used, all))
}

// Whether a node's level, number of slots and rectangle are as they should be.
fn is_well(node: &Node, form: Option<(u8, Rect)>, used: u32, all: Option<Rect>) -> bool {
    match form {
        Some((level, rect)) => node.level == level && used >= 12 && all == Some(rect),
        None => node.level == 0 || used >= 2,
    }
}

// Checks a node, and returns its level. Refuses one that isn't well-formed, or whose rows hold other words than are below it.
fn judge(grove: &mut Grove, said: Said, node: &Node, ahead: &mut Ahead) -> Result<u8, Fail> {
    let (used, all) = sum_of(node, ahead)?;
    if !is_well(node, said.form, used, all) {
        return Err(Fail::new("a bad node"));
    }
    let lives = grove.lives.as_slice();
    judge_words(&mut grove.pages, &grove.tree, said.page, node, lives)?;
    Ok(node.level)
}

// Looks at a page, and returns its node's level. Refuses a page that is no node's, and a node as `judge` does.
fn look_at(grove: &mut Grove, said: Said, ahead: &mut Ahead) -> Result<u8, Fail> {
    let page = grove.pages.read(said.page)?;
    match Node::decode(&page) {
        Ok(node) => judge(grove, said, &node, ahead),
        Err(_) => Err(Fail::new("no node")),
    }
}

// How many levels and nodes there are. Refuses nodes as `look_at` does.
fn look_at_all(grove: &mut Grove, ahead: &mut Ahead) -> Result<(u8, u32), Fail> {
    let mut levels: u8 = 0;
    let mut nodes: u32 = 0;
    for _ in 0..grove.pages.counted() {
        if let Some(said) = ahead.nodes.pop() {
            let level = look_at(grove, said, ahead)?;
            nodes = nodes.saturating_add(1);
            levels = levels.max(level.saturating_add(1));
        }
    }
    Ok((levels, nodes))
}

// Whether nothing is left to be looked at.
fn is_over(ahead: &Ahead) -> bool {
    for nth in ahead.places.as_slice() {
        if *nth != 0 {
            return false;
        }
    }
    ahead.nodes.is_empty()
}

// What is to be found in the beginning: the root, and the places that live.
fn ahead_of(alloc: Global, grove: &Grove) -> Result<Ahead, Fail> {
    let mut nodes = Vec::new(alloc);
    if grove.tree.root != 0 {
        nodes.push(Said {
            page: grove.tree.root,
            form: None,
        })?;
    }
    let places = grove.lives.as_slice().to_vec(alloc)?;
    Ok(Ahead { nodes, places })
}

// How many levels and nodes a well-formed tree has. Refuses one that isn't, or that hasn't the places that live with their words.
fn levels_and_nodes(alloc: Global, grove: &mut Grove) -> Result<(u8, u32), Fail> {
    let mut ahead = ahead_of(alloc, grove)?;
    let found = look_at_all(grove, &mut ahead)?;
    if !is_over(&ahead) {
        return Err(Fail::new("other places"));
    }
    Ok(found)
}

// How many pages are in the free list.
fn free(pages: &mut MemoryPages) -> Result<u32, Fail> {
    let mut found: u32 = 0;
    let mut next = pages.first_free();
    for _ in 0..pages.counted() {
        if next != 0 {
            found = found.saturating_add(1);
            let page = pages.read(next)?;
            next = free_next(&page).map_err(|_| "not free")?;
        }
    }
    Ok(found)
}

// Lets places come, change and go in no order, one in each of `turns` turns, and checks the tree after each hundred.
fn come(
    alloc: Global,
    grove: &mut Grove,
    policy: &mut dyn SplitPolicy,
    turns: u64,
) -> Result<(), Fail> {
    let mut seed: u64 = 1;
    for turn in 1..=turns {
        seed = seed.wrapping_mul(6_364_136_223_846_793_005).wrapping_add(1);
        let number = (seed >> 33) % PLACES;
        let nth = if seed >> 62 == 0 { 0 } else { turn };
        change(alloc, grove, policy, number, nth)?;
        if turn % 100 == 0 {
            levels_and_nodes(alloc, grove)?;
        }
    }
    Ok(())
}

// Takes all places out. The tree is empty then, no word has a row, and no page is lost.
fn go(alloc: Global, grove: &mut Grove, policy: &mut dyn SplitPolicy) -> Result<(), Fail> {
    for number in 0..PLACES {
        change(alloc, grove, policy, number, 0)?;
    }
    let left = free(&mut grove.pages)?.saturating_add(1);
    if grove.tree != EMPTY || left != grove.pages.counted() {
        return Err(Fail::new("a page is lost"));
    }
    Ok(())
}

// Lets places come, change and go for `turns` turns, and takes all out.
fn come_and_go(alloc: Global, policy: &mut dyn SplitPolicy, turns: u64) -> Result<(), Fail> {
    let mut grove = empty_grove(alloc, PLACES as usize)?;
    come(alloc, &mut grove, policy, turns)?;
    go(alloc, &mut grove, policy)
}

// Whether a node has the same in a slot, which is used, as another one.
fn has_same(node: &Page, other: &Page, at: usize) -> bool
    requires { at < 32 }
{
    match (slot_at(node, at), slot_at(other, at)) {
        (Ok(Some(one)), Ok(Some(other))) => one == other,
        _ => false,
    }
}

// The number of the place in a slot of a leaf.
pub(crate) fn number_at(node: &Page, at: usize) -> Option<u64>
    requires { at < 32 }
{
    let Ok(Some(slot)) = slot_at(node, at) else {
        return None;
    };
    match slot {
        Slot::Place { key, .. } => key.serial(),
        Slot::Child { .. } => None,
    }
}

// Whether a node has the place of a number.
fn has_place(node: &Page, number: u64) -> bool {
    for at in 0..32 {
        if number_at(node, at) == Some(number) {
            return true;
        }
    }
    false
}

// Whether the entries of a full node are divided as a mask has it: those of its bits in one node, the others in another, each in its slot.
fn are_parted(full: &Page, stay: &Page, go: &Page, moved: u64) -> bool {
    for at in 0..32 {
        let moves = moved >> at & 1 == 1;
        if has_same(go, full, at) != moves || has_same(stay, full, at) == moves {
            return false;
        }
    }
    true
}

// Puts 33 places and takes 22 of them out, and checks the tree after each change. Returns whether a second level comes with the last place
// put, and goes.
fn split_and_join(alloc: Global, grove: &mut Grove) -> Result<bool, Fail> {
    let mut policy = Quadratic::new();
    for turn in 0..55 {
        let (number, nth) = if turn < 33 { (turn, 1) } else { (turn - 33, 0) };
        change(alloc, grove, &mut policy, number, nth)?;
        let found = levels_and_nodes(alloc, grove)?;
        let is_wrong = match turn {
            32 => found != (2, 3),
            31 | 54 => found != (1, 1),
            _ => false,
        };
        if is_wrong {
            return Ok(false);
        }
    }
    let gone = entry(0, 1)?;
    let is_there = delete(alloc, &mut grove.pages, &mut grove.tree, &mut policy, &gone)?;
    Ok(!is_there)
}

#[test]
fn a_leaf_is_split_and_its_halves_become_one(rt: HostRuntime) -> Result<(), Fail> {
    let mut grove = empty_grove(rt.alloc(), 33)?;
    assert!(rt; split_and_join(rt.alloc(), &mut grove)?);
    Ok(())
}

#[test]
fn places_come_and_go_under_any_policy(rt: HostRuntime) -> Result<(), Fail> {
    come_and_go(rt.alloc(), &mut Worst::new(), 10_000)?;
    come_and_go(rt.alloc(), &mut Quadratic::new(), 3_000)?;
    come_and_go(rt.alloc(), &mut Halving::new(), 3_000)?;
    come_and_go(rt.alloc(), &mut WordAware::new(), 3_000)
}

// Whether a leaf that was full is now below the root's first slot, and its entries and place 32 are divided as a mask has it.
fn is_split_by(grove: &mut Grove, old: u32, full: &Page, moved: u64) -> Result<bool, Fail> {
    let root = grove.pages.read(grove.tree.root)?;
    let stay = grove.pages.read(old)?;
    let go = grove.pages.read(child_at(&root, 1))?;
    let moves = moved >> 32 & 1 == 1;
    Ok(
        child_at(&root, 0) == old
            && are_parted(full, &stay, &go, moved)
            && has_place(&go, 32) == moves
            && has_place(&stay, 32) != moves,
    )
}

// Whether the root's child that was chosen has the place of a number.
fn has_chosen(grove: &mut Grove, chosen: u8, number: u64) -> Result<bool, Fail> {
    let root = grove.pages.read(grove.tree.root)?;
    let child = grove.pages.read(child_at(&root, usize::from(chosen % 32)))?;
    Ok(has_place(&child, number))
}

// Whether the 33rd place goes where the policy's mask puts it, and each of seven more where it chose.
fn goes_where_said(alloc: Global, grove: &mut Grove, policy: &mut Worst) -> Result<bool, Fail> {
    for number in 0..32 {
        change(alloc, grove, policy, number, 1)?;
    }
    let old = grove.tree.root;
    let full = grove.pages.read(old)?;
    change(alloc, grove, policy, 32, 1)?;
    if !is_split_by(grove, old, &full, policy.moved)? {
        return Ok(false);
    }
    for number in 33..40 {
        change(alloc, grove, policy, number, 1)?;
        if !has_chosen(grove, policy.chosen, number)? {
            return Ok(false);
        }
    }
    Ok(true)
}

#[test]
fn an_entry_goes_where_the_policy_says(rt: HostRuntime) -> Result<(), Fail> {
    let mut grove = empty_grove(rt.alloc(), 40)?;
    let mut policy = Worst::new();
    assert!(rt; goes_where_said(rt.alloc(), &mut grove, &mut policy)?);
    Ok(())
}
