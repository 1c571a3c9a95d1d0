//! One update, or a batch of them, of the tables, the tree and page 0's fields, over any pages.
ghost use Rattle.std.specs.Prelude.{◌≡◌, ◌≤◌, ◌<◌, ◌+◌, ◌^◌, ◌↔◌, List, ◌∷◌, Option, Ok, Err, IsTrue, IfOk, IfErr, OnOk, IsErrOf, length, option_map, ◌≢◌};
ghost use Rattle.std.specs.List.{AllByRecursion};
ghost use Rattle.page_face.specs.Calls.{Changes};
ghost use Rattle.page_store.specs.Superblock.{IsInRange};
ghost use Rattle.btree_nodes.specs.Damages.{AreReadable};
ghost use Rattle.place_values.specs.State.{Contents, IsSerialAbove};
ghost use Rattle.spatial_base.specs.Key.{Name};
ghost use Rattle.place_values.specs.declared.update.Update.{Update};
ghost use Rattle.place_values.specs.declared.update.Update.TheVariants.{Put, Remove};
ghost use Rattle.place_values.specs.Update.{effect_of, key_for, put_at, removed_at, serial_after, NamesText};
ghost use Rattle.store_model.specs.Ahead.{StandAhead};
ghost use Rattle.store_model.specs.Stands.{PagesStand, tables_in};
ghost use Rattle.irtree_engine.specs.Updates.{IsUpdateFault, IsDueTo, IsAtLimit, StandForOutcome, state_after_all};
ghost use Rattle.irtree_engine.specs.Calls.{FailsUpdating};
ghost use Rattle.irtree_engine.specs.Changes.{block_with, head_at, head_with, tree_in, AreHeadNumbers, AreNumbersAhead};

use crate::EngineFault;
use crate::fault::broken_by_head;
use crate::ranges::check_head;
use indexmap::IndexMap;
use node_inverted::Tree;
use page_face::{Damage, Head, Pages, Rule};
use place_values::{Applied, NUMBER_MAX, PLACES_MAX, Update};
use row_codec::PAIRS_MAX;
use spatial_base::{Key, Point};
use split_condense::{put_entry, take_entry};
use split_policy::SplitPolicy;
use std::alloc::Global;
use store_tables::Tables;
use table_updates::{gather_words, hold_words, put_in_batch, remove_place};
use term_impacts::{Label, Word, Words};

/// Changes the tables, the tree and page 0's fields by one update. A key that a Put names is a text key.
///
/// Refuses `Full`, `Worn` and what the tables and the tree refuse. Refuses `Damaged` with the rule Counts if page 0 counts no place and one
/// is removed. Refuses `Damaged` also if page 0's fields would leave their ranges, so that the store couldn't be opened: as [`check_head`]
/// names it, with the fields changed. After every other refusal they are as before. Pages may have changed after any.
pub(crate) fn update<P: Pages>(
    alloc: Global,
    pages: &mut P,
    head: &mut Head,
    policy: &mut dyn SplitPolicy,
    update: &Update,
) -> Result<Applied, EngineFault>
    requires text { NamesText update.now }
    requires numbers { AreHeadNumbers head.old }
    ensures updated { (state : Contents) → PagesStand (block_with (P.count pages.old) (P.first pages.old) head.old) (P.pages pages.old) state
        → IfOk result (λ applied. ((effect_of state update.now).answer ≡ Ok applied)
        × PagesStand (block_with (P.count pages.new) (P.first pages.new) head.new) (P.pages pages.new) (effect_of state update.now).state) }
    ensures due { (state : Contents) → PagesStand (block_with (P.count pages.old) (P.first pages.old) head.old) (P.pages pages.old) state
        → AreReadable (P.pages pages.old) (P.count pages.old) → IfErr result (IsDueTo (effect_of state update.now).answer) }
    ensures numbers { OnOk result (AreHeadNumbers head.new) }
    ensures in_range { OnOk result (IsInRange (block_with (P.count pages.new) (P.first pages.new) head.new)) }
    ensures no_head { ((p : P) → AreReadable (P.pages p) (P.count p)) → (damage : Damage) → IsErrOf result (EngineFault.Damaged damage) → damage.rule ≢ Rule.Head }
    ensures limits { IfErr result (IsAtLimit head.old.live head.old.number) }
    ensures causes { IfErr result IsUpdateFault }
    ensures one_more { (head.new.live ≤ head.old.live + 1) × (head.new.number ≤ head.old.number + 1) }
    ensures absent { IfOk result (λ applied. applied ≡ Applied.Absent → head.new ≡ head.old) }
    ensures stays { result ≢ Err EngineFault.Disk → P.faults pages.new ≡ P.faults pages.old }
    ensures fails { FailsUpdating P.Pages pages.old pages.new result }
    ensures frame { Changes P.Pages pages.old pages.new }
{
    let applied = match update_in_batch(alloc, pages, head, policy, update, &None) {
        Ok(applied) => applied,
        Err(fault) => return Err(fault),
    };
    match check_head(&*pages, head) {
        Ok(()) => Ok(applied),
        Err(damage) => Err(EngineFault::Damaged(damage)),
    }
}

/// Changes the tables, the tree and page 0's fields by all updates, one after another. A key that a Put names is a text key.
///
/// Refuses as [`update`], for the first one that is refused.
///
/// Holds the words of all Puts first, each once for all the places that are to hold it, unless places or update numbers may run out. So a
/// word of a batch costs a look-up by text, a look-up by number and one or two puts, however many places hold it.
pub(crate) fn update_all<P: Pages>(
    alloc: Global,
    pages: &mut P,
    head: &mut Head,
    policy: &mut dyn SplitPolicy,
    updates: &[Update],
) -> Result<(), EngineFault>
    requires texts { AllByRecursion NamesText updates.now }
    requires numbers { AreHeadNumbers head.old }
    ensures updated { (state : Contents) → PagesStand (block_with (P.count pages.old) (P.first pages.old) head.old) (P.pages pages.old) state
        → OnOk result (StandForOutcome (state_after_all state updates.now) (block_with (P.count pages.new) (P.first pages.new) head.new) (P.pages pages.new)) }
    ensures due { (state : Contents) → PagesStand (block_with (P.count pages.old) (P.first pages.old) head.old) (P.pages pages.old) state
        → ((p : P) → AreReadable (P.pages p) (P.count p)) → IfErr result (IsDueTo (state_after_all state updates.now)) }
    ensures numbers { OnOk result (AreHeadNumbers head.new) }
    ensures in_range { OnOk result (IsInRange (block_with (P.count pages.new) (P.first pages.new) head.new)) }
    ensures no_head { ((p : P) → AreReadable (P.pages p) (P.count p)) → (damage : Damage) → IsErrOf result (EngineFault.Damaged damage) → damage.rule ≢ Rule.Head }
    ensures limits { IfErr result (IsAtLimit (head.old.live + length updates.now) (head.old.number + length updates.now)) }
    ensures causes { IfErr result IsUpdateFault }
    ensures one_more_each { (head.new.live ≤ head.old.live + length updates.now) × (head.new.number ≤ head.old.number + length updates.now) }
    ensures stays { result ≢ Err EngineFault.Disk → P.faults pages.new ≡ P.faults pages.old }
    ensures fails { FailsUpdating P.Pages pages.old pages.new result }
    ensures frame { Changes P.Pages pages.old pages.new }
{
    match update_each(alloc, pages, head, policy, updates) {
        Ok(()) => {}
        Err(fault) => return Err(fault),
    }
    match check_head(&*pages, head) {
        Ok(()) => Ok(()),
        Err(damage) => Err(EngineFault::Damaged(damage)),
    }
}

// Does what `update_all` does, before page 0's fields are checked.
fn update_each<P: Pages>(
    alloc: Global,
    pages: &mut P,
    head: &mut Head,
    policy: &mut dyn SplitPolicy,
    updates: &[Update],
) -> Result<(), EngineFault>
    requires texts { AllByRecursion NamesText updates.now }
    requires numbers { AreHeadNumbers head.old }
    ensures updated { (state : Contents) → PagesStand (block_with (P.count pages.old) (P.first pages.old) head.old) (P.pages pages.old) state
        → OnOk result (StandForOutcome (state_after_all state updates.now) (block_with (P.count pages.new) (P.first pages.new) head.new) (P.pages pages.new)) }
    ensures due { (state : Contents) → PagesStand (block_with (P.count pages.old) (P.first pages.old) head.old) (P.pages pages.old) state
        → ((p : P) → AreReadable (P.pages p) (P.count p)) → IfErr result (IsDueTo (state_after_all state updates.now)) }
    ensures numbers { OnOk result (AreHeadNumbers head.new) }
    ensures no_head { ((p : P) → AreReadable (P.pages p) (P.count p)) → (damage : Damage) → IsErrOf result (EngineFault.Damaged damage) → damage.rule ≢ Rule.Head }
    ensures limits { IfErr result (IsAtLimit (head.old.live + length updates.now) (head.old.number + length updates.now)) }
    ensures causes { IfErr result IsUpdateFault }
    ensures one_more_each { (head.new.live ≤ head.old.live + length updates.now) × (head.new.number ≤ head.old.number + length updates.now) }
    ensures stays { result ≢ Err EngineFault.Disk → P.faults pages.new ≡ P.faults pages.old }
    ensures fails { FailsUpdating P.Pages pages.old pages.new result }
    ensures frame { Changes P.Pages pages.old pages.new }
{
    let held = hold_ahead(alloc, pages, head, updates)?;
    let mut left = updates;
    while let Some((next, rest)) = left.split_first() {
        update_in_batch(alloc, pages, head, policy, next, &held)?;
        left = rest;
    }
    Ok(())
}

// Does what `update` does, for one update of a batch. If words were held ahead, `held` has the numbers of those of this update and of the
// updates after it.
fn update_in_batch<P: Pages>(
    alloc: Global,
    pages: &mut P,
    head: &mut Head,
    policy: &mut dyn SplitPolicy,
    update: &Update,
    held: &Option<IndexMap<Word, u64>>,
) -> Result<Applied, EngineFault>
    requires text { NamesText update.now }
    requires numbers { (left : List Update) × AreNumbersAhead (option_map (λ numbers. numbers.entries) held.now) (update.now ∷ left) head.old }
    ensures updated { (state : Contents) (left : List Update) → StandAhead (option_map (λ numbers. numbers.entries) held.now) (update.now ∷ left) (block_with (P.count pages.old) (P.first pages.old) head.old) (P.pages pages.old) state
        → IfOk result (λ applied. ((effect_of state update.now).answer ≡ Ok applied)
        × StandAhead (option_map (λ numbers. numbers.entries) held.now) left (block_with (P.count pages.new) (P.first pages.new) head.new) (P.pages pages.new) (effect_of state update.now).state) }
    ensures due { (state : Contents) (left : List Update) → StandAhead (option_map (λ numbers. numbers.entries) held.now) (update.now ∷ left) (block_with (P.count pages.old) (P.first pages.old) head.old) (P.pages pages.old) state
        → AreReadable (P.pages pages.old) (P.count pages.old) → IfErr result (IsDueTo (effect_of state update.now).answer) }
    ensures numbers { (left : List Update) → AreNumbersAhead (option_map (λ numbers. numbers.entries) held.now) (update.now ∷ left) head.old → OnOk result (AreNumbersAhead (option_map (λ numbers. numbers.entries) held.now) left head.new) }
    ensures no_head { ((p : P) → AreReadable (P.pages p) (P.count p)) → (damage : Damage) → IsErrOf result (EngineFault.Damaged damage) → damage.rule ≢ Rule.Head }
    ensures limits { IfErr result (IsAtLimit head.old.live head.old.number) }
    ensures causes { IfErr result IsUpdateFault }
    ensures one_more { (head.new.live ≤ head.old.live + 1) × (head.new.number ≤ head.old.number + 1) }
    ensures absent { IfOk result (λ applied. applied ≡ Applied.Absent → head.new ≡ head.old) }
    ensures stays { result ≢ Err EngineFault.Disk → P.faults pages.new ≡ P.faults pages.old }
    ensures fails { FailsUpdating P.Pages pages.old pages.new result }
    ensures frame { Changes P.Pages pages.old pages.new }
{
    match update {
        Update::Put {
            key,
            point,
            words,
            label,
        } => {
            let (key, serial) = named(head, key);
            put(
                alloc, pages, head, policy, &key, serial, *point, words, *label, held,
            )
        }
        Update::Remove { key } => remove(alloc, pages, head, policy, key, held),
    }
}

// Whether a place and an update number are left for each of so many updates, so that none is refused because they ran out.
fn has_room_for(head: &Head, updates: usize) -> bool
    ensures { IsTrue result ↔ ((head.now.live + updates ≤ 1000000) × (head.now.number + updates ≤ 2 ^ 40)) }
{
    updates <= PLACES_MAX
        && head.live as usize <= PLACES_MAX - updates
        && head.number <= NUMBER_MAX - updates as u64
}

// Holds the words of the Puts ahead if there is room for all updates, and then returns the words' numbers.
fn hold_ahead<P: Pages>(
    alloc: Global,
    pages: &mut P,
    head: &mut Head,
    updates: &[Update],
) -> Result<Option<IndexMap<Word, u64>>, EngineFault>
    requires numbers { AreHeadNumbers head.old }
    ensures begun { (state : Contents) → PagesStand (block_with (P.count pages.old) (P.first pages.old) head.old) (P.pages pages.old) state
        → IfOk result (λ held. StandAhead (option_map (λ numbers. numbers.entries) held) updates.now (block_with (P.count pages.new) (P.first pages.new) head.new) (P.pages pages.new) state) }
    ensures due { (state : Contents) → PagesStand (block_with (P.count pages.old) (P.first pages.old) head.old) (P.pages pages.old) state
        → AreReadable (P.pages pages.old) (P.count pages.old) → IfErr result (IsDueTo (state_after_all state updates.now)) }
    ensures numbers { IfOk result (λ held. AreNumbersAhead (option_map (λ numbers. numbers.entries) held) updates.now head.new) }
    ensures no_head { ((p : P) → AreReadable (P.pages p) (P.count p)) → (damage : Damage) → IsErrOf result (EngineFault.Damaged damage) → damage.rule ≢ Rule.Head }
    ensures limits { IfErr result (IsAtLimit (head.old.live + length updates.now) (head.old.number + length updates.now)) }
    ensures causes { IfErr result IsUpdateFault }
    ensures same { (head.new.live ≡ head.old.live) × (head.new.number ≡ head.old.number) }
    ensures stays { result ≢ Err EngineFault.Disk → P.faults pages.new ≡ P.faults pages.old }
    ensures fails { FailsUpdating P.Pages pages.old pages.new result }
    ensures frame { Changes P.Pages pages.old pages.new }
{
    if !has_room_for(head, updates.len()) {
        return Ok(None);
    }
    let counts = gather_words(alloc, updates)?;
    let mut tables = tables_of(head);
    let numbers = hold_words(alloc, pages, &mut tables, &counts)?;
    *head = head_between(head, &tables);
    Ok(Some(numbers))
}

// Page 0's fields after a change of the tables before an update.
fn head_between(head: &Head, tables: &Tables) -> Head
    ensures { result ≡ head_at head.now tables.now }
{
    Head {
        places: tables.places,
        texts: tables.texts,
        numbers: tables.numbers,
        next_word: tables.next_word,
        ..*head
    }
}

// The key under which a place is put, and the next serial after that.
fn named(head: &Head, key: &Option<Key>) -> (Key, u64)
    requires serial { head.now.serial ≤ head.now.number + 1 }
    requires number { head.now.number ≤ 2 ^ 40 }
    ensures key { (state : Contents) → state.serial ≡ head.now.serial → result.0 ≡ key_for state key.now }
    ensures serial { (state : Contents) → state.serial ≡ head.now.serial → result.1 ≡ serial_after state key.now }
{
    match key {
        Some(key) => (*key, head.serial),
        None => (Key::auto(head.serial), head.serial + 1),
    }
}

// The tables that page 0 names.
pub(crate) fn tables_of(head: &Head) -> Tables
    ensures { result ≡ tables_in head.now }
{
    Tables {
        places: head.places,
        texts: head.texts,
        numbers: head.numbers,
        next_word: head.next_word,
    }
}

// The tree that page 0 names.
pub(crate) fn tree_of(head: &Head) -> Tree
    ensures { result ≡ tree_in head.now }
{
    Tree {
        root: head.tree,
        rows: head.rows,
    }
}

// Page 0's fields after a change of the tables and the tree.
fn head_after(head: &Head, tables: &Tables, tree: &Tree, live: u32, serial: u64) -> Head
    requires { head.now.number ≤ 2 ^ 40 }
    ensures { result ≡ head_with head.now tables.now tree.now live serial }
{
    Head {
        version: head.version,
        places: tables.places,
        texts: tables.texts,
        numbers: tables.numbers,
        rows: tree.rows,
        tree: tree.root,
        live,
        serial,
        number: head.number + 1,
        next_word: tables.next_word,
    }
}

// Puts a place at a key, puts its entry into the tree in place of the old one, and sets the next serial.
fn put<P: Pages>(
    alloc: Global,
    pages: &mut P,
    head: &mut Head,
    policy: &mut dyn SplitPolicy,
    key: &Key,
    serial: u64,
    point: Point,
    words: &Words,
    label: Label,
    held: &Option<IndexMap<Word, u64>>,
) -> Result<Applied, EngineFault>
    requires numbers { (name : Option Name) × (left : List Update) × AreNumbersAhead (option_map (λ numbers. numbers.entries) held.now) (Put name point words.now label ∷ left) head.old }
    requires serial { serial ≤ head.old.number + 2 }
    ensures updated { (state : Contents) (name : Option Name) (left : List Update) → StandAhead (option_map (λ numbers. numbers.entries) held.now) (Put name point words.now label ∷ left) (block_with (P.count pages.old) (P.first pages.old) head.old) (P.pages pages.old) state
        → head.old.serial ≤ serial → serial ≤ head.old.number + 2 → IsSerialAbove serial key.now
        → IfOk result (λ applied. ((put_at state key.now serial (record { point = point; words = words.now; label = label })).answer ≡ Ok applied)
        × StandAhead (option_map (λ numbers. numbers.entries) held.now) left (block_with (P.count pages.new) (P.first pages.new) head.new) (P.pages pages.new) (put_at state key.now serial (record { point = point; words = words.now; label = label })).state) }
    ensures due { (state : Contents) (name : Option Name) (left : List Update) → StandAhead (option_map (λ numbers. numbers.entries) held.now) (Put name point words.now label ∷ left) (block_with (P.count pages.old) (P.first pages.old) head.old) (P.pages pages.old) state
        → AreReadable (P.pages pages.old) (P.count pages.old) → IfErr result (IsDueTo (put_at state key.now serial (record { point = point; words = words.now; label = label })).answer) }
    ensures numbers { (name : Option Name) (left : List Update) → AreNumbersAhead (option_map (λ numbers. numbers.entries) held.now) (Put name point words.now label ∷ left) head.old → OnOk result (AreNumbersAhead (option_map (λ numbers. numbers.entries) held.now) left head.new) }
    ensures no_head { ((p : P) → AreReadable (P.pages p) (P.count p)) → (damage : Damage) → IsErrOf result (EngineFault.Damaged damage) → damage.rule ≢ Rule.Head }
    ensures limits { IfErr result (IsAtLimit head.old.live head.old.number) }
    ensures causes { IfErr result IsUpdateFault }
    ensures one_more { (head.new.live ≤ head.old.live + 1) × (head.new.number ≤ head.old.number + 1) }
    ensures stored { IfOk result (λ applied. applied ≢ Applied.Absent) }
    ensures stays { result ≢ Err EngineFault.Disk → P.faults pages.new ≡ P.faults pages.old }
    ensures fails { FailsUpdating P.Pages pages.old pages.new result }
    ensures frame { Changes P.Pages pages.old pages.new }
{
    let mut tables = tables_of(head);
    let old = tables.place(pages, key)?;
    let is_new = old.is_none();
    if is_new && head.live as usize >= PLACES_MAX {
        return Err(EngineFault::Full);
    }
    if head.number == NUMBER_MAX {
        return Err(EngineFault::Worn);
    }
    // So the next word number keeps its range.
    prove!(words.pairs().len() <= PAIRS_MAX);
    let new = put_in_batch(
        alloc,
        pages,
        &mut tables,
        key,
        old.as_ref(),
        point,
        words,
        label,
        held,
    )?;
    let mut tree = tree_of(head);
    put_entry(alloc, pages, &mut tree, policy, key, old.as_ref(), &new)?;
    let live = if is_new { head.live + 1 } else { head.live };
    *head = head_after(head, &tables, &tree, live, serial);
    Ok(if is_new {
        Applied::New
    } else {
        Applied::Replaced
    })
}

// Takes a key out, and its place's entry out of the tree.
fn remove<P: Pages>(
    alloc: Global,
    pages: &mut P,
    head: &mut Head,
    policy: &mut dyn SplitPolicy,
    key: &Key,
    held: &Option<IndexMap<Word, u64>>,
) -> Result<Applied, EngineFault>
    requires numbers { (left : List Update) × AreNumbersAhead (option_map (λ numbers. numbers.entries) held.now) (Remove key.now ∷ left) head.old }
    ensures updated { (state : Contents) (left : List Update) → StandAhead (option_map (λ numbers. numbers.entries) held.now) (Remove key.now ∷ left) (block_with (P.count pages.old) (P.first pages.old) head.old) (P.pages pages.old) state
        → IfOk result (λ applied. ((removed_at state key.now).answer ≡ Ok applied)
        × StandAhead (option_map (λ numbers. numbers.entries) held.now) left (block_with (P.count pages.new) (P.first pages.new) head.new) (P.pages pages.new) (removed_at state key.now).state) }
    ensures due { (state : Contents) (left : List Update) → StandAhead (option_map (λ numbers. numbers.entries) held.now) (Remove key.now ∷ left) (block_with (P.count pages.old) (P.first pages.old) head.old) (P.pages pages.old) state
        → AreReadable (P.pages pages.old) (P.count pages.old) → IfErr result (IsDueTo (removed_at state key.now).answer) }
    ensures numbers { (left : List Update) → AreNumbersAhead (option_map (λ numbers. numbers.entries) held.now) (Remove key.now ∷ left) head.old → OnOk result (AreNumbersAhead (option_map (λ numbers. numbers.entries) held.now) left head.new) }
    ensures no_head { ((p : P) → AreReadable (P.pages p) (P.count p)) → (damage : Damage) → IsErrOf result (EngineFault.Damaged damage) → damage.rule ≢ Rule.Head }
    ensures limits { IfErr result (IsAtLimit head.old.live head.old.number) }
    ensures causes { IfErr result IsUpdateFault }
    ensures one_more { (head.new.live ≤ head.old.live + 1) × (head.new.number ≤ head.old.number + 1) }
    ensures absent { IfOk result (λ applied. applied ≡ Applied.Absent → head.new ≡ head.old) }
    ensures stays { result ≢ Err EngineFault.Disk → P.faults pages.new ≡ P.faults pages.old }
    ensures fails { FailsUpdating P.Pages pages.old pages.new result }
    ensures frame { Changes P.Pages pages.old pages.new }
{
    let mut tables = tables_of(head);
    let Some(old) = tables.place(pages, key)? else {
        return Ok(Applied::Absent);
    };
    if head.number == NUMBER_MAX {
        return Err(EngineFault::Worn);
    }
    if head.live == 0 {
        return Err(EngineFault::Damaged(broken_by_head(Rule::Counts)));
    }
    remove_place(pages, &mut tables, key, &old)?;
    let mut tree = tree_of(head);
    take_entry(alloc, pages, &mut tree, policy, key, &old)?;
    *head = head_after(head, &tables, &tree, head.live - 1, head.serial);
    Ok(Applied::Gone)
}
