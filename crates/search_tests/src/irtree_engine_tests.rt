//! Stores on a station in memory: what the engine reads if they were written below it, and what stays of its own updates.
ghost use Rattle.std.specs.Prelude.{◌≡◌, IfOk};
ghost use Rattle.place_values.specs.Query.{IsWithinLimits};
ghost use Rattle.spatial_base.specs.Key.{Text};
ghost use Rattle.place_values.specs.Update.{NamesText};

use disk_model::MemoryStation;
use irtree_engine::{Engine, EngineFault};
use page_face::{Head, Version};
use page_store::Store;
use place_values::{Answer, Applied, Place, Query, Update};
use spatial_base::{Key, Point, SCALE_MAX};
use split_policy::{Halving, Quadratic, SplitPolicy};
use std::alloc::Global;
use std::test::Fail;
use store_tables::{Stored, Tables};
use term_impacts::{Label, impacts, one_word};

fn key(text: &str) -> Result<Key, Fail>
    ensures { IfOk result (λ key. key ≡ Text text.now) }
{
    Ok(Key::of_text(text).map_err(|_| "no key")?)
}

// Puts a place at a text key.
fn put(alloc: Global, name: &str, words: &str) -> Result<Update, Fail>
    ensures { IfOk result NamesText }
{
    Ok(Update::Put {
        key: Some(key(name)?),
        point: Point::new(-1, 2).ok_or("off the map")?,
        words: impacts(alloc, words)?,
        label: Label::of_text(words),
    })
}

// Stores one place with one word.
fn store_one(alloc: Global, station: &mut MemoryStation) -> Result<(), Fail> {
    let mut store = Store::open(alloc, station, 0)?;
    let mut tables = Tables {
        places: 0,
        texts: 0,
        numbers: 0,
        next_word: 1,
    };
    let word = one_word(alloc, "café")?.ok_or("no word")?;
    let number = tables.hold(&mut store, &word, 1)?;
    let mut stored = Stored {
        point: Point::new(-1, 2).ok_or("off the map")?,
        count: 1,
        pairs: [(0, 0); 64],
        label: Label::of_text(""),
    };
    stored.pairs[0] = (number, 9);
    if !stored.is_of_form() {
        return Err("not of its form".into());
    }
    tables.put_place(&mut store, &key("a")?, &stored)?;
    store.set_head(&Head {
        version: Version::Two,
        places: tables.places,
        texts: tables.texts,
        numbers: tables.numbers,
        rows: 0,
        tree: 0,
        live: 1,
        serial: 1,
        number: 1,
        next_word: tables.next_word,
    });
    store.commit_all()?;
    Ok(())
}

// The engine's calls, of which a test needs to know no more than that the engine keeps its loan.

pub(crate) fn opened<'d>(
    alloc: Global,
    station: &'d mut MemoryStation,
    cache: u32,
    policy: Box<dyn SplitPolicy>,
) -> Result<Engine<'d, MemoryStation>, EngineFault>
    ensures { IfOk result (λ engine. engine.store.disk.ghost_name ≡ station.entry.ghost_name) }
{
    Engine::open(alloc, station, cache, policy)
}

fn applied(engine: &mut Engine<'_, MemoryStation>, update: &Update) -> Result<Applied, EngineFault>
    requires { NamesText update.now }
    ensures { engine.new.store.disk.ghost_name ≡ engine.old.store.disk.ghost_name }
{
    engine.apply(update)
}

pub(crate) fn answered(
    engine: &mut Engine<'_, MemoryStation>,
    query: &Query,
) -> Result<Answer, EngineFault>
    requires { IsWithinLimits query.now }
    ensures { engine.new.store.disk.ghost_name ≡ engine.old.store.disk.ghost_name }
{
    engine.answer(query)
}

fn shown(engine: &mut Engine<'_, MemoryStation>, key: &Key) -> Result<Option<Place>, EngineFault>
    ensures { engine.new.store.disk.ghost_name ≡ engine.old.store.disk.ghost_name }
{
    engine.show(key)
}

// Whether a place is the one that is stored by `store_one`.
fn is_stored(place: &Place) -> bool {
    match place.words.pairs() {
        [(word, impact)] => {
            Point::new(-1, 2) == Some(place.point) && word.text() == "café" && *impact == 9
        }
        _ => false,
    }
}

// Whether a place is shown at a key, and is the one that is stored.
fn shows_stored(engine: &mut Engine<'_, MemoryStation>, key: &Key) -> bool
    ensures { engine.new.store.disk.ghost_name ≡ engine.old.store.disk.ghost_name }
{
    match shown(engine, key) {
        Ok(Some(place)) => is_stored(&place),
        _ => false,
    }
}

// Whether no place is shown at a key.
fn shows_none(engine: &mut Engine<'_, MemoryStation>, key: &Key) -> bool
    ensures { engine.new.store.disk.ghost_name ≡ engine.old.store.disk.ghost_name }
{
    matches!(shown(engine, key), Ok(None))
}

// Whether two bytes are printed, and one page is in the log before and after that.
fn says_two(engine: &mut Engine<'_, MemoryStation>) -> bool
    ensures { engine.new.store.disk.ghost_name ≡ engine.old.store.disk.ghost_name }
{
    let before = engine.read_log().len();
    engine.say(b"ok") == Ok(2) && before == 1 && engine.read_log().len() == 1
}

// While an engine lives nothing returns early: its loan is given back by `close` or `into_disk`.

// Whether only the stored place is shown, the engine prints something, and is closed.
fn shows_in(alloc: Global, station: &mut MemoryStation) -> Result<bool, Fail> {
    let (here, nowhere) = (key("a")?, key("b")?);
    let policy = Box::new(alloc, Quadratic::new())?;
    let mut engine = opened(alloc, station, 0, policy)?;
    let is_shown = shows_stored(&mut engine, &here);
    let is_none = shows_none(&mut engine, &nowhere);
    let is_said = says_two(&mut engine);
    let closed = engine.close();
    Ok(is_shown && is_none && is_said && closed == Ok(()))
}

#[test]
fn a_stored_place_is_shown_with_its_words(rt: HostRuntime) -> Result<(), Fail> {
    let mut station = MemoryStation::new(rt.alloc(), 9);
    store_one(rt.alloc(), &mut station)?;
    assert!(rt; shows_in(rt.alloc(), &mut station)?);
    Ok(())
}

// Whether so many places live in a store, or it is refused so.
fn counts(
    alloc: Global,
    station: &mut MemoryStation,
    wanted: Result<u32, EngineFault>,
) -> Result<bool, Fail> {
    let policy = Box::new(alloc, Quadratic::new())?;
    let engine = match opened(alloc, station, 0, policy) {
        Ok(engine) => engine,
        Err(fault) => return Ok(wanted == Err(fault)),
    };
    let count = engine.count();
    let _loan = engine.into_disk();
    Ok(wanted == Ok(count))
}

#[test]
fn an_area_of_other_bytes_is_no_store(rt: HostRuntime) -> Result<(), Fail> {
    let mut station = MemoryStation::with_image(rt.alloc(), &[120; 4096], b"", 9)?;
    assert!(rt; counts(rt.alloc(), &mut station, Err(EngineFault::NotAStore))?);
    let mut older = MemoryStation::with_image(rt.alloc(), b"IRTREE01", b"", 9)?;
    assert!(rt; counts(rt.alloc(), &mut older, Err(EngineFault::Version1))?);
    let mut empty = MemoryStation::new(rt.alloc(), 9);
    assert!(rt; counts(rt.alloc(), &mut empty, Ok(0))?);
    Ok(())
}

// Whether a place is put, put again, and looked for in vain to be removed under another key. Then comes a batch by which another place
// takes its place.
fn applies(alloc: Global, engine: &mut Engine<'_, MemoryStation>) -> Result<bool, Fail>
    ensures { engine.new.store.disk.ghost_name ≡ engine.old.store.disk.ghost_name }
{
    let first = put(alloc, "a", "café")?;
    let absent = Update::Remove { key: key("b")? };
    let batch = [put(alloc, "b", "bar")?, Update::Remove { key: key("a")? }];
    Ok(
        applied(engine, &first) == Ok(Applied::New)
            && applied(engine, &first) == Ok(Applied::Replaced)
            && applied(engine, &absent) == Ok(Applied::Absent)
            && engine.apply_batch(&batch) == Ok(())
            && engine.settle() == Ok(()),
    )
}

// Whether the engine over a store applies these updates so, without a split.
fn applies_in(alloc: Global, station: &mut MemoryStation) -> Result<bool, Fail> {
    let policy = Box::new(alloc, Quadratic::new())?;
    let mut engine = opened(alloc, station, 0, policy)?;
    let applies = applies(alloc, &mut engine);
    let splits = engine.splits();
    let _loan = engine.into_disk();
    Ok(applies? && splits == 0)
}

// Whether the places nearest to a point are one alone, at a key.
fn is_nearest(engine: &mut Engine<'_, MemoryStation>, key: &Key) -> Result<bool, Fail>
    ensures { engine.new.store.disk.ghost_name ≡ engine.old.store.disk.ghost_name }
{
    let query = Query::Nearest {
        at: Point::new(0, 0).ok_or("off the map")?,
        scale: SCALE_MAX,
        k: 2,
        filter: None,
    };
    if !query.is_within_limits() {
        return Err("not within the limits".into());
    }
    match answered(engine, &query)? {
        Answer::Hits(hits) => match hits.as_slice() {
            [hit] => Ok(hit.key == *key),
            _ => Ok(false),
        },
        Answer::Group(_) => Ok(false),
    }
}

// Whether a store has only the other place, when it is opened under another policy.
fn stands_in(alloc: Global, station: &mut MemoryStation) -> Result<bool, Fail> {
    let (gone, here) = (key("a")?, key("b")?);
    let policy = Box::new(alloc, Halving::new())?;
    let mut engine = opened(alloc, station, 0, policy)?;
    let is_none = shows_none(&mut engine, &gone);
    let is_nearest = is_nearest(&mut engine, &here);
    let count = engine.count();
    let _loan = engine.into_disk();
    Ok(is_nearest? && is_none && count == 1)
}

#[test]
fn what_was_applied_stands_after_reopening(rt: HostRuntime) -> Result<(), Fail> {
    let mut station = MemoryStation::new(rt.alloc(), 30);
    assert!(rt; applies_in(rt.alloc(), &mut station)?);
    assert!(rt; stands_in(rt.alloc(), &mut station)?);
    Ok(())
}

// Puts 33 places on a line from west to east, a degree apart, and returns how many splits the policy made before the last of them and
// after it. Each has the word "x", and t00 is at longitude 0.
fn splits_on_a_line(
    alloc: Global,
    engine: &mut Engine<'_, MemoryStation>,
) -> Result<(u64, u64), Fail>
    ensures { engine.new.store.disk.ghost_name ≡ engine.old.store.disk.ghost_name }
{
    let mut before = engine.splits();
    for x in 0..33u8 {
        let name = format!(in alloc; "t{x:02}")?;
        let update = Update::Put {
            key: Some(key(name.as_str())?),
            point: Point::new(10_000_000 * i32::from(x), 0).ok_or("off the map")?,
            words: impacts(alloc, "x")?,
            label: Label::of_text("x"),
        };
        before = engine.splits();
        applied(engine, &update)?;
    }
    Ok((before, engine.splits()))
}

// Puts the places on a line into a store: whether the last one splits the tree, and another policy has made no split.
pub(crate) fn splits_in(alloc: Global, station: &mut MemoryStation) -> Result<bool, Fail> {
    let policy = Box::new(alloc, Halving::new())?;
    let another = Box::new(alloc, Quadratic::new())?;
    let mut engine = opened(alloc, station, 64, policy)?;
    let splits = splits_on_a_line(alloc, &mut engine);
    engine.set_policy(another);
    let then = engine.splits();
    let count = engine.count();
    let _loan = engine.into_disk();
    Ok(splits? == (0, 1) && then == 0 && count == 33)
}

#[test]
fn the_policy_that_is_handed_in_splits_the_tree(rt: HostRuntime) -> Result<(), Fail> {
    let mut station = MemoryStation::new(rt.alloc(), 90);
    assert!(rt; splits_in(rt.alloc(), &mut station)?);
    Ok(())
}
