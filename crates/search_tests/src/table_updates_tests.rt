//! A place that is put, put again and taken out, over tables that begin empty.
use indexmap::IndexMap;
use page_face::MemoryPages;
use place_values::Update;
use spatial_base::{Key, Point};
use std::alloc::Global;
use std::fmt::Write;
use std::test::Fail;
use store_tables::Tables;
use table_updates::{gather_words, hold_words, place_at, put_held, put_place, remove_place};
use term_impacts::{Label, Word, impacts};

static NO_TABLES: Tables = Tables {
    places: 0,
    texts: 0,
    numbers: 0,
    next_word: 1,
};

// Puts a place with the words and the label of a text at a key.
fn put(
    alloc: Global,
    pages: &mut MemoryPages,
    tables: &mut Tables,
    key: &Key,
    text: &str,
) -> Result<(), Fail> {
    if tables.next_word >= 100 {
        return Err(Fail::from("too many words"));
    }
    let old = tables.place(pages, key)?;
    let point = Point::new(5, 6).ok_or("off the map")?;
    let words = impacts(alloc, text)?;
    let label = Label::of_text(text);
    put_place(
        alloc,
        pages,
        tables,
        key,
        old.as_ref(),
        point,
        &words,
        label,
    )?;
    Ok(())
}

// Whether the place at a key has this label and these words, as `label: ` and then `word impact` after one another; at "" whether none
// lives there.
fn readable(
    alloc: Global,
    pages: &mut MemoryPages,
    tables: &Tables,
    key: &Key,
    wanted: &str,
) -> Result<bool, Fail> {
    let mut out = String::new(alloc);
    if let Some(place) = place_at(alloc, pages, tables, key)? {
        write!(out, "{}: ", place.label.text())?;
        for (word, impact) in place.words.pairs() {
            write!(out, "{} {impact} ", word.text())?;
        }
    }
    Ok(out.as_str() == wanted)
}

// Whether no word has this number.
fn is_free(pages: &mut MemoryPages, tables: &Tables, number: u64) -> Result<bool, Fail> {
    Ok(tables.word_of(pages, number)?.is_none())
}

// Takes out the place at a key.
fn take_out(pages: &mut MemoryPages, tables: &mut Tables, key: &Key) -> Result<(), Fail> {
    let stored = tables.place(pages, key)?.ok_or("no place")?;
    remove_place(pages, tables, key, &stored)?;
    Ok(())
}

// Puts a place twice and takes it out: whether it has the words that it should, and each word goes with it.
fn put_twice(alloc: Global, pages: &mut MemoryPages, tables: &mut Tables) -> Result<bool, Fail> {
    let key = key_of("ab")?;
    put(alloc, pages, tables, &key, "tea cake")?;
    if !readable(alloc, pages, tables, &key, "tea cake: cake 128 tea 128 ")? {
        return Ok(false);
    }

    // Cake had number 1 and goes; tea keeps number 2, and art is given 3.
    put(alloc, pages, tables, &key, "art tea art")?;
    if !readable(alloc, pages, tables, &key, "art tea art: art 170 tea 85 ")?
        || tables.next_word != 4
    {
        return Ok(false);
    }
    let is_gone = is_free(pages, tables, 1)?;
    take_out(pages, tables, &key)?;
    Ok(
        is_gone
            && readable(alloc, pages, tables, &key, "")?
            && is_free(pages, tables, 2)?
            && is_free(pages, tables, 3)?,
    )
}

#[test]
fn a_word_goes_with_the_last_place_that_holds_it(rt: HostRuntime) -> Result<(), Fail> {
    let mut pages = MemoryPages::new(rt.alloc(), 100);
    let mut tables = NO_TABLES;
    assert!(rt; put_twice(rt.alloc(), &mut pages, &mut tables)?);
    Ok(())
}

fn key_of(name: &str) -> Result<Key, Fail> {
    Ok(Key::of_text(name).map_err(|_| "no key")?)
}

// Puts a place with the words and the label of a text.
fn update(alloc: Global, name: &str, text: &str) -> Result<Update, Fail> {
    Ok(Update::Put {
        key: Some(key_of(name)?),
        point: Point::new(5, 6).ok_or("off the map")?,
        words: impacts(alloc, text)?,
        label: Label::of_text(text),
    })
}

// Holds the words of a batch, and returns their numbers.
fn held(
    alloc: Global,
    pages: &mut MemoryPages,
    tables: &mut Tables,
    updates: &[Update; 3],
) -> Result<IndexMap<Word, u64>, Fail> {
    let counts = gather_words(alloc, updates)?;
    if counts.len() != 3 || tables.next_word >= 100 {
        return Err(Fail::from("not three words"));
    }
    Ok(hold_words(alloc, pages, tables, &counts)?)
}

// Puts the place of an update whose words were held.
fn put_next(
    alloc: Global,
    pages: &mut MemoryPages,
    tables: &mut Tables,
    next: &Update,
    numbers: &IndexMap<Word, u64>,
) -> Result<(), Fail> {
    let Update::Put {
        key: Some(key),
        point,
        words,
        label,
    } = next
    else {
        return Err(Fail::from("no place is put"));
    };
    let old = tables.place(pages, key)?;
    put_held(
        alloc,
        pages,
        tables,
        key,
        old.as_ref(),
        *point,
        words,
        *label,
        numbers,
    )?;
    Ok(())
}

// Puts three places of a batch whose words are held ahead: cake has number 1, tea 2 and art 3, in the order in which they come.
fn put_batch(alloc: Global, pages: &mut MemoryPages, tables: &mut Tables) -> Result<(), Fail> {
    let batch = [
        update(alloc, "a", "tea cake")?,
        update(alloc, "b", "tea")?,
        update(alloc, "a", "art tea")?,
    ];
    let numbers = held(alloc, pages, tables, &batch)?;
    for next in &batch {
        put_next(alloc, pages, tables, next, &numbers)?;
    }
    Ok(())
}

// Takes out two places that hold tea: whether it stays until the last one goes, and art goes with that one.
fn take_both(pages: &mut MemoryPages, tables: &mut Tables) -> Result<bool, Fail> {
    for name in ["a", "b"] {
        if is_free(pages, tables, 2)? {
            return Ok(false);
        }
        take_out(pages, tables, &key_of(name)?)?;
    }
    Ok(is_free(pages, tables, 2)? && is_free(pages, tables, 3)?)
}

#[test]
fn a_word_of_a_batch_is_held_by_as_many_places_as_keep_it(rt: HostRuntime) -> Result<(), Fail> {
    let mut pages = MemoryPages::new(rt.alloc(), 100);
    let mut tables = NO_TABLES;
    put_batch(rt.alloc(), &mut pages, &mut tables)?;
    let key = key_of("a")?;
    assert!(rt;
        readable(
            rt.alloc(),
            &mut pages,
            &tables,
            &key,
            "art tea: art 128 tea 128 "
        )?
    );

    // Cake went with the first place, and tea goes with the last one.
    assert!(rt; is_free(&mut pages, &tables, 1)? && take_both(&mut pages, &mut tables)?);
    Ok(())
}
