//! Tables of one leaf each, whose bytes were worked out by hand from the format.
use page_face::{Damage, MemoryPages, Page, PageFault, Pages, Rule};
use spatial_base::{Key, Point};
use std::test::Fail;
use store_tables::Tables;
use term_impacts::Word;

// The key ab: kind 0, the text, 62 zero bytes, and the length.
static KEY: [u8; 66] = [
    0, 0x61, 0x62, 0, 0, 0, 0, 0, 0, 0, 0, 0, 0, 0, 0, 0, 0, 0, 0, 0, 0, 0, 0, 0, 0, 0, 0, 0, 0, 0,
    0, 0, 0, 0, 0, 0, 0, 0, 0, 0, 0, 0, 0, 0, 0, 0, 0, 0, 0, 0, 0, 0, 0, 0, 0, 0, 0, 0, 0, 0, 0, 0,
    0, 0, 0, 2,
];

// The place at longitude -1 and latitude 2 of one word, number 7 with impact 9; zeros follow.
static PLACE: [u8; 18] = [
    0xff, 0xff, 0xff, 0xff, 0, 0, 0, 2, 1, 0, 0, 0, 0, 0, 0, 0, 7, 9,
];

// The word café, its form's 27 zero bytes and its length.
static CAFE: [u8; 33] = [
    0x63, 0x61, 0x66, 0xc3, 0xa9, 0, 0, 0, 0, 0, 0, 0, 0, 0, 0, 0, 0, 0, 0, 0, 0, 0, 0, 0, 0, 0, 0,
    0, 0, 0, 0, 0, 5,
];

static SEVEN: [u8; 8] = [0, 0, 0, 0, 0, 0, 0, 7];

static ONE_PLACE: [u8; 4] = [0, 0, 0, 1];

// Writes bytes at a place of a page.
fn write(page: &mut Page, at: usize, bytes: &[u8]) {
    for (to, from) in page.iter_mut().skip(at).zip(bytes) {
        *to = *from;
    }
}

// A leaf of a map with one row, whose value is given in two pieces.
fn leaf(map: u8, key: &[u8], value: &[u8], more: &[u8]) -> Page {
    let mut page = [0; 4096];
    write(&mut page, 0, &[1, map, 0, 1]);
    write(&mut page, 16, key);
    write(&mut page, key.len().saturating_add(16), value);
    write(
        &mut page,
        key.len().saturating_add(value.len()).saturating_add(16),
        more,
    );
    page
}

// A page of these bytes.
fn put(pages: &mut MemoryPages, bytes: &Page) -> Result<u32, PageFault> {
    let page = pages.take()?;
    pages.write(page, bytes)?;
    Ok(page)
}

// The three tables with a row each.
fn tables(pages: &mut MemoryPages, place: &[u8]) -> Result<Tables, PageFault> {
    Ok(Tables {
        places: put(pages, &leaf(5, &KEY, place, &[]))?,
        texts: put(pages, &leaf(2, &CAFE, &SEVEN, &[]))?,
        numbers: put(pages, &leaf(3, &SEVEN, &CAFE, &ONE_PLACE))?,
        next_word: 8,
    })
}

static NO_TABLES: Tables = Tables {
    places: 0,
    texts: 0,
    numbers: 0,
    next_word: 1,
};

// Whether the word café and its number are found.
fn finds_word(pages: &mut MemoryPages, cafe: &Word) -> Result<bool, PageFault> {
    let tables = tables(pages, &PLACE)?;
    Ok(
        tables.number_of(pages, cafe)? == Some(7)
            && tables.word_of(pages, 7)? == Some(*cafe)
            && tables.places_of(pages, 7)? == 1
            && tables.places_of(pages, 8)? == 0,
    )
}

// Whether the place is found at its key.
fn finds_place(pages: &mut MemoryPages, key: &Key) -> Result<bool, PageFault> {
    let tables = tables(pages, &PLACE)?;
    let Some(stored) = tables.place(pages, key)? else {
        return Ok(false);
    };
    Ok(Some(stored.point) == Point::new(-1, 2) && stored.count == 1 && stored.pairs[0] == (7, 9))
}

#[test]
fn rows_are_found(rt: HostRuntime) -> Result<(), Fail> {
    let key = Key::of_text("ab")?;
    let cafe = Word::of_bytes(&CAFE).ok_or("no word")?;
    let mut pages = MemoryPages::new(rt.alloc(), 10);
    assert_eq!(rt; finds_word(&mut pages, &cafe), Ok(true));
    assert_eq!(rt; finds_place(&mut pages, &key), Ok(true));
    Ok(())
}

// Whether the place at a key is the first of all and the first after another key, and none follows it.
fn follows(pages: &mut MemoryPages, key: &Key, before: &Key) -> Result<bool, PageFault> {
    let tables = tables(pages, &PLACE)?;
    let Some(stored) = tables.place(pages, key)? else {
        return Ok(false);
    };
    let entry = Some((*key, stored));
    Ok(
        tables.next_place(pages, None)? == entry
            && tables.next_place(pages, Some(before))? == entry
            && tables.next_place(pages, Some(key))?.is_none(),
    )
}

#[test]
fn places_follow_one_another(rt: HostRuntime) -> Result<(), Fail> {
    let key = Key::of_text("ab")?;
    let before = Key::of_text("aa")?;
    let mut pages = MemoryPages::new(rt.alloc(), 10);
    assert_eq!(rt; follows(&mut pages, &key, &before), Ok(true));
    Ok(())
}

// Puts the place at one key at another key, twice. Returns whether it was there only the second time, and is found.
fn puts(
    pages: &mut MemoryPages,
    tables: &mut Tables,
    from: &Key,
    to: &Key,
) -> Result<bool, PageFault> {
    let Some(stored) = tables.place(pages, from)? else {
        return Ok(false);
    };
    Ok(
        !tables.put_place(pages, to, &stored)?
            && tables.put_place(pages, to, &stored)?
            && tables.place(pages, to)? == Some(stored),
    )
}

// Removes a place twice. Returns whether it was there only the first time, and isn't found.
fn removes(pages: &mut MemoryPages, tables: &mut Tables, key: &Key) -> Result<bool, PageFault> {
    Ok(
        tables.remove_place(pages, key)?
            && !tables.remove_place(pages, key)?
            && tables.place(pages, key)?.is_none(),
    )
}

#[test]
fn a_place_that_was_put_is_found_until_it_is_removed(rt: HostRuntime) -> Result<(), Fail> {
    let key = Key::of_text("ab")?;
    let mut pages = MemoryPages::new(rt.alloc(), 10);
    let mut tables = tables(&mut pages, &PLACE)?;
    assert_eq!(rt;
        puts(&mut pages, &mut tables, &key, &Key::auto(1)),
        Ok(true)
    );
    assert_eq!(rt; removes(&mut pages, &mut tables, &key), Ok(true));
    assert_eq!(rt; removes(&mut pages, &mut tables, &Key::auto(1)), Ok(true));
    Ok(())
}

// Whether empty tables have no place and no word.
fn finds_nothing(pages: &mut MemoryPages, key: &Key) -> Result<bool, PageFault> {
    Ok(
        NO_TABLES.place(pages, key)?.is_none()
            && NO_TABLES.next_place(pages, None)?.is_none()
            && NO_TABLES.word_of(pages, 1)?.is_none(),
    )
}

#[test]
fn empty_tables_hold_nothing(rt: HostRuntime) {
    let mut pages = MemoryPages::new(rt.alloc(), 10);
    assert_eq!(rt; finds_nothing(&mut pages, &Key::auto(1)), Ok(true));
}

#[test]
fn a_row_of_no_place_is_damaged(rt: HostRuntime) -> Result<(), Fail> {
    let key = Key::of_text("ab")?;
    let mut place = PLACE;
    place[8] = 65;
    let mut pages = MemoryPages::new(rt.alloc(), 10);
    let tables = tables(&mut pages, &place)?;
    let damage = Damage {
        page: tables.places,
        rule: Rule::Value,
    };
    assert!(rt; tables.place(&mut pages, &key) == Err(PageFault::Damaged(damage)));
    assert!(rt; tables.next_place(&mut pages, None) == Err(PageFault::Damaged(damage)));
    Ok(())
}

// The words tea, cake and art.
const TEA: [u8; 33] = [
    0x74, 0x65, 0x61, 0, 0, 0, 0, 0, 0, 0, 0, 0, 0, 0, 0, 0, 0, 0, 0, 0, 0, 0, 0, 0, 0, 0, 0, 0, 0,
    0, 0, 0, 3,
];

const CAKE: [u8; 33] = [
    0x63, 0x61, 0x6b, 0x65, 0, 0, 0, 0, 0, 0, 0, 0, 0, 0, 0, 0, 0, 0, 0, 0, 0, 0, 0, 0, 0, 0, 0, 0,
    0, 0, 0, 0, 4,
];

const ART: [u8; 33] = [
    0x61, 0x72, 0x74, 0, 0, 0, 0, 0, 0, 0, 0, 0, 0, 0, 0, 0, 0, 0, 0, 0, 0, 0, 0, 0, 0, 0, 0, 0, 0,
    0, 0, 0, 3,
];

// Words that are held one after another, and their numbers.
static HELD: [([u8; 33], u64); 4] = [(TEA, 1), (CAKE, 2), (TEA, 1), (ART, 3)];

static DISAGREEMENT: PageFault = PageFault::Damaged(Damage {
    page: 0,
    rule: Rule::Words,
});

// Holds the words, and returns whether each has its number.
fn hold_all(pages: &mut MemoryPages, tables: &mut Tables) -> Result<bool, PageFault> {
    let mut are_so = true;
    for (form, number) in &HELD {
        let Some(word) = Word::of_bytes(form) else {
            return Ok(false);
        };
        if tables.next_word >= 100 {
            return Ok(false);
        }
        are_so &= tables.hold(pages, &word, 1)? == *number;
    }
    Ok(are_so)
}

// Releases the word of a number twice, and returns which number the word has after each time.
fn released(
    pages: &mut MemoryPages,
    tables: &mut Tables,
    word: &Word,
) -> Result<[Option<u64>; 2], PageFault> {
    tables.release(pages, 1)?;
    let once = tables.number_of(pages, word)?;
    tables.release(pages, 1)?;
    let twice = tables.number_of(pages, word)?;
    Ok([once, twice])
}

#[test]
fn a_word_keeps_its_number_and_goes_with_its_last_place(rt: HostRuntime) -> Result<(), Fail> {
    let tea = Word::of_bytes(&TEA).ok_or("no word")?;
    let mut pages = MemoryPages::new(rt.alloc(), 10);
    let mut tables = NO_TABLES;
    assert_eq!(rt; hold_all(&mut pages, &mut tables), Ok(true));
    assert_eq!(rt; tables.places_of(&mut pages, 1), Ok(2));
    assert_eq!(rt; tables.places_of(&mut pages, 2), Ok(1));
    assert_eq!(rt;
        released(&mut pages, &mut tables, &tea),
        Ok([Some(1), None])
    );
    assert_eq!(rt; tables.release(&mut pages, 1), Err(DISAGREEMENT));
    assert_eq!(rt; tables.word_of(&mut pages, 1), Ok(None));
    assert_eq!(rt; tables.places_of(&mut pages, 1), Ok(0));
    assert_eq!(rt; tables.word_of(&mut pages, 2), Ok(Word::of_bytes(&CAKE)));
    assert_eq!(rt; tables.word_of(&mut pages, 3), Ok(Word::of_bytes(&ART)));
    assert_eq!(rt; tables.next_word, 4);
    Ok(())
}

#[test]
fn tables_of_words_that_disagree_are_damaged(rt: HostRuntime) -> Result<(), Fail> {
    let cafe = Word::of_bytes(&CAFE).ok_or("no word")?;
    let mut pages = MemoryPages::new(rt.alloc(), 10);
    let mut both = Tables {
        next_word: 8,
        ..tables(&mut pages, &PLACE)?
    };
    let mut no_number = Tables { numbers: 0, ..both };
    let mut next_is_known = Tables {
        texts: 0,
        next_word: 7,
        ..both
    };
    assert_eq!(rt; no_number.hold(&mut pages, &cafe, 1), Err(DISAGREEMENT));
    assert_eq!(rt; next_is_known.hold(&mut pages, &cafe, 1), Err(DISAGREEMENT));
    assert_eq!(rt; both.hold(&mut pages, &cafe, 1), Ok(7));
    Ok(())
}
