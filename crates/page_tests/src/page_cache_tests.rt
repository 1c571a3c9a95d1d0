//! A cache of two pages, one of none, and seals that are noted and dropped.
use page_cache::{Cache, Seals};
use page_face::Seal;
use std::test::Fail;

// A page, and the first byte of it that is lent.
static LOOKS: [(u32, Option<u8>); 3] = [(2, None), (1, Some(11)), (3, Some(13))];

// The first byte of a page that is lent.
fn looked_at(cache: &mut Cache, page: u32) -> Option<u8> {
    if !cache.look(page) {
        return None;
    }
    Some(cache.looked()?[0])
}

// Keeps the pages 1 and 2, looks at page 1 and keeps page 3. Returns whether all that succeeded.
fn keep_three(cache: &mut Cache) -> bool {
    cache.keep(1, &[11; 4096]).is_ok()
        && cache.keep(2, &[12; 4096]).is_ok()
        && cache.look(1)
        && cache.keep(3, &[13; 4096]).is_ok()
}

#[test]
fn the_page_used_least_recently_is_dropped(rt: HostRuntime) -> Result<(), Fail> {
    let mut cache = Cache::new(rt.alloc(), 2)?;
    assert!(rt; keep_three(&mut cache));
    for (page, byte) in &LOOKS {
        assert_eq!(rt; looked_at(&mut cache, *page), *byte);
    }
    cache.forget(3);
    assert_eq!(rt; looked_at(&mut cache, 3), None);
    Ok(())
}

#[test]
fn a_cache_of_no_page_holds_none(rt: HostRuntime) {
    let mut cache = Cache::empty(rt.alloc());
    assert_eq!(rt; cache.keep(1, &[11; 4096]), Ok(()));
    assert_eq!(rt; looked_at(&mut cache, 1), None);
}

#[test]
fn a_seal_stays_until_it_is_dropped(rt: HostRuntime) {
    let seal = Seal {
        map: 1,
        key: 12,
        value: 32,
        level: 0,
    };
    let mut seals = Seals::new(rt.alloc());
    seals.note(1, seal);
    assert!(rt; seals.has(1, seal));
    // Page 65,537 has the slot of page 1.
    seals.note(65_537, seal);
    assert!(rt; !seals.has(1, seal));
    seals.forget(1);
    assert!(rt; seals.has(65_537, seal));
    seals.forget(65_537);
    assert!(rt; !seals.has(65_537, seal));
    seals.note(1, seal);
    seals.clear();
    assert!(rt; !seals.has(1, seal));
}
