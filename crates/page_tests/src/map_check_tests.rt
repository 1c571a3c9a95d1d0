use crate::paged_map_tests::{Change, Wide, change_four, take_four};
use page_face::{Damage, MemoryPages, PageFault, Pages, Rule, free_page};
use page_walks::{Check, first_lost, walk_free};
use paged_map::PagedMap;
use std::alloc::Global;
use std::collections::BTreeSet;

// The result of a check of the map of four rows once these bytes of it are changed, and how many pages it met.
fn check_changed(
    alloc: Global,
    pages: &mut MemoryPages,
    changes: &[Change],
) -> Result<(Option<Damage>, usize), PageFault> {
    change_four(pages, changes)?;
    let map: PagedMap<Wide> = PagedMap::at(3);
    let mut seen = BTreeSet::new(alloc);
    let found = map.check(pages, &mut seen)?;
    Ok((found, seen.len()))
}

// Bytes of the map of four rows that are changed, and the page and the rule that are then named.
struct Broken {
    changes: &'static [Change],
    page: u32,
    rule: Rule,
}

static BROKEN: [Broken; 14] = [
    // the second child is the page after the last one
    Broken {
        changes: &[(3, 533, 6)],
        page: 6,
        rule: Rule::Link,
    },
    // the second child is page 0
    Broken {
        changes: &[(3, 533, 0)],
        page: 0,
        rule: Rule::Link,
    },
    // a map of another number
    Broken {
        changes: &[(2, 1, 8)],
        page: 2,
        rule: Rule::Kind,
    },
    // an inner page in the place of a leaf
    Broken {
        changes: &[(2, 0, 2)],
        page: 2,
        rule: Rule::Kind,
    },
    // one row in a leaf
    Broken {
        changes: &[(2, 3, 1)],
        page: 2,
        rule: Rule::Fill,
    },
    // five rows, which don't fit
    Broken {
        changes: &[(2, 3, 5)],
        page: 2,
        rule: Rule::Fill,
    },
    // the keys of leaf 2 are 6 and 6
    Broken {
        changes: &[(2, 1290, 6)],
        page: 2,
        rule: Rule::Order,
    },
    // the keys of leaf 1 are 2 and 6, as is the first one of leaf 2
    Broken {
        changes: &[(1, 1290, 6)],
        page: 1,
        rule: Rule::Order,
    },
    // the keys of leaf 2 are 5 and 8, and its lower bound is 6
    Broken {
        changes: &[(2, 270, 5)],
        page: 2,
        rule: Rule::Order,
    },
    // both keys of the root are 0
    Broken {
        changes: &[(3, 529, 0)],
        page: 3,
        rule: Rule::Order,
    },
    // a byte after the rows
    Broken {
        changes: &[(2, 2056, 1)],
        page: 2,
        rule: Rule::Spare,
    },
    // a leaf of level 1
    Broken {
        changes: &[(2, 4, 1)],
        page: 2,
        rule: Rule::Level,
    },
    // both children are page 1
    Broken {
        changes: &[(3, 533, 1)],
        page: 1,
        rule: Rule::Shared,
    },
    // the root is of level 255, and the child of itself
    Broken {
        changes: &[(3, 4, 255), (3, 274, 3)],
        page: 3,
        rule: Rule::Shared,
    },
];

#[test]
fn a_map_is_whole_or_a_page_is_named_with_its_rule(rt: HostRuntime) {
    let mut pages = MemoryPages::new(rt.alloc(), 8);
    assert_eq!(rt; take_four(&mut pages), Ok(()));
    assert_eq!(rt; pages.take(), Ok(4));
    assert_eq!(rt; pages.take(), Ok(5));
    assert_eq!(rt; check_changed(rt.alloc(), &mut pages, &[]), Ok((None, 3)));
    for Broken {
        changes,
        page,
        rule,
    } in &BROKEN {
        let damage = Damage {
            page: *page,
            rule: *rule,
        };
        let checked = check_changed(rt.alloc(), &mut pages, changes).map(|found| found.0);
        assert_eq!(rt; checked, Ok(Some(damage)));
    }
}

// Walks the free list beside the map of four rows. Returns the first page that neither has.
fn lost_page(alloc: Global, pages: &mut MemoryPages) -> Result<Option<u32>, PageFault> {
    let map: PagedMap<Wide> = PagedMap::at(3);
    let mut seen = BTreeSet::new(alloc);
    let _whole = map.check(pages, &mut seen)?;
    walk_free(pages, &mut seen)?;
    Ok(first_lost(&seen, pages.counted()))
}

#[test]
fn the_free_list_is_walked_and_a_lost_page_is_found(rt: HostRuntime) {
    let mut pages = MemoryPages::new(rt.alloc(), 8);
    assert_eq!(rt; take_four(&mut pages), Ok(()));
    assert_eq!(rt; pages.take(), Ok(4));
    assert_eq!(rt; pages.take(), Ok(5));
    assert_eq!(rt; lost_page(rt.alloc(), &mut pages), Ok(Some(4)));
    assert_eq!(rt; pages.give_back(4), Ok(()));
    assert_eq!(rt; lost_page(rt.alloc(), &mut pages), Ok(Some(5)));
    assert_eq!(rt; pages.give_back(5), Ok(()));
    assert_eq!(rt; lost_page(rt.alloc(), &mut pages), Ok(None));
}

static CHAINS: [(u32, u32, Rule); 3] = [
    (5, 5, Rule::Shared),
    (1, 1, Rule::Shared),
    (9, 9, Rule::Link),
];

#[test]
fn a_broken_free_list_is_named_with_its_rule(rt: HostRuntime) {
    let mut pages = MemoryPages::new(rt.alloc(), 8);
    assert_eq!(rt; take_four(&mut pages), Ok(()));
    for page in [4, 5] {
        assert_eq!(rt; pages.take(), Ok(page));
    }
    for page in [4, 5] {
        assert_eq!(rt; pages.give_back(page), Ok(()));
    }
    for (next, page, rule) in &CHAINS {
        assert_eq!(rt; pages.write(4, &free_page(*next)), Ok(()));
        let damage = Damage {
            page: *page,
            rule: *rule,
        };
        assert_eq!(rt;
            lost_page(rt.alloc(), &mut pages),
            Err(PageFault::Damaged(damage))
        );
    }
}
