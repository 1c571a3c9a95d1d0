use page_face::{MemoryPages, PageFault, Pages, Rule, free_next, free_page};

// Whether pages that are given back are taken again before others, the last one first.
fn are_taken_first(pages: &mut MemoryPages) -> bool {
    pages.take() == Ok(1)
        && pages.take() == Ok(2)
        && pages.take() == Ok(3)
        && pages.take() == Err(PageFault::NoRoom)
        && pages.give_back(1) == Ok(())
        && pages.give_back(2) == Ok(())
        && pages.first_free() == 2
        && pages.take() == Ok(2)
        && pages.take() == Ok(1)
        && pages.counted() == 4
}

#[test]
fn a_page_given_back_is_taken_first(rt: HostRuntime) {
    let mut pages = MemoryPages::new(rt.alloc(), 4);
    assert!(rt; are_taken_first(&mut pages));
}

#[test]
fn a_free_page_has_the_stated_bytes(rt: HostRuntime) {
    let page = free_page(258);
    assert!(rt;
        &page[..9] == [4, 0, 0, 0, 0, 0, 1, 2, 0].as_slice() && free_next(&page) == Ok(258)
    );
    let mut broken = page;
    broken[4095] = 1;
    assert!(rt; free_next(&broken) == Err(Rule::Spare));
    broken[0] = 1;
    assert!(rt; free_next(&broken) == Err(Rule::Kind));
}
