//! The list in which rows keep their rules.
use dwarf_storage::{ArrayLike, PushError};
use framehop_storage::InPlaceVec;
use std::alloc::{AllocError, Global};

// Three places, of which two have these numbers.
fn list_of<L: ArrayLike<Item = u16>>(
    alloc: Global,
    first: u16,
    second: u16,
) -> Result<L, AllocError> {
    let mut list = L::new_in(alloc)?;
    let _first = list.try_push(first);
    let _second = list.try_push(second);
    Ok(list)
}

/// A list has its items in order, and room for as many as it has places. An item is written over or removed at its place, and places that
/// held items before give none.
#[test]
fn keeps_items_in_order(rt: HostRuntime) {
    let mut list = list_of::<InPlaceVec<u16, 3>>(rt.alloc(), 5, 8).expect(&rt, "memory");
    assert!(rt; list.has_room_for(1) && !list.has_room_for(2));
    assert!(rt; list.try_push(13) == Ok(()));
    assert!(rt; list.try_push(21) == Err(PushError::CapacityFull));
    assert!(rt; list.as_slice() == [5, 8, 13].as_slice());
    assert!(rt; list.pop() == Some(13));
    assert!(rt; list.as_slice() == [5, 8].as_slice());
    match list.item_mut(1) {
        Some(item) => *item = 9,
        None => panic!(rt; "there are two items"),
    }
    assert!(rt; list.item_mut(2).is_none());
    assert!(rt; list.as_slice() == [5, 9].as_slice());
    assert!(rt; list.swap_remove(0) == 5);
    assert!(rt; list.as_slice() == [9].as_slice());
    list.clear();
    assert!(rt; list.as_slice().is_empty() && list.pop() == None && list.has_room_for(3));
    assert!(rt; list.try_push(1) == Ok(()));
    assert!(rt; list.as_slice() == [1].as_slice());
}
