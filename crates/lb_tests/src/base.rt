//! Lists with and without room.
use lb_base::{Buffer, Items, Mask};
use std::alloc::Global;

#[test]
fn lists_grow(rt: HostRuntime) {
    let mut masks = Items::new(rt.alloc());
    assert!(rt; masks.is_empty());
    assert!(rt; masks.push(Mask::one(3)).is_ok());
    assert!(rt; masks.push(Mask::one(1)).is_ok());
    assert!(rt; masks.len() == 2 && *masks.get(0) == Mask { bits: 8 });
    masks.set(0, Mask::one(2));
    assert!(rt; are_two_and_one(masks.as_slice()));
}

#[test]
fn lists_are_copied(rt: HostRuntime) {
    let masks = [Mask::one(2), Mask::one(1)];
    assert!(rt; is_copied(rt.alloc(), &masks));
}

#[test]
fn buffers_grow_into_their_room(rt: HostRuntime) {
    let mut masks = Buffer::new(rt.alloc());
    assert!(rt; masks.reserve(2).is_ok());
    masks.push_reserved(Mask::one(3));
    masks.push_reserved(Mask::one(1));
    masks.set(0, Mask::one(2));
    assert!(rt; are_two_and_one(masks.as_slice()));
}

fn are_two_and_one(masks: &[Mask]) -> bool {
    masks == [Mask::one(2), Mask::one(1)].as_slice()
}

fn is_copied(alloc: Global, masks: &[Mask]) -> bool {
    match Items::from_slice(alloc, masks) {
        Ok(same) => same.as_slice() == masks,
        Err(_) => false,
    }
}
