//! The linked list of values with ids.
use lb_links::Links;

#[test]
fn links_are_moved_to_the_front(rt: HostRuntime) {
    let mut links: Links<u32> = Links::new(rt.alloc());
    assert!(rt; links.reserve(2).is_ok());
    links.push_front(7, 1);
    links.push_front(3, 2);
    assert!(rt; links.back() == Some(7) && links.before(7) == Some(3) && links.before(3).is_none());
    links.to_front(7);
    assert!(rt; links.back() == Some(3) && links.before(3) == Some(7));
    assert!(rt; links.set(3, 4) == 2 && links.get(3).copied() == Some(4));
    assert!(rt; links.remove(7) == Some(1) && links.get(7).is_none() && links.before(3).is_none());
}
