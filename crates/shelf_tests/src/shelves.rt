//! What is put on a shelf is found there.

use shelf::{Shelf, Visit};
use std::alloc::Global;
use std::test::Fail;

/// Puts a value under a key, with room for it taken before.
fn put(shelf: &mut Shelf<u32>, alloc: Global, key: u64, value: u32) -> Result<(), Fail> {
    let value = Box::new(alloc, value)?;
    let room = shelf.room(alloc, 1)?;
    shelf.make_room(room);
    shelf.put(key, value);
    Ok(())
}

#[test]
fn values_are_found_by_their_keys_in_whatever_order_they_came(rt: HostRuntime) -> Result<(), Fail> {
    let mut shelf = Shelf::empty(rt.alloc());
    for (key, value) in [(7, 70), (3, 30), (9, 90), (5, 50)] {
        put(&mut shelf, rt.alloc(), key, value)?;
    }
    assert_eq!(rt; shelf.len(), 4);
    assert_eq!(rt; shelf.get(5).copied(), Some(50));
    assert_eq!(rt; shelf.get(9).copied(), Some(90));
    assert_eq!(rt; shelf.get(6).copied(), None);
    for (place, key) in [(0, 3), (1, 5), (2, 7), (3, 9)] {
        let (found, value) = shelf.at(place).ok_or("an entry")?;
        assert_eq!(rt; found, key);
        assert_eq!(rt; *value, 10 * key as u32);
    }
    assert!(rt; shelf.at(4).is_none());
    Ok(())
}

#[test]
fn values_whose_keys_lie_far_apart_stand_in_the_order_of_their_keys(
    rt: HostRuntime,
) -> Result<(), Fail> {
    let mut shelf = Shelf::empty(rt.alloc());
    let keys = [
        3_000_000_001,
        12_000_000_000,
        1_000_000_002,
        9_000_000_007,
        999_999_999,
        1_000_000_001,
    ];
    for key in keys {
        put(&mut shelf, rt.alloc(), key, (key % 1_000) as u32)?;
    }
    assert_eq!(rt; shelf.len(), 6);
    for key in keys {
        assert_eq!(rt; shelf.get(key).copied(), Some((key % 1_000) as u32));
    }
    let ascending = [
        999_999_999,
        1_000_000_001,
        1_000_000_002,
        3_000_000_001,
        9_000_000_007,
        12_000_000_000,
    ];
    for (place, key) in ascending.into_iter().enumerate() {
        let (found, _value) = shelf.at(place).ok_or("an entry")?;
        assert_eq!(rt; found, key);
    }
    assert!(rt; shelf.at(6).is_none());
    assert!(rt; shelf.get(2_000_000_001).is_none());
    Ok(())
}

#[test]
fn a_value_takes_the_place_of_that_of_its_key(rt: HostRuntime) -> Result<(), Fail> {
    let mut shelf = Shelf::empty(rt.alloc());
    put(&mut shelf, rt.alloc(), 4, 40)?;
    put(&mut shelf, rt.alloc(), 4, 41)?;
    assert_eq!(rt; shelf.len(), 1);
    assert_eq!(rt; shelf.get(4).copied(), Some(41));
    Ok(())
}

#[test]
fn room_that_was_taken_at_the_start_is_enough(rt: HostRuntime) -> Result<(), Fail> {
    let mut shelf = Shelf::with_capacity(rt.alloc(), 2)?;
    let one = Box::new(rt.alloc(), 10)?;
    let two = Box::new(rt.alloc(), 20)?;
    shelf.put(1, one);
    shelf.put(2, two);
    assert_eq!(rt; shelf.get(1).copied(), Some(10));
    assert_eq!(rt; shelf.get(2).copied(), Some(20));
    Ok(())
}

#[test]
fn a_value_is_changed_where_it_stands(rt: HostRuntime) -> Result<(), Fail> {
    let mut shelf = Shelf::empty(rt.alloc());
    put(&mut shelf, rt.alloc(), 2, 20)?;
    put(&mut shelf, rt.alloc(), 1, 10)?;
    *shelf.get_mut(2).ok_or("a value")? = 21;
    assert!(rt; shelf.get_mut(3).is_none());
    assert_eq!(rt; shelf.get(2).copied(), Some(21));
    assert_eq!(rt; shelf.get(1).copied(), Some(10));
    Ok(())
}

/// Adds a number, and stays where it is if that would be too much.
struct Add {
    number: u32,
}

impl Visit<u32> for Add {
    ghost use Rattle.std.specs.Prelude.{◌+◌, min};

    ghost leaves = { λ add value. min (value + add.number) 4294967295 };

    fn visit(&self, value: &mut u32) {
        *value = value.saturating_add(self.number);
    }
}

#[test]
fn each_value_is_visited(rt: HostRuntime) -> Result<(), Fail> {
    let mut shelf = Shelf::empty(rt.alloc());
    for (key, value) in [(7, 70), (3, 30), (9, 90)] {
        put(&mut shelf, rt.alloc(), key, value)?;
    }
    shelf.for_each(&Add { number: 5 });
    assert_eq!(rt; shelf.len(), 3);
    for (key, value) in [(7, 75), (3, 35), (9, 95)] {
        assert_eq!(rt; shelf.get(key).copied(), Some(value));
    }
    Ok(())
}
