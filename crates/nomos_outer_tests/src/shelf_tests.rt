//! What no clause says of shelves, tails and tables of channels: that room is made where memory is found.

use nomos_slots::channels::Channels;
use nomos_slots::shelf::Shelf;
use nomos_slots::tail::Tail;
use std::test::Fail;
use std::vec::Vec;

#[test]
fn puts_rows_back(rt: HostRuntime) -> Result<(), Fail> {
    let mut shelf = Shelf::new(rt.alloc());
    shelf.reserve(6)?;
    let mut row = Vec::new(rt.alloc());
    row.push(1u32)?;
    row.push(3)?;
    shelf.push(row);
    shelf.mark();
    shelf.reserve_in(0, 1)?;
    shelf.insert(0, 1, 2);
    assert_eq!(rt; shelf.row(0), [1, 2, 3].as_slice());
    let moved = shelf.replace(0, Vec::new(rt.alloc()));
    assert!(rt; moved.is_none());
    assert!(rt; shelf.row(0).is_empty());
    shelf.push(Vec::new(rt.alloc()));
    shelf.back();
    assert_eq!(rt; shelf.len(), 1);
    assert_eq!(rt; shelf.row(0), [1, 3].as_slice());
    Ok(())
}

#[test]
fn cuts_a_tail_back(rt: HostRuntime) -> Result<(), Fail> {
    let mut tail = Tail::new(rt.alloc());
    tail.reserve(2)?;
    tail.push(7u64);
    tail.mark();
    tail.push(8);
    assert_eq!(rt; tail.as_slice(), [7, 8].as_slice());
    tail.back();
    assert_eq!(rt; tail.as_slice(), [7].as_slice());
    tail.clear();
    assert!(rt; tail.as_slice().is_empty());
    Ok(())
}

#[test]
fn finds_channels_by_process_and_variable(rt: HostRuntime) -> Result<(), Fail> {
    let mut channels = Channels::new(rt.alloc());
    channels.reserve(rt.alloc(), 3)?;
    channels.bind(1, 0, 100);
    channels.bind(1, 2, 102);
    channels.bind(2, 0, 200);
    channels.unbind(1, 2);
    assert_eq!(rt; channels.get(1, 0), Some(100));
    assert_eq!(rt; channels.get(1, 2), None);
    assert_eq!(rt; channels.get(2, 0), Some(200));
    Ok(())
}

#[test]
fn renames_and_drops_channels_of_a_process(rt: HostRuntime) -> Result<(), Fail> {
    let mut channels = Channels::new(rt.alloc());
    channels.reserve(rt.alloc(), 3)?;
    channels.bind(1, 0, 100);
    channels.bind(1, 2, 102);
    channels.bind(2, 0, 100);
    channels.rename(1, 100, 7);
    assert_eq!(rt; channels.get(1, 0), Some(7));
    assert_eq!(rt; channels.get(2, 0), Some(100));
    channels.drop_all(1);
    assert_eq!(rt; channels.get(1, 0), None);
    assert_eq!(rt; channels.get(1, 2), None);
    assert_eq!(rt; channels.get(2, 0), Some(100));
    Ok(())
}

#[test]
fn puts_channels_back(rt: HostRuntime) -> Result<(), Fail> {
    let mut channels = Channels::new(rt.alloc());
    channels.reserve(rt.alloc(), 3)?;
    channels.bind(1, 0, 100);
    channels.mark();
    channels.bind(1, 0, 7);
    channels.bind(2, 2, 8);
    assert_eq!(rt; channels.get(1, 0), Some(7));
    channels.back();
    assert_eq!(rt; channels.get(1, 0), Some(100));
    assert_eq!(rt; channels.get(2, 2), None);
    Ok(())
}
