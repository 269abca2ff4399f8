//! What no clause says of records under numbers: that they are found, and put back, where memory is found.

use nomos_slots::numbered::Numbered;
use std::test::Fail;

#[test]
fn finds_what_stands_under_a_number(rt: HostRuntime) -> Result<(), Fail> {
    let mut numbered = Numbered::new(rt.alloc());
    numbered.reserve(4)?;
    numbered.push(2, 20u64);
    numbered.push(3, 30);
    numbered.push(7, 70);
    numbered.put(1, None);
    assert_eq!(rt; numbered.len(), 3);
    assert_eq!(rt; numbered.place_of(7), Some(2));
    assert_eq!(rt; numbered.place_of(3), Some(1));
    assert_eq!(rt; numbered.place_of(4), None);
    assert_eq!(rt; numbered.get(2), Some(20));
    assert_eq!(rt; numbered.get(3), None);
    assert_eq!(rt; numbered.get(8), None);
    assert_eq!(rt;
        numbered.slot(2).map(|slot| (slot.number, slot.item)),
        Some((7, Some(70)))
    );
    Ok(())
}

#[test]
fn closes_gaps_behind_a_mark_and_puts_back(rt: HostRuntime) -> Result<(), Fail> {
    let mut numbered = Numbered::new(rt.alloc());
    numbered.reserve(8)?;
    numbered.push(1, 10u64);
    numbered.push(2, 20);
    numbered.mark();
    numbered.put(0, None);
    numbered.push(5, 50);
    numbered.push(6, 60);
    numbered.put(2, None);
    numbered.close_gaps(2);
    assert_eq!(rt; numbered.len(), 3);
    assert_eq!(rt; numbered.get(1), None);
    assert_eq!(rt; numbered.get(6), Some(60));
    assert_eq!(rt; numbered.place_of(6), Some(2));
    let copy = numbered.copy(rt.alloc())?;
    numbered.back();
    assert_eq!(rt; numbered.len(), 2);
    assert_eq!(rt; numbered.get(1), Some(10));
    assert_eq!(rt; numbered.get(6), None);
    assert_eq!(rt; copy.get(6), Some(60));
    Ok(())
}

#[test]
fn forgets_a_mark(rt: HostRuntime) -> Result<(), Fail> {
    let mut numbered = Numbered::new(rt.alloc());
    numbered.reserve(3)?;
    numbered.push(1, 10u64);
    numbered.mark();
    numbered.put(0, None);
    numbered.forget();
    numbered.mark();
    numbered.close_gaps(1);
    numbered.back();
    assert_eq!(rt; numbered.len(), 1);
    assert_eq!(rt; numbered.get(1), None);
    Ok(())
}
