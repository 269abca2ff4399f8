//! What no clause says of columns: that room is made and a copy is taken where memory is found.

use nomos_slots::column::Column;
use std::test::Fail;

#[derive(Clone, Copy, Debug)]
struct Lot {
    owner: u32,
    amount: u64,
}

#[test]
fn puts_numbers_back(rt: HostRuntime) -> Result<(), Fail> {
    let mut column = Column::new(rt.alloc());
    column.reserve(5)?;
    column.push(5u64);
    column.push(6);
    column.mark();
    column.set(0, 7);
    column.set(0, 8);
    column.push(9);
    assert_eq!(rt; column.get(0), Some(8));
    assert_eq!(rt; column.get(2), Some(9));
    column.back();
    assert_eq!(rt; column.len(), 2);
    assert_eq!(rt; column.get(0), Some(5));
    assert_eq!(rt; column.get(1), Some(6));
    assert_eq!(rt; column.get(2), None);
    Ok(())
}

#[test]
fn forgets_a_mark_of_lots_and_copies_them(rt: HostRuntime) -> Result<(), Fail> {
    let mut column = Column::new(rt.alloc());
    column.reserve(3)?;
    column.push(Lot {
        owner: 1,
        amount: 10,
    });
    column.mark();
    column.set(
        0,
        Lot {
            owner: 2,
            amount: 20,
        },
    );
    column.push(Lot {
        owner: 3,
        amount: 30,
    });
    column.truncate(1);
    let copy = column.copy(rt.alloc())?;
    column.forget();
    column.mark();
    column.truncate(1);
    column.back();
    assert_eq!(rt; column.len(), 1);
    assert_eq!(rt;
        column.get(0).map(|lot| (lot.owner, lot.amount)),
        Some((2, 20))
    );
    assert_eq!(rt; copy.len(), 1);
    assert_eq!(rt;
        copy.get(0).map(|lot| (lot.owner, lot.amount)),
        Some((2, 20))
    );
    Ok(())
}
