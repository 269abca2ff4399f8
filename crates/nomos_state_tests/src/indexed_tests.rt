//! What no clause says of an indexed state by itself: that memory is found.

use nomos_deeds::machine::Machine;
use nomos_deeds::sight::Sight;
use nomos_deeds::undo::Undo;
use nomos_state::indexed::IndexedState;
use std::test::Fail;

#[test]
fn opens_accounts(rt: HostRuntime) -> Result<(), Fail> {
    let mut state = IndexedState::empty(rt.alloc());
    assert_eq!(rt; state.open_account(5)?, 0);
    assert_eq!(rt; state.open_account(0)?, 1);
    state.credit(1, 7);
    assert_eq!(rt; state.balance(0), Some(5));
    assert_eq!(rt; state.balance(1), Some(7));
    assert_eq!(rt; state.balance(2), None);
    Ok(())
}

#[test]
fn finds_nothing_in_an_empty_state(rt: HostRuntime) -> Result<(), Fail> {
    let mut state = IndexedState::empty(rt.alloc());
    state.clear_results();
    assert!(rt; state.results().is_empty());
    assert_eq!(rt; state.next_object(), 1);
    assert!(rt; state.process(1).is_none());
    assert!(rt; state.message_on(true, 1).is_none());
    assert!(rt; state.user(1).is_none());
    Ok(())
}

#[test]
fn goes_back_to_what_was_marked(rt: HostRuntime) -> Result<(), Fail> {
    let mut state = IndexedState::empty(rt.alloc());
    assert_eq!(rt; state.open_account(5)?, 0);
    state.mark();
    assert_eq!(rt; state.open_account(3)?, 1);
    state.credit(0, 2);
    assert_eq!(rt; state.balance(0), Some(7));
    state.back();
    assert_eq!(rt; state.balance(0), Some(5));
    assert_eq!(rt; state.balance(1), None);
    Ok(())
}

#[test]
fn a_copy_goes_on_by_itself(rt: HostRuntime) -> Result<(), Fail> {
    let mut state = IndexedState::empty(rt.alloc());
    assert_eq!(rt; state.open_account(5)?, 0);
    let mut copy = state.copy(rt.alloc())?;
    copy.credit(0, 2);
    assert_eq!(rt; copy.balance(0), Some(7));
    assert_eq!(rt; state.balance(0), Some(5));
    Ok(())
}
