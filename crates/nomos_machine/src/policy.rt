//! By which rule one worker chooses among the processes that are ready.

/// Which ready process fires next: that of the lowest number, or the next one round from the one that fired last.
#[derive(Clone, Copy, PartialEq, Eq, Debug)]
pub enum Policy {
    First,
    Round,
}
