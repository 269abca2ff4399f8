//! In which order the processes of a script are to fire.
/// In which order processes are to fire.
#[derive(Clone, Copy, Debug)]
pub enum Order<'a> {
    /// The lowest that is ready.
    First,
    /// The lowest that is ready over the one that fired last, or else the lowest.
    Round,
    /// Of those that are ready the one at a place that is drawn from this seed.
    Seed(u64),
    /// As the text of a journal says.
    Kept(&'a [u8]),
}
