//! What a firing touches besides the process that fires and the object that comes.

/// A name on which a message comes, and which way it goes.
#[derive(Clone, Copy, Debug)]
pub struct Incoming {
    pub to_client: bool,
    pub name: u32,
}

/// What a firing touches besides the process that fires and the object that comes.
#[derive(Clone, Copy, Debug)]
pub struct Touch {
    /// The number of another object that goes on otherwise.
    pub partner: Option<u32>,
    /// Where a message may be read afterwards that was not there.
    pub heard: Option<Incoming>,
}
