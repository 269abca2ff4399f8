//! The names that messages mention.
ghost use Rattle.std.specs.Prelude.{◌≡◌, if◌then◌else◌};
ghost use Rattle.std.specs.Option.{option_map};
ghost use Rattle.nomos_deeds.specs.Acts.{message_at};
ghost use Rattle.nomos_state.specs.Mentions.{channel_in, names_in};
ghost use Rattle.nomos_state.specs.Objects.{ValueRow, payload_of};

use crate::inside::Inside;
use crate::looking::message_at;
use nomos_deeds::sight::SeenPayload;
use nomos_machine::object::{Message, Payload};

/// The names that a message mentions: the one that it provides, the other end of its talk, and the channel that it
/// brings.
#[derive(Clone, Copy, Debug)]
pub struct MessageNames {
    pub provides: Option<u32>,
    pub end: Option<u32>,
    pub brings: Option<u32>,
}

// The names of a message that is read on this name: the talk goes on under the next one.
fn names(to_client: bool, from: u32, next: Option<u32>, brings: Option<u32>) -> MessageNames
    ensures provides { result.provides ≡ (if to_client then Some from else next) }
    ensures end { result.end ≡ (if to_client then next else Some from) }
    ensures brings { result.brings ≡ brings }
{
    if to_client {
        MessageNames {
            provides: Some(from),
            end: next,
            brings,
        }
    } else {
        MessageNames {
            provides: next,
            end: Some(from),
            brings,
        }
    }
}

// The channel that is brought, as it is kept.
fn channel_kept(brought: SeenPayload) -> Option<u32>
    ensures { (values : ValueRow) → result ≡ channel_in (payload_of brought values) }
{
    match brought {
        SeenPayload::Channel(name) => Some(name),
        _ => None,
    }
}

impl MessageNames {
    /// Those of a message.
    pub fn of(m: &Message) -> MessageNames
        ensures { result ≡ names_in m.now }
    {
        let brings = match m.payload {
            Payload::Channel(name) => Some(name),
            _ => None,
        };
        names(m.to_client, m.from, m.next, brings)
    }
}

impl Inside {
    /// The names that the message of this number mentions, if there is one.
    pub fn message_names(&self, number: u32) -> Option<MessageNames>
        ensures { result ≡ option_map names_in (message_at self.now.state.objects number) }
    {
        let (_, m) = message_at(&self.contents, number)?;
        Some(names(m.to_client, m.from, m.next, channel_kept(m.brings)))
    }
}
