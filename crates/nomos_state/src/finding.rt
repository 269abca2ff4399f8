//! Who provides or uses a name, or stands for it, found by tallies.
ghost use Rattle.std.specs.Prelude.{◌≡◌, ◌==◌, None, true};
ghost use Rattle.std.specs.Option.{option_map};
ghost use Rattle.nomos_deeds.specs.Readers.{IsLinearName, keeper};
ghost use Rattle.nomos_deeds.specs.SeenObjects.{seen_message, seen_process};
ghost use Rattle.nomos_state.specs.NameUses.{DoesAt};
ghost use Rattle.nomos_machine.specs.Objects.{times};
ghost use Rattle.nomos_machine.specs.Sight.{message_on, offering, owner};
ghost use Rattle.nomos_state.specs.Tallying.{counted, names_of};
ghost use Rattle.nomos_state.specs.declared.tally.NameUse.TheVariants as doings;
ghost use Rattle.nomos_state.specs.NameFinding.{IsFoundBy, doing_of};

use crate::tallied::Tallied;
use crate::tally::{Hint, NameUse, Tally};
use nomos_deeds::sight::{SeenMessage, SeenProcess, Sight};
use nomos_deeds::unfolded_types::is_linear;
use nomos_types::accepted::Accepted;

/// Who does something with a name.
#[derive(Clone, Copy, Debug)]
pub enum Holder {
    /// No object does it.
    Nobody,
    /// This one does it, once, and no other one.
    One(Hint),
    /// It is not known without a look at all objects.
    Unknown,
}

// Who was the last that came to do it.
fn hint_of(tally: &Tally, doing: NameUse) -> Hint {
    match doing {
        NameUse::Provides => Hint::of(tally.provider),
        NameUse::Uses => tally.user,
        NameUse::Bases => Hint::of(tally.holder),
    }
}

// What a message that goes this way does with the name on which it is read.
fn doing_of(to_client: bool) -> NameUse
    ensures { result ≡ doing_of to_client }
{
    if to_client {
        NameUse::Provides
    } else {
        NameUse::Uses
    }
}

impl Tallied {
    // Whether the object of the hint does it.
    fn does(&self, doing: NameUse, name: u32, hint: Hint) -> bool
        ensures { result ≡ true → DoesAt (names_of doing) self.now.state.objects hint.object name }
    {
        match doing {
            NameUse::Provides => self.inside.provides(hint.object, name),
            NameUse::Uses => self.inside.uses(hint.object, hint.variable, name),
            NameUse::Bases => self.inside.bases(hint.object, name),
        }
    }

    // Who does it, by its tally.
    fn told_by(&self, doing: NameUse, name: u32, tally: &Tally) -> Holder
        requires { counted doing tally.now ≡ times (names_of doing) self.now.state.objects name }
        ensures { IsFoundBy doing self.now.state.objects name result }
    {
        let hint = hint_of(tally, doing);
        match tally.count(doing) {
            0 => Holder::Nobody,
            1 if self.does(doing, name, hint) => Holder::One(hint),
            _ => Holder::Unknown,
        }
    }

    /// Who does it.
    pub(crate) fn found_by(&self, doing: NameUse, name: u32) -> Holder
        ensures { IsFoundBy doing self.now.state.objects name result }
    {
        if !self.tallies.exact {
            return Holder::Unknown;
        }
        match self.tallies.names.get(name) {
            Some(tally) => self.told_by(doing, name, &tally),
            None => Holder::Nobody,
        }
    }

    /// The first message that is read on this name and goes this way.
    pub(crate) fn message_on(&self, to_client: bool, name: u32) -> Option<SeenMessage>
        ensures { result ≡ option_map seen_message (message_on self.now.state.objects to_client name) }
    {
        match self.found_by(doing_of(to_client), name) {
            Holder::Nobody => None,
            Holder::One(by) => self.inside.message_read(by.object, to_client, name),
            Holder::Unknown => self.inside.message_on(to_client, name),
        }
    }

    /// The number of the first object that uses this name.
    pub(crate) fn user(&self, name: u32) -> Option<u32>
        ensures { result ≡ owner self.now.state name }
    {
        match self.found_by(NameUse::Uses, name) {
            Holder::Nobody => None,
            Holder::One(by) => Some(by.object),
            Holder::Unknown => self.inside.user(name),
        }
    }

    /// The first process that offers this name.
    pub(crate) fn offering(&self, name: u32) -> Option<SeenProcess>
        ensures { result ≡ option_map seen_process (offering self.now.state.objects name) }
    {
        match self.found_by(NameUse::Provides, name) {
            Holder::Nobody => None,
            Holder::One(by) => self.inside.process_offering(by.object, name),
            Holder::Unknown => self.inside.offering(name),
        }
    }

    // The number of the process that stands for a shared name that nobody provides.
    fn keeper_by_base(&self, shared: u32) -> Option<u32>
        requires { times (names_of doings.Provides) self.now.state.objects shared ≡ 0 }
        ensures { result ≡ keeper self.now.state.objects shared }
    {
        match self.found_by(NameUse::Bases, shared) {
            Holder::Nobody => None,
            Holder::One(by) => self.inside.standing_for(by.object, shared),
            Holder::Unknown => self.inside.keeper(shared),
        }
    }

    // The number of the process that stands for a shared name that this object alone provides.
    fn keeper_providing(&self, shared: u32, number: u32) -> Option<u32>
        requires once { times (names_of doings.Provides) self.now.state.objects shared ≡ 1 }
        requires does { DoesAt (names_of doings.Provides) self.now.state.objects number shared }
        ensures { result ≡ keeper self.now.state.objects shared }
    {
        match self.found_by(NameUse::Bases, shared) {
            Holder::Nobody => self.inside.standing_for(number, shared),
            _ => self.inside.keeper(shared),
        }
    }

    /// The number of the process that stands for a shared name. Such a process provides the name or has it as base: so
    /// where one object alone does either, it is that one or none.
    pub(crate) fn keeper(&self, shared: u32) -> Option<u32>
        ensures { result ≡ keeper self.now.state.objects shared }
    {
        match self.found_by(NameUse::Provides, shared) {
            Holder::Nobody => self.keeper_by_base(shared),
            Holder::One(by) => self.keeper_providing(shared, by.object),
            Holder::Unknown => self.inside.keeper(shared),
        }
    }

    /// The number of the object that uses a name whose type has mode R or L; nothing at any other name.
    pub(crate) fn owner(&self, accepted: &Accepted, name: u32) -> Option<u32>
        ensures linear { IsLinearName accepted.now.program self.now.state.types name
            → result ≡ owner self.now.state name }
        ensures other { ¬ (IsLinearName accepted.now.program self.now.state.types name) → result ≡ None }
    {
        let t = self.inside.type_of(name)?;
        if is_linear(accepted, t) {
            self.user(name)
        } else {
            None
        }
    }
}
