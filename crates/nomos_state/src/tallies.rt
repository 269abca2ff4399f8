//! Tallies of all names, which are right or say nothing.
ghost use Rattle.std.specs.Prelude.{◌≡◌, ◌≤◌, ◌<◌, ◌+◌, ◌∷◌, ◌↔◌, ℕ, All, Contains, IfOk, IfSome, IsOk, IsTrue, None, OnOk, [], false, slice_get, true};
ghost use Rattle.std.specs.Option.{option_to_list};
ghost use Rattle.nomos_ir.specs.Order.{count_of};
ghost use Rattle.nomos_slots.specs.Numbers.{found, IsAscending, numbers};
ghost use Rattle.nomos_state.specs.Moving.{Moves};
ghost use Rattle.nomos_state.specs.Suspecting.{IsIdle, KeepsSuspects};
ghost use Rattle.nomos_state.specs.Tallying.{IsTallyAt, counted, nothing, only, tallied};
ghost use Rattle.nomos_state.specs.declared.tally.NameUse.{NameUse as Does};

use crate::suspects::Suspects;
use crate::tally::{Hint, NameUse, Tally};
use nomos_slots::numbered::Numbered;
use std::alloc::{AllocError, Global};

/// Tallies under names. They say something only while they are said to be exact: not after a name without a tally was
/// mentioned, nor after one was done with too often for a number of 32 bits. Names that came, and those with which
/// nothing is done any more, are suspects.
#[derive(Drop, Debug)]
pub struct Tallies {
    pub names: Numbered<Tally>,
    pub exact: bool,
    pub suspects: Suspects,
}

// A name is a suspect too, where by its tally nothing is done with it.
fn suspect(suspects: &mut Suspects, name: u32, tally: &Tally)
    ensures lost { suspects.new.lost ≡ false → suspects.old.lost ≡ false }
    ensures kept { suspects.new.lost ≡ false → (n : ℕ) → Contains suspects.old.names n → Contains suspects.new.names n }
    ensures idle { suspects.new.lost ≡ false → ((d : Does) → counted d tally.now ≡ 0)
        → Contains suspects.new.names name }
{
    if tally.is_idle() {
        suspects.push(name);
    }
}

impl Tallies {
    // Where the tally of a name stands, and the tally.
    fn tally_at(&self, name: u32) -> Option<(usize, Tally)>
        ensures { IsTallyAt self.now.names.now name result }
    {
        let place = self.names.place_of(name)?;
        let slot = self.names.slot(place)?;
        let tally = slot.item?;
        Some((place, tally))
    }

    /// It is done once more with a name, by this one. It takes no room.
    pub fn more(&mut self, doing: NameUse, name: u32, by: Hint)
        requires { IsAscending self.old.names.now }
        ensures { Moves self.old self.new nothing (only doing (name ∷ [])) }
    {
        let Some((place, tally)) = self.tally_at(name) else {
            self.exact = false;
            return;
        };
        let Some(next) = tally.more(doing, by) else {
            self.exact = false;
            return;
        };
        self.names.put(place, Some(next));
    }

    /// It is done once less with a name. It takes no room.
    pub fn less(&mut self, doing: NameUse, name: u32)
        requires { IsAscending self.old.names.now }
        ensures { Moves self.old self.new (only doing (name ∷ [])) nothing }
    {
        let Some((place, tally)) = self.tally_at(name) else {
            self.exact = false;
            return;
        };
        let Some(next) = tally.less(doing) else {
            self.exact = false;
            return;
        };
        self.names.put(place, Some(next));
        suspect(&mut self.suspects, name, &next);
    }

    // It is done once less with a name that may be there.
    fn less_if(&mut self, doing: NameUse, name: Option<u32>)
        requires { IsAscending self.old.names.now }
        ensures { Moves self.old self.new (only doing (option_to_list name)) nothing }
    {
        if let Some(name) = name {
            self.less(doing, name);
        }
    }

    // It is done once more with a name that may be there.
    fn more_if(&mut self, doing: NameUse, name: Option<u32>, by: Hint)
        requires { IsAscending self.old.names.now }
        ensures { Moves self.old self.new nothing (only doing (option_to_list name)) }
    {
        if let Some(name) = name {
            self.more(doing, name, by);
        }
    }

    /// It is done with the other name, by this one, and not with the one name. Where both are one it costs nothing. It
    /// takes no room.
    pub fn exchange(&mut self, doing: NameUse, before: Option<u32>, after: Option<u32>, by: Hint)
        requires { IsAscending self.old.names.now }
        ensures { Moves self.old self.new (only doing (option_to_list before)) (only doing (option_to_list after)) }
    {
        if before == after {
            return;
        }
        self.less_if(doing, before);
        self.more_if(doing, after, by);
    }

    /// A name that is drawn next, or one that stands here, has a tally: one at which nothing is done, if it had none.
    /// Where there is no memory for it, tallies say nothing any more.
    pub fn expect(&mut self, name: u32)
        requires order { IsAscending self.old.names.now }
        requires above { All (λ n. n < name + 1) (numbers self.old.names.now) }
        ensures order { IsAscending self.new.names.now }
        ensures above { All (λ n. n < name + 1) (numbers self.new.names.now) }
        ensures exact { self.new.exact ≡ true → self.old.exact ≡ true }
        ensures counts { self.new.exact ≡ true → (d : Does) (n : ℕ)
            → tallied self.new.names.now d n ≡ tallied self.old.names.now d n }
        ensures suspects { self.new.suspects ≡ self.old.suspects }
        ensures marked { self.new.names.marked ≡ self.old.names.marked }
    {
        if self.names.place_of(name).is_some() {
            return;
        }
        if self.names.reserve(1).is_err() {
            self.exact = false;
            return;
        }
        self.names.push(name, Tally::none());
    }

    /// A name comes, above all others, or one that was expected: so it is a suspect. Where there is no memory for its
    /// tally, tallies say nothing any more.
    pub fn come(&mut self, name: u32)
        requires order { IsAscending self.old.names.now }
        requires above { All (λ n. n < name + 1) (numbers self.old.names.now) }
        ensures order { IsAscending self.new.names.now }
        ensures above { All (λ n. n < name + 1) (numbers self.new.names.now) }
        ensures exact { self.new.exact ≡ true → self.old.exact ≡ true }
        ensures counts { self.new.exact ≡ true → (d : Does) (n : ℕ)
            → tallied self.new.names.now d n ≡ tallied self.old.names.now d n }
        ensures suspects { self.new.exact ≡ true
            → KeepsSuspects self.old.names.now self.new.names.now self.old.suspects self.new.suspects }
        ensures suspect { self.new.exact ≡ true → self.new.suspects.lost ≡ false
            → Contains self.new.suspects.names name }
        ensures marked { self.new.names.marked ≡ self.old.names.marked }
    {
        self.expect(name);
        self.suspects.push(name);
    }

    /// Makes room for so many names that come.
    pub fn reserve(&mut self, n: usize) -> Result<(), AllocError>
        ensures names { self.new.names.now ≡ self.old.names.now }
        ensures marked { self.new.names.marked ≡ self.old.names.marked }
        ensures ok { OnOk result (n ≤ self.new.names.room) }
        ensures exact { self.new.exact ≡ self.old.exact }
        ensures suspects { self.new.suspects ≡ self.old.suspects }
    {
        self.names.reserve(n)?;
        self.suspects.reserve(n)
    }

    /// Whether nothing is done with a name.
    pub fn is_idle(&self, name: u32) -> bool
        ensures { IsTrue result ↔ IsIdle self.now.names.now name }
    {
        match self.names.get(name) {
            Some(tally) => tally.is_idle(),
            None => true,
        }
    }

    /// A name with which nothing is done has no tally any longer. It takes no room.
    pub fn leave(&mut self, name: u32)
        requires order { IsAscending self.old.names.now }
        requires idle { IsIdle self.old.names.now name }
        ensures order { numbers self.new.names.now ≡ numbers self.old.names.now }
        ensures counts { (d : Does) (n : ℕ) → tallied self.new.names.now d n ≡ tallied self.old.names.now d n }
        ensures exact { self.new.exact ≡ self.old.exact }
        ensures suspects { self.new.suspects ≡ self.old.suspects }
        ensures marked { self.new.names.marked ≡ self.old.names.marked }
    {
        if let Some((place, _)) = self.tally_at(name) {
            self.names.put(place, None);
        }
    }

    /// The gaps that names left, which came since the mark, are closed where they are many. It takes no room and no
    /// memory.
    pub fn close_gaps(&mut self)
        ensures order { IsAscending self.old.names.now → IsAscending self.new.names.now }
        ensures above { (number : ℕ) → All (λ n. n < number) (numbers self.old.names.now)
            → All (λ n. n < number) (numbers self.new.names.now) }
        ensures found { (n : ℕ) → found self.new.names.now n ≡ found self.old.names.now n }
        ensures exact { self.new.exact ≡ self.old.exact }
        ensures suspects { self.new.suspects ≡ self.old.suspects }
        ensures marked { self.new.names.marked ≡ self.old.names.marked }
    {
        if self.names.is_sparse() {
            let from = self.names.late_from();
            self.names.close_gaps(from);
        }
    }

    /// No tallies, since no name is there. It takes no memory.
    pub fn new(alloc: Global) -> Self
        ensures now { result.names.now ≡ [] }
        ensures marked { result.names.marked ≡ None }
        ensures exact { result.exact ≡ true }
        ensures suspects { result.suspects ≡ record { names = []; lost = false } }
    {
        Tallies {
            names: Numbered::new(alloc),
            exact: true,
            suspects: Suspects::new(alloc),
        }
    }

    /// The same tallies once more, none of them marked, and nothing is said of suspects.
    pub fn copy(&self, alloc: Global) -> Result<Self, AllocError>
        ensures now { IfOk result (λ made. made.names.now ≡ self.now.names.now) }
        ensures marked { IfOk result (λ made. made.names.marked ≡ None) }
        ensures exact { IfOk result (λ made. made.exact ≡ self.now.exact) }
        ensures suspects { IfOk result (λ made. made.suspects.lost ≡ true) }
    {
        let names = self.names.copy(alloc)?;
        let mut suspects = Suspects::new(alloc);
        suspects.clear(true);
        Ok(Tallies {
            names,
            exact: self.exact,
            suspects,
        })
    }
}
