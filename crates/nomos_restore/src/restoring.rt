//! The small changes by which a state is made of plain data, however it is kept.
ghost use Rattle.std.specs.Prelude.{◌≡◌, ◌≤◌, ◌<◌, ◌-◌, ◌^◌, IfOk, OnErr, length};
ghost use Rattle.nomos_machine.specs.Starting.{opened};

use nomos_changes::parts::Parts;
use std::alloc::AllocError;

/// What a state is changed by where it is made of plain data, beside what acts are made of. None of these small changes
/// takes room.
pub trait Restoring: Parts {
    /// Numbers are drawn up to these ones, which no object and no name has. It takes no memory.
    fn draw_up_to(&mut self, next_object: u32, next_name: u32)
        requires object { (Self.state self.old).next_object ≤ next_object }
        requires name { (Self.state self.old).next_name ≤ next_name }
        ensures state { Self.state self.new ≡ record (Self.state self.old)
            { next_object = next_object; next_name = next_name } }
        ensures room { Self.room self.old ≤ Self.room self.new }
        ensures marked { Self.marked self.new ≡ Self.marked self.old };

    /// Makes the next account, with so many Dths, and gives its number. Want of memory leaves the state as it was.
    fn open_account(&mut self, dths: u128) -> Result<u32, AllocError>
        requires { length (Self.state self.old).balances < 2 ^ 32 - 1 }
        ensures ok { IfOk result (λ account. (account ≡ length (Self.state self.old).balances)
            × (Self.state self.new ≡ opened (Self.state self.old) dths)) }
        ensures err { OnErr result (Self.state self.new ≡ Self.state self.old) }
        ensures room { Self.room self.old ≤ Self.room self.new }
        ensures marked { Self.marked self.new ≡ Self.marked self.old };
}
