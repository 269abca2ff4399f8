//! The act by which a process spawns another one.
ghost use Rattle.std.specs.Prelude.{◌≡◌, ◌≤◌, ◌<◌, ◌+◌, ◌-◌, ◌^◌, ℕ, Some, IfOk, OnOk, OnErr};
ghost use Rattle.std.specs.Option.{option_map};
ghost use Rattle.nomos_ir.specs.Bindings.{unbind};
ghost use Rattle.nomos_ir.specs.declared.code_node.Args.{Args as Handed};
ghost use Rattle.nomos_ir.specs.declared.declaration.ProcDecl.{ProcDecl as Declared};
ghost use Rattle.nomos_types.specs.Acceptance.{Acceptance};
ghost use Rattle.nomos_types.specs.Amount.{dths};
ghost use Rattle.nomos_deeds.specs.Acting.{CanAct, HasNumbers};
ghost use Rattle.nomos_deeds.specs.SeenObjects.{seen_process};
ghost use Rattle.nomos_deeds.specs.declared.act.Act.TheVariants as act;
ghost use Rattle.nomos_machine.specs.Deeds.{hands_over, hands_over_all, hands_over_lists};
ghost use Rattle.nomos_machine.specs.Given.{Given as Gives, begins};
ghost use Rattle.nomos_machine.specs.Revised.{poorer, standing_at, with_channel};
ghost use Rattle.nomos_machine.specs.Sight.{is_shared_name};
ghost use Rattle.nomos_machine.specs.State.{State, process_at};
ghost use Rattle.nomos_machine.specs.declared.object.Process.{Process};
ghost use Rattle.nomos_changes.specs.Beginnings.{Begins, has_list, spawned, with_lists_if_any};
ghost use Rattle.nomos_changes.specs.Performing.{made_by_act};
ghost use Rattle.nomos_changes.specs.SmallChanges.{Becomes, with_lists, with_process};

use crate::beginning::{Beginning, begin};
use crate::begins_with::begins_with;
use crate::pairs::unbind;
use crate::parts::Parts;
use crate::plain_fields::{going_on, spending};
use crate::process_lists::copy_lists;
use nomos_deeds::sight::{SeenProcess, Sight};
use nomos_deeds::unfolded_types::shows_shared;
use nomos_ir::code_node::ValueArg;
use nomos_ir::ids::{CodeId, ProcId, VarId};
use nomos_ir::program::Program;
use nomos_ir::value::Values;
use nomos_machine::object::PotentialList;
use nomos_types::accepted::Accepted;
use std::alloc::{AllocError, Global};

/// A spawn: the process that spawns, the variable of the child's channel, the declaration, and where the parent goes
/// on.
#[derive(Clone, Copy, Debug)]
pub(crate) struct Spawn {
    pub(crate) pid: u32,
    pub(crate) variable: VarId,
    pub(crate) declaration: ProcId,
    pub(crate) next: CodeId,
}

// A list goes out of a process's hands.
fn hand_over_list(lists: &mut Vec<(VarId, PotentialList)>, w: VarId)
    ensures { lists.new.items ≡ unbind w.0 lists.old.items }
{
    unbind(lists, w);
}

// The lists of a process without those among arguments.
fn without_lists(
    alloc: Global,
    lists: &[(VarId, PotentialList)],
    args: &[ValueArg],
) -> Result<Vec<(VarId, PotentialList)>, AllocError>
    ensures { (a : Acceptance) (s : State) (p : Process) → p.lists ≡ lists.now
        → IfOk result (λ left. with_lists left.items p ≡ hands_over_lists a s p args.now p) }
{
    let mut left = copy_lists(alloc, lists)?;
    for arg in args {
        match arg {
            ValueArg::Term(_) => {}
            ValueArg::List(w) => hand_over_list(&mut left, *w),
        }
    }
    Ok(left)
}

// Whether a list is among arguments.
fn has_list(args: &[ValueArg]) -> bool
    ensures { result ≡ has_list args.now }
{
    for arg in args {
        match arg {
            ValueArg::Term(_) => {}
            ValueArg::List(_) => return true,
        }
    }
    false
}

// The lists that a process has after it gave the arguments, where a list is among them; otherwise it has those that it
// had, and nothing is looked up or copied.
fn lists_left<P: Parts>(
    parts: &P,
    alloc: Global,
    pid: u32,
    args: &[ValueArg],
) -> Result<Option<Vec<(VarId, PotentialList)>>, AllocError>
    ensures { (a : Acceptance) (s : State) (p : Process) → process_at (P.state parts.now) pid ≡ Some p
        → IfOk result (λ left. with_lists_if_any (option_map (λ lists. lists.items) left) p
        ≡ hands_over_lists a s p args.now p) }
{
    if has_list(args) {
        Ok(Some(without_lists(alloc, parts.lists(pid), args)?))
    } else {
        Ok(None)
    }
}

// Whether a name is a shared one.
fn is_shared_name<P: Parts>(parts: &P, program: &Program, name: u32) -> bool
    ensures { result ≡ is_shared_name program.now (P.state parts.now).types name }
{
    match parts.type_of(name) {
        Some(t) => shows_shared(program, t),
        None => false,
    }
}

// A channel goes out of a process's hands; a reference stays.
fn hand_over_channel<P: Parts>(parts: &mut P, program: &Program, pid: u32, v: VarId)
    ensures state { (a : Acceptance) (p q : Process) → a.program ≡ program.now
        → process_at (P.state parts.old) pid ≡ Some q
        → P.state parts.new ≡ with_process pid (hands_over a (P.state parts.old) p v q) (P.state parts.old) }
    ensures room { P.room parts.old ≤ P.room parts.new }
    ensures marked { P.marked parts.new ≡ P.marked parts.old }
{
    let stays = match parts.channel(pid, v) {
        Some(name) => is_shared_name(&*parts, program, name),
        None => false,
    };
    if !stays {
        parts.unbind_channel(pid, v);
    }
}

// The channels of a process among arguments go out of its hands; references stay.
fn hand_over_channels<P: Parts>(parts: &mut P, program: &Program, pid: u32, channels: &[VarId])
    ensures state { (a : Acceptance) (p q : Process) → a.program ≡ program.now
        → process_at (P.state parts.old) pid ≡ Some q
        → P.state parts.new
        ≡ with_process pid (hands_over_all a (P.state parts.old) p channels.now q) (P.state parts.old) }
    ensures room { P.room parts.old ≤ P.room parts.new }
    ensures marked { P.marked parts.new ≡ P.marked parts.old }
{
    for v in channels {
        hand_over_channel(parts, program, pid, *v);
    }
}

// The process has the channel of its child, under the next name, and these plain fields: those of one that pays so much
// to its child, and goes on.
fn meet_child<P: Parts>(parts: &mut P, spawn: Spawn, fields: SeenProcess)
    requires room { 2 ≤ P.room parts.old }
    ensures state { (p : Process) (purse : ℕ) → process_at (P.state parts.old) spawn.pid ≡ Some p
        → fields ≡ seen_process (standing_at spawn.next (poorer purse p))
        → P.state parts.new ≡ with_process spawn.pid (standing_at spawn.next (with_channel spawn.variable
        (P.state parts.old).next_name (poorer purse p))) (P.state parts.old) }
    ensures room { P.room parts.old ≤ P.room parts.new + 2 }
    ensures marked { P.marked parts.new ≡ P.marked parts.old }
{
    let name = parts.fresh_name();
    parts.bind_channel(spawn.pid, spawn.variable, name);
    parts.set_fields(fields);
}

// The process has these lists, if there are some.
fn keep_lists<P: Parts>(parts: &mut P, pid: u32, lists: Option<Vec<(VarId, PotentialList)>>)
    requires room { 0 < P.room parts.old }
    ensures state { Becomes (P.state parts.old) pid (with_lists_if_any (option_map (λ lists. lists.items) lists))
        (P.state parts.new) }
    ensures room { P.room parts.old ≤ P.room parts.new + 1 }
    ensures marked { P.marked parts.new ≡ P.marked parts.old }
{
    if let Some(left) = lists {
        parts.put_lists(pid, left);
    }
}

// What becomes of a parent whose child comes: the lists that it has left, if that are others, the channels that it
// hands over, and its plain fields, as they are when it has paid and goes on.
#[derive(Drop)]
struct Birth<'a> {
    lists: Option<Vec<(VarId, PotentialList)>>,
    channels: &'a [VarId],
    fields: SeenProcess,
}

// What a child is given goes out of its parent's hands, which goes on.
fn give_birth<P: Parts>(parts: &mut P, program: &Program, spawn: Spawn, birth: Birth)
    requires room { 3 ≤ P.room parts.old }
    ensures state { (a : Acceptance) (p : Process) (purse : ℕ) → a.program ≡ program.now
        → process_at (P.state parts.old) spawn.pid ≡ Some p
        → birth.entry.fields ≡ seen_process (standing_at spawn.next (poorer purse p))
        → P.state parts.new ≡ with_process spawn.pid (standing_at spawn.next (with_channel spawn.variable
        (P.state parts.old).next_name (poorer purse (hands_over_all a (P.state parts.old) p
        birth.entry.channels.now (with_lists_if_any (option_map (λ lists. lists.items) birth.entry.lists) p)))))
        (P.state parts.old) }
    ensures room { P.room parts.old ≤ P.room parts.new + 3 }
    ensures marked { P.marked parts.new ≡ P.marked parts.old }
{
    let Birth {
        lists,
        channels,
        fields,
    } = birth;
    keep_lists(parts, spawn.pid, lists);
    hand_over_channels(parts, program, spawn.pid, channels);
    meet_child(parts, spawn, fields);
}

// The process spawns another one. Want of memory leaves the state as it was.
fn spawn_child<P: Parts>(
    parts: &mut P,
    alloc: Global,
    accepted: &Accepted,
    spawn: Spawn,
    values: Values,
) -> Result<(), AllocError>
    requires room { 8 ≤ P.room parts.old }
    requires numbers { HasNumbers (P.state parts.old) }
    requires fits { (p : Process) (d : Declared) (args : Handed) (g : Gives)
        → process_at (P.state parts.old) spawn.pid ≡ Some p → Begins accepted.now p spawn.declaration values d args g
        → (begins d g (P.state parts.old).next_object (P.state parts.old).next_name
        (dths accepted.now.annotations d.amount) p.payer).purse < 2 ^ 128 }
    ensures ok { (p : Process) (d : Declared) (args : Handed) (g : Gives)
        → process_at (P.state parts.old) spawn.pid ≡ Some p → Begins accepted.now p spawn.declaration values d args g
        → OnOk result (P.state parts.new ≡ spawned accepted.now (P.state parts.old) p spawn d args g) }
    ensures err { OnErr result (P.state parts.new ≡ P.state parts.old) }
    ensures room { P.room parts.old ≤ P.room parts.new + 7 }
    ensures marked { P.marked parts.new ≡ P.marked parts.old }
{
    let begins = (spawn.pid, spawn.declaration);
    let Some(begun) = begins_with(&*parts, alloc, accepted, begins, values)? else {
        return Ok(());
    };
    let process = begun.process;
    let at = Beginning {
        pid: parts.next_number(),
        offers: parts.fresh_name(),
        potential: accepted.bound(spawn.declaration),
        payer: process.payer,
    };
    let lists = lists_left(&*parts, alloc, spawn.pid, begun.args.values.as_slice())?;
    let child = begin(alloc, begun.declaration, begun.given, at)?;
    let birth = Birth {
        lists,
        channels: begun.args.channels.as_slice(),
        fields: going_on(spending(process, child.fields.purse), spawn.next),
    };
    parts.come_process(alloc, child)?;
    give_birth(parts, accepted.program(), spawn, birth);
    parts.come_name(begun.declaration.offers);
    Ok(())
}

/// The process spawns another one. Want of memory leaves the state as it was.
pub(crate) fn act_spawn<P: Parts>(
    parts: &mut P,
    alloc: Global,
    accepted: &Accepted,
    spawn: Spawn,
    values: Values,
) -> Result<(), AllocError>
    requires can { CanAct accepted.now (P.state parts.old) spawn.pid values
        (act.Spawn spawn.variable spawn.declaration spawn.next) }
    requires room { 8 ≤ P.room parts.old }
    ensures ok { OnOk result (P.state parts.new ≡ made_by_act accepted.now (P.state parts.old) spawn.pid values
        (act.Spawn spawn.variable spawn.declaration spawn.next)) }
    ensures err { OnErr result (P.state parts.new ≡ P.state parts.old) }
    ensures room { P.room parts.old ≤ P.room parts.new + 7 }
    ensures marked { P.marked parts.new ≡ P.marked parts.old }
{
    spawn_child(parts, alloc, accepted, spawn, values)
}
