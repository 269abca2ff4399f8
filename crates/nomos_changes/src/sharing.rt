//! Acts by which a contract that is shared is acquired, and released.
ghost use Rattle.std.specs.Prelude.{◌≡◌, ◌≢◌, ◌+◌, ◌-◌, ◌^◌, ◌≤◌, ◌<◌, Some};
ghost use Rattle.nomos_deeds.specs.Acting.{CanAct};
ghost use Rattle.nomos_deeds.specs.declared.act.Act.TheVariants as act;
ghost use Rattle.nomos_machine.specs.State.{process_at};
ghost use Rattle.nomos_machine.specs.declared.object.Process.{Process};
ghost use Rattle.nomos_changes.specs.Performing.{made_by_act};
ghost use Rattle.nomos_changes.specs.Providers.{provides_as};
ghost use Rattle.nomos_changes.specs.Sharings.{acquired, released};
ghost use Rattle.nomos_changes.specs.SmallChanges.{Becomes};

use crate::parts::Parts;
use crate::plain_fields::go_on;
use nomos_deeds::act::{Acquire, Release};
use nomos_deeds::sight::SeenProcess;
use nomos_ir::ids::CodeId;
use nomos_ir::mode::Mode;
use nomos_ir::value::Values;
use nomos_types::accepted::Accepted;

// How a process provides: at which mode, from which instruction on, under which name, and which shared name it goes
// back to.
#[derive(Clone, Copy, Debug)]
struct Provider {
    mode: Mode,
    code: CodeId,
    offers: u32,
    base: Option<u32>,
}

// The process of this number provides otherwise.
fn provide_as<P: Parts>(parts: &mut P, number: u32, provider: Provider)
    requires room { 0 < P.room parts.old }
    ensures state { Becomes (P.state parts.old) number (provides_as provider) (P.state parts.new) }
    ensures room { P.room parts.old ≤ P.room parts.new + 1 }
    ensures marked { P.marked parts.new ≡ P.marked parts.old }
{
    if let Some(seen) = parts.process(number) {
        parts.set_fields(SeenProcess {
            mode: provider.mode,
            code: provider.code,
            offers: provider.offers,
            base: provider.base,
            ..seen
        });
    }
}

// The process acquires what stands for a shared name.
fn acquire_shared<P: Parts>(parts: &mut P, pid: u32, acquire: Acquire)
    requires room { 8 ≤ P.room parts.old }
    requires fits { (P.state parts.old).next_name < 2 ^ 32 - 1 }
    ensures state { (p q : Process) → process_at (P.state parts.old) pid ≡ Some p
        → process_at (P.state parts.old) acquire.other ≡ Some q → q.pid ≢ p.pid
        → P.state parts.new ≡ acquired acquire (P.state parts.old) pid p q }
    ensures room { P.room parts.old ≤ P.room parts.new + 7 }
    ensures marked { P.marked parts.new ≡ P.marked parts.old }
{
    let name = parts.fresh_name();
    parts.come_name(acquire.goes);
    parts.bind_channel(pid, acquire.variable, name);
    go_on(parts, pid, acquire.next);
    let provider = Provider {
        mode: Mode::L,
        code: acquire.onward,
        offers: name,
        base: Some(acquire.shared),
    };
    provide_as(parts, acquire.other, provider);
}

// The process releases what it has acquired.
fn release_shared<P: Parts>(parts: &mut P, pid: u32, release: Release)
    requires room { 8 ≤ P.room parts.old }
    ensures state { (p q : Process) → process_at (P.state parts.old) pid ≡ Some p
        → process_at (P.state parts.old) release.other ≡ Some q → q.pid ≢ p.pid
        → P.state parts.new ≡ released release (P.state parts.old) pid p q }
    ensures room { P.room parts.old ≤ P.room parts.new + 7 }
    ensures marked { P.marked parts.new ≡ P.marked parts.old }
{
    parts.unbind_channel(pid, release.variable);
    parts.bind_channel(pid, release.reference, release.shared);
    go_on(parts, pid, release.next);
    let provider = Provider {
        mode: Mode::S,
        code: release.onward,
        offers: release.shared,
        base: None,
    };
    provide_as(parts, release.other, provider);
}

/// The process acquires what stands for a shared name.
pub(crate) fn act_acquire<P: Parts>(
    parts: &mut P,
    accepted: &Accepted,
    pid: u32,
    values: &Values,
    acquire: Acquire,
)
    requires can { CanAct accepted.now (P.state parts.old) pid values.now (act.Acquire acquire) }
    requires room { 8 ≤ P.room parts.old }
    ensures state { P.state parts.new
        ≡ made_by_act accepted.now (P.state parts.old) pid values.now (act.Acquire acquire) }
    ensures room { P.room parts.old ≤ P.room parts.new + 7 }
    ensures marked { P.marked parts.new ≡ P.marked parts.old }
{
    acquire_shared(parts, pid, acquire);
}

/// The process releases what it has acquired.
pub(crate) fn act_release<P: Parts>(
    parts: &mut P,
    accepted: &Accepted,
    pid: u32,
    values: &Values,
    release: Release,
)
    requires can { CanAct accepted.now (P.state parts.old) pid values.now (act.Release release) }
    requires room { 8 ≤ P.room parts.old }
    ensures state { P.state parts.new
        ≡ made_by_act accepted.now (P.state parts.old) pid values.now (act.Release release) }
    ensures room { P.room parts.old ≤ P.room parts.new + 7 }
    ensures marked { P.marked parts.new ≡ P.marked parts.old }
{
    release_shared(parts, pid, release);
}
