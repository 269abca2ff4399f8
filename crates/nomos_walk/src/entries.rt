//! The entries of a journal that are made and kept on a walk.
ghost use Rattle.std.specs.Prelude.{◌≡◌, ◌++◌, IfOk, OnErr, OnOk, Some};
ghost use Rattle.std.specs.Option.{option_to_list};
ghost use Rattle.nomos_legal.specs.Passage.{bare};
ghost use Rattle.nomos_legal.specs.World.{pids_of};

use nomos_ir::items::Items;
use nomos_legal::journal::{End, Entry, Firing, Pids};
use std::alloc::{AllocError, Global};

/// The entry of an item without firings.
pub(crate) fn bare(alloc: Global, line: u32, end: End) -> Entry
    ensures { Some result ≡ bare line end }
{
    Entry {
        line,
        firings: Items::of_vec(Vec::new(alloc)),
        end,
    }
}

/// The numbers of the processes that fired.
pub(crate) fn pids(alloc: Global, firings: &[Firing]) -> Result<Pids, AllocError>
    ensures { IfOk result (λ pids. pids ≡ pids_of firings.now) }
{
    let pids = firings.iter().map(|firing| firing.pid).collect(alloc)?;
    Ok(Items::of_vec(pids))
}

/// Keeps an entry, if there is one. Want of memory keeps none.
pub fn keep(entries: &mut Vec<Entry>, entry: Option<Entry>) -> Result<(), AllocError>
    ensures ok { OnOk result (entries.new.items ≡ entries.old.items ++ option_to_list entry) }
    ensures err { OnErr result (entries.new.items ≡ entries.old.items) }
{
    if let Some(entry) = entry {
        entries.push(entry)?;
    }
    Ok(())
}
