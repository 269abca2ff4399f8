//! How batches are dealt to threads, by the account that sends them.
ghost use Rattle.std.specs.Prelude.{◌≡◌, ◌<◌, IfOk, map};
ghost use Rattle.std.specs.Str.{bytes_eq};
ghost use Rattle.std.specs.List.{position_or_len};
ghost use Rattle.nomos_pool.specs.Dealing.{account_name, account_names, threads_of};

use indexmap::IndexSet;
use nomos_script::item::Batch;
use std::alloc::{AllocError, Global};
use std::marker::Model;

/// The accounts that send batches, each once, in the order in which they first appear. They lie in the batches.
#[derive(Drop)]
struct Payers<'a> {
    names: IndexSet<&'a [u8]>,
}

impl<'a> Model for Payers<'a> {
    ghost use Rattle.std.specs.Prelude.{List, ℕ, map};

    ghost Value = { List (List ℕ) };

    ghost view = { λ payers. map (λ name. name.now) payers.names.keys };
}

impl<'a> Payers<'a> {
    // Those that send these batches.
    fn of(alloc: Global, batches: &'a [Batch]) -> Result<Payers<'a>, AllocError>
        ensures { IfOk result (λ payers. payers ≡ account_names batches.now) }
    {
        let mut names = IndexSet::new(alloc);
        for batch in batches {
            names.insert(payer_of(batch))?;
        }
        Ok(Payers { names })
    }

    // The place of a name among them, or their number where it is not among them.
    fn place_of(&self, name: &[u8]) -> usize
        ensures { result ≡ position_or_len (λ m. bytes_eq m name.now) self.now }
    {
        self.names.get_index_of(name).unwrap_or(self.names.len())
    }
}

// The account that sends a batch: that of its first start.
fn payer_of(batch: &Batch) -> &[u8]
    ensures { result.now ≡ account_name batch.now }
{
    match batch.starts.as_slice() {
        [first, ..] => first.sender.as_bytes(),
        [] => b"",
    }
}

/// Of each batch the thread that submits it: the place of the account that sends it, in the order in which accounts
/// first appear, modulo the number of threads.
pub(crate) fn deal_threads(
    alloc: Global,
    batches: &[Batch],
    count: u32,
) -> Result<Vec<usize>, AllocError>
    requires { 0 < count }
    ensures { IfOk result (λ threads. threads.items ≡ threads_of count batches.now) }
{
    let payers = Payers::of(alloc, batches)?;
    let mut threads = Vec::new(alloc);
    for batch in batches {
        threads.push(payers.place_of(payer_of(batch)) % count as usize)?;
    }
    Ok(threads)
}
