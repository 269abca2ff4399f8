//! The names of contracts.
ghost use Rattle.std.specs.Prelude.{◌≡◌, ◌++◌, ◌∷◌, [], None, All, OnOk, OnErr, length, slice_get, take};
ghost use Rattle.std.specs.Option.{option_map};
ghost use Rattle.nomos_script.specs.ScriptNames.{IsScriptName};
ghost use Rattle.nomos_legal.specs.Ledger.{shared_name};

use crate::named::Named;
use indexmap::IndexMap;
use nomos_script::name::ScriptName;
use std::alloc::{AllocError, Global};
use std::marker::Model;

/// Contracts in order of naming, each found by its name in one step. No two have the same name.
#[derive(Drop, Debug)]
pub struct ContractNames {
    names: IndexMap<String, u32>,
}

impl Model for ContractNames {
    ghost use Rattle.std.specs.Prelude.{All, map, string_bytes};
    ghost use Rattle.nomos_script.specs.ScriptNames.{IsScriptName};
    ghost use Rattle.nomos_legal.specs.Ledger.{Contracts};
    ghost use Rattle.nomos_ledger.specs.mirror.ContractNames.{contract_at};

    ghost Value = { Contracts };

    ghost view = { λ c. map (contract_at string_bytes) c.names.entries };

    ghost invariant = { λ c. All (λ n. IsScriptName n.0) (map (contract_at string_bytes) c.names.entries) };
}

impl ContractNames {
    /// No contracts. It takes no memory.
    pub fn new(alloc: Global) -> ContractNames
        ensures { result ≡ [] }
    {
        ContractNames {
            names: IndexMap::new(alloc),
        }
    }

    /// The number of contracts.
    pub fn len(&self) -> usize
        ensures { result ≡ length self.now }
    {
        self.names.len()
    }

    /// The contract of this place, if there is one.
    pub fn contract(&self, n: usize) -> Option<Named<'_>>
        ensures contract { option_map (λ c. (c.name.now, c.shared)) result ≡ slice_get self.now n }
        ensures names { All (λ c. IsScriptName c.0) self.now }
    {
        let (name, shared) = self.names.get_index(n)?;
        Some(Named {
            name: name.as_str(),
            shared: *shared,
        })
    }

    /// The shared name of the contract of this name, if there is one.
    pub fn shared_name(&self, name: &ScriptName) -> Option<u32>
        ensures { result ≡ shared_name self.now name.now }
    {
        self.names.get(name.as_str()).copied()
    }

    /// Puts a contract at the end whose name none has yet. Want of memory changes nothing.
    pub fn add(&mut self, alloc: Global, name: &ScriptName, shared: u32) -> Result<(), AllocError>
        requires { shared_name self.old name.now ≡ None }
        ensures ok { OnOk result (self.new ≡ self.old ++ (name.now, shared) ∷ []) }
        ensures err { OnErr result (self.new ≡ self.old) }
    {
        self.names
            .insert(String::from_str(alloc, name.as_str())?, shared)?;
        Ok(())
    }

    /// Leaves this many contracts, those that were named first.
    pub(crate) fn truncate(&mut self, count: usize)
        ensures { self.new ≡ take count self.old }
    {
        self.names.truncate(count);
    }
}
