//! The names of accounts.
ghost use Rattle.std.specs.Prelude.{◌≡◌, ◌-◌, ◌<◌, ◌^◌, ◌++◌, ◌∷◌, [], None, OnOk, OnErr, All, length, slice_get, take};
ghost use Rattle.std.specs.Option.{option_map};
ghost use Rattle.nomos_script.specs.ScriptNames.{IsScriptName};
ghost use Rattle.nomos_legal.specs.Ledger.{account_of};

use indexmap::IndexSet;
use nomos_script::name::ScriptName;
use std::alloc::{AllocError, Global};
use std::marker::Model;

/// Names of accounts by number, each found by its text in one step. No two are the same.
#[derive(Drop, Debug)]
pub struct AccountNames {
    names: IndexSet<String>,
}

impl Model for AccountNames {
    ghost use Rattle.std.specs.Prelude.{List, ℕ, All, map, string_bytes};
    ghost use Rattle.nomos_script.specs.ScriptNames.{IsScriptName};

    ghost Value = { List (List ℕ) };

    ghost view = { λ a. map string_bytes a.names.keys };

    ghost invariant = { λ a. All IsScriptName (map string_bytes a.names.keys) };
}

impl AccountNames {
    /// No names. It takes no memory.
    pub fn new(alloc: Global) -> AccountNames
        ensures { result ≡ [] }
    {
        AccountNames {
            names: IndexSet::new(alloc),
        }
    }

    /// The name of an account, if there is one of this number.
    pub fn name(&self, n: u32) -> Option<&str>
        ensures name { option_map (λ name. name.now) result ≡ slice_get self.now n }
        ensures names { All IsScriptName self.now }
    {
        self.names.get_index(n as usize).map(|name| name.as_str())
    }

    /// The number of the account of this name, if there is one, whatever the text is.
    pub(crate) fn number_by(&self, name: &str) -> Option<u32>
        requires { length self.now < 2 ^ 32 }
        ensures { result ≡ account_of self.now name.now }
    {
        let number = self.names.get_index_of(name)?;
        Some(number as u32)
    }

    /// The number of the account of this name.
    pub fn number_of(&self, name: &ScriptName) -> Option<u32>
        requires { length self.now < 2 ^ 32 }
        ensures { result ≡ account_of self.now name.now }
    {
        self.number_by(name.as_str())
    }

    /// Puts a name at the end that no account has yet. Want of memory changes nothing.
    pub fn add(&mut self, alloc: Global, name: &ScriptName) -> Result<(), AllocError>
        requires { account_of self.old name.now ≡ None }
        ensures ok { OnOk result (self.new ≡ self.old ++ name.now ∷ []) }
        ensures err { OnErr result (self.new ≡ self.old) }
    {
        self.names.insert(String::from_str(alloc, name.as_str())?)?;
        Ok(())
    }

    /// Takes the last name away.
    pub(crate) fn drop_last(&mut self)
        ensures { self.new ≡ take (length self.old - 1) self.old }
    {
        self.names.truncate(self.names.len().saturating_sub(1));
    }
}
