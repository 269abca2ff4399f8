//! Ledgers that are put together out of their parts, and what is taken out of one.
ghost use Rattle.std.specs.Prelude.{◌≡◌, None};
ghost use Rattle.nomos_legal.specs.Ledger.{AreNamed, account_of};

use crate::account_names::AccountNames;
use crate::books::Books;
use crate::contract_names::ContractNames;
use crate::ledger::Ledger;
use nomos_deeds::undo::Undo;

impl<M: Undo> Ledger<M> {
    /// The ledger of these parts: the names of its accounts and contracts, the sum of its deposits in whole units, and
    /// the machine with its state. It takes no memory.
    pub fn of_parts(
        machine: M,
        accounts: AccountNames,
        contracts: ContractNames,
        deposits: u64,
    ) -> Ledger<M>
        requires unmarked { M.marked machine ≡ None }
        requires named { AreNamed accounts contracts (M.state machine).balances }
        ensures { result ≡ record {
          accounts = accounts;
          contracts = contracts;
          deposits = deposits;
          state = M.state machine;
        } }
    {
        Ledger {
            books: Books {
                accounts,
                contracts,
                deposits,
                machine,
            },
        }
    }

    /// The machine with its state. Nothing is marked. It takes no memory.
    pub fn into_state(self) -> M
        ensures state { M.state result ≡ self.state }
        ensures unmarked { M.marked result ≡ None }
    {
        self.books.machine
    }

    /// The number of the account of this name, if there is one, whatever the text is. It takes no memory.
    pub fn account_of(&self, name: &str) -> Option<u32>
        ensures { result ≡ account_of self.now.accounts name.now }
    {
        self.books.accounts.number_by(name)
    }
}
