//! A script: its items, with what holds of them.
ghost use Rattle.std.specs.Prelude.{◌≡◌};
ghost use Rattle.nomos_script.specs.Size.{IsScriptSize};
ghost use Rattle.nomos_script.specs.WrittenItems.{AreWritten, IsScript};

use crate::item::ScriptItems;
use std::marker::Model;

/// A script, which contracts see as the list of its items. It has fewer than 105,000 deposits and batches, and at
/// most 2^20 starts, as each text within the limit has; its lines are below ten million, and its names are names.
#[derive(Drop, Debug)]
pub struct Script {
    items: ScriptItems,
}

impl Model for Script {
    ghost use Rattle.std.specs.Prelude.{List};
    ghost use Rattle.std.specs.Coded.{coded_list};
    ghost use Rattle.nomos_script.specs.contracts.item.ScriptItem as item;
    ghost use Rattle.nomos_script.specs.declared.item.ScriptItem.{ScriptItem};
    ghost use Rattle.nomos_script.specs.WrittenItems.{IsScript};

    ghost Value = { List ScriptItem };

    ghost coded = { coded_list item.the_row.coded };

    ghost view = { λ script. script.items };

    ghost invariant = { λ script. IsScript script.items };
}

impl Script {
    /// The script with these items.
    pub fn of_items(items: ScriptItems) -> Script
        requires { IsScript items }
        ensures { result ≡ items }
    {
        Script { items }
    }

    /// The items of the script, in order of text.
    pub fn items(&self) -> &ScriptItems
        ensures items { result.now ≡ self.now }
        ensures size { IsScriptSize self.now }
        ensures written { AreWritten self.now }
    {
        &self.items
    }

    /// The items of the script, in order of text, taken out of it. It takes no memory.
    pub fn into_items(self) -> ScriptItems
        ensures items { result ≡ self }
        ensures size { IsScriptSize self }
        ensures written { AreWritten self }
    {
        let Script { items } = self;
        items
    }
}
