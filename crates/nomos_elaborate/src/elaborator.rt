//! The state of the walk over a tree.
ghost use Rattle.std.specs.Prelude.{◌+◌, ◌<◌, ◌≤◌, IfOk};
ghost use Rattle.nomos_elaborate.specs.mirror.Checked.{Gives};
ghost use Rattle.nomos_elaborate.specs.mirror.Entries.{all_entries, entry_limit};
ghost use Rattle.nomos_elaborate.specs.mirror.Work.{check_bind, check_new};

use crate::builder::Builder;
use crate::claims::new_on_way;
use crate::elab_error::ElabError;
use crate::scope::Scope;
use crate::sort::Sort;
use crate::spaces::Spaces;
use nomos_ir::ids::VarId;
use nomos_surface::name_at::NameAt;
use nomos_surface::surface::CostModel;

/// The declared names of the whole text, the cost model, whether the walk is inside a transaction, the names that are
/// bound, and what is made so far.
#[derive(Drop)]
pub struct Elaborator {
    pub spaces: Spaces,
    pub model: CostModel,
    pub inside: bool,
    pub scope: Scope,
    pub built: Builder,
}

impl Elaborator {
    /// The variable of a binder, whose name is new and not bound yet.
    pub(crate) fn new_variable(&mut self, name: &NameAt) -> Result<VarId, ElabError>
        requires { all_entries self.old < entry_limit }
        ensures gives { Gives (λ v. (self.new, v)) result (check_new self.old name.now) }
        ensures grows { IfOk result (λ _. all_entries self.new ≤ all_entries self.old + 1) }
    {
        new_on_way(&self.scope, name)?;
        self.built.see_variable(name)
    }

    /// The variable of a binder, whose name is new and bound from now on.
    pub(crate) fn bind(&mut self, name: &NameAt, sort: Sort) -> Result<VarId, ElabError>
        requires { all_entries self.old < entry_limit }
        ensures gives { Gives (λ v. (self.new, v)) result (check_bind self.old name.now sort) }
        ensures grows { IfOk result (λ _. all_entries self.new ≤ all_entries self.old + 1) }
    {
        let variable = self.new_variable(name)?;
        self.scope.bind(name, sort)?;
        Ok(variable)
    }
}
