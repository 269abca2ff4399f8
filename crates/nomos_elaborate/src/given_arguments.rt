//! The arguments of spawned and called processes.
ghost use Rattle.std.specs.Prelude.{◌≡◌, ◌≤◌, map, IfOk};
ghost use Rattle.std.specs.Option.{option_copied};
ghost use Rattle.nomos_elaborate.specs.ListArgument.{list_argument, whole_name};
ghost use Rattle.nomos_elaborate.specs.mirror.Checked.{Gives};
ghost use Rattle.nomos_elaborate.specs.mirror.CodeCheck.{check_argument, check_arguments, check_channel, check_passed};
ghost use Rattle.nomos_elaborate.specs.mirror.Each.{each};
ghost use Rattle.nomos_elaborate.specs.mirror.Entries.{MakesAtMost, MayMake, all_entries, entry_limit};
ghost use Rattle.nomos_surface.specs.TreeBounds.{KeepsArgs, KeepsTerm};
ghost use Rattle.nomos_surface.specs.Counts.{in_args, in_each, in_term};
ghost use Rattle.nomos_surface.specs.Grammatical.{Each};
ghost use Rattle.nomos_surface.specs.StepView.{arg_trees};
ghost use Rattle.nomos_surface.specs.TermView.{term_tree};

use crate::claims::bound_channel;
use crate::elab_error::ElabError;
use crate::elaborator::Elaborator;
use crate::scope::Scope;
use crate::sort::Sort;
use nomos_ir::code_node::{Args, ValueArg, ValueArgs, VarIds};
use nomos_ir::ids::VarId;
use nomos_surface::name_at::NameAt;
use nomos_surface::steps::SurfaceArgs;
use nomos_surface::terms::SurfaceTerm;

/// The name, where the term is only a name, in parentheses or not.
#[tactic(auto, unfolding(crate::specs::ListArgument::whole_name))]
fn whole_name(term: &SurfaceTerm) -> Option<&NameAt>
    ensures { option_copied result ≡ whole_name (term_tree term.now) }
{
    match term {
        SurfaceTerm::Variable { name } => Some(name),
        SurfaceTerm::Grouped { inner } => whole_name(inner),
        _ => None,
    }
}

/// The list that a whole argument names.
fn list_argument<'a>(scope: &Scope, term: &'a SurfaceTerm) -> Option<&'a NameAt>
    ensures { option_copied result ≡ list_argument scope.now (term_tree term.now) }
{
    let name = whole_name(term)?;
    if matches!(scope.sort_of(name.name.as_bytes()), Some(Sort::List)) {
        Some(name)
    } else {
        None
    }
}

impl Elaborator {
    /// The variable of a channel.
    pub(crate) fn channel(&self, name: &NameAt) -> Result<VarId, ElabError>
        requires { all_entries self.now ≤ entry_limit }
        ensures { Gives (λ v. v) result (check_channel self.now name.now) }
    {
        bound_channel(&self.scope, name)?;
        Ok(self.built.variable(name))
    }

    /// An argument that is no channel: a list that is handed over, or a term, whose nodes are put.
    fn argument(&mut self, term: &SurfaceTerm) -> Result<ValueArg, ElabError>
        requires keeps { KeepsTerm (term_tree term.now) }
        requires room { MayMake self.old (in_term (term_tree term.now)) }
        ensures gives { Gives (λ a. (self.new, a)) result (check_argument self.old (term_tree term.now)) }
        ensures grows { IfOk result (λ _. MakesAtMost self.old (in_term (term_tree term.now)) self.new) }
    {
        match list_argument(&self.scope, term) {
            Some(name) => Ok(ValueArg::List(self.built.variable(name))),
            None => Ok(ValueArg::Term(self.term(term)?)),
        }
    }

    /// Arguments that are no channels.
    fn values(&mut self, terms: &[SurfaceTerm]) -> Result<Vec<ValueArg>, ElabError>
        requires keeps { Each KeepsTerm (map term_tree terms.now) }
        requires room { MayMake self.old (in_each in_term (map term_tree terms.now)) }
        ensures gives { Gives (λ v. (self.new, v.items)) result
            (each check_argument self.old (map term_tree terms.now)) }
        ensures grows { IfOk result (λ _. MakesAtMost self.old (in_each in_term (map term_tree terms.now)) self.new) }
    {
        let mut values = Vec::new(self.built.alloc());
        for term in terms {
            let value = self.argument(term)?;
            values.push(value)?;
        }
        Ok(values)
    }

    /// The variables of channels that are handed over.
    fn channels(&self, names: &[NameAt]) -> Result<Vec<VarId>, ElabError>
        requires { all_entries self.now ≤ entry_limit }
        ensures { Gives (λ v. (self.now, v.items)) result (each check_passed self.now names.now) }
    {
        let mut channels = Vec::new(self.built.alloc());
        for name in names {
            let channel = self.channel(name)?;
            channels.push(channel)?;
        }
        Ok(channels)
    }

    /// The arguments of a process.
    #[tactic(auto, unfolding(crate::specs::mirror::CodeCheck::check_arguments))]
    pub(crate) fn arguments(&mut self, arguments: &SurfaceArgs) -> Result<Args, ElabError>
        requires keeps { KeepsArgs (arg_trees arguments.now) }
        requires room { MayMake self.old (in_args (arg_trees arguments.now)) }
        ensures gives { Gives (λ a. (self.new, a)) result (check_arguments self.old (arg_trees arguments.now)) }
        ensures grows { IfOk result (λ _. MakesAtMost self.old (in_args (arg_trees arguments.now)) self.new) }
    {
        let values = ValueArgs::of_vec(self.values(arguments.values.as_slice())?);
        let channels = VarIds::of_vec(self.channels(arguments.channels.as_slice())?);
        Ok(Args { values, channels })
    }
}
