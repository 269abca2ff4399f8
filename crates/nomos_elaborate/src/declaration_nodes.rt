//! Declarations: their names and their nodes.
ghost use Rattle.std.specs.Prelude.{◌≡◌, ◌+◌, ◌≤◌, [], map, IfOk};
ghost use Rattle.nomos_elaborate.specs.Built.{kind_of};
ghost use Rattle.nomos_elaborate.specs.FileBuild.{declared_amount, mode_of};
ghost use Rattle.nomos_elaborate.specs.FileClaims.{par_sort};
ghost use Rattle.nomos_elaborate.specs.Nesting.{IsNestedWithinLimit};
ghost use Rattle.nomos_elaborate.specs.mirror.Checked.{Gives, found};
ghost use Rattle.nomos_elaborate.specs.mirror.Each.{each};
ghost use Rattle.nomos_elaborate.specs.mirror.FileCheck.{at_head, check_chan_par, check_def, check_fn, check_pars, check_proc, check_process_par, check_transaction, check_value_par, head};
ghost use Rattle.nomos_elaborate.specs.mirror.Entries.{MakesAtMost, MayMake, all_entries, entry_limit};
ghost use Rattle.nomos_elaborate.specs.mirror.Work.{made};
ghost use Rattle.nomos_surface.specs.TreeBounds.{KeepsChanPar, KeepsDecl, KeepsPar, KeepsPars, KeepsValuePar};
ghost use Rattle.nomos_surface.specs.CodeView.{code_tree};
ghost use Rattle.nomos_surface.specs.Counts.{in_chan_par, in_decl, in_each, in_optional, in_par, in_pars, in_value_par};
ghost use Rattle.nomos_surface.specs.FileView.{chan_par_tree, decl_tree, par_trees};
ghost use Rattle.nomos_surface.specs.declared.declarations.SurfaceDecl.TheVariants as decl;
ghost use Rattle.nomos_surface.specs.Grammatical.{Each};
ghost use Rattle.nomos_surface.specs.TermView.{term_tree};
ghost use Rattle.nomos_surface.specs.TypeView.{type_tree};

use crate::elab_error::ElabError;
use crate::elaborator::Elaborator;
use crate::kind_nodes::kind_of;
use crate::sort::Sort;
use nomos_ir::amount::Amount;
use nomos_ir::declaration::{FnDecl, Par, Pars, ProcDecl, VarKinds, VarTypes};
use nomos_ir::ids::{TypeId, VarId};
use nomos_ir::kind::Kind;
use nomos_ir::mode::Mode;
use nomos_ir::name::Name;
use nomos_ir::type_node::{Def, TypeNode};
use nomos_surface::declarations::{
    OfferedMode, ProcessPar, SurfaceChanPar, SurfaceDefinition, SurfaceFunction, SurfacePars,
    SurfaceProcess, SurfaceTransaction, ValuePar,
};
use nomos_surface::name_at::NameAt;
use nomos_surface::potential::Potential;
use std::alloc::Global;

/// A name of its own.
fn name_of(alloc: Global, name: &NameAt) -> Result<Name, ElabError>
    ensures { Gives (λ n. n) result (found name.now.name) }
{
    Ok(Name::of_vec(Vec::from_slice(alloc, name.name.as_bytes())?))
}

/// The mode of a definition, or of a process that offers a type.
fn mode_of(mode: OfferedMode) -> Mode
    ensures { result ≡ mode_of mode }
{
    match mode {
        OfferedMode::R => Mode::R,
        OfferedMode::S => Mode::S,
        OfferedMode::L => Mode::L,
    }
}

/// What a parameter of a process is bound as.
fn par_sort(par: &ProcessPar) -> Sort
    ensures { result ≡ par_sort par.now.list }
{
    match par.list {
        None => Sort::Value,
        Some(_) => Sort::List,
    }
}

impl Elaborator {
    /// Begins a declaration: nothing is bound.
    fn begin(&mut self, inside: bool)
        ensures head { self.new ≡ at_head inside self.old }
        ensures same { all_entries self.new ≡ all_entries self.old }
    {
        self.inside = inside;
        self.scope.keep(0);
    }

    /// A parameter of a function.
    fn value_par(&mut self, par: &ValuePar) -> Result<(VarId, Kind), ElabError>
        requires keeps { KeepsValuePar par.now }
        requires room { MayMake self.old (in_value_par par.now) }
        ensures gives { Gives (λ p. (self.new, p)) result (check_value_par self.old par.now) }
        ensures grows { IfOk result (λ _. MakesAtMost self.old (in_value_par par.now) self.new) }
    {
        let variable = self.bind(&par.name, Sort::Value)?;
        let kind = kind_of(&par.value);
        Ok((variable, kind))
    }

    /// The parameters of a function, each with its kind.
    fn value_pars(&mut self, pars: &[ValuePar]) -> Result<Vec<(VarId, Kind)>, ElabError>
        requires keeps { Each KeepsValuePar pars.now }
        requires room { MayMake self.old (in_each in_value_par pars.now) }
        ensures gives { Gives (λ p. (self.new, p.items)) result (each check_value_par self.old pars.now) }
        ensures grows { IfOk result (λ _. MakesAtMost self.old (in_each in_value_par pars.now) self.new) }
    {
        let mut kinds = Vec::new(self.built.alloc());
        for par in pars {
            let kind = self.value_par(par)?;
            kinds.push(kind)?;
        }
        Ok(kinds)
    }

    /// A parameter of a process that is no channel.
    fn process_par(&mut self, par: &ProcessPar) -> Result<Par, ElabError>
        requires keeps { KeepsPar par.now }
        requires room { MayMake self.old (in_par par.now) }
        ensures gives { Gives (λ p. (self.new, p)) result (check_process_par self.old par.now) }
        ensures grows { IfOk result (λ _. MakesAtMost self.old (in_par par.now) self.new) }
    {
        let var = self.bind(&par.name, par_sort(par))?;
        let amount = match par.list {
            None => None,
            Some(list) => Some(self.built.amount(list.potential)),
        };
        let kind = kind_of(&par.value);
        Ok(Par { var, kind, amount })
    }

    /// The parameters of a process that are no channels.
    fn process_pars(&mut self, pars: &[ProcessPar]) -> Result<Vec<Par>, ElabError>
        requires keeps { Each KeepsPar pars.now }
        requires room { MayMake self.old (in_each in_par pars.now) }
        ensures gives { Gives (λ p. (self.new, p.items)) result (each check_process_par self.old pars.now) }
        ensures grows { IfOk result (λ _. MakesAtMost self.old (in_each in_par pars.now) self.new) }
    {
        let mut values = Vec::new(self.built.alloc());
        for par in pars {
            let value = self.process_par(par)?;
            values.push(value)?;
        }
        Ok(values)
    }

    /// A channel parameter.
    fn chan_par(&mut self, par: &SurfaceChanPar) -> Result<(VarId, TypeId), ElabError>
        requires keeps { KeepsChanPar (chan_par_tree par.now) }
        requires room { MayMake self.old (in_chan_par (chan_par_tree par.now)) }
        ensures gives { Gives (λ p. (self.new, p)) result (check_chan_par self.old (chan_par_tree par.now)) }
        ensures grows { IfOk result (λ _. MakesAtMost self.old (in_chan_par (chan_par_tree par.now)) self.new) }
    {
        let variable = self.bind(&par.name, Sort::Channel)?;
        let goes = self.session_type(&par.goes)?;
        Ok((variable, goes))
    }

    /// The channel parameters, each with its type.
    fn chan_pars(&mut self, pars: &[SurfaceChanPar]) -> Result<Vec<(VarId, TypeId)>, ElabError>
        requires keeps { Each KeepsChanPar (map chan_par_tree pars.now) }
        requires room { MayMake self.old (in_each in_chan_par (map chan_par_tree pars.now)) }
        ensures gives { Gives (λ p. (self.new, p.items)) result
            (each check_chan_par self.old (map chan_par_tree pars.now)) }
        ensures grows { IfOk result
            (λ _. MakesAtMost self.old (in_each in_chan_par (map chan_par_tree pars.now)) self.new) }
    {
        let mut channels = Vec::new(self.built.alloc());
        for par in pars {
            let channel = self.chan_par(par)?;
            channels.push(channel)?;
        }
        Ok(channels)
    }

    /// The parameters of a process: those that are no channels, and the channels.
    fn pars(&mut self, pars: &SurfacePars) -> Result<(Pars, VarTypes), ElabError>
        requires keeps { KeepsPars (par_trees pars.now) }
        requires room { MayMake self.old (in_pars (par_trees pars.now)) }
        ensures gives { Gives (λ p. (self.new, head p.0 p.1)) result (check_pars self.old (par_trees pars.now)) }
        ensures grows { IfOk result (λ _. MakesAtMost self.old (in_pars (par_trees pars.now)) self.new) }
    {
        let values = Pars::of_vec(self.process_pars(pars.values.as_slice())?);
        let channels = VarTypes::of_vec(self.chan_pars(pars.channels.as_slice())?);
        Ok((values, channels))
    }

    /// The declared potential, 0 where none is written.
    fn declared_amount(&mut self, potential: Option<Potential>) -> Amount
        requires { all_entries self.old + (in_optional potential).stars ≤ entry_limit }
        ensures gives { (self.new, result) ≡ made self.old (declared_amount self.old.built potential) }
        ensures grows { all_entries self.new ≤ all_entries self.old + (in_optional potential).stars }
    {
        match potential {
            None => Amount::Written(0),
            Some(potential) => self.built.amount(potential),
        }
    }

    /// A definition.
    #[tactic(auto, unfolding(crate::specs::mirror::FileCheck::check_def))]
    pub fn definition_of(&mut self, tree: &SurfaceDefinition) -> Result<Def, ElabError>
        requires keeps { KeepsDecl (decl_tree (decl.Definition tree.now)) }
        requires nests { IsNestedWithinLimit (decl_tree (decl.Definition tree.now)) }
        requires room { MayMake self.old (in_decl (decl_tree (decl.Definition tree.now))) }
        ensures gives { Gives (λ d. (self.new, d)) result
            (check_def self.old tree.now.name tree.now.mode (type_tree tree.now.body)) }
        ensures grows { IfOk result
            (λ _. MakesAtMost self.old (in_decl (decl_tree (decl.Definition tree.now))) self.new) }
    {
        let body = self.session_type(&tree.body)?;
        let name = name_of(self.built.alloc(), &tree.name)?;
        let mode = mode_of(tree.mode);
        Ok(Def { name, mode, body })
    }

    /// A function.
    #[tactic(auto, unfolding(crate::specs::mirror::FileCheck::check_fn))]
    pub fn function_of(&mut self, tree: &SurfaceFunction) -> Result<FnDecl, ElabError>
        requires keeps { KeepsDecl (decl_tree (decl.Function tree.now)) }
        requires nests { IsNestedWithinLimit (decl_tree (decl.Function tree.now)) }
        requires room { MayMake self.old (in_decl (decl_tree (decl.Function tree.now))) }
        ensures gives { Gives (λ f. (self.new, f)) result
            (check_fn self.old tree.now.name tree.now.pars (kind_of tree.now.gives) (term_tree tree.now.body)) }
        ensures grows { IfOk result
            (λ _. MakesAtMost self.old (in_decl (decl_tree (decl.Function tree.now))) self.new) }
    {
        self.begin(false);
        let pars = VarKinds::of_vec(self.value_pars(tree.pars.as_slice())?);
        let body = self.term(&tree.body)?;
        let gives = kind_of(&tree.gives);
        let name = name_of(self.built.alloc(), &tree.name)?;
        let at = tree.name.at;
        Ok(FnDecl {
            name,
            at,
            pars,
            gives,
            body,
        })
    }

    /// A process that offers a type.
    #[tactic(auto, unfolding(crate::specs::mirror::FileCheck::check_proc))]
    pub fn process_of(&mut self, tree: &SurfaceProcess) -> Result<ProcDecl, ElabError>
        requires keeps { KeepsDecl (decl_tree (decl.Process tree.now)) }
        requires nests { IsNestedWithinLimit (decl_tree (decl.Process tree.now)) }
        requires room { MayMake self.old (in_decl (decl_tree (decl.Process tree.now))) }
        ensures gives { Gives (λ p. (self.new, p)) result
            (check_proc self.old tree.now.name tree.now.mode (par_trees tree.now.pars) tree.now.potential
            (type_tree tree.now.offers) (code_tree tree.now.code)) }
        ensures grows { IfOk result (λ _. MakesAtMost self.old (in_decl (decl_tree (decl.Process tree.now))) self.new) }
    {
        self.begin(false);
        let (values, channels) = self.pars(&tree.pars)?;
        let amount = self.declared_amount(tree.potential);
        let offers = self.session_type(&tree.offers)?;
        let first = self.code(&tree.code)?;
        let name = name_of(self.built.alloc(), &tree.name)?;
        let mode = mode_of(tree.mode);
        Ok(ProcDecl {
            name,
            mode,
            me: None,
            values,
            channels,
            amount,
            offers,
            first,
        })
    }

    /// A transaction.
    #[tactic(auto, unfolding(crate::specs::mirror::FileCheck::check_transaction))]
    pub fn transaction_of(&mut self, tree: &SurfaceTransaction) -> Result<ProcDecl, ElabError>
        requires keeps { KeepsDecl (decl_tree (decl.Transaction tree.now)) }
        requires nests { IsNestedWithinLimit (decl_tree (decl.Transaction tree.now)) }
        requires room { MayMake self.old (in_decl (decl_tree (decl.Transaction tree.now))) }
        ensures gives { Gives (λ p. (self.new, p)) result
            (check_transaction self.old tree.now.at tree.now.name (par_trees tree.now.pars) tree.now.potential
            (code_tree tree.now.code)) }
        ensures grows { IfOk result
            (λ _. MakesAtMost self.old (in_decl (decl_tree (decl.Transaction tree.now))) self.new) }
    {
        self.begin(true);
        let payer = self.built.see_payer()?;
        let (values, channels) = self.pars(&tree.pars)?;
        let offers = self.built.put_type(TypeNode::One, tree.at)?;
        let amount = self.declared_amount(tree.potential);
        let first = self.code(&tree.code)?;
        let name = name_of(self.built.alloc(), &tree.name)?;
        Ok(ProcDecl {
            name,
            mode: Mode::T,
            me: Some(payer),
            values,
            channels,
            amount,
            offers,
            first,
        })
    }
}
