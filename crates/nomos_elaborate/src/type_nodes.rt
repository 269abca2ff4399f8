//! Types: their names and their nodes.
ghost use Rattle.std.specs.Prelude.{◌≡◌, ◌≤◌, [], map, IfOk};
ghost use Rattle.nomos_elaborate.specs.TypeBuild.{channel_node, choice_node, paying_node, value_node};
ghost use Rattle.nomos_elaborate.specs.mirror.Checked.{Gives};
ghost use Rattle.nomos_elaborate.specs.mirror.Entries.{MakesAtMost, MakesType, MayMake, MayMakeType, all_entries, entry_limit};
ghost use Rattle.nomos_elaborate.specs.mirror.TypeCheck.{branches_alone, check_branch, check_branches, check_definition, check_type};
ghost use Rattle.nomos_surface.specs.TreeBounds.{KeepsBranches, KeepsType};
ghost use Rattle.nomos_surface.specs.Counts.{in_branches, in_type};
ghost use Rattle.nomos_surface.specs.TypeView.{branch_tree, branch_trees, type_tree};

use crate::claims::{declared, new_among};
use crate::elab_error::ElabError;
use crate::elaborator::Elaborator;
use crate::kind_nodes::kind_of;
use crate::name_table::NameTable;
use nomos_ir::amount::Amount;
use nomos_ir::ids::{DefId, TypeId};
use nomos_ir::kind::Kind;
use nomos_ir::type_node::{Branch, Branches, TypeNode};
use nomos_surface::name_at::NameAt;
use nomos_surface::types::{Sender, SurfaceBranch, SurfaceType};

/// The node of a choice.
fn choice_node(sender: Sender, branches: Branches) -> TypeNode
    ensures { result ≡ choice_node sender branches }
{
    match sender {
        Sender::Provider => TypeNode::Plus(branches),
        Sender::Client => TypeNode::With(branches),
    }
}

/// The node of a type that sends a channel.
fn channel_node(sender: Sender, carried: TypeId, goes: TypeId) -> TypeNode
    ensures { result ≡ channel_node sender carried goes }
{
    match sender {
        Sender::Provider => TypeNode::Tensor(carried, goes),
        Sender::Client => TypeNode::Lolli(carried, goes),
    }
}

/// The node of a type that sends a value.
fn value_node(sender: Sender, kind: Kind, goes: TypeId) -> TypeNode
    ensures { result ≡ value_node sender kind goes }
{
    match sender {
        Sender::Provider => TypeNode::ValueOut(kind, goes),
        Sender::Client => TypeNode::ValueIn(kind, goes),
    }
}

/// The node of a type that pays.
fn paying_node(sender: Sender, amount: Amount, goes: TypeId) -> TypeNode
    ensures { result ≡ paying_node sender amount goes }
{
    match sender {
        Sender::Provider => TypeNode::PotOut(amount, goes),
        Sender::Client => TypeNode::PotIn(amount, goes),
    }
}

impl Elaborator {
    /// The number of a declared definition.
    fn definition(&self, name: &NameAt) -> Result<DefId, ElabError>
        requires { all_entries self.now ≤ entry_limit }
        ensures { Gives (λ d. d) result (check_definition self.now name.now) }
    {
        declared(&self.spaces.types, name)?;
        let place = self.spaces.types.number_of(name.name.as_bytes());
        Ok(DefId(place as u32))
    }

    /// Puts the nodes of a type.
    #[cycle(types)]
    #[tactic(auto, unfolding(crate::specs::mirror::TypeCheck::check_type, nomos_surface::specs::Counts::in_type))]
    pub(crate) fn session_type(&mut self, tree: &SurfaceType) -> Result<TypeId, ElabError>
        requires keeps { KeepsType (type_tree tree.now) }
        requires room { MayMakeType self.old (type_tree tree.now) }
        ensures gives { Gives (λ t. (self.new, t)) result (check_type self.old (type_tree tree.now)) }
        ensures grows { IfOk result (λ _. MakesType self.old (type_tree tree.now) self.new) }
    {
        match tree {
            SurfaceType::One { at } => self.built.put_type(TypeNode::One, *at),
            SurfaceType::Named { name } => {
                let def = self.definition(name)?;
                self.built.put_type(TypeNode::Named(def), name.at)
            }
            SurfaceType::Choice {
                sender,
                at,
                branches,
            } => {
                let branches = Branches::of_vec(self.branches(branches)?);
                self.built.put_type(choice_node(*sender, branches), *at)
            }
            SurfaceType::Channel {
                sender,
                at,
                carried,
                goes,
            } => {
                let carried = self.session_type(carried)?;
                let goes = self.session_type(goes)?;
                self.built
                    .put_type(channel_node(*sender, carried, goes), *at)
            }
            SurfaceType::Value {
                sender,
                at,
                value,
                goes,
            } => {
                let kind = kind_of(value);
                let goes = self.session_type(goes)?;
                self.built.put_type(value_node(*sender, kind, goes), *at)
            }
            SurfaceType::Paying {
                sender,
                at,
                potential,
                goes,
            } => {
                let amount = self.built.amount(*potential);
                let goes = self.session_type(goes)?;
                self.built.put_type(paying_node(*sender, amount, goes), *at)
            }
            SurfaceType::Up { at, goes } => {
                let goes = self.session_type(goes)?;
                self.built.put_type(TypeNode::Up(goes), *at)
            }
            SurfaceType::Down { at, goes } => {
                let goes = self.session_type(goes)?;
                self.built.put_type(TypeNode::Down(goes), *at)
            }
            SurfaceType::Grouped { inner } => self.session_type(inner),
        }
    }

    /// Puts the nodes of the branches of a choice.
    #[cycle(types)]
    fn branches(&mut self, trees: &[SurfaceBranch]) -> Result<Vec<Branch>, ElabError>
        requires keeps { KeepsBranches (branch_trees (map branch_tree trees.now)) }
        requires room { MayMake self.old (in_branches (branch_trees (map branch_tree trees.now))) }
        ensures gives { Gives (λ b. (self.new, b.items)) result
            (branches_alone (check_branches (self.old, []) (branch_trees (map branch_tree trees.now)))) }
        ensures grows { IfOk result
            (λ _. MakesAtMost self.old (in_branches (branch_trees (map branch_tree trees.now))) self.new) }
    {
        let mut before = NameTable::new(self.built.alloc());
        let mut branches = Vec::new(self.built.alloc());
        for tree in trees {
            let branch = self.one_branch(&mut before, tree)?;
            branches.push(branch)?;
        }
        Ok(branches)
    }

    /// Puts the nodes of a branch, whose label is not to be among those before it.
    #[cycle(types)]
    fn one_branch(
        &mut self,
        before: &mut NameTable,
        tree: &SurfaceBranch,
    ) -> Result<Branch, ElabError>
        requires keeps { KeepsType (branch_tree tree.now).1 }
        requires room { MayMake self.old (in_type (branch_tree tree.now).1) }
        ensures gives { Gives (λ b. ((self.new, before.new), b)) result
            (check_branch (λ w. check_type w (branch_tree tree.now).1) (self.old, before.old)
            (branch_tree tree.now).0) }
        ensures grows { IfOk result (λ _. MakesAtMost self.old (in_type (branch_tree tree.now).1) self.new) }
    {
        new_among(before, &tree.label)?;
        before.see(tree.label.name.as_bytes())?;
        let label = self.built.see_label(&tree.label)?;
        let goes = self.session_type(&tree.goes)?;
        Ok(Branch { label, goes })
    }
}
