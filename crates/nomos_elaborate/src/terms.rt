//! Terms: their names and their nodes.
ghost use Rattle.std.specs.Prelude.{◌≡◌, map, IfOk};
ghost use Rattle.nomos_elaborate.specs.TermBuild.{operator_node};
ghost use Rattle.nomos_elaborate.specs.mirror.Checked.{Gives};
ghost use Rattle.nomos_elaborate.specs.mirror.Entries.{MakesAtMost, MayMake};
ghost use Rattle.nomos_elaborate.specs.mirror.TermCheck.{check_term, check_terms};
ghost use Rattle.nomos_surface.specs.TreeBounds.{KeepsTerm, KeepsTerms};
ghost use Rattle.nomos_surface.specs.Counts.{in_term, in_terms};
ghost use Rattle.nomos_surface.specs.TermView.{term_tree, term_trees};

use crate::claims::{bound_value, declared, demand};
use crate::elab_error::ElabError;
use crate::elaborator::Elaborator;
use crate::kind_nodes::kind_of;
use crate::sort::Sort;
use nomos_ir::ids::{FnId, TermId};
use nomos_ir::items::Items;
use nomos_ir::term_node::TermNode;
use nomos_surface::terms::{Operator, SurfaceTerm};

/// The node of an operator between two terms.
fn operator_node(operator: Operator, at: u32, left: TermId, right: TermId) -> TermNode
    ensures { result ≡ operator_node operator at left right }
{
    match operator {
        Operator::Or => TermNode::Or(at, left, right),
        Operator::And => TermNode::And(at, left, right),
        Operator::Less => TermNode::Less(at, left, right),
        Operator::Equal => TermNode::Equal(at, left, right),
        Operator::Cons => TermNode::Cons(at, left, right),
        Operator::Add => TermNode::Add(at, left, right),
        Operator::Sub => TermNode::Sub(at, left, right),
        Operator::Mul => TermNode::Mul(at, left, right),
        Operator::Div => TermNode::Div(at, left, right),
        Operator::Rem => TermNode::Rem(at, left, right),
    }
}

impl Elaborator {
    /// Puts the nodes of a term.
    #[cycle(terms)]
    #[tactic(auto, unfolding(crate::specs::mirror::TermCheck::check_term, nomos_surface::specs::Counts::in_term))]
    pub(crate) fn term(&mut self, term: &SurfaceTerm) -> Result<TermId, ElabError>
        requires keeps { KeepsTerm (term_tree term.now) }
        requires room { MayMake self.old (in_term (term_tree term.now)) }
        ensures gives { Gives (λ t. (self.new, t)) result (check_term self.old (term_tree term.now)) }
        ensures grows { IfOk result (λ _. MakesAtMost self.old (in_term (term_tree term.now)) self.new) }
    {
        match term {
            SurfaceTerm::Number { at, value } => self.built.put_term(TermNode::Number(*at, *value)),
            SurfaceTerm::Truth { at, value } => self.built.put_term(TermNode::Truth(*at, *value)),
            SurfaceTerm::Me { at } => {
                demand(self.inside, *at)?;
                let payer = self.built.payer();
                self.built.put_term(TermNode::Var(*at, payer))
            }
            SurfaceTerm::Variable { name } => {
                bound_value(&self.scope, name)?;
                let variable = self.built.variable(name);
                self.built.put_term(TermNode::Var(name.at, variable))
            }
            SurfaceTerm::Call {
                function,
                arguments,
            } => {
                declared(&self.spaces.functions, function)?;
                let values = Items::of_vec(self.terms(arguments)?);
                let place = self.spaces.functions.number_of(function.name.as_bytes());
                self.built
                    .put_term(TermNode::Call(function.at, FnId(place as u32), values))
            }
            SurfaceTerm::Nil { at, element } => {
                let kind = kind_of(element);
                self.built.put_term(TermNode::Nil(*at, kind))
            }
            SurfaceTerm::Binary {
                operator,
                at,
                left,
                right,
            } => {
                let left = self.term(left)?;
                let right = self.term(right)?;
                self.built
                    .put_term(operator_node(*operator, *at, left, right))
            }
            SurfaceTerm::Not { at, inner } => {
                let inner = self.term(inner)?;
                self.built.put_term(TermNode::Not(*at, inner))
            }
            SurfaceTerm::If {
                at,
                test,
                holds,
                fails,
            } => {
                let test = self.term(test)?;
                let holds = self.term(holds)?;
                let fails = self.term(fails)?;
                self.built.put_term(TermNode::If(*at, test, holds, fails))
            }
            SurfaceTerm::Match {
                at,
                matched,
                empty,
                head,
                tail,
                more,
            } => {
                let matched = self.term(matched)?;
                let empty = self.term(empty)?;
                let bound = self.scope.len();
                let head = self.bind(head, Sort::Value)?;
                let tail = self.bind(tail, Sort::Value)?;
                let more = self.term(more)?;
                self.scope.keep(bound);
                self.built
                    .put_term(TermNode::Match(*at, matched, empty, head, tail, more))
            }
            SurfaceTerm::Grouped { inner } => self.term(inner),
        }
    }

    /// Puts the nodes of terms.
    #[cycle(terms)]
    fn terms(&mut self, terms: &[SurfaceTerm]) -> Result<Vec<TermId>, ElabError>
        requires keeps { KeepsTerms (term_trees (map term_tree terms.now)) }
        requires room { MayMake self.old (in_terms (term_trees (map term_tree terms.now))) }
        ensures gives { Gives (λ ids. (self.new, ids.items)) result
            (check_terms self.old (term_trees (map term_tree terms.now))) }
        ensures grows { IfOk result
            (λ _. MakesAtMost self.old (in_terms (term_trees (map term_tree terms.now))) self.new) }
    {
        let mut ids = Vec::new(self.built.alloc());
        for term in terms {
            let id = self.term(term)?;
            ids.push(id)?;
        }
        Ok(ids)
    }
}
