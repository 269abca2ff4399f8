//! What is made of a text so far.
ghost use Rattle.std.specs.Prelude.{◌≡◌, ◌+◌, ◌<◌, ◌≤◌, length, IfOk};
ghost use Rattle.nomos_elaborate.specs.Built.{amount_of, kind_of, label_id, nothing_built, put_term, put_type, variable_id, with_label};
ghost use Rattle.nomos_elaborate.specs.CostModel.{put_node};
ghost use Rattle.nomos_elaborate.specs.TermBuild.{payer_id};
ghost use Rattle.nomos_elaborate.specs.mirror.Checked.{Gives, found};
ghost use Rattle.nomos_elaborate.specs.mirror.Entries.{entries, entry_limit};
ghost use Rattle.nomos_elaborate.specs.mirror.Work.{label_seen, payer_seen, variable_seen};
ghost use Rattle.nomos_surface.specs.Counts.{in_potential};

use crate::elab_error::ElabError;
use crate::name_table::NameTable;
use nomos_ir::amount::Amount;
use nomos_ir::code_node::CodeNode;
use nomos_ir::ids::{CodeId, Label, TermId, TypeId, VarId};
use nomos_ir::term_node::TermNode;
use nomos_ir::type_node::{TypeAt, TypeNode};
use nomos_surface::name_at::NameAt;
use nomos_surface::potential::{Potential, Quantity};
use std::alloc::Global;
use std::marker::Model;

/// The nodes that are made so far, the labels and variables that were seen, and the number of stars.
#[derive(Drop)]
pub struct Builder {
    alloc: Global,
    types: Vec<TypeAt>,
    terms: Vec<TermNode>,
    code: Vec<CodeNode>,
    labels: NameTable,
    variables: NameTable,
    stars: u16,
}

impl Model for Builder {
    ghost use Rattle.nomos_elaborate.specs.Built.{Built};

    ghost Value = { Built };

    ghost view = { λ b. record {
      types = b.types.items;
      terms = b.terms.items;
      code = b.code.items;
      labels = b.labels;
      variables = b.variables;
      stars = b.stars;
    } };
}

impl Builder {
    /// Nothing made.
    pub fn new(alloc: Global) -> Builder
        ensures { result ≡ nothing_built }
    {
        Builder {
            alloc,
            types: Vec::new(alloc),
            terms: Vec::new(alloc),
            code: Vec::new(alloc),
            labels: NameTable::new(alloc),
            variables: NameTable::new(alloc),
            stars: 0,
        }
    }

    /// The allocator of the lists.
    pub(crate) fn alloc(&self) -> Global {
        self.alloc
    }

    /// Puts a type node, at its offset.
    pub(crate) fn put_type(&mut self, node: TypeNode, at: u32) -> Result<TypeId, ElabError>
        requires { entries self.old < entry_limit }
        ensures gives { Gives (λ t. (self.new, t)) result (found (put_type self.old node at)) }
        ensures grows { IfOk result (λ _. entries self.new ≤ entries self.old + 1) }
    {
        let id = self.types.len() as u32;
        self.types.push(TypeAt { node, at })?;
        Ok(TypeId(id))
    }

    /// Puts a term node.
    pub(crate) fn put_term(&mut self, node: TermNode) -> Result<TermId, ElabError>
        requires { entries self.old < entry_limit }
        ensures gives { Gives (λ t. (self.new, t)) result (found (put_term self.old node)) }
        ensures grows { IfOk result (λ _. entries self.new ≤ entries self.old + 1) }
    {
        let id = self.terms.len() as u32;
        self.terms.push(node)?;
        Ok(TermId(id))
    }

    /// Puts a code node.
    pub(crate) fn put_node(&mut self, node: CodeNode) -> Result<CodeId, ElabError>
        requires { entries self.old < entry_limit }
        ensures gives { Gives (λ c. (self.new, c)) result (found (put_node self.old node)) }
        ensures grows { IfOk result (λ _. entries self.new ≤ entries self.old + 1) }
    {
        let id = self.code.len() as u32;
        self.code.push(node)?;
        Ok(CodeId(id))
    }

    /// Sees a label.
    pub(crate) fn see_label(&mut self, label: &NameAt) -> Result<Label, ElabError>
        requires { entries self.old < entry_limit }
        ensures gives { Gives (λ l. (self.new, l)) result (found (label_seen self.old label.now)) }
        ensures grows { IfOk result (λ _. entries self.new ≤ entries self.old + 1) }
    {
        let place = self.labels.see(label.name.as_bytes())?;
        Ok(Label(place as u32))
    }

    /// Sees a variable.
    pub(crate) fn see_variable(&mut self, name: &NameAt) -> Result<VarId, ElabError>
        requires { entries self.old < entry_limit }
        ensures gives { Gives (λ v. (self.new, v)) result (found (variable_seen self.old name.now)) }
        ensures grows { IfOk result (λ _. entries self.new ≤ entries self.old + 1) }
    {
        let place = self.variables.see(name.name.as_bytes())?;
        Ok(VarId(place as u32))
    }

    /// The number of a variable that was seen.
    pub(crate) fn variable(&self, name: &NameAt) -> VarId
        requires { entries self.now ≤ entry_limit }
        ensures { result ≡ variable_id self.now name.now }
    {
        VarId(self.variables.number_of(name.name.as_bytes()) as u32)
    }

    /// Sees the account that pays.
    pub(crate) fn see_payer(&mut self) -> Result<VarId, ElabError>
        requires { entries self.old < entry_limit }
        ensures gives { Gives (λ v. (self.new, v)) result (found (payer_seen self.old)) }
        ensures grows { IfOk result (λ _. entries self.new ≤ entries self.old + 1) }
    {
        let place = self.variables.see(b"me".as_slice())?;
        Ok(VarId(place as u32))
    }

    /// The number of the account that pays.
    pub(crate) fn payer(&self) -> VarId
        requires { entries self.now ≤ entry_limit }
        ensures { result ≡ payer_id self.now }
    {
        VarId(self.variables.number_of(b"me".as_slice()) as u32)
    }

    /// The amount of a potential, and a new star where it is one.
    pub(crate) fn amount(&mut self, potential: Potential) -> Amount
        requires { entries self.old + (in_potential potential).stars ≤ entry_limit }
        ensures gives { (self.new, result) ≡ amount_of self.old potential }
        ensures grows { entries self.new ≤ entries self.old + (in_potential potential).stars }
    {
        match potential.quantity {
            Quantity::Number(units) => Amount::Written(units),
            Quantity::Star => {
                self.stars += 1;
                Amount::Star(self.stars)
            }
        }
    }

    /// The types, the terms, the code and the labels.
    pub fn into_parts(self) -> (Vec<TypeAt>, Vec<TermNode>, Vec<CodeNode>, NameTable)
        ensures types { result.0.items ≡ self.types }
        ensures terms { result.1.items ≡ self.terms }
        ensures code { result.2.items ≡ self.code }
        ensures labels { result.3 ≡ self.labels }
    {
        (self.types, self.terms, self.code, self.labels)
    }
}
