//! Programs of types, sketched as texts in which parts stand before wholes.
ghost use Rattle.std.specs.Prelude.{IsTrue};
ghost use Rattle.nomos_ir.specs.Unfold.{IsContractive};

use crate::type_program::program_of_types;
use nomos_ir::amount::Amount;
use nomos_ir::ids::{DefId, Label, TypeId};
use nomos_ir::items::Items;
use nomos_ir::kind::{Base, Kind};
use nomos_ir::mode::Mode;
use nomos_ir::name::Name;
use nomos_ir::program::Program;
use nomos_ir::type_node::{Branch, Def, TypeAt, TypeNode};
use nomos_types::forming::{FormError, well_formed};
use std::alloc::{AllocError, Global};

/// The labels are the letters from `a` on, as many as this.
const LABELS: u8 = 8;

/// What was read of a sketch: its definitions, its types, and those of them that are no part of another yet.
#[derive(Drop)]
struct Sketch {
    alloc: Global,
    defs: Vec<Def>,
    types: Vec<TypeAt>,
    open: Vec<TypeId>,
}

/// The name that is this letter.
fn name_of(alloc: Global, letter: u8) -> Result<Name, AllocError> {
    Ok(Name::of_vec(vec![in alloc; letter]?))
}

/// The number of a letter, from `a` on.
fn number_of(letter: u8) -> u32 {
    u32::from(letter.wrapping_sub(b'a'))
}

/// A kind by its letter: `i` or `b`, and `I` or `B` for lists of them.
fn kind_of(letter: u8) -> Kind {
    let base = match letter {
        b'b' | b'B' => Base::Bool,
        _ => Base::Int,
    };
    let lists = match letter {
        b'I' | b'B' => 1,
        _ => 0,
    };
    Kind { lists, base }
}

/// An amount: a digit, or a star by the letter `s`, `t`, ...
fn amount_of(letter: u8) -> Amount {
    match letter {
        b'0'..=b'9' => Amount::Written(u32::from(letter.wrapping_sub(b'0'))),
        _ => Amount::Star(u16::from(letter.wrapping_sub(b'r'))),
    }
}

impl Sketch {
    /// The type that was read last and is no part yet; the first type, which then stands twice, where there is none.
    fn part(&mut self) -> TypeId {
        self.open.pop().unwrap_or(TypeId(0))
    }

    /// The branches with these labels, whose types were read last.
    fn branches(&mut self, labels: &[u8]) -> Result<Items<Branch>, AllocError> {
        let mut branches = Vec::new(self.alloc);
        for letter in labels.iter().rev() {
            let label = Label(number_of(*letter));
            let goes = self.part();
            branches.push(Branch { label, goes })?;
        }
        branches.reverse();
        Ok(Items::of_vec(branches))
    }

    /// What a type that carries a channel has in it: what is carried was read before that with which it goes on.
    fn carrying(&mut self) -> (TypeId, TypeId) {
        let next = self.part();
        let carried = self.part();
        (carried, next)
    }

    /// The node of a word that has parts, if it is one.
    fn whole(&mut self, word: &[u8]) -> Option<TypeNode> {
        match word {
            [b'*'] => {
                let (carried, next) = self.carrying();
                Some(TypeNode::Tensor(carried, next))
            }
            [b'o'] => {
                let (carried, next) = self.carrying();
                Some(TypeNode::Lolli(carried, next))
            }
            [b'^'] => Some(TypeNode::Up(self.part())),
            [b'v'] => Some(TypeNode::Down(self.part())),
            [b'!', kind] => Some(TypeNode::ValueOut(kind_of(*kind), self.part())),
            [b'?', kind] => Some(TypeNode::ValueIn(kind_of(*kind), self.part())),
            [b'>', amount] => Some(TypeNode::PotOut(amount_of(*amount), self.part())),
            [b'<', amount] => Some(TypeNode::PotIn(amount_of(*amount), self.part())),
            _ => None,
        }
    }

    /// The node of a word.
    fn node(&mut self, word: &[u8]) -> Result<TypeNode, AllocError> {
        match word {
            [b'1'] => Ok(TypeNode::One),
            [b'+', labels @ ..] => Ok(TypeNode::Plus(self.branches(labels)?)),
            [b'&', labels @ ..] => Ok(TypeNode::With(self.branches(labels)?)),
            _ => match self.whole(word) {
                Some(node) => Ok(node),
                None => Ok(TypeNode::Named(DefId(named_by(word)))),
            },
        }
    }

    /// Takes the next type.
    fn add(&mut self, node: TypeNode) -> Result<(), AllocError> {
        let at = u32::try_from(self.types.len()).unwrap_or(u32::MAX);
        self.types.push(TypeAt { node, at })?;
        self.open.push(TypeId(at))?;
        Ok(())
    }

    /// Takes the type that was read last as the next definition's.
    fn define(&mut self, mode: Mode) -> Result<(), AllocError> {
        let letter = b'a'.wrapping_add(u8::try_from(self.defs.len()).unwrap_or(0));
        let name = name_of(self.alloc, letter)?;
        let body = self.part();
        self.defs.push(Def { name, mode, body })?;
        Ok(())
    }

    /// Takes the next word.
    fn take(&mut self, word: &[u8]) -> Result<(), AllocError> {
        match word {
            [b'='] => self.define(Mode::R),
            [b'=', b'S'] => self.define(Mode::S),
            _ => {
                let node = self.node(word)?;
                self.add(node)
            }
        }
    }

    /// The program of what was read, or none where it makes none.
    fn program(self) -> Result<Option<Program>, AllocError> {
        let Sketch {
            alloc,
            defs,
            types,
            open,
        } = self;
        drop(open);
        match labels(alloc) {
            Ok(labels) => program_of_types(alloc, defs, types, labels),
            Err(error) => {
                drop(defs);
                drop(types);
                Err(error)
            }
        }
    }

    /// Takes all words of a text.
    fn read(&mut self, text: &str) -> Result<(), AllocError> {
        for word in text.split(' ') {
            self.take(word.as_bytes())?;
        }
        Ok(())
    }
}

/// The number of the definition that a word names, whose only letter says it.
fn named_by(word: &[u8]) -> u32 {
    match word {
        [letter] => number_of(*letter),
        _ => u32::MAX,
    }
}

/// The labels.
fn labels(alloc: Global) -> Result<Vec<Name>, AllocError> {
    let mut labels = Vec::new(alloc);
    for number in 0..LABELS {
        labels.push(name_of(alloc, b'a'.wrapping_add(number))?)?;
    }
    Ok(labels)
}

/// The program of a sketch, or none where it makes none. Words are separated by one blank each:
/// - `1`; `+ab`, `&ab` with these labels, behind the types of their branches;
/// - `*`, `o` behind what is carried and what follows;
/// - `!i`, `?i` with a kind; `>3`, `<3` with an amount, `>s` with the first star; `^` and `v` for `up` and `down`;
/// - a letter, which names a definition: `a` the first one, `b` the second one, and so on;
/// - `=`, or `=S` for a shared one, which makes the type before it the next definition.
pub(crate) fn program_of(alloc: Global, text: &str) -> Result<Option<Program>, AllocError> {
    let mut sketch = Sketch {
        alloc,
        defs: Vec::new(alloc),
        types: Vec::new(alloc),
        open: Vec::new(alloc),
    };
    match sketch.read(text) {
        Ok(()) => sketch.program(),
        Err(error) => {
            drop(sketch);
            Err(error)
        }
    }
}

/// Whether memory was found to see that no definition is a bare name.
pub(crate) fn is_contractive(alloc: Global, program: &Program) -> bool
    ensures { IsTrue result → IsContractive program.now }
{
    match well_formed(alloc, program) {
        Ok(()) | Err(FormError::Mode(_)) => true,
        Err(FormError::Contractive(_) | FormError::NoMemory) => false,
    }
}
