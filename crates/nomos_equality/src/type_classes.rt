//! Types in classes, which are joined a pair at a time.
ghost use Rattle.std.specs.Prelude.{◌≡◌, ◌≤◌, [], ◌∷◌, ◌++◌, IfOk, IsTrue};
ghost use Rattle.std.specs.List.{range_with_len};
ghost use Rattle.nomos_equality.specs.mirror.Linking.{Linked, Joins, JoinInPlace};

use crate::told_pairs::{ToldPairs, then};
use nomos_ir::ids::TypeId;
use std::alloc::{AllocError, Global};
use std::marker::Model;

/// Types in classes. Contracts see the pairs that were joined: two types of one class are linked by these.
#[derive(Drop)]
pub(crate) struct TypeClasses {
    /// For each type one of its class that is not greater, itself alone where it is the least of its class.
    above: Vec<usize>,
    joined: ToldPairs,
}

impl Model for TypeClasses {
    ghost use Rattle.std.specs.Prelude.{List};
    ghost use Rattle.nomos_ir.specs.declared.ids.TypeId.{TypeId};
    ghost use Rattle.nomos_equality.specs.mirror.Linking.{IsForest};
    ghost use Rattle.nomos_equality.specs.mirror.ToldPairs.{pairs_of};

    ghost Value = { List (TypeId × TypeId) };

    ghost view = { λ c. pairs_of c.joined };

    ghost invariant = { λ c. IsForest c.above.items (pairs_of c.joined) };
}

/// The numbers below the count, each in its own place.
fn in_place(alloc: Global, count: usize) -> Result<Vec<usize>, AllocError>
    ensures { IfOk result (λ v. v.items ≡ range_with_len 0 count) }
{
    (0..count).collect(alloc)
}

/// Makes room for so many numbers. Those that join are each in its own place.
fn fill_in_place(above: &mut Vec<usize>, count: usize) -> Result<(), AllocError>
    ensures { JoinInPlace above.old.items above.new.items }
{
    while above.len() < count {
        let next = above.len();
        above.push(next)?;
    }
    Ok(())
}

impl TypeClasses {
    /// No types are there yet. It takes no memory.
    pub(crate) fn empty(alloc: Global) -> TypeClasses
        ensures { result ≡ [] }
    {
        TypeClasses {
            above: Vec::new(alloc),
            joined: ToldPairs::Nothing,
        }
    }

    /// So many types, each in a class of its own.
    pub(crate) fn new(alloc: Global, count: usize) -> Result<TypeClasses, AllocError>
        ensures { IfOk result (λ classes. classes ≡ []) }
    {
        Ok(TypeClasses {
            above: in_place(alloc, count)?,
            joined: ToldPairs::Nothing,
        })
    }

    /// Makes room for so many types. Those that join are each in a class of its own.
    pub(crate) fn make_room(&mut self, count: usize) -> Result<(), AllocError>
        ensures { self.new ≡ self.old }
    {
        fill_in_place(&mut self.above, count)
    }

    /// A type of the same class that is not greater, another one where there is such.
    fn over(&self, t: usize) -> usize
        ensures linked { Linked self.now t result }
        ensures order { result ≤ t }
    {
        match self.above.get(t) {
            Some(above) => *above,
            None => t,
        }
    }

    /// Puts a type over another of its class.
    fn put_over(&mut self, t: usize, above: usize)
        requires linked { Linked self.old t above }
        requires order { above ≤ t }
        ensures { self.new ≡ self.old }
    {
        if let Some(place) = self.above.get_mut(t) {
            *place = above;
        }
    }

    /// The least type of the class that is known. What stands on the way to it is put over one further on.
    fn least(&mut self, t: usize) -> usize
        ensures linked { Linked self.new t result }
        ensures same { self.new ≡ self.old }
    {
        let mut at = t;
        let mut up = self.over(at);
        while up < at {
            let next = self.over(up);
            self.put_over(at, next);
            at = next;
            up = self.over(at);
        }
        at
    }

    /// One more pair is joined.
    fn tell(&mut self, left: TypeId, right: TypeId)
        ensures { self.new ≡ self.old ++ (left, right) ∷ [] }
    {
        self.joined = then(&self.joined, left, right);
    }

    /// Whether two types are known to be of one class.
    pub(crate) fn are_one(&mut self, left: TypeId, right: TypeId) -> bool
        ensures linked { IsTrue result → Linked self.old left.0 right.0 }
        ensures same { self.new ≡ self.old }
    {
        let low = self.least(left.0 as usize);
        let high = self.least(right.0 as usize);
        low == high
    }

    /// Joins the classes of two types, and says whether they were two.
    pub(crate) fn join(&mut self, left: TypeId, right: TypeId) -> bool
        ensures { Joins self.old (left, right) self.new result }
    {
        let low = self.least(left.0 as usize);
        let high = self.least(right.0 as usize);
        if low == high {
            return false;
        }
        self.tell(left, right);
        if low < high {
            self.put_over(high, low);
        } else {
            self.put_over(low, high);
        }
        true
    }
}
