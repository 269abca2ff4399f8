//! Lists that several own together.
ghost use Rattle.std.specs.Prelude.{◌≡◌, IfOk, length};

use std::alloc::{AllocError, Global};
use std::marker::Model;
use std::rc::Rc;

/// A list in memory that several may own, which contracts see as the list of its items.
#[derive(Drop, Debug)]
pub struct SharedList<T> {
    items: Rc<Vec<T>>,
}

impl<T> Model for SharedList<T> {
    ghost use Rattle.std.specs.Prelude.{List};

    ghost Value = { List T };

    ghost view = { λ list. list.items.value.items };
}

impl<T: Drop> SharedList<T> {
    /// The list of a vector's items, in the vector's own memory.
    pub fn of_vec(alloc: Global, items: Vec<T>) -> Result<Self, AllocError>
        ensures { IfOk result (λ list. list ≡ items.items) }
    {
        let items = Rc::new(alloc, items)?;
        Ok(SharedList { items })
    }

    /// The same list, with one owner more.
    pub fn share(&self) -> Result<Self, AllocError>
        ensures { IfOk result (λ list. list ≡ self.now) }
    {
        let items = self.items.clone()?;
        Ok(SharedList { items })
    }

    /// The items as a slice.
    pub fn as_slice(&self) -> &[T]
        ensures { result.now ≡ self.now }
    {
        self.items.as_ref().as_slice()
    }

    /// The number of items.
    pub fn len(&self) -> usize
        ensures { result ≡ length self.now }
    {
        self.as_slice().len()
    }
}
