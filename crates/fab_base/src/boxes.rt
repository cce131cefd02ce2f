//! Values on the heap.

ghost use Rattle.std.specs.Prelude.{◌≡◌, IfOk};

use crate::faults::NoMem;
use std::alloc::Global;
use std::marker::Model;

/// A value on the heap, seen as that value: a large part of an enum that mostly holds small ones.
#[derive(Drop)]
pub struct Boxed<T> {
    held: Box<T>,
}

impl<T> Model for Boxed<T> {
    ghost Value = { T };

    ghost coded = { T.code };

    ghost view = { λ boxed. boxed.held.value };
}

impl<T: Drop> Boxed<T> {
    /// This value.
    pub fn new(alloc: Global, value: T) -> Result<Boxed<T>, NoMem>
        ensures { IfOk result (λ boxed. boxed ≡ value) }
    {
        let held = Box::new(alloc, value)?;
        Ok(Boxed { held })
    }
}

impl<T> Boxed<T> {
    /// The value, to read.
    pub fn get(&self) -> &T
        ensures { result.now ≡ self.now }
    {
        &self.held
    }

    /// The value, taken from the heap.
    pub fn into_inner(self) -> T
        ensures { result ≡ self }
    {
        let Boxed { held } = self;
        Box::into_inner(held)
    }
}
