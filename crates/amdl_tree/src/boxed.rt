ghost use Rattle.std.specs.Prelude.{◌≡◌, IfOk};

use crate::list::NoMemory;
use std::alloc::Global;
use std::marker::Model;

/// One value on the heap, which contracts see as the value.
#[derive(Debug, Drop)]
pub struct Boxed<T> {
    kept: Box<T>,
}

impl<T> Model for Boxed<T> {
    ghost Value = { T };

    ghost coded = { T.code };

    ghost view = { λ boxed. boxed.kept.value };
}

impl<T> Boxed<T> {
    /// The value itself.
    pub fn value(&self) -> &T
        ensures { result.now ≡ self.now }
    {
        &self.kept
    }
}

impl<T: Drop> Boxed<T> {
    /// Puts a value on the heap. After want of memory the value is given up.
    pub fn new(alloc: Global, value: T) -> Result<Boxed<T>, NoMemory>
        ensures { IfOk result (λ boxed. boxed ≡ value) }
    {
        match Box::new(alloc, value) {
            Ok(kept) => Ok(Boxed { kept }),
            Err(_) => Err(NoMemory),
        }
    }
}

impl<T: PartialEq> PartialEq for Boxed<T> {
    ghost eq = { λ value other. T.eq value other };

    ghost laws = { T.laws };

    fn eq(&self, other: &Boxed<T>) -> bool {
        self.value().eq(other.value())
    }
}

impl<T: Eq> Eq for Boxed<T> {
    ghost laws = { T.Eq.laws };
}
