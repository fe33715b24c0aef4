//! A value in allocated memory, which contracts see as the value itself.

ghost use Rattle.std.specs.Prelude.{◌≡◌, IfOk};

use std::alloc::{AllocError, Global};
use std::fmt;
use std::marker::Model;

/// A value in allocated memory. In a struct or an enum, the box takes only the bytes of a pointer.
#[derive(Drop)]
pub struct Boxed<T> {
    kept: Box<T>,
}

impl<T> Model for Boxed<T> {
    ghost Value = { T };

    ghost coded = { T.code };

    ghost view = { λ b. b.kept.value };
}

impl<T> Boxed<T> {
    /// Returns a reference to the value in the box.
    pub fn get(&self) -> &T
        ensures { result.now ≡ self.now }
    {
        &self.kept
    }
}

impl<T> Boxed<T> {
    /// Returns the value and frees the memory of the box.
    pub fn into_value(self) -> T
        ensures { result ≡ self }
    {
        Box::into_inner(self.kept)
    }
}

impl<T: Drop> Boxed<T> {
    /// Moves a value into allocated memory. If memory is refused, the call fails and the value is dropped.
    ///
    /// The function is inlined. So if the value is an enum and the caller knows its variant, only the bytes
    /// of this variant are moved.
    #[inline(always)]
    pub fn new(alloc: Global, value: T) -> Result<Boxed<T>, AllocError>
        ensures { IfOk result (λ boxed. boxed ≡ value) }
    {
        match Box::new(alloc, value) {
            Ok(kept) => Ok(Boxed { kept }),
            Err(_) => Err(AllocError),
        }
    }
}

// Writes the value as its own `Debug` does.
impl<T: fmt::Debug> fmt::Debug for Boxed<T> {
    fn fmt<W: fmt::Write>(&self, f: &mut fmt::Formatter<W>) -> fmt::Result {
        self.get().fmt(f)
    }
}

impl<T: PartialEq> PartialEq for Boxed<T> {
    ghost eq = { T.eq };

    ghost laws = { T.laws };

    fn eq(&self, other: &Self) -> bool {
        self.get() == other.get()
    }
}

impl<T: Eq> Eq for Boxed<T> {
    ghost laws = { T.Eq.laws };
}
