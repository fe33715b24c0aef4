//! Texts in UTF-8, which contracts see as their bytes.

ghost use Rattle.std.specs.Prelude.{◌≡◌, ◌==◌, ◌++◌, ℕ, List, [], IfOk, IsUtf8, OnErr, OnOk, length};
ghost use Rattle.std.specs.String.{string_bytes};

use arrayvec::ArrayString;
use std::alloc::{AllocError, Global};
use std::cmp::Ordering;
use std::convert::AsStr;
use std::fmt;
use std::marker::Model;

// The greatest length in bytes of a text that is stored in the value itself. Most ids, keys and pool names
// are not longer. A greater limit would make the value larger than 32 bytes.
const SHORT_BYTES: usize = 16;

// The place where the bytes of a text are stored.
#[derive(Drop)]
enum TextStorage {
    // In the value itself. The allocator is for a longer text that replaces this text.
    Short(ArrayString<SHORT_BYTES>, Global),
    // In allocated memory.
    Long(String),
}

/// A text in UTF-8 (Protocol Buffers language guide, 'Scalar Value Types').
///
/// Texts are ordered by their bytes. A `Text` takes 32 bytes. [`Text::new`], [`Text::from_str`],
/// [`Text::copy`] and [`Text::joined`] store a text of at most 16 bytes in these 32 bytes, and allocate only
/// for a longer text. [`Text::from_string`] keeps the memory of its string, however short the string is, and
/// [`Text::set`] keeps memory that the text already has.
pub struct Text {
    kept: TextStorage,
}

// Written by hand and not derived. So a proof about code that drops a text has one call of `drop`, and no
// branch for each variant of `TextStorage`.
impl Drop for Text {
    #[inline(always)]
    fn drop(self) {
        let Text { kept: _kept } = self;
    }
}

impl Model for Text {
    ghost use Rattle.std.specs.Prelude.{ℕ, List};
    ghost use Rattle.csi_types.specs.Texts.{kept_bytes};

    ghost Value = { List ℕ };

    ghost view = { λ a. kept_bytes a.kept };
}

impl Text {
    /// Makes an empty text. Takes no memory.
    pub fn new(alloc: Global) -> Self
        ensures { result ≡ [] }
    {
        Text {
            kept: TextStorage::Short(ArrayString::new(), alloc),
        }
    }

    /// Copies a text. Allocates only if it has more than 16 bytes. Fails if memory is refused.
    pub fn from_str(alloc: Global, text: &str) -> Result<Self, AllocError>
        ensures { IfOk result (λ copy. copy ≡ text.now) }
    {
        let kept = match ArrayString::from(text) {
            Ok(short) => TextStorage::Short(short, alloc),
            Err(_) => TextStorage::Long(String::from_str(alloc, text)?),
        };
        Ok(Text { kept })
    }

    /// Copies this text. Allocates only if it has more than 16 bytes. Fails if memory is refused. Copying a
    /// text that is stored in the value itself takes fewer steps than [`Text::from_str`].
    #[inline(always)]
    pub fn copy(&self, alloc: Global) -> Result<Self, AllocError>
        ensures { IfOk result (λ copy. copy ≡ self.now) }
    {
        match &self.kept {
            TextStorage::Short(short, _) => Ok(Text {
                kept: TextStorage::Short(*short, alloc),
            }),
            TextStorage::Long(string) => Self::from_str(alloc, string.as_str()),
        }
    }

    /// Returns `first` followed by `second`. Allocates only if the result has more than 16 bytes. Fails if
    /// memory is refused.
    pub fn joined(alloc: Global, first: &str, second: &str) -> Result<Self, AllocError>
        ensures { IfOk result (λ both. both ≡ first.now ++ second.now) }
    {
        let mut short = ArrayString::new();
        if short.try_push_str(first).is_ok() && short.try_push_str(second).is_ok() {
            return Ok(Text {
                kept: TextStorage::Short(short, alloc),
            });
        }
        let mut string = String::from_str(alloc, first)?;
        string.push_str(second)?;
        Ok(Self::from_string(string))
    }

    /// Makes a text that keeps the memory of a string, also if the string has at most 16 bytes. Does not
    /// allocate.
    pub fn from_string(string: String) -> Self
        ensures { result ≡ string_bytes string }
    {
        Text {
            kept: TextStorage::Long(string),
        }
    }

    /// Sets this text to a copy of `text`. Allocates only if the text does not have enough memory already. If
    /// memory is refused, the call fails and the text is empty.
    ///
    /// A message may repeat one field 350,000 times, so reusing the memory saves many allocations. A text
    /// that outlives its request is copied, and the copy has no unused memory.
    pub fn set(&mut self, text: &str) -> Result<(), AllocError>
        ensures ok { OnOk result (self.new ≡ text.now) }
        ensures err { OnErr result (self.new ≡ []) }
    {
        match &mut self.kept {
            TextStorage::Short(short, alloc) => {
                short.clear();
                if short.try_push_str(text).is_err() {
                    self.kept = TextStorage::Long(String::from_str(*alloc, text)?);
                }
                Ok(())
            }
            TextStorage::Long(string) => {
                string.clear();
                string.push_str(text)
            }
        }
    }

    /// Borrows the text as a `&str`, without copying it.
    pub fn as_str(&self) -> &str
        ensures bytes { result.now ≡ self.now }
        ensures utf8 { IsUtf8 self.now }
    {
        match &self.kept {
            TextStorage::Short(short, _) => short.as_str(),
            TextStorage::Long(string) => string.as_str(),
        }
    }

    /// Returns the bytes of the text in UTF-8.
    pub fn as_bytes(&self) -> &[u8]
        ensures bytes { result.now ≡ self.now }
        ensures utf8 { IsUtf8 self.now }
    {
        self.as_str().as_bytes()
    }

    /// Returns the length of the text in bytes.
    pub fn len(&self) -> usize
        ensures { result ≡ length self.now }
    {
        self.as_str().len()
    }

    /// Returns true if the text has no bytes.
    pub fn is_empty(&self) -> bool
        ensures { result ≡ (length self.now == 0) }
    {
        self.as_str().is_empty()
    }
}

// Writes the text in quotes, as the `Debug` of `str` does.
impl fmt::Debug for Text {
    fn fmt<W: fmt::Write>(&self, f: &mut fmt::Formatter<W>) -> fmt::Result {
        fmt::Debug::fmt(self.as_str(), f)
    }
}

impl fmt::Display for Text {
    fn fmt<W: fmt::Write>(&self, f: &mut fmt::Formatter<W>) -> fmt::Result {
        fmt::Display::fmt(self.as_str(), f)
    }
}

impl AsStr for Text {
    ghost text = { λ a. a };

    fn as_str(&self) -> &str {
        Text::as_str(self)
    }
}

impl PartialEq for Text {
    ghost use Rattle.std.specs.Prelude.{nat_eq};
    ghost use Rattle.std.specs.Cmp.Lexicographic.{pointwise, nat_list_eq_equiv};
    ghost use Rattle.std.specs.Cmp.{partial_equiv_from_equiv};

    ghost eq = { pointwise nat_eq };

    ghost laws = { partial_equiv_from_equiv nat_list_eq_equiv };

    fn eq(&self, other: &Self) -> bool {
        self.as_str() == other.as_str()
    }
}

impl Eq for Text {
    ghost use Rattle.std.specs.Cmp.Lexicographic.{nat_list_eq_equiv};

    ghost laws = { nat_list_eq_equiv };
}

impl PartialOrd for Text {
    ghost use Rattle.std.specs.Prelude.{Some};
    ghost use Rattle.std.specs.Ordering.{nat_cmp};
    ghost use Rattle.std.specs.Cmp.Lexicographic.{slice_cmp, texts_po};

    ghost partial_cmp = { λ x y. Some (slice_cmp nat_cmp x y) };

    ghost laws = { texts_po };

    fn partial_cmp(&self, other: &Self) -> Option<Ordering> {
        Some(self.cmp(other))
    }
}

impl Ord for Text {
    ghost use Rattle.std.specs.Prelude.{refl};
    ghost use Rattle.std.specs.Ordering.{nat_cmp};
    ghost use Rattle.std.specs.Cmp.Lexicographic.{slice_cmp, nat_list_cmp_total, texts_ties};

    ghost cmp = { slice_cmp nat_cmp };

    ghost total = { nat_list_cmp_total };

    ghost matches_partial_cmp = { λ x y. refl };

    ghost matches_eq = { λ x y. texts_ties x y };

    fn cmp(&self, other: &Self) -> Ordering {
        self.as_str().cmp(other.as_str())
    }
}
