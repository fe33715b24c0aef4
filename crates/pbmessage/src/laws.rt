//! A law about the fields of a message. A law is a function that does nothing: its caller gets what the
//! contract of the law states.

ghost use Rattle.std.specs.Prelude.{◌≡◌, ℕ, List};
ghost use Rattle.pbwire.specs.Wire.{WireField, AreFields};
ghost use Rattle.pbmessage.specs.Fields.{fields_of};

use pbwire::laws::spelled;

/// If bytes are a list of fields, the function `fields_of` returns these fields (Protocol Buffers encoding
/// guide, 'Message Structure').
#[inline(always)]
pub fn fields()
    ensures { (bytes : List ℕ) (es : List WireField) → AreFields es bytes → fields_of bytes ≡ es }
{
    spelled();
}
