//! Decodes the columns of a row from the fields of a message.

ghost use Rattle.std.specs.Prelude.{◌≡◌, ◌<◌, ◌≤◌, ◌^◌, [], nat_lt, slice_set, ℕ, IfNone, IfSome, IsTrue, get_or, length, map};
ghost use Rattle.pbwire.specs.Reading.{wire_field_of};
ghost use Rattle.csi_change_store.specs.Cells.{IsReadAs, IsUnread, TakesField, bytes_of, borrowed, number_of};
ghost use Rattle.csi_change_store.specs.Pages.{is_cell};

use pbwire::laws::{listed, spelled};
use pbwire::{Field, Fields, Value};

// The length of an array by field number. The field numbers of columns are 1 to 6.
const NUMBERS: usize = 7;

// The limit of a number in a column: each number is below 2^63, as in SQLite.
const LIMIT: u64 = 1 << 63;

/// The type of the values in a column.
#[derive(Clone, Copy)]
pub(crate) enum CellKind {
    /// No column. In a list of kinds, the index is the field number; a field whose number has this kind is
    /// ignored.
    Skipped,
    Integer,
    Bytes,
}

/// The values in the columns of a row, by field number. A column without a field is 0 or empty.
#[derive(Clone, Copy)]
pub(crate) struct Cells<'a> {
    numbers: [u64; NUMBERS],
    payloads: [&'a [u8]; NUMBERS],
}

impl<'a> Cells<'a> {
    fn new() -> Cells<'a>
        ensures numbers { (k : ℕ) → get_or result.numbers k 0 ≡ 0 }
        ensures bytes { (k : ℕ) → get_or (map borrowed result.payloads) k [] ≡ [] }
    {
        Cells {
            numbers: [0; NUMBERS],
            payloads: [&[]; NUMBERS],
        }
    }

    // Stores the value of a field in its column. Returns false if the column cannot have this value. A field
    // without a column is ignored.
    fn set_field(&mut self, kinds: &[CellKind], field: Field<'a>) -> bool
        requires { length kinds.now ≤ 7 }
        ensures fits { result ≡ is_cell kinds.now (wire_field_of field.entry) }
        ensures taken { IsTrue result → TakesField kinds.now (wire_field_of field.entry) self.old self.new }
    {
        let at = field.number as usize;
        let Some(kind) = kinds.get(at) else {
            return true;
        };
        match (*kind, field.value) {
            (CellKind::Skipped, _) => true,
            (CellKind::Integer, Value::Varint(number)) => self.set_number(at, number),
            (CellKind::Integer, Value::Bytes(_) | Value::Fixed64(_) | Value::Fixed32(_)) => false,
            (CellKind::Bytes, Value::Bytes(bytes)) => {
                self.payloads[at] = bytes;
                true
            }
            (CellKind::Bytes, Value::Varint(_) | Value::Fixed64(_) | Value::Fixed32(_)) => false,
        }
    }

    // Stores a number in the column with field number `at`. Returns false if the number is 2^63 or above,
    // which no row can have.
    fn set_number(&mut self, at: usize, number: u64) -> bool
        requires { at < 7 }
        ensures fits { result ≡ nat_lt number (2 ^ 63) }
        ensures taken { IsTrue result → self.new
            ≡ record self.old { numbers = slice_set self.old.numbers at number } }
    {
        if number >= LIMIT {
            return false;
        }
        self.numbers[at] = number;
        true
    }

    /// Returns the number in the column with field number `at`, or 0 if the row has no such field.
    pub(crate) fn number(&self, at: usize) -> u64
        requires { at < 7 }
        ensures { result ≡ number_of self.now at }
    {
        self.numbers[at]
    }

    /// Returns the bytes in the column with field number `at`, or no bytes if the row has no such field.
    pub(crate) fn bytes(&self, at: usize) -> &'a [u8]
        requires { at < 7 }
        ensures { result.now ≡ bytes_of self.now at }
    {
        self.payloads[at]
    }
}

/// Decodes the columns of a row. Returns `None` if the payload is malformed, or if a field has a value that
/// its column cannot have.
pub(crate) fn read_cells<'a>(kinds: &[CellKind], payload: &'a [u8]) -> Option<Cells<'a>>
    requires { length kinds.now ≤ 7 }
    ensures read { IfSome result (λ cells. IsReadAs kinds.now payload.now cells) }
    ensures unread { IfNone result (IsUnread kinds.now payload.now) }
{
    spelled();
    listed();
    let mut cells = Cells::new();
    let mut fields = Fields::new(payload);
    while let Some(next) = fields.next_field() {
        let Ok(field) = next else {
            return None;
        };
        if !cells.set_field(kinds, field) {
            return None;
        }
    }
    Some(cells)
}
