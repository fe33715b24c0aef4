//! Laws of the wire format. A law is a function that does nothing: its caller gets what the contract of the
//! law states.

ghost use Rattle.std.specs.Prelude.{◌≡◌, ◌↔◌, [], ◌∷◌, ◌++◌, ◌-◌, ◌<◌, ◌≤◌, ℕ, List, Ok, Err, All, length, take, drop};
ghost use Rattle.pbwire.specs.declared.field.WireWhy.{WireWhy};
ghost use Rattle.pbwire.specs.Wire.{WireField, Payload, Spells, AreFields, FitsField};
ghost use Rattle.pbwire.specs.Reading.{field_at};
ghost use Rattle.pbwire.specs.Faults.{Faults};
ghost use Rattle.pbwire.specs.Writing.{varint, spelling, spellings};

/// A read of bytes gives a field and the bytes after it if and only if the read bytes are an encoding of the
/// field, followed by these other bytes. An encoding has at least one byte.
#[inline(always)]
pub fn spelled()
    ensures exactly { (bytes rest : List ℕ) (e : WireField) →
        (field_at bytes ≡ Ok (e, rest)) ↔ ((first : List ℕ) × Spells e first × (bytes ≡ first ++ rest)) }
    ensures shorter { (bytes rest : List ℕ) (e : WireField) → field_at bytes ≡ Ok (e, rest)
        → length rest < length bytes }
{}

/// A read of bytes fails with a reason if and only if the table of faults has this reason for the bytes. The
/// table has at most one reason for any bytes. If the table has a reason for some bytes, no prefix of these
/// bytes encodes a field.
#[inline(always)]
pub fn faulted()
    ensures reason { (bytes : List ℕ) (why : WireWhy) → (field_at bytes ≡ Err why) ↔ Faults why bytes }
    ensures only { (bytes : List ℕ) (why other : WireWhy) → Faults why bytes → Faults other bytes
        → why ≡ other }
    ensures spells_none { (bytes first rest : List ℕ) (why : WireWhy) (e : WireField) →
        Faults why bytes → bytes ≡ first ++ rest → Spells e first → ⊥ }
{}

/// Bytes can be read as at most one list of fields, and reading field after field gives this list.
#[inline(always)]
pub fn listed()
    ensures unique { (es others : List WireField) (bytes : List ℕ) → AreFields es bytes
        → AreFields others bytes → es ≡ others }
    ensures in_order { (e : WireField) (es : List WireField) (bytes : List ℕ) →
        AreFields (e ∷ es) bytes ↔ ((rest : List ℕ) × (field_at bytes ≡ Ok (e, rest)) × AreFields es rest) }
{}

/// If the number and the value of a field are in range (`FitsField`), its shortest encoding is read back as
/// the field, with any bytes after it. If such fields are written one after the other, the bytes are a
/// message with this list of fields. No other encoding of a field is shorter. A field whose number or value
/// is out of range has no encoding.
#[inline(always)]
pub fn written()
    ensures again { (e : WireField) (more : List ℕ) → FitsField e
        → field_at (spelling e ++ more) ≡ Ok (e, more) }
    ensures spells { (e : WireField) → FitsField e → Spells e (spelling e) }
    ensures fits { (e : WireField) (bytes : List ℕ) → Spells e bytes → FitsField e }
    ensures fields { (es : List WireField) → All FitsField es → AreFields es (spellings es) }
    ensures shortest { (e : WireField) (bytes : List ℕ) → Spells e bytes
        → length (spelling e) ≤ length bytes }
{}

/// [`close_bytes`](crate::close_bytes) sets the length of a field with an empty payload to the number of the
/// bytes that were appended after it. The result is the field that has these bytes as its payload.
#[inline(always)]
pub fn closed()
    ensures begins { (number from : ℕ) (old : List ℕ) →
        from ≡ length (old ++ spelling (record { number = number; part = Payload [] })) → 1 ≤ from }
    ensures spelled { (number from : ℕ) (old bytes whole : List ℕ) →
        whole ≡ (old ++ spelling (record { number = number; part = Payload [] })) ++ bytes
        → from ≡ length (old ++ spelling (record { number = number; part = Payload [] }))
        → take (from - 1) whole ++ (varint (length whole - from) ++ drop from whole)
        ≡ old ++ spelling (record { number = number; part = Payload bytes }) }
{}

/// A number below 128 is encoded as a varint of one byte, which is the number.
#[inline(always)]
pub fn short()
    ensures { (n : ℕ) → n < 128 → varint n ≡ n ∷ [] }
{}
