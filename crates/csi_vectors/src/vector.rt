//! Parses a line of text as a test vector.

ghost use Rattle.std.specs.Prelude.{◌≡◌, List, ℕ, IfOk, IsErrOf, IsTrue};
ghost use Rattle.std.specs.Char.{is_ascii_hexdigit};
ghost use Rattle.std.specs.List.{list_all};
ghost use Rattle.csi_vectors.specs.Lines.{IsLineOf, IsSpelling, Spells};
ghost use Rattle.csi_vectors.specs.declared.vector.LineFault.TheVariants.{NoMemory, NotVector};

use std::alloc::{AllocError, Global};

/// A test vector: input bytes for a new server, and the output bytes that the server must write.
#[derive(Debug, Drop)]
pub struct Vector<'a> {
    /// The name of the vector, which its result line shows.
    pub name: &'a str,
    /// The bytes that the server is given: frames of calls. The server answers the calls up to the end of
    /// the input or the first malformed frame.
    pub input: Vec<u8>,
    /// The frames of replies. The server must write exactly these bytes.
    pub output: Vec<u8>,
}

/// The reason why a line cannot be parsed as a vector.
#[derive(Clone, Copy, Debug, PartialEq, Eq)]
pub enum LineFault {
    /// The line is not a name, an input and an output, separated by single spaces, or the input or output is
    /// not in hexadecimal digits.
    NotVector,
    /// Memory for the input or the output was refused.
    NoMemory,
}

impl From<AllocError> for LineFault {
    ghost from_gives = { λ _ fault. fault ≡ NoMemory };

    fn from(_error: AllocError) -> LineFault {
        LineFault::NoMemory
    }
}

fn are_digits(bytes: &[u8]) -> bool
    ensures { result ≡ list_all is_ascii_hexdigit bytes.now }
{
    bytes.iter().all(|byte| byte.is_ascii_hexdigit())
}

// Returns true if the text is one or more pairs of hexadecimal digits in either case, or `-` for no bytes.
fn is_spelling(digits: &str) -> bool
    ensures true_only_if { IsTrue result → IsSpelling digits.now }
    ensures none { IsSpelling digits.now → IsTrue result }
{
    if digits == "-" {
        return true;
    }
    if digits.is_empty() || digits.len() % 2 != 0 {
        return false;
    }
    are_digits(digits.as_bytes())
}

// Decodes hexadecimal digits that pass `is_spelling`. Fails only if memory is refused.
#[tactic(auto, using(crate::proofs::Digits::spelled))]
fn bytes_of(alloc: Global, digits: &str) -> Result<Vec<u8>, AllocError>
    ensures { IfOk result (λ bytes. IsSpelling digits.now → Spells digits.now bytes.items) }
{
    if digits == "-" {
        return Ok(Vec::new(alloc));
    }
    match hex::decode(alloc, digits) {
        Ok(bytes) => Ok(bytes),
        Err(_) => Err(AllocError),
    }
}

impl<'a> Vector<'a> {
    /// Parses a line: the name, the input and the output of a vector, separated by single spaces. The input
    /// and the output are in hexadecimal digits, or `-` for no bytes.
    ///
    /// # Errors
    ///
    /// [`LineFault::NotVector`] if the line is not a vector. [`LineFault::NoMemory`] if it is a vector and
    /// memory is refused.
    pub fn parse(alloc: Global, line: &'a str) -> Result<Vector<'a>, LineFault>
        ensures ok { IfOk result (λ v. IsLineOf line.now v.name.now v.input.items v.output.items) }
        ensures refused { IsErrOf result NotVector → (name input output : List ℕ)
            → ¬ IsLineOf line.now name input output }
        ensures memory { IsErrOf result NoMemory → (name input output : List ℕ)
            × IsLineOf line.now name input output }
    {
        let Some((name, rest)) = line.split_once(' ') else {
            return Err(LineFault::NotVector);
        };
        let Some((input, output)) = rest.split_once(' ') else {
            return Err(LineFault::NotVector);
        };
        if name.is_empty() || !is_spelling(input) || !is_spelling(output) {
            return Err(LineFault::NotVector);
        }
        Ok(Vector {
            name,
            input: bytes_of(alloc, input)?,
            output: bytes_of(alloc, output)?,
        })
    }
}
