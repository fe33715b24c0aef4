//! Writes texts as words of a line: a word has no space and no line end, and an empty text is `-`.

ghost use Rattle.std.specs.Prelude.{◌≡◌, ◌++◌, IfOk, OnOk};
ghost use Rattle.std.specs.String.{string_bytes};
ghost use Rattle.percent_encoding.specs.Percent.{percent_encode};
ghost use Rattle.command_line.specs.Words.{after_mark, or_dash};

use percent_encoding::{AsciiSet, CONTROLS, ascii_set, utf8_percent_encode};
use std::alloc::{AllocError, Global};

// The ASCII characters that are escaped: the characters that would end a word, and `%`, which begins an
// escape.
const ESCAPED: AsciiSet = ascii_set!(CONTROLS.add(b' ').add(b'%'));

/// Appends a text to a word. Each byte outside 0x21 to 0x7E, and each `%`, is written as `%` and two
/// hexadecimal digits (URL Standard, section 1.3).
///
/// # Errors
///
/// If memory is refused.
pub fn put_word(out: &mut String, text: &str) -> Result<(), AllocError>
    ensures ok { OnOk result
        (string_bytes out.new ≡ string_bytes out.old ++ percent_encode ESCAPED text.now) }
{
    utf8_percent_encode(text, ESCAPED).append_to(out)
}

/// Appends a part of a list. If `out` is not empty, appends `mark` first.
///
/// # Errors
///
/// If memory is refused.
pub fn put_next(out: &mut String, mark: &str, part: &str) -> Result<(), AllocError>
    ensures ok { OnOk result (string_bytes out.new ≡ after_mark (string_bytes out.old) mark.now ++ part.now) }
{
    if !out.is_empty() {
        out.push_str(mark)?;
    }
    out.push_str(part)
}

/// Returns a text as one word, or `-` if the text is empty. Each byte outside 0x21 to 0x7E, and each `%`, is
/// written as `%` and two hexadecimal digits.
///
/// # Errors
///
/// If memory is refused.
pub fn word(alloc: Global, text: &str) -> Result<String, AllocError>
    ensures ok { IfOk result (λ word. string_bytes word ≡ or_dash (percent_encode ESCAPED text.now)) }
{
    let mut out = String::new(alloc);
    put_word(&mut out, text)?;
    or_dash(out)
}

/// Returns the word itself, or `-` if the word is empty.
///
/// # Errors
///
/// If memory is refused.
pub fn or_dash(text: String) -> Result<String, AllocError>
    ensures ok { IfOk result (λ word. string_bytes word ≡ or_dash (string_bytes text)) }
{
    let mut text = text;
    if text.is_empty() {
        text.push('-')?;
    }
    Ok(text)
}
