//! Bytes as a text in quotation marks, with escapes for hidden characters.
ghost use Rattle.std.specs.Prelude.{◌≡◌, ◌++◌, OnOk, string_bytes};
ghost use Rattle.lots_record.specs.Quoted as spec;

use std::alloc::{AllocError, Allocator};

/// Whether a character is hidden: a control or format character, a space other than the plain one,
/// a character of private use, or another one that does not show. The table is fixed: it does not
/// follow the version of Unicode.
fn is_hidden(letter: char) -> bool
    ensures { result ≡ spec.is_hidden letter }
{
    matches!(letter,
        '\0'..='\u{1f}' | '\u{7f}'..='\u{a0}' | '\u{ad}' | '\u{34f}' | '\u{600}'..='\u{605}'
        | '\u{61c}' | '\u{6dd}' | '\u{70f}' | '\u{890}'..='\u{891}' | '\u{8e2}'
        | '\u{115f}'..='\u{1160}' | '\u{1680}' | '\u{17b4}'..='\u{17b5}' | '\u{180b}'..='\u{180f}'
        | '\u{2000}'..='\u{200f}' | '\u{2028}'..='\u{202f}' | '\u{205f}'..='\u{206f}' | '\u{2800}'
        | '\u{3000}' | '\u{3164}' | '\u{e000}'..='\u{f8ff}' | '\u{fdd0}'..='\u{fdef}'
        | '\u{fe00}'..='\u{fe0f}' | '\u{feff}' | '\u{ffa0}' | '\u{fff0}'..='\u{ffff}'
        | '\u{110bd}' | '\u{110cd}' | '\u{13430}'..='\u{1343f}' | '\u{1bca0}'..='\u{1bca3}'
        | '\u{1d173}'..='\u{1d17a}' | '\u{e0000}'..='\u{10ffff}')
}

/// Appends a byte as a backslash, an x and two hexadecimal digits.
#[tactic(auto, using(std::proofs::lemmas::Fmt::hex_byte))]
fn push_escape<A: Allocator>(text: &mut String<A>, byte: u8) -> Result<(), AllocError>
    ensures { OnOk result
        (string_bytes text.new ≡ string_bytes text.old ++ spec.escape byte) }
{
    write!(text, "\\x{byte:02x}")
}

/// Appends the escape of each byte.
fn push_escapes<A: Allocator>(text: &mut String<A>, bytes: &[u8]) -> Result<(), AllocError>
    ensures { OnOk result
        (string_bytes text.new ≡ string_bytes text.old ++ spec.escapes bytes.now) }
{
    for byte in bytes {
        push_escape(text, *byte)?;
    }
    Ok(())
}

/// Appends a character, escaped if it is a backslash or hidden.
fn push_letter<A: Allocator>(text: &mut String<A>, letter: char) -> Result<(), AllocError>
    ensures { OnOk result
        (string_bytes text.new ≡ string_bytes text.old ++ spec.letter_text letter) }
{
    if letter == '\\' || is_hidden(letter) {
        return push_escapes(text, letter.encode_utf8(&mut [0; 4]).as_bytes());
    }
    text.push(letter)
}

/// Appends a byte of a list that is not UTF-8: a printable ASCII character except the backslash as
/// it is, any other byte escaped.
fn push_byte<A: Allocator>(text: &mut String<A>, byte: u8) -> Result<(), AllocError>
    ensures { OnOk result
        (string_bytes text.new ≡ string_bytes text.old ++ spec.byte_text byte) }
{
    if byte == b'\\' || byte < b' ' || b'~' < byte {
        return push_escape(text, byte);
    }
    text.push(byte as char)
}

/// Appends the characters of a text.
fn push_letters<A: Allocator>(text: &mut String<A>, letters: &str) -> Result<(), AllocError>
    ensures { OnOk result
        (string_bytes text.new ≡ string_bytes text.old ++ spec.letters_text letters.now) }
{
    for letter in letters.chars() {
        push_letter(text, letter)?;
    }
    Ok(())
}

/// Appends bytes that are not UTF-8.
fn push_bytes<A: Allocator>(text: &mut String<A>, bytes: &[u8]) -> Result<(), AllocError>
    ensures { OnOk result
        (string_bytes text.new ≡ string_bytes text.old ++ spec.bytes_text bytes.now) }
{
    for byte in bytes {
        push_byte(text, *byte)?;
    }
    Ok(())
}

/// Appends bytes, with escapes for hidden characters.
#[tactic(auto, using(crate::proofs::QuotedLemmas::shown_text, crate::proofs::QuotedLemmas::shown_bytes))]
fn push_shown<A: Allocator>(text: &mut String<A>, bytes: &[u8]) -> Result<(), AllocError>
    ensures { OnOk result
        (string_bytes text.new ≡ string_bytes text.old ++ spec.shown bytes.now) }
{
    match str::from_utf8(bytes) {
        Ok(letters) => push_letters(text, letters),
        Err(_) => push_bytes(text, bytes),
    }
}

/// Appends bytes in quotation marks, with escapes for hidden characters.
pub fn push_quoted<A: Allocator>(text: &mut String<A>, bytes: &[u8]) -> Result<(), AllocError>
    ensures { OnOk result
        (string_bytes text.new ≡ string_bytes text.old ++ spec.quoted bytes.now) }
{
    text.push('"')?;
    push_shown(text, bytes)?;
    text.push('"')
}
