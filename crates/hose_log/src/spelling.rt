// A line of the log, in which what is no printable character of ASCII is spelled out: so no
// customer writes a line of it.
use std::alloc::AllocError;

const DIGITS: [u8; 16] = *b"0123456789abcdef";

/// Adds a line: `acme "release 1" released 1 at 2`.
pub fn spell(
    text: &mut Vec<u8>,
    customer: &[u8],
    line: &[u8],
    reply: &[u8],
) -> Result<(), AllocError> {
    spell_bytes(text, customer)?;
    text.extend_from_slice(b" \"")?;
    spell_bytes(text, line)?;
    text.extend_from_slice(b"\" ")?;
    spell_bytes(text, reply)?;
    text.push(b'\n')?;
    Ok(())
}

fn spell_bytes(text: &mut Vec<u8>, bytes: &[u8]) -> Result<(), AllocError> {
    for byte in bytes {
        spell_byte(text, *byte)?;
    }
    Ok(())
}

fn spell_byte(text: &mut Vec<u8>, byte: u8) -> Result<(), AllocError> {
    if byte == b'"' || byte == b'\\' {
        text.push(b'\\')?;
        text.push(byte)?;
        return Ok(());
    }
    if (32..127).contains(&byte) {
        text.push(byte)?;
        return Ok(());
    }
    text.extend_from_slice(b"\\x")?;
    text.push(DIGITS[usize::from(byte / 16)])?;
    text.push(DIGITS[usize::from(byte % 16)])?;
    Ok(())
}
