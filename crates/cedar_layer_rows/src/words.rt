// The bytes that a line's words write, and how bytes are told.
use cedar_rows::Answer;
use std::alloc::{AllocError, Global};

/// The bytes that a text writes: `\n` is a line feed, `\xff` the byte of this number; before anything else a backslash is
/// itself.
pub(crate) fn bytes(alloc: Global, text: &str) -> Result<Vec<u8>, AllocError> {
    let mut bytes = Vec::new(alloc);
    let (plain, _) = text.split_once('\\').unwrap_or((text, ""));
    bytes.extend_from_slice(plain.as_bytes())?;
    for piece in text.split('\\').skip(1) {
        put_piece(&mut bytes, piece)?;
    }
    Ok(bytes)
}

/// The byte that two digits behind an `x` write, and what follows them.
fn byte(piece: &str) -> Option<(u8, &str)> {
    let (digits, rest) = piece.strip_prefix('x')?.split_at_checked(2)?;
    Some((u8::from_str_radix(digits, 16).ok()?, rest))
}

/// Puts what a backslash and this behind it write.
fn put_piece(bytes: &mut Vec<u8>, piece: &str) -> Result<(), AllocError> {
    if let Some(rest) = piece.strip_prefix('n') {
        bytes.push(b'\n')?;
        return bytes.extend_from_slice(rest.as_bytes());
    }
    if let Some((byte, rest)) = byte(piece) {
        bytes.push(byte)?;
        return bytes.extend_from_slice(rest.as_bytes());
    }
    bytes.push(b'\\')?;
    bytes.extend_from_slice(piece.as_bytes())
}

/// The bytes on one line.
pub(crate) fn one_line(alloc: Global, bytes: &[u8]) -> Answer {
    match str::from_utf8(bytes) {
        Ok(text) => text.replace(alloc, '\n', "\\n"),
        Err(_) => String::from_str(alloc, "no text"),
    }
}
