// Bytes written as hexadecimal digits, two for each byte, and `-` for none.
use std::alloc::{AllocError, Global};

pub fn bytes_of(heap: Global, text: &str) -> Option<Vec<u8>> {
    match text {
        "-" => Some(Vec::new(heap)),
        _ => hex::decode(heap, text).ok(),
    }
}

// The bytes whose digits are made at once.
const PART: usize = 4096;

// Puts the digits behind a text, part by part, so that they are not held twice.
pub fn push_hex(heap: Global, text: &mut String, bytes: &[u8]) -> Result<(), AllocError> {
    if bytes.is_empty() {
        return text.push('-');
    }
    text.reserve(bytes.len().saturating_mul(2))?;
    for part in bytes.chunks(PART) {
        text.push_str(hex::encode(heap, part)?.as_str())?;
    }
    Ok(())
}

pub fn hex_text(heap: Global, bytes: &[u8]) -> Result<String, AllocError> {
    let mut text = String::new(heap);
    push_hex(heap, &mut text, bytes)?;
    Ok(text)
}
