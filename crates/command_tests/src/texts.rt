//! Texts that are put together, and the words of a text.
use std::alloc::{AllocError, Global};
use union_base::bytes::Bytes;
use union_base::memory::Memory;

/// The texts, one after the other.
pub fn joined(alloc: Global, parts: &[&[u8]]) -> Result<Vec<u8>, AllocError> {
    let mut text = Vec::new(alloc);
    for part in parts {
        text.extend_from_slice(part)?;
    }
    Ok(text)
}

/// The words of a text, between bytes of that kind.
pub fn words_between(alloc: Global, text: &[u8], byte: u8) -> Result<Vec<Bytes>, Memory> {
    let mut words = Vec::new(alloc);
    for word in text.split(|b| *b == byte) {
        if !word.is_empty() {
            words.push(Bytes::of(alloc, word)?)?;
        }
    }
    Ok(words)
}
