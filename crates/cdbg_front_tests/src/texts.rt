//! Long texts, of pieces that are repeated.

use std::alloc::{AllocError, Global};

/// A piece of a text.
#[derive(Clone, Copy)]
pub enum Piece {
    /// Bytes.
    Once(&'static [u8]),
    /// Bytes, so many times.
    Times(&'static [u8], u32),
    /// Bytes before and behind each number from 0 on, so many times.
    Numbered(&'static [u8], &'static [u8], u32),
}

/// Adds a piece to a text.
fn add(alloc: Global, text: &mut Vec<u8>, piece: Piece) -> Result<(), AllocError> {
    match piece {
        Piece::Once(bytes) => text.extend_from_slice(bytes)?,
        Piece::Times(bytes, count) => {
            for _ in 0..count {
                text.extend_from_slice(bytes)?;
            }
        }
        Piece::Numbered(before, behind, count) => {
            for number in 0..count {
                text.extend_from_slice(before)?;
                text.extend_from_slice(format!(in alloc; "{number}")?.as_bytes())?;
                text.extend_from_slice(behind)?;
            }
        }
    }
    Ok(())
}

/// The text of pieces.
pub fn text_of(alloc: Global, pieces: &[Piece]) -> Result<Vec<u8>, AllocError> {
    let mut text = Vec::new(alloc);
    for piece in pieces {
        add(alloc, &mut text, *piece)?;
    }
    Ok(text)
}
