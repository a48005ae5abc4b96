//! Pieces, cut.
use crate::RowError;
use std::alloc::Global;

/// How the rows of a file are cut. Each is played whole in any case.
#[derive(Clone, Copy)]
pub enum Cuts {
    /// Nowhere.
    Nowhere,
    /// Byte by byte.
    Bytes,
    /// Byte by byte, and each piece at every place into two, of which the first may be empty.
    Everywhere,
    /// Byte by byte, and each piece into two at the places as near to the end of a line, of 65,536 bytes or of the piece.
    Near(usize),
}

/// How a row is played.
#[derive(Clone, Copy)]
pub enum Cut {
    /// As it stands.
    Whole,
    /// Each byte is a piece of its own.
    Bytes,
    /// The piece of this number is cut at this place into two.
    At(usize, usize),
}

/// The cuts that need no piece.
pub fn plain_cuts(alloc: Global, cuts: Cuts) -> Result<Vec<Cut>, RowError> {
    match cuts {
        Cuts::Nowhere => Ok(Vec::from_slice(alloc, &[Cut::Whole])?),
        _ => Ok(Vec::from_slice(alloc, &[Cut::Whole, Cut::Bytes])?),
    }
}

/// Adds the cuts of the piece of this number.
pub fn add_cuts(
    all: &mut Vec<Cut>,
    cuts: Cuts,
    number: usize,
    bytes: &[u8],
) -> Result<(), RowError> {
    match cuts {
        Cuts::Nowhere | Cuts::Bytes => Ok(()),
        Cuts::Everywhere => add_places(all, number, 0, bytes.len()),
        Cuts::Near(near) => add_near(all, number, bytes, near),
    }
}

// The cuts at the places from `first` to below `end`.
fn add_places(all: &mut Vec<Cut>, number: usize, first: usize, end: usize) -> Result<(), RowError> {
    for place in first..end {
        all.push(Cut::At(number, place))?;
    }
    Ok(())
}

fn add_near(all: &mut Vec<Cut>, number: usize, bytes: &[u8], near: usize) -> Result<(), RowError> {
    let mut next = 1usize;
    let mut end = 0usize;
    for byte in bytes {
        end = end.saturating_add(1);
        if *byte == b'\n' || end == 65536 || end == bytes.len() {
            let first = next.max(end.saturating_sub(near));
            next = end.saturating_add(near).saturating_add(1).min(bytes.len());
            add_places(all, number, first, next)?;
        }
    }
    Ok(())
}

/// The parts of the piece of this number.
pub fn cut_piece(
    alloc: Global,
    cut: Cut,
    number: usize,
    bytes: &[u8],
) -> Result<Vec<Vec<u8>>, RowError> {
    match cut {
        Cut::Whole => one_part(alloc, bytes),
        Cut::Bytes => each_byte(alloc, bytes),
        Cut::At(piece, place) => {
            if piece == number {
                two_parts(alloc, bytes, place)
            } else {
                one_part(alloc, bytes)
            }
        }
    }
}

fn one_part(alloc: Global, bytes: &[u8]) -> Result<Vec<Vec<u8>>, RowError> {
    let mut parts = Vec::new(alloc);
    add_part(alloc, &mut parts, bytes)?;
    Ok(parts)
}

fn add_part(alloc: Global, parts: &mut Vec<Vec<u8>>, bytes: &[u8]) -> Result<(), RowError> {
    let part = Vec::from_slice(alloc, bytes)?;
    parts.push(part)?;
    Ok(())
}

fn each_byte(alloc: Global, bytes: &[u8]) -> Result<Vec<Vec<u8>>, RowError> {
    let mut parts = Vec::new(alloc);
    for byte in bytes {
        add_part(alloc, &mut parts, &[*byte])?;
    }
    Ok(parts)
}

fn two_parts(alloc: Global, bytes: &[u8], place: usize) -> Result<Vec<Vec<u8>>, RowError> {
    match bytes.split_at_checked(place) {
        Some((front, back)) => {
            let mut parts = one_part(alloc, front)?;
            add_part(alloc, &mut parts, back)?;
            Ok(parts)
        }
        None => one_part(alloc, bytes),
    }
}
