// Appends numbers and bytes to a file, or overwrites bytes. ELF files of this machine are little-endian. psABI, "File
// Header".
use crate::error::BuildError;
use std::alloc::AllocError;

/// Appends a number as two bytes.
pub fn push_u16(file: &mut Vec<u8>, number: u16) -> Result<(), AllocError> {
    file.extend_from_slice(&number.to_le_bytes())
}

/// Appends a number as four bytes.
pub fn push_u32(file: &mut Vec<u8>, number: u32) -> Result<(), AllocError> {
    file.extend_from_slice(&number.to_le_bytes())
}

/// Appends a number as eight bytes.
pub fn push_u64(file: &mut Vec<u8>, number: u64) -> Result<(), AllocError> {
    file.extend_from_slice(&number.to_le_bytes())
}

/// Appends numbers as four bytes each.
pub fn push_u32s(file: &mut Vec<u8>, numbers: &[u32]) -> Result<(), AllocError> {
    for number in numbers {
        push_u32(file, *number)?;
    }
    Ok(())
}

/// Appends numbers as eight bytes each.
pub fn push_u64s(file: &mut Vec<u8>, numbers: &[u64]) -> Result<(), AllocError> {
    for number in numbers {
        push_u64(file, *number)?;
    }
    Ok(())
}

/// Appends zeros up to `size` bytes. A longer file doesn't change.
pub fn grow(file: &mut Vec<u8>, size: usize) -> Result<(), AllocError> {
    if file.len() < size {
        file.resize(size, 0)?;
    }
    Ok(())
}

/// Appends zeros up to a multiple of `align`. Does nothing for 0 and 1.
pub fn pad(file: &mut Vec<u8>, align: u64) -> Result<(), AllocError> {
    if align > 1 {
        let past = file.len() as u64 % align;
        if past > 0 {
            for _ in past..align {
                file.push(0)?;
            }
        }
    }
    Ok(())
}

/// Writes `bytes` over those at `offset`, up to the end of the file.
pub fn patch(file: &mut [u8], offset: usize, bytes: &[u8]) {
    for (place, byte) in file.iter_mut().skip(offset).zip(bytes) {
        *place = *byte;
    }
}

/// Writes `bytes` at `offset`. A shorter file is extended, with zeros in between.
pub fn place(file: &mut Vec<u8>, offset: u64, bytes: &[u8]) -> Result<(), BuildError> {
    let end = offset
        .checked_add(bytes.len() as u64)
        .ok_or(BuildError::TooLarge)?;
    grow(file, end as usize)?;
    patch(file, offset as usize, bytes);
    Ok(())
}
