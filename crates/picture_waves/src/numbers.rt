// Numbers as text.
use itoa::Buffer;
use std::alloc::AllocError;

/// Adds a number in decimal.
pub(crate) fn add_number(out: &mut Vec<u8>, number: u64) -> Result<(), AllocError> {
    let mut buffer = Buffer::new();
    let digits = buffer.format(number);
    out.extend_from_slice(digits.as_bytes())
}

/// Adds a number in binary, without zeros before it.
pub(crate) fn add_bits(out: &mut Vec<u8>, number: u64) -> Result<(), AllocError> {
    let mut begun = false;
    for place in 0..64u32 {
        let bit = (number >> (63 - place)) & 1;
        if bit == 1 || place == 63 {
            begun = true;
        }
        if begun {
            out.push(if bit == 1 { b'1' } else { b'0' })?;
        }
    }
    Ok(())
}
