//! Captures that are made of their records.
use hex::decode;
use std::alloc::{AllocError, Global};
use std::test::Fail;

/// The header of a big-endian capture file of microseconds, version 2.4, of Ethernet frames.
pub const FILE_HEADER: [u8; 24] = [
    0xa1, 0xb2, 0xc3, 0xd4, 0, 2, 0, 4, 0, 0, 0, 0, 0, 0, 0, 0, 0, 4, 0, 0, 0, 0, 0, 1,
];

/// Puts a record's head at a capture's end: the moment, and twice the length in its four bytes.
pub fn put_head(file: &mut Vec<u8>, millis: u32, len: &[u8]) -> Result<(), AllocError> {
    file.extend_from_slice(&(millis / 1_000).to_be_bytes())?;
    file.extend_from_slice(&(millis % 1_000 * 1_000).to_be_bytes())?;
    file.extend_from_slice(len)?;
    file.extend_from_slice(len)
}

/// Puts a record at a capture's end.
pub fn put_record(file: &mut Vec<u8>, millis: u32, frame: &[u8]) -> Result<(), AllocError> {
    let len = (frame.len() as u64).to_be_bytes();
    put_head(file, millis, &len[4..])?;
    file.extend_from_slice(frame)
}

pub fn bytes_of(alloc: Global, digits: &str) -> Result<Vec<u8>, Fail> {
    decode(alloc, digits).map_err(|_| "hexadecimal digits".into())
}

/// What a line says of a record: its moment, and its frame's digits.
fn record_of(line: &str) -> Option<(u32, &str)> {
    let (millis, digits) = line.split_once(' ')?;
    Some((millis.parse().ok()?, digits))
}

/// Puts the record that the line says at a capture's end.
fn put_line(alloc: Global, file: &mut Vec<u8>, line: &str) -> Result<(), Fail> {
    let (millis, digits) = record_of(line).ok_or("a moment and a frame")?;
    Ok(put_record(file, millis, &bytes_of(alloc, digits)?)?)
}

/// The capture of a record for each line: its moment in milliseconds, and its frame's hexadecimal digits.
pub fn capture_of(alloc: Global, records: &str) -> Result<Vec<u8>, Fail> {
    let mut file = FILE_HEADER.to_vec(alloc)?;
    for line in records.lines() {
        put_line(alloc, &mut file, line)?;
    }
    Ok(file)
}

/// A capture of this one frame.
pub fn one_frame(alloc: Global, digits: &str) -> Result<Vec<u8>, Fail> {
    let mut capture = FILE_HEADER.to_vec(alloc)?;
    put_record(&mut capture, 0, &bytes_of(alloc, digits)?)?;
    Ok(capture)
}
