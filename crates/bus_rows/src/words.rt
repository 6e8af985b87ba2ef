//! Words for flags, groups of bits and frames, as they are sent.

use std::alloc::{AllocError, Global};

/// No bit has this place, nor a later one.
pub const FAR: u64 = 1 << 60;

/// The bits of a word, in the order sent: a flag, a group of bits, or a frame as it is sent between
/// flags, where a group of nine has one inserted 0. Any other word is bits already.
pub(super) fn sent(word: &str) -> &str {
    match word {
        "flag" => "01111110",
        "short" => "00000000 00000000 00000000",
        "idle" => "111111111111111",
        "ones-57" => "111111111111111111111111111111111111111111111111111111111",
        // 10 83 00 fd e5: to station 16, of type 0.
        "call" => "00001000 11000001 00000000 101111101 10100111",
        // 10 83 80 f5 61: from station 16, of type 128.
        "reply" => "00001000 11000001 00000001 10101111 100000110",
        // ff 83 09 5a 3b: to all stations, of type 9.
        "notice" => "111110111 110000001 10010000 01011010 11011100",
        // ff 83 00 9b a6: to all stations, of type 0.
        "call-to-all" => "111110111 110000001 00000000 11011001 01100101",
        // 10 83 fe 0c fb: of type 254; the second inserted 0 is its last bit.
        "type-254" => "00001000 11000001 011111011 00110000 110111110",
        // 10 13 cc b8: with another control octet.
        "control-19" => "00001000 11001000 00110011 00011101",
        // 10 83 45 2c: without information.
        "untyped" => "00001000 11000001 10100010 00110100",
        // 10 83 01 74 f4: of type 1, with nothing after it.
        "type-1" => "00001000 11000001 10000000 00101110 00101111",
        bits => bits,
    }
}

/// The bits of words, one after the other. All but `0` and `1` in them is space.
pub fn bits_of(alloc: Global, words: &str) -> Result<Vec<bool>, AllocError> {
    let mut bits = Vec::new(alloc);
    for word in words.split_whitespace() {
        for mark in sent(word).bytes() {
            if mark == b'0' || mark == b'1' {
                bits.push(mark == b'1')?;
            }
        }
    }
    Ok(bits)
}

/// A part, after what a text has, a semicolon and a space.
pub fn push_part(text: &mut String, part: &str) -> Result<(), AllocError> {
    if !text.is_empty() {
        text.push_str("; ")?;
    }
    text.push_str(part)
}

/// The lowest `count` bits of `pattern`, sixteen at most, the lowest first, after these.
pub fn bits_of_pattern(
    alloc: Global,
    before: &[bool],
    pattern: u32,
    count: u32,
) -> Result<Vec<bool>, AllocError> {
    let mut bits = Vec::new(alloc);
    bits.extend_from_slice(before)?;
    for at in 0..count.min(16) {
        bits.push(pattern >> at & 1 == 1)?;
    }
    Ok(bits)
}

/// The pairs of the bits of two lines, as many as the shorter has.
pub fn pairs_of(
    alloc: Global,
    first: &[bool],
    second: &[bool],
) -> Result<Vec<(bool, bool)>, AllocError> {
    let mut pairs = Vec::new(alloc);
    for (bit, other) in first.iter().zip(second) {
        pairs.push((*bit, *other))?;
    }
    Ok(pairs)
}

/// These bits in octets, the first of each lowest; the last may lack bits, which are then 0.
pub fn octets_of(alloc: Global, bits: &[bool]) -> Result<Vec<u8>, AllocError> {
    let mut octets = Vec::new(alloc);
    for eight in bits.chunks(8) {
        let mut octet: u8 = 0;
        for bit in eight.iter().rev() {
            octet = octet << 1 | u8::from(*bit);
        }
        octets.push(octet)?;
    }
    Ok(octets)
}
