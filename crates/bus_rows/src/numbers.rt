//! Numbers that look random: the same seed gives the same.

/// The number after this one. Its upper bits look random.
pub fn number_after(number: u64) -> u64 {
    number
        .wrapping_mul(6364136223846793005)
        .wrapping_add(1442695040888963407)
}

/// The upper 24 bits of the next number.
pub fn next_number(state: &mut u64) -> usize {
    *state = number_after(*state);
    (*state >> 40) as usize
}
