//! Random sequences that are the same in every run.

/// Advances `state`, which must not be 0, and returns the next number of a pseudo-random sequence
/// (xorshift). The number is less than `limit`, or is 0 if `limit` is 0.
pub fn random(state: &mut u64, limit: u64) -> u64 {
    *state ^= state.wrapping_shl(13);
    *state ^= state.wrapping_shr(7);
    *state ^= state.wrapping_shl(17);
    state.checked_rem(limit).unwrap_or(0)
}
