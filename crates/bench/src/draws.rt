//! Draws, the same in each run.

/// The next draw of the minimal standard generator of Park and Miller.
pub fn next(draw: u64) -> u64 {
    draw % 2_147_483_647 * 48_271 % 2_147_483_647
}

/// A coordinate from -100,000 to 100,000.
pub fn coordinate(draw: u64) -> i32 {
    i32::try_from(draw % 200_001)
        .unwrap_or(0)
        .saturating_sub(100_000)
}
