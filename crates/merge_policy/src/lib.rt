//! Which segments of an index to merge. The sizes of segments go by levels: level 0 is below 1,000, and each level
//! above reaches up to ten times as far as the one before. Ten segments of one level are worth a merge, the lowest
//! level first. Segments that are in use elsewhere are pinned.
#![tactic(auto)]

ghost use Rattle.std.specs.Prelude.{◌≡◌, ℕ, suc, ◌+◌, ◌^◌, ◌<◌, ◌≤◌, ◌↔◌, Bool, List, length, count_by, All, IsNone};
ghost use Rattle.std.specs.Prelude.{IfNone, IfSome};
ghost use Rattle.merge_policy.specs.Choice.{least_size, is_of_level, free_count, AreFirstTen, IsChoice};

use arrayvec::ArrayVec;

/// How many levels the sizes of 32 bits have.
const LEVELS: u32 = 8;

/// The first ten positions, in ascending order, of the lowest level that has ten sizes that are not
/// pinned; `None` exactly where no level has ten. It takes no memory.
pub fn choose(sizes: &[u32], pinned: &[bool]) -> Option<ArrayVec<u32, 10>>
    requires one_pin_a_size { length sizes.now ≡ length pinned.now }
    requires few { length sizes.now ≤ 65535 }
    ensures choice { IfSome result (λ positions. IsChoice sizes.now pinned.now positions.items) }
    ensures only { IfSome result
        (λ positions. (others : List ℕ) → IsChoice sizes.now pinned.now others → others ≡ positions.items) }
    ensures none { IsNone result ↔ ((level : ℕ) → free_count level sizes.now pinned.now < 10) }
{
    for level in 0..LEVELS {
        if let Some(positions) = first_ten(Level::new(level), sizes, pinned) {
            return Some(positions);
        }
    }
    None
}

/// A law, with an empty body: where nothing is left to merge, at most nine sizes of each of the eight levels are
/// left, and those that are pinned.
pub fn few_are_left()
    ensures { (sizes : List ℕ) (pinned : List Bool) → length sizes ≡ length pinned → All (λ size. size < 2 ^ 32) sizes
        → ((level : ℕ) → free_count level sizes pinned < 10) → length sizes ≤ 72 + count_by (λ pin. pin) pinned }
{}

/// The first ten free positions of a level, if it has ten.
fn first_ten(level: Level, sizes: &[u32], pinned: &[bool]) -> Option<ArrayVec<u32, 10>>
    requires one_pin_a_size { length sizes.now ≡ length pinned.now }
    requires few { length sizes.now ≤ 65535 }
    ensures some { IfSome result (λ positions. AreFirstTen level.number sizes.now pinned.now positions.items) }
    ensures has_ten { IfSome result (λ positions. 10 ≤ free_count level.number sizes.now pinned.now) }
    ensures none { IfNone result (free_count level.number sizes.now pinned.now < 10) }
{
    let mut positions = ArrayVec::<u32, 10>::new();
    for (i, &size) in sizes.iter().enumerate() {
        if level.has(size) & !pinned[i] {
            positions.push(i as u32);
            if positions.is_full() {
                return Some(positions);
            }
        }
    }
    None
}

/// A level, with the sizes that it reaches from and to.
#[derive(Clone, Copy)]
struct Level {
    number: u32,
    least: u64,
    next: u64,
    ghost from_least: { least ≡ least_size number },
    ghost to_next: { next ≡ least_size (suc number) },
}

impl Level {
    fn new(number: u32) -> Self
        requires { number < LEVELS }
        ensures { result.number ≡ number }
    {
        let least = least_size(number);
        let next = least_size(number + 1);
        Level {
            number,
            least,
            next,
        }
    }

    fn has(self, size: u32) -> bool
        ensures { result ≡ is_of_level self.number size }
    {
        (self.least <= u64::from(size)) & (u64::from(size) < self.next)
    }
}

fn least_size(level: u32) -> u64
    requires { level ≤ LEVELS }
    ensures { result ≡ least_size level }
{
    if level == 0 {
        0
    } else {
        1000 * 10_u64.pow(level - 1)
    }
}
