//! A set of byte values.

ghost use Rattle.std.specs.Prelude.{◌≡◌, ◌≤◌, ℕ, false, true, not, if◌then◌else◌, slice_set, slice_index_or};
ghost use Rattle.leaf_codec.specs.Dimensions.{count_values};

/// Which of the 256 byte values were seen.
#[derive(Drop)]
pub struct ByteSet {
    pub seen: [bool; 256],
}

impl ByteSet {
    /// The empty set: none of the 256 values was seen.
    pub fn new() -> ByteSet
        ensures { (v : ℕ) → slice_index_or result.seen v false ≡ false }
    {
        ByteSet { seen: [false; 256] }
    }

    /// One more value was seen, perhaps again.
    pub fn insert(&mut self, value: u8)
        ensures { self.new.seen ≡ slice_set self.old.seen value true }
    {
        self.seen[value as usize] = true;
    }

    /// One more value was seen: 1 where it is the first time, else 0.
    pub fn add(&mut self, value: u8) -> usize
        ensures seen { self.new.seen ≡ slice_set self.old.seen value true }
        ensures more { result ≡ (if not (slice_index_or self.old.seen value false) then 1 else 0) }
    {
        let before = self.seen[value as usize];
        self.seen[value as usize] = true;
        usize::from(!before)
    }

    /// How many values were seen.
    pub fn count(&self) -> usize
        ensures value { result ≡ count_values (λ v. slice_index_or self.now.seen v false) }
        ensures few { result ≤ 256 }
    {
        self.seen.iter().filter(|seen| **seen).count()
    }
}
