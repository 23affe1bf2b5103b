//! How a set works, which changes no answer.

ghost use Rattle.std.specs.Prelude.{◌≤◌};

/// How many pages the cache keeps at most, 1 to 65,536, and in how many levels a build forks, at most 6.
#[derive(Clone, Copy, Debug)]
pub struct Settings {
    pub cache_pages: u32,
    pub forks: u8,
    pub ghost some: { 1 ≤ cache_pages },
    pub ghost few: { cache_pages ≤ 65536 },
    pub ghost forked: { forks ≤ 6 },
}
