//! Pages checked over and over.

use page_file::{PageView, seal};

/// How many of so many checks of a page's digest find it whole. Each is of another place, so that none is left out: the
/// page is whole for the first alone.
pub fn checked_over(times: u32) -> u32 {
    let page = seal(1, 0, 0, &[7; 4064]);
    let mut found = 0u32;
    for number in 0..times {
        if PageView::check(1, 0, number, &page).is_some() {
            found = found.wrapping_add(1);
        }
    }
    found
}
