// A script of one item a line, with the last line of its reply behind it, as a comment.

use std::alloc::{AllocError, Global};

/// An item, and the last line of its reply; none where it has no reply.
pub fn parts(line: &str) -> (&str, Option<&str>) {
    match line.split_once(" -- ") {
        Some((item, reply)) => (item, Some(reply)),
        None => (line, None),
    }
}

/// How many replies stand whole in what was told: each ends with a line that is no row. A row has a tab.
pub fn replies_in(told: &[u8]) -> usize {
    let mut count = 0usize;
    let mut is_row = false;
    for byte in told {
        match *byte {
            b'\t' => is_row = true,
            b'\n' => {
                count = count.saturating_add(usize::from(!is_row));
                is_row = false;
            }
            _ => {}
        }
    }
    count
}

/// The item that is answered behind so many others, and the last line of its reply; none where there is no such item.
pub fn answered_at(script: &str, answered: usize) -> Option<(&str, &str)> {
    let mut left = answered;
    for line in script.lines() {
        if let (item, Some(reply)) = parts(line) {
            if left == 0 {
                return Some((item, reply));
            }
            left -= 1;
        }
    }
    None
}

/// The last lines of a script's replies.
pub fn wanted_ends(alloc: Global, script: &str) -> Result<String, AllocError> {
    let mut ends = String::new(alloc);
    for line in script.lines() {
        if let (_, Some(reply)) = parts(line) {
            writeln!(ends, "{reply}")?;
        }
    }
    Ok(ends)
}

/// The last lines of the replies that were told: those that are no rows.
pub fn told_ends(alloc: Global, told: &[u8]) -> Result<String, AllocError> {
    let mut ends = String::new(alloc);
    let told = std::str::from_utf8(told).unwrap_or("no UTF-8");
    for line in told.lines() {
        if !line.contains('\t') {
            writeln!(ends, "{line}")?;
        }
    }
    Ok(ends)
}
