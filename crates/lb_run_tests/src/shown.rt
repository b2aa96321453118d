//! What the text of a history shows.

/// A line of a history without its ticket and the lane's previous one: the owner, and what it drew.
pub type Line = (&'static str, &'static str);

// The owner of a line of the text, and what it drew, where it is a line of an entry.
fn parts_of(line: &str) -> Option<(&str, &str)> {
    let (_ticket, rest) = line.split_once(' ')?;
    let (owner, rest) = rest.split_once(' ')?;
    let (_before, what) = rest.split_once(' ')?;
    Some((owner, what))
}

// Whether a line of the text is the wanted one.
fn is_line(line: &str, wanted: &Line) -> bool {
    match parts_of(line) {
        Some((owner, what)) => owner == wanted.0 && what == wanted.1,
        None => false,
    }
}

/// Whether the text has the wanted lines in their order, with any lines between them.
pub fn shows(text: &str, wanted: &[Line]) -> bool {
    let mut found = 0;
    for line in text.lines() {
        if found < wanted.len() && is_line(line, &wanted[found]) {
            found += 1;
        }
    }
    found == wanted.len()
}
