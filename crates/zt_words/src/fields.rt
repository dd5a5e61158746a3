//! The fields of a line, by their places.

/// Returns the field at this place, counted from 0, or no bytes if it is missing.
pub fn field(line: &[u8], place: usize) -> &[u8] {
    line.split(|byte| *byte == b' ').nth(place).unwrap_or(&[])
}

/// Returns how many bytes of the line are before the field at this place.
pub fn start_of_field(line: &[u8], place: usize) -> usize {
    let mut start = 0usize;
    for before in line.split(|byte| *byte == b' ').take(place) {
        start = start.saturating_add(before.len()).saturating_add(1);
    }
    start
}

/// Returns the place, counted from 0, of the field that begins after this many bytes. A missing field begins after the whole
/// line.
pub fn place_of(line: &[u8], offset: usize) -> usize {
    let before = line.get(..offset).unwrap_or(line);
    let spaces = spaces_in(before);
    match before.last() {
        Some(b' ') | None => spaces,
        Some(_) => spaces.saturating_add(1),
    }
}

/// Returns the place of the last field.
pub fn last_place(line: &[u8]) -> usize {
    spaces_in(line)
}

fn spaces_in(line: &[u8]) -> usize {
    line.iter().filter(|byte| **byte == b' ').count()
}
