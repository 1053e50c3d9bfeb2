// What the word OUT names.
use files::input::is_dash;

// What stands behind the last slash.
fn last_part(name: &[u8]) -> &[u8] {
    match name.iter().rposition(|byte| *byte == b'/') {
        Some(at) => &name[at + 1..],
        None => name,
    }
}

// No part, and one or two dots, stand for a directory, and an ending behind them would make them the name of a hidden
// file.
fn is_directory(part: &[u8]) -> bool {
    matches!(part, [] | [b'.'] | [b'.', b'.'])
}

// Whether a file may have the name, by its letters alone.
pub fn is_file_name(name: &[u8]) -> bool {
    !is_dash(name) && !is_directory(last_part(name))
}
