//! The files and the words of a command.
use act_io::Files;
use cases_rows::Case;
use std::str;

/// Files by their names.
pub type Shelf = Vec<(String, Vec<u8>)>;

/// The files of a folder that words name, of those that there are.
pub fn shelf<F: Files>(case: &mut Case<'_>, files: &mut F, folder: &str, words: &str) -> Shelf {
    let mut list = Vec::new(case.alloc);
    for name in words.split_whitespace() {
        let mut path = Case::of(case.alloc, "");
        path.text(folder);
        path.text("/");
        path.text(name);
        case.is_wrong |= path.is_wrong;
        if let Some(bytes) = case.found(files, text(&path.told)) {
            case.file_added(&mut list, name, bytes);
        }
    }
    list
}

/// Bytes as text, or nothing where they are none.
pub fn text(bytes: &[u8]) -> &str {
    str::from_utf8(bytes).unwrap_or("")
}

/// Adds words, which have spaces between them.
pub fn push_words(case: &mut Case<'_>, words: &mut Vec<String>, line: &str) {
    for word in line.split_whitespace() {
        let is_added = match String::from_str(case.alloc, word) {
            Ok(word) => words.push(word).is_ok(),
            Err(_) => false,
        };
        case.is_wrong |= !is_added;
    }
}
