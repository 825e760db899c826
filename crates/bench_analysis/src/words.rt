//! Words as numbers.

pub fn number(word: Option<&String>) -> u32 {
    match word {
        Some(text) => text.as_str().parse::<u32>().unwrap_or(0),
        None => 0,
    }
}
