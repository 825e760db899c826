ghost use Rattle.std.specs.Prelude.{◌≡◌};
ghost use Rattle.std.specs.Str.{chars};
ghost use Rattle.mc_names.specs.Characters.{sole, sole_character};

/// The character that a name is, where it is just one.
pub fn sole_character(name: &[u8]) -> Option<char>
    ensures { result ≡ sole_character name.now }
{
    match std::str::from_utf8(name) {
        Ok(text) => sole(text),
        Err(_) => None,
    }
}

// The one character of a text.
fn sole(text: &str) -> Option<char>
    ensures { result ≡ sole (chars text.now) }
{
    let mut characters = text.chars();
    let first = characters.next()?;
    match characters.next() {
        Some(_) => None,
        None => Some(first),
    }
}
