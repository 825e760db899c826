ghost use Rattle.std.specs.Prelude.{◌≡◌, ◌≢◌, ◌≤◌, length, take, All, string_bytes, ◌↔◌, IsTrue};
ghost use Rattle.std.specs.FinMap as finmap;
ghost use Rattle.mc_outside.specs.Named.{by_name, found_bytes};

/// The first count bytes, or all where there are fewer.
pub fn front(bytes: &[u8], count: usize) -> &[u8]
    ensures bytes { result.now ≡ take count bytes.now }
    ensures short { length result.now ≤ count }
{
    if bytes.len() > count {
        &bytes[..count]
    } else {
        bytes
    }
}

/// The bytes of the first of the files with this name.
pub fn find<'a>(files: &'a [(String, Vec<u8>)], name: &str) -> Option<&'a Vec<u8>>
    ensures { found_bytes result ≡ finmap.get (by_name files.now) name.now }
{
    for (known, bytes) in files {
        if name == known.as_str() {
            return Some(bytes);
        }
    }
    None
}

/// Whether none of the files has this name.
pub fn lack(files: &[(String, Vec<u8>)], name: &str) -> bool
    ensures { IsTrue result ↔ All (λ file. name.now ≢ string_bytes file.0) files.now }
{
    files.iter().all(|file| name != file.0.as_str())
}
