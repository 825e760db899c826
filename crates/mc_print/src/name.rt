ghost use Rattle.std.specs.Prelude.{◌≡◌, ◌<◌, ◌++◌, OnOk};
ghost use Rattle.std.specs.List.{list_all};
ghost use Rattle.mc_program.specs.Printed.{hex_digit, escaped, in_quotes, is_bare, is_word_byte, name_text, is_nil, constant_text};

use mc_base::{Memory, Text};

/// A hexadecimal digit, in lower case.
fn hex_digit(d: u8) -> u8
    requires { d < 16 }
    ensures { result ≡ hex_digit d }
{
    if d < 10 { b'0' + d } else { b'a' + (d - 10) }
}

/// Writes a byte as it stands between quotes.
fn write_escaped(out: &mut Text, quote: u8, byte: u8) -> Result<(), Memory>
    ensures { OnOk result (out.new ≡ out.old ++ escaped quote byte) }
{
    if byte == b'\\' || byte == quote {
        out.extend(&[b'\\', byte])
    } else if byte == b'\n' {
        out.extend(b"\\n")
    } else if byte == b'\t' {
        out.extend(b"\\t")
    } else if byte < 32 || byte == 127 {
        out.extend(&[
            b'\\',
            b'x',
            hex_digit(byte / 16),
            hex_digit(byte % 16),
            b'\\',
        ])
    } else {
        out.push(byte)
    }
}

/// Writes bytes between quotes.
pub fn write_quoted(out: &mut Text, quote: u8, bytes: &[u8]) -> Result<(), Memory>
    ensures { OnOk result (out.new ≡ out.old ++ in_quotes quote bytes.now) }
{
    out.push(quote)?;
    for byte in bytes {
        write_escaped(out, quote, *byte)?;
    }
    out.push(quote)
}

fn is_word_byte(byte: u8) -> bool
    ensures { result ≡ is_word_byte byte }
{
    byte.is_ascii_alphanumeric() || byte == b'_'
}

fn are_word_bytes(bytes: &[u8]) -> bool
    ensures { result ≡ list_all is_word_byte bytes.now }
{
    bytes.iter().all(|byte| is_word_byte(*byte))
}

/// Whether a name begins with a letter in lower case and goes on with letters, digits and underscores.
fn is_bare(name: &[u8]) -> bool
    ensures { result ≡ is_bare name.now }
{
    match name.split_first() {
        Some((first, rest)) => first.is_ascii_lowercase() && are_word_bytes(rest),
        None => false,
    }
}

/// Writes a name with arguments.
pub fn write_name(out: &mut Text, name: &[u8]) -> Result<(), Memory>
    ensures { OnOk result (out.new ≡ out.old ++ name_text name.now) }
{
    if is_bare(name) {
        out.extend(name)
    } else {
        write_quoted(out, b'\'', name)
    }
}

/// Whether a name is the empty list's.
pub fn is_nil(name: &[u8]) -> bool
    ensures { result ≡ is_nil name.now }
{
    name == b"[]".as_slice()
}

/// Writes a name without arguments.
pub fn write_constant(out: &mut Text, name: &[u8]) -> Result<(), Memory>
    ensures { OnOk result (out.new ≡ out.old ++ constant_text name.now) }
{
    if is_nil(name) {
        out.extend(name)
    } else {
        write_name(out, name)
    }
}
