// Digits and what they spell.
ghost use Rattle.std.specs.Prelude.{◌≡◌, ◌+◌, ◌<◌, ◌≤◌, length, drop, IfSome, is_some};
ghost use Rattle.std.specs.List.{prefix_len};
ghost use Rattle.mc_tokens.specs.Classes.{hex_digit, hex_value, is_digit_of};
ghost use Rattle.mc_tokens.specs.code.Values.{EachDigit, IsValue};

// The value of a hexadecimal digit.
pub fn hex_digit(x: u8) -> Option<u32>
    ensures some { is_some result ≡ hex_digit x }
    ensures value { IfSome result (λ d. (d ≡ hex_value x) × (d < 16)) }
{
    match x {
        b'0'..=b'9' => Some(u32::from(x - b'0')),
        b'A'..=b'F' => Some(u32::from(x - b'A' + 10)),
        b'a'..=b'f' => Some(u32::from(x - b'a' + 10)),
        _ => None,
    }
}

// The value of a digit of the base.
pub fn digit_of(base: u32, x: u8) -> Option<u32>
    ensures some { is_some result ≡ is_digit_of base x }
    ensures value { IfSome result (λ d. (d ≡ hex_value x) × (d < 16)) }
{
    match hex_digit(x) {
        Some(d) if d < base => Some(d),
        _ => None,
    }
}

// Whether a byte is a digit of the base.
pub fn is_digit_of(base: u32, x: u8) -> bool
    ensures { result ≡ is_digit_of base x }
{
    digit_of(base, x).is_some()
}

// The place after the digits of the base that stand from a place on.
pub fn digits_end(text: &[u8], base: u32, from: usize) -> usize
    requires { from ≤ length text.now }
    ensures value { result ≡ from + prefix_len (is_digit_of base) (drop from text.now) }
    ensures bound { (from ≤ result) × (result ≤ length text.now) }
{
    let mut i = from;
    while i < text.len() && is_digit_of(base, text[i]) {
        i += 1;
    }
    i
}

// The number that digits of the base spell, None above 2^63.
pub fn value_of(digits: &[u8], base: u32) -> Option<u64>
    requires base { (0 < base) × (base ≤ 16) }
    requires digits { EachDigit base digits.now }
    ensures { IsValue base digits.now result }
{
    let mut value: u64 = 0;
    for x in digits {
        let digit = digit_of(base, *x).unwrap_or(0);
        let next = u128::from(value) * u128::from(base) + u128::from(digit);
        if next > 1 << 63 {
            return None;
        }
        value = next as u64;
    }
    Some(value)
}
