ghost use Rattle.std.specs.Prelude.{◌↔◌, IsTrue};
ghost use Rattle.mc_model.specs.Lists.{In};

/// Whether a type lists a constructor. Mostly the constructors of a type have consecutive numbers, so its place is looked
/// at first.
pub(crate) fn is_listed(symbols: &[u32], symbol: u32) -> bool
    ensures { IsTrue result ↔ In symbol symbols.now }
{
    is_in_place(symbols, symbol) || is_among(symbols, symbol)
}

/// Whether it stands where it would, were the numbers consecutive.
fn is_in_place(symbols: &[u32], symbol: u32) -> bool
    ensures { IsTrue result → In symbol symbols.now }
{
    match symbols {
        [] => false,
        [first, ..] => {
            let place = symbol.saturating_sub(*first) as usize;
            place < symbols.len() && symbols[place] == symbol
        }
    }
}

/// Whether a number is in a list.
pub(crate) fn is_among(numbers: &[u32], number: u32) -> bool
    ensures { IsTrue result ↔ In number numbers.now }
{
    for other in numbers {
        if *other == number {
            return true;
        }
    }
    false
}
