//! Laws: what is printed reads back.
#![tactic(auto)]

ghost use Rattle.laws_print.specs.Laws.{StringsReadBack, QuotedNamesReadBack, BareNamesReadBack, NumbersReadBack, MinusSignsReadBack};
ghost use Rattle.laws_print.specs.Whole.{ValuesReadBack, PrintedValuesReadBack, TermsNoDeeper};
ghost use Rattle.laws_print.specs.code.Examples.{OpenList, Quotes, NoOthers};

mod back;

pub use back::read_back;
use mc_term_parser::at_most_one_term;

/// A printed string is one token, which stands for the string.
pub fn strings_read_back()
    ensures { StringsReadBack }
{}

/// A printed character, or a name that is printed in quotes, is one token, which stands for it.
pub fn quoted_names_read_back()
    ensures { QuotedNamesReadBack }
{}

/// A name that is printed bare is one token, which stands for it.
pub fn bare_names_read_back()
    ensures { BareNamesReadBack }
{}

/// A printed number that isn't negative is one token of that number.
pub fn numbers_read_back()
    ensures { NumbersReadBack }
{}

/// The minus sign of a printed negative number is one token before the number.
pub fn minus_signs_read_back()
    ensures { MinusSignsReadBack }
{}

/// A printed value before a full stop is an item of which the reader answers the value's term, and nothing else.
pub fn values_read_back()
    ensures { ValuesReadBack }
{
    at_most_one_term();
}

/// A printed value with a full stop and a line end is an item of which the reader answers the value's term, all of it on
/// line 1, and nothing else.
pub fn printed_values_read_back()
    ensures { PrintedValuesReadBack }
{
    at_most_one_term();
}

/// The term of a value is no deeper than the value.
pub fn terms_are_no_deeper()
    ensures { TermsNoDeeper }
{}

/// Printed values and their terms, computed: a law, and nothing to run.
pub fn examples()
    ensures open_list { OpenList }
    ensures quotes { Quotes }
    ensures no_others { NoOthers }
{}
