//! The laws of prefix codes. Each function does nothing: its contract is the law.
ghost use Rattle.text_codes.specs.CodeLaws.{PairsAreCodes, OptionsAreCodes, CountedListsAreCodes, KnownRowsAreCodes, CountedRowsAreCodes, SetInRowsAreCodes};

/// Two codes, one behind the other, are one.
pub fn pairs_are_codes<X, Y, A>()
    ensures { PairsAreCodes X Y A }
{}

/// A code with a sign for no value is one.
pub fn options_are_codes<X, A>()
    ensures { OptionsAreCodes X A }
{}

/// A code of numbers and one of elements make one of lists, with the length in front.
pub fn counted_lists_are_codes<X, A>()
    ensures { CountedListsAreCodes X A }
{}

/// Rows are told by their number, whether it is known or stands in front; rows that are set in, by the next that isn't.
pub fn rows_are_codes()
    ensures known { KnownRowsAreCodes }
    ensures counted { CountedRowsAreCodes }
    ensures set_in { SetInRowsAreCodes }
{}
