//! The laws of texts. Each function does nothing: its contract is the law.
ghost use Rattle.text_codes.specs.Laws.{LinesByFront, WordsByFront, WordsAgain, LinesAgain, WordsOfLinesAgain, RowsAgain, TextsTellRows, LinesAreCodes, NumbersAgain, NumbersAreSmall, TextsTellNumbers, NumbersAreCodes, NumbersAreWords, BytesAgain, BytesByPairs, TextsTellBytes, BytesAreCodes, CountedBytesAreCodes, BytesAreWords};

/// The lines of a text, by what stands at its front.
pub fn lines_by_front()
    ensures { LinesByFront }
{}

/// The words of a line, by what stands at its front.
pub fn words_by_front()
    ensures { WordsByFront }
{}

/// A written text is read again: the words of a line, the lines of a text, and the words of its lines.
pub fn written_texts_are_read_again()
    ensures words { WordsAgain }
    ensures lines { LinesAgain }
    ensures words_of_lines { WordsOfLinesAgain }
{}

/// A written text gives its rows back, so it is the text of these rows alone, and a line in front tells its row.
pub fn texts_tell_their_rows()
    ensures again { RowsAgain }
    ensures rows { TextsTellRows }
    ensures lines { LinesAreCodes }
{}

/// A written number is read again, a text tells the number that is written there and where it ends, and a number is a proper word.
pub fn texts_tell_their_numbers()
    ensures again { NumbersAgain }
    ensures small { NumbersAreSmall }
    ensures numbers { TextsTellNumbers }
    ensures codes { NumbersAreCodes }
    ensures words { NumbersAreWords }
{}

/// Bytes written in hexadecimal are read again, a text tells the bytes that are written there and where they end, and bytes are a proper word.
pub fn texts_tell_their_bytes()
    ensures again { BytesAgain }
    ensures pairs { BytesByPairs }
    ensures bytes { TextsTellBytes }
    ensures codes { BytesAreCodes }
    ensures counted { CountedBytesAreCodes }
    ensures words { BytesAreWords }
{}
