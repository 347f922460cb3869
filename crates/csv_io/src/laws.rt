//! The laws of what is read. The functions do nothing: their contracts are the laws.
ghost use Rattle.csv_io.specs.Laws.{FieldsAreKept, TextsAreText, TextsAreWithin, ValuesReadBack};

/// No text of the rows is longer than the text that they were read from, and they are UTF-8 as it is.
pub fn texts_are_within()
    ensures within { TextsAreWithin }
    ensures text { TextsAreText }
{}

/// A value that was read is written as its field was, and null, an integer and a reference are read
/// back.
pub fn fields_are_read_back()
    ensures kept { FieldsAreKept }
    ensures back { ValuesReadBack }
{}
