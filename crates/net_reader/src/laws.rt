//! What holds of every text. Each public function is a law, and does nothing.
ghost use Rattle.net_reader.specs.Laws.{InputsAreValid, RowsAreTheTable, TextSaysOne};

/// A text says one thing: one input, or one fault.
pub fn text_says_one()
    ensures { TextSaysOne }
{}

/// Each input that a text says is valid.
pub fn inputs_are_valid()
    ensures { InputsAreValid }
{}

/// The rows that the code follows judge each line as the table of the lines does.
pub fn rows_are_the_table()
    ensures { RowsAreTheTable }
{}
