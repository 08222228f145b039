//! What holds of the texts of inputs. Each public function is a law, and does nothing.
ghost use Rattle.input_text.specs.Laws.{InputsRead, ListingsRead};

/// The text of a listing reads as the listed input, so without a fault.
pub fn listings_read()
    ensures { ListingsRead }
{}

/// The text of each valid input reads as that input, so without a fault.
pub fn inputs_read()
    ensures { InputsRead }
{}
