//! What holds of the JSON of inputs. Each public function is a law, and does nothing.
ghost use Rattle.json_form.specs.Laws.{InputsReturn, NotRefused, OneCause, OneListing, ShapesAreTaken};

use input_text::inputs_read;

/// The JSON of a valid input makes the input's own text, and that text reads as the input.
pub fn inputs_return()
    ensures { InputsReturn }
{
    inputs_read();
}

/// Bytes are the JSON of one listing at most, and are then refused for no cause; and they are
/// refused for one cause at most.
pub fn one_text()
    ensures listing { OneListing }
    ensures right { NotRefused }
    ensures cause { OneCause }
{}

/// The listing that a value tells, if it tells one, is the one that is taken out of it.
pub fn shapes_are_taken()
    ensures { ShapesAreTaken }
{}
