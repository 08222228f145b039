//! What holds of made workloads. Each public function is a law, and does nothing.
ghost use Rattle.make_load.specs.Laws.{LoadsAreListings, LoadsAreValid, LoadsRead, WordsAreLoads};

use input_text::listings_read;

/// What a load makes is listed as an input is.
pub fn loads_are_listings()
    ensures { LoadsAreListings }
{}

/// The text of a load reads as the input that it makes, so without a fault.
pub fn loads_read()
    ensures { LoadsRead }
{
    loads_are_listings();
    listings_read();
}

/// The input that a load makes is valid.
pub fn loads_are_valid()
    ensures { LoadsAreValid }
{
    loads_are_listings();
}

/// The load of each command that has one is within the limits.
pub fn words_are_loads()
    ensures { WordsAreLoads }
{}
