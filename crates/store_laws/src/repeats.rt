//! Laws of puts that are made again.
ghost use Rattle.store_laws.specs.Repeats.{CellsStay, FindsStay, ReadsStay};

use directory::{cell_after, own_after, same_key_means};

/// A put that its subscriber makes again, with no other put of it between, changes no cell; so each
/// cell holds the same without such puts, and each actor reads the same.
pub fn repeats_change_nothing()
    ensures cells { CellsStay }
    ensures reads { ReadsStay }
{
    same_key_means();
    cell_after();
    own_after();
}

/// Each find of a history is a find of the history without such puts, with the same looks and the
/// same answer; so what is proved of finds holds of it there.
pub fn finds_stay_without_repeats()
    ensures { FindsStay }
{
    repeats_change_nothing();
}
