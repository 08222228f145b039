//! Orders that no closed tracker gives, and causes that aren't those of one that stays open: each
//! is wrong in one part.
ghost use Rattle.std.specs.Prelude.{◌≡◌, ◌<◌, [], ◌∷◌, ℕ, List};
ghost use Rattle.directory.specs.Legal.{IsLegal};
ghost use Rattle.station.specs.Closing.{IsCause, IsOrder};
ghost use Rattle.station.specs.Passes.{PassData};
ghost use Rattle.station.specs.Setup.{setting_in};
ghost use Rattle.station.specs.declared.closing.CloseCause.TheVariants.{Missing, OutOfMemory};
ghost use Rattle.worked_examples.specs.Passes.{HasPass, count_by, line_setup};

/// An order has a ticket for each visit of each pass, names whose it is, and has no other.
pub fn wrong_orders()
    ensures missing { (sub caller : PassData) → HasPass sub 0 (count_by 1 0 ∷ [])
        → HasPass caller 1 [] → IsOrder line_setup (sub ∷ caller ∷ []) [] → ⊥ }
    ensures other { (sub caller : PassData) → HasPass sub 0 []
        → HasPass caller 1 (count_by 1 0 ∷ [])
        → IsOrder line_setup (sub ∷ caller ∷ []) (0 ∷ []) → ⊥ }
    ensures more { (sub caller : PassData) → HasPass sub 0 [] → HasPass caller 1 []
        → IsOrder line_setup (sub ∷ caller ∷ []) (1 ∷ []) → ⊥ }
    ensures unknown { (passes : List PassData) → IsOrder line_setup passes (2 ∷ []) → ⊥ }
    ensures legal { (passes : List PassData) (order : List ℕ)
        → (closed : IsOrder line_setup passes order)
        → IsLegal (setting_in line_setup) 0 closed.history }
{}

/// The cause names the first actor without a pass; want of memory is one where each has its pass.
pub fn wrong_causes()
    ensures first { IsCause 2 [] (Missing 0) }
    ensures later { IsCause 2 [] (Missing 1) → ⊥ }
    ensures beyond { (sub : PassData) → HasPass sub 0 [] → IsCause 1 (sub ∷ []) (Missing 1) → ⊥ }
    ensures present { (sub : PassData) → HasPass sub 0 [] → IsCause 2 (sub ∷ []) (Missing 0) → ⊥ }
    ensures absent { IsCause 1 [] OutOfMemory → ⊥ }
{}
