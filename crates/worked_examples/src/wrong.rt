//! Lines that are wrong in one part: none is right, in turn, or within the bound.
ghost use Rattle.std.specs.Prelude.{◌≡◌, ◌+◌, ◌*◌, [], ◌∷◌, Some, None, ℕ};
ghost use Rattle.directory.specs.Courses.{move_to, switch_off};
ghost use Rattle.directory.specs.Writes.{visits};
ghost use Rattle.directory.specs.declared.answers.Done.TheVariants.{Found as FoundBy, Off as OffBy, Again as AgainBy};
ghost use Rattle.directory.specs.declared.answers.Why.TheVariants.{NoEntry};
ghost use Rattle.plan_laws.specs.Examples.{line_setting};
ghost use Rattle.stretch_laws.specs.NearOutcomes.{IsLineWithin};
ghost use Rattle.trail_laws.specs.RightOutcomes.{IsRightLine, TellInTurn, TellRisingNumbers};
ghost use Rattle.worked_examples.specs.Passes.{count_by};

/// A line of a find on the line of four with a wrong node, number or state, with a cause that comes
/// before the find or after it, or heavier than the bound; and of whichever actors and subscribers,
/// numbers that fall, and finds out of turn.
pub fn wrong_lines()
    ensures node { IsRightLine line_setting ([]) (FoundBy 1 2 0 2 0 (Some 0) 5 0 3) → ⊥ }
    ensures number { IsRightLine line_setting ([]) (FoundBy 1 2 0 3 1 (Some 0) 5 0 3) → ⊥ }
    ensures on { IsRightLine line_setting ([]) (OffBy 1 2 0 3 0 (Some 0) 5 0 3) → ⊥ }
    ensures off { IsRightLine line_setting (visits line_setting 0 (switch_off ∷ []))
        (FoundBy 1 3 0 3 0 None 0 0 0) → ⊥ }
    ensures off_node { IsRightLine line_setting (visits line_setting 0 (switch_off ∷ []))
        (OffBy 1 3 0 2 0 None 0 0 0) → ⊥ }
    ensures off_number { IsRightLine line_setting (visits line_setting 0 (switch_off ∷ []))
        (OffBy 1 3 0 3 1 None 0 0 0) → ⊥ }
    ensures early_cause { IsRightLine line_setting (visits line_setting 0 (move_to 2 ∷ []))
        (AgainBy 1 3 0 NoEntry 5 6 8) → ⊥ }
    ensures late_cause { IsRightLine line_setting
        (count_by 1 0 ∷ visits line_setting 0 (move_to 2 ∷ [])) (AgainBy 1 3 0 NoEntry 5 0 0) → ⊥ }
    ensures heavy { IsLineWithin (λ d p. 137 * d + 2 * p) line_setting ([])
        (FoundBy 1 0 0 3 0 (Some 1) 412 0 3) → ⊥ }
    ensures heavy_off { IsLineWithin (λ d p. 137 * d + 2 * p) line_setting ([])
        (OffBy 1 0 0 3 0 (Some 1) 412 0 3) → ⊥ }
    ensures quiet_again { IsLineWithin (λ d p. 137 * d + 2 * p) line_setting ([])
        (AgainBy 1 0 0 NoEntry 4 0 3) → ⊥ }
    ensures falling { (actor other sub : ℕ) → TellRisingNumbers
        (FoundBy actor 0 sub 3 2 None 0 0 3 ∷ FoundBy other 0 sub 3 1 None 0 4 5 ∷ []) → ⊥ }
    ensures falling_off { (actor other sub : ℕ) → TellRisingNumbers
        (FoundBy actor 0 sub 3 2 None 0 0 3 ∷ OffBy other 0 sub 3 1 None 0 4 5 ∷ []) → ⊥ }
    ensures falling_first { (actor other sub : ℕ) → TellRisingNumbers
        (FoundBy actor 0 sub 3 1 None 0 4 5 ∷ FoundBy other 0 sub 3 2 None 0 0 3 ∷ []) → ⊥ }
    ensures out_of_turn { (actor sub other : ℕ) → TellInTurn
        (FoundBy actor 0 sub 3 2 None 0 4 5 ∷ FoundBy actor 0 other 3 2 None 0 0 3 ∷ []) → ⊥ }
    ensures off_out_of_turn { (actor sub other : ℕ) → TellInTurn
        (OffBy actor 0 sub 3 2 None 0 4 5 ∷ FoundBy actor 0 other 3 2 None 0 0 3 ∷ []) → ⊥ }
    ensures again_out_of_turn { (actor sub other : ℕ) → TellInTurn
        (AgainBy actor 0 sub NoEntry 0 4 6 ∷ FoundBy actor 0 other 3 2 None 0 5 7 ∷ []) → ⊥ }
    ensures at_once { (actor sub other : ℕ) → TellInTurn
        (FoundBy actor 0 sub 3 2 None 0 4 5 ∷ FoundBy actor 0 other 3 2 None 0 5 7 ∷ []) → ⊥ }
    ensures turned { (actor sub other : ℕ) → TellInTurn
        (FoundBy actor 0 sub 3 2 None 0 0 3 ∷ FoundBy actor 0 other 3 2 None 0 5 4 ∷ []) → ⊥ }
{}
