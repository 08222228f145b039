//! The texts of censuses, computed.
ghost use Rattle.std.specs.Prelude.{◌≡◌, ◌++◌, [], ◌∷◌, None, Some, codes};
ghost use Rattle.census_text.specs.CensusText.{census_text_of, who_at};
ghost use Rattle.directory.specs.Census.{census};
ghost use Rattle.directory.specs.Courses.{move_to, switch_off};
ghost use Rattle.directory.specs.Histories.{before};
ghost use Rattle.directory.specs.Writes.{visits};
ghost use Rattle.outside.specs.Texts.{◌then◌};
ghost use Rattle.plan_laws.specs.Examples.{line_setting};

/// Nodes where nobody is have no line, and a subscriber that is nowhere, off or on its way isn't
/// listed.
pub fn worked_censuses()
    ensures several { census_text_of (who_at (Some 2 ∷ None ∷ Some 0 ∷ Some 2 ∷ [])) 4
        ≡ (codes "node 0 count 1 subs 2" ++ 10 ∷ [])
        then (codes "node 2 count 2 subs 0 3" ++ 10 ∷ []) then (codes "end 3" ++ 10 ∷ []) }
    ensures last { census_text_of (who_at (Some 3 ∷ Some 2 ∷ [])) 3
        ≡ (codes "node 2 count 1 subs 1" ++ 10 ∷ []) then (codes "end 1" ++ 10 ∷ []) }
    ensures nobody { census_text_of (who_at []) 4 ≡ codes "end 0" ++ 10 ∷ [] }
    ensures line { census_text_of (census line_setting []) 4
        ≡ (codes "node 3 count 1 subs 0" ++ 10 ∷ []) then (codes "end 1" ++ 10 ∷ []) }
    ensures on_its_way { census_text_of
        (census line_setting (before 4 (visits line_setting 0 (move_to 2 ∷ [])))) 4
        ≡ codes "end 0" ++ 10 ∷ [] }
    ensures moved { census_text_of (census line_setting (visits line_setting 0 (move_to 2 ∷ []))) 4
        ≡ (codes "node 2 count 1 subs 0" ++ 10 ∷ []) then (codes "end 1" ++ 10 ∷ []) }
    ensures off { census_text_of
        (census line_setting (visits line_setting 0 (move_to 2 ∷ switch_off ∷ []))) 4
        ≡ codes "end 0" ++ 10 ∷ [] }
{}
