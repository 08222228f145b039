//! Worked examples, computed: the own stretches of the line of four, and what they come of.
ghost use Rattle.std.specs.Prelude.{◌≡◌};
ghost use Rattle.plan_laws.specs.Examples.{line_setting};
ghost use Rattle.own_stretch.specs.OwnStretch.{any_stretch_of, own_stretch_of, stretch_between, stretch_past, units_of};

/// The own stretches of the line of four: 14, which finds from node 3 to node 1 need, and 27 for
/// any find, which finds from node 3 need that go past level 1. From node 3 to node 0, 3 away, a
/// find pays 26 and its distance, and so 10 times that; one that is there already needs none.
pub fn line_stretches()
    ensures own { own_stretch_of line_setting ≡ 14 }
    ensures any { any_stretch_of line_setting ≡ 27 }
    ensures between { stretch_between line_setting 3 1 ≡ 14 }
    ensures up { stretch_between line_setting 3 0 ≡ 10 }
    ensures back { stretch_between line_setting 0 3 ≡ 4 }
    ensures there { stretch_between line_setting 3 3 ≡ 0 }
    ensures lowest { stretch_past line_setting 3 0 ≡ 19 }
    ensures past { stretch_past line_setting 3 1 ≡ 27 }
    ensures top { stretch_past line_setting 3 2 ≡ 14 }
    ensures whole { units_of 28 2 ≡ 14 }
    ensures part { units_of 29 3 ≡ 10 }
{}
