//! The scripts of the worked orders and puts meet what the laws of the directory ask of scripts.
ghost use Rattle.std.specs.Prelude.{[], All, map, ◌∷◌};
ghost use Rattle.directory.specs.Orders.{AreValid, IsFindCall};
ghost use Rattle.plan_laws.specs.Examples.{line_setting};
ghost use Rattle.worked_examples.specs.Examples.{MakeValidScripts, find_from, three, three_scripts, worked_steps};

/// The scripts of the worked orders and puts are valid, so that every law of valid scripts speaks
/// of them.
pub fn worked_scripts()
    ensures steps { All MakeValidScripts worked_steps }
    ensures finds { All (IsFindCall line_setting) (map find_from (0 ∷ 1 ∷ 2 ∷ 3 ∷ [])) }
    ensures on_three { AreValid three three_scripts }
{}
