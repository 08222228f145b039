//! The law of censuses.
ghost use Rattle.trail_laws.specs.Censuses.{CensusesEndByScripts, CensusesEndRight, ListedStandThere, RestingAreListed};

use crate::marks::marks_tell;
use crate::ways::rest_is_settled;
use directory::{
    all_scripts_done, census_members, done_is_rest, each_visit_is_next, every_order_is_legal,
};

/// Who is listed at a node stands there and is on, after every legal history; who rests there and
/// is on is listed; so at the end of every order the censuses list just where everybody stands,
/// which is where the scripts lead.
pub fn censuses_are_right()
    ensures listed { ListedStandThere }
    ensures resting { RestingAreListed }
    ensures ends { CensusesEndRight }
    ensures scripts { CensusesEndByScripts }
{
    marks_tell();
    rest_is_settled();
    census_members();
    done_is_rest();
    each_visit_is_next();
    all_scripts_done();
    every_order_is_legal();
}
