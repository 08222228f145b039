//! Laws of marks and addresses.
ghost use Rattle.trail_laws.specs.Phases.{ComingStands};
ghost use Rattle.trail_laws.specs.Trail.{AddressesLead, ComingsLead, EntriesTell, MarksTell, NumbersGoUp, OneComing, TopHasEntry};

use directory::{legal_is_amid, read_of_legal, told_by_writes};

/// What marks tell: a Here and an Off where the subscriber stands, a Gone a move that is committed,
/// a Coming the move under way; and a Coming stands at one node at most.
pub fn marks_tell()
    ensures marks { MarksTell }
    ensures one { OneComing }
{
    legal_is_amid();
    read_of_legal();
    told_by_writes();
}

/// From a move's first put to its commit, its Coming stands at the node where it goes, so that a
/// find that looks there is led back to where the subscriber still stands.
pub fn coming_stands()
    ensures { ComingStands }
{
    legal_is_amid();
    read_of_legal();
    told_by_writes();
}

/// What addresses tell: each is that of a node of the course, at that node's home, and the node has
/// a mark; and at the top level there is one.
pub fn entries_tell()
    ensures entries { EntriesTell }
    ensures top { TopHasEntry }
{
    legal_is_amid();
    read_of_legal();
    told_by_writes();
}

/// From the node of each address, and from the node that a Coming names, the marks lead to where
/// the subscriber stands. The numbers on the way go up, but for the hop back from a Coming.
pub fn marks_lead()
    ensures addresses { AddressesLead }
    ensures comings { ComingsLead }
    ensures numbers { NumbersGoUp }
{
    legal_is_amid();
    read_of_legal();
    told_by_writes();
    marks_tell();
}
