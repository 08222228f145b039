//! A report by hand, of moves, switches and finds on the line 0 - 1 - 2 - 3 of unit weights, and
//! how each rule that a report keeps is broken once. The verdicts were worked out by hand.
//!
//! The first find has a ticket of a move within it; the second looks for a subscriber that is off;
//! the third has its last ticket while a move of weight 2 is committed and not yet confirmed, so
//! that it may weigh 144 times its distance of 1, and 4 more.
//!
//! A row of a table of changes is what stands in a line's stead, the line's place, from 1 on, and
//! the verdict. The lines from the eighth on are one place; at place 0 the report is as it was.

/// Two subscribers at 3 and 1, and two callers. Subscriber 0 moves twice, and 1 goes off and on.
pub(crate) const INPUT: &str =
    "track 2\nnodes 4\nk 2\nedge 0 1 1\nedge 1 2 1\nedge 2 3 1\nsub 3\nsub 1\ncallers 2\n\
        move 0 2\noff 1\nfind 2 3 0\nmove 0 0\non 1\nfind 2 0 1\nfind 3 1 0\n";

/// A sound report of it, in an order that its maker chose.
pub(crate) const REPORT: [&str; 8] = [
    "move 0 1 3 2 weight 1 first 0 commit 1 last 3\n",
    "move 0 2 2 0 weight 2 first 7 commit 8 last 11\n",
    "switch 1 off 1 number 0 ticket 5\n",
    "switch 1 on 1 number 0 ticket 12\n",
    "find 2 3 0 at 2 number 1 level - weight 9 first 2 last 4\n",
    "off 2 0 1 at 1 number 0 level 2 weight 144 first 6 last 6\n",
    "find 3 1 0 at 0 number 2 level 0 weight 148 first 9 last 10\n",
    "order 0 0 2 0 2 1 2 0 0 3 3 0 1\nend 13\n",
];

/// Lines that may not stand where they stand; the first row changes nothing.
pub(crate) const FORMS: &str = ">0 yes\n|\
        move 0 1 3 1 weight 1 first 0 commit 1 last 3\n>1 no 1 form\n|\
        move 0 1 3 2 weight 1 first 0 commit 1 last 3\r\n>1 no 1 form\n|\
        \nmove 0 1 3 2 weight 1 first 0 commit 1 last 3\n>1 no 1 form\n|\
        move 0 3 2 0 weight 2 first 7 commit 8 last 11\n>2 no 2 form\n|\
        switch 1 on 1 number 0 ticket 5\n>3 no 3 form\n|\
        switch 1 off 1 number 0 ticket 05\n>3 no 3 form\n|\
        switch 1 on 1 number 0 ticket 9223372036854775808\n>4 no 4 form\n|\
        find 2 3 0  at 2 number 1 level - weight 9 first 2 last 4\n>5 no 5 form\n|\
        find 2 3 0 at 4 number 1 level - weight 9 first 2 last 4\n>5 no 5 form\n|\
        find 2 3 0 at 2 number 1 level 3 weight 9 first 2 last 4\n>5 no 5 form\n|\
        again 2 3 0 empty 4 weight 9 first 2 last 4\n>5 no 5 form\n|\
        off 2 1 1 at 1 number 0 level 2 weight 144 first 6 last 6\n>6 no 6 form\n|\
        >7 no 7 form\n|\
        order 0 0 2 0 2 1 2\norder 0 0 3 3 0 1\nend 13\n>8 no 9 form\n|\
        order\nend 13\n>8 no 8 form\n|\
        end 13\n>8 no 8 form\n|\
        order 0 0 2 0 2 1 2 0 0 3 3 0 1\n>8 no 9 form\n|\
        order 0 0 2 0 2 1 2 0 0 3 3 0 1\nend 12\n>8 no 9 form\n|\
        order 0 0 2 0 2 1 2 0 0 3 3 0 1\nend 13>8 no 9 form\n|\
        order 0 0 2 0 2 1 2 0 0 3 3 0 1\nend 13\nend 13\n>8 no 10 form\n|";

/// Tickets that a call doesn't have, and some that no call holds.
pub(crate) const TICKETS: &str = "move 0 1 3 2 weight 1 first 1 commit 1 last 3\n>1 no 1 tickets\n|\
        move 0 1 3 2 weight 1 first 0 commit 2 last 3\n>1 no 1 tickets\n|\
        move 0 1 3 2 weight 1 first 0 commit 0 last 3\n>1 no 1 tickets\n|\
        move 0 1 3 2 weight 1 first 0 commit 3 last 3\n>1 no 1 tickets\n|\
        move 0 1 3 2 weight 1 first 0 commit 1 last 4\n>1 no 1 tickets\n|\
        move 0 2 2 0 weight 2 first 7 commit 8 last 8\n>2 no 2 tickets\n|\
        move 0 2 2 0 weight 2 first 3 commit 8 last 11\n>2 no 2 tickets\n|\
        switch 1 off 1 number 0 ticket 12\n>3 no 3 tickets\n|\
        switch 1 on 1 number 0 ticket 5\n>4 no 4 tickets\n|\
        switch 1 on 1 number 0 ticket 9223372036854775807\n>4 no 4 tickets\n|\
        find 2 3 0 at 2 number 1 level - weight 9 first 4 last 2\n>5 no 5 tickets\n|\
        find 3 1 0 at 0 number 2 level 0 weight 148 first 9 last 9\n>7 no 7 tickets\n|\
        order 0 0 2 0 2 1 2 0 0 3 3 0 3\nend 13\n>8 no 4 tickets\n|\
        order 0 0 2 0 2 1 2 0 0 3 3 0 4\nend 13\n>8 no 4 tickets\n|\
        order 0 0 2 0 2 1 2 0 0 3 3 0 1 0\nend 14\n>8 no 2 tickets\n|\
        order 0 0 2 0 2 1 2 0 0 3 3 0 1 2\nend 14\n>8 no 6 tickets\n|\
        order 0 0 2 0 2 1 2 0 0 3 3 0 1 4\nend 14\n>8 no 8 tickets\n|\
        order 0 0 2 0 2 1 2 0 0 3 3 0 1 9223372036854775807\nend 14\n>8 no 8 tickets\n|\
        order 0 0 2 0 2 1 2 0 0 3 3 0 1 9223372036854775808\nend 14\n>8 no 8 form\n|";

/// Where subscribers are, finds to be made again, and weights.
pub(crate) const ANSWERS: &str =
    "find 2 3 0 at 3 number 1 level - weight 9 first 2 last 4\n>5 no 5 place\n|\
        find 2 3 0 at 2 number 2 level - weight 9 first 2 last 4\n>5 no 5 place\n|\
        find 2 3 0 at 0 number 2 level - weight 9 first 2 last 4\n>5 no 5 place\n|\
        off 2 3 0 at 2 number 1 level - weight 9 first 2 last 4\n>5 no 5 place\n|\
        find 2 0 1 at 1 number 0 level 2 weight 144 first 6 last 6\n>6 no 6 place\n|\
        find 3 1 0 at 2 number 1 level 0 weight 148 first 9 last 10\n>7 no 7 place\n|\
        again 2 3 0 chased weight 9 first 2 last 4\n>5 yes\n|\
        again 2 3 0 empty 1 weight 999 first 2 last 4\n>5 yes\n|\
        again 2 0 1 none weight 0 first 6 last 6\n>6 no 6 again\n|\
        again 3 1 0 chased weight 148 first 9 last 10\n>7 no 7 again\n|\
        move 0 1 3 2 weight 2 first 0 commit 1 last 3\n>1 no 1 weight\n|\
        move 0 2 2 0 weight 1 first 7 commit 8 last 11\n>2 no 2 weight\n|\
        find 2 3 0 at 2 number 1 level - weight 9223372036854775807 first 2 last 4\n>5 yes\n|\
        off 2 0 1 at 1 number 0 level 2 weight 145 first 6 last 6\n>6 no 6 weight\n|\
        find 3 1 0 at 0 number 2 level 0 weight 149 first 9 last 10\n>7 no 7 weight\n|";
