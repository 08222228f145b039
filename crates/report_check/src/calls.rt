//! The lines of a report, read one after another.
ghost use Rattle.std.specs.Prelude.{◌≡◌, ◌≤◌, ◌<◌, ◌^◌, ◌++◌, ◌∷◌, [], ℕ, List, Some, None, Ok, Err, IfSome, IfNone, IfOk, OnOk, drop, length, map, take};
ghost use Rattle.report_text.specs.ReportText.{switch_field};
ghost use Rattle.report_check.specs.Reading.{again_in, answer_in, call_in, find_in, level_in, most, move_in, number_in, place_in, switch_in, visits_in, why_in};
ghost use Rattle.report_check.specs.ReadLines.{done_of};

use crate::cursor::Cursor;
use crate::slots::Slot;
use directory::Why;

// Numbers are below this limit, unless they name what there is fewer of.
pub(crate) const MOST: u64 = 1 << 63;

/// How many nodes and levels there are.
#[derive(Clone, Copy)]
pub(crate) struct Bounds {
    pub(crate) nodes: u32,
    pub(crate) levels: u32,
}

/// Where a find answers.
#[derive(Clone, Copy)]
pub(crate) struct Place {
    pub(crate) node: u32,
    pub(crate) number: u64,
    pub(crate) level: Option<u32>,
}

/// What a find weighs, its first ticket and its last.
#[derive(Clone, Copy)]
pub(crate) struct Visits {
    pub(crate) weight: u64,
    pub(crate) first: u64,
    pub(crate) last: u64,
}

/// What the line of a call says.
#[derive(Clone, Copy)]
pub(crate) enum Line {
    Move {
        actor: u32,
        number: u32,
        from: u32,
        to: u32,
        weight: u64,
        first: u64,
        commit: u64,
        last: u64,
    },
    Switch {
        actor: u32,
        off: bool,
        node: u32,
        number: u32,
        ticket: u64,
    },
    Answer {
        actor: u32,
        from: u32,
        sub: u32,
        off: bool,
        place: Place,
        visits: Visits,
    },
    Again {
        actor: u32,
        from: u32,
        sub: u32,
        why: Why,
        visits: Visits,
    },
}

// The word of a switch, behind its actor.
fn switch_word(off: bool) -> &'static str
    ensures { result.now ≡ switch_field off }
{
    if off { " off" } else { " on" }
}

impl<'a> Cursor<'a> {
    // What a find weighs, its first ticket and its last, and the line's end.
    fn visits(&mut self) -> Option<Visits>
        ensures some { IfSome result (λ v. visits_in self.old.rest.now
            ≡ Some (v, self.new.rest.now)) }
        ensures none { IfNone result (visits_in self.old.rest.now ≡ None) }
    {
        let weight = self.labelled(" weight", MOST)?;
        let first = self.labelled(" first", MOST)?;
        let last = self.closing(" last")?;
        Some(Visits {
            weight,
            first,
            last,
        })
    }

    // A number below a small limit.
    fn small(&mut self, limit: u32) -> Option<u32>
        ensures some { IfSome result (λ n. number_in limit self.old.rest.now
            ≡ Some (n, self.new.rest.now)) }
        ensures none { IfNone result (number_in limit self.old.rest.now ≡ None) }
    {
        let number = self.number(u64::from(limit))?;
        Some(number as u32)
    }

    // The level of a find that climbed, or a dash.
    fn level(&mut self, levels: u32) -> Option<Option<u32>>
        ensures some { IfSome result (λ level. level_in levels self.old.rest.now
            ≡ Some (level, self.new.rest.now)) }
        ensures none { IfNone result (level_in levels self.old.rest.now ≡ None) }
    {
        let before = *self;
        if let Some(level) = self.small(levels) {
            return Some(Some(level));
        }
        *self = before;
        self.word(" -")?;
        Some(None)
    }

    // Where a find answers.
    fn place(&mut self, bounds: Bounds) -> Option<Place>
        ensures some { IfSome result (λ place. place_in bounds self.old.rest.now
            ≡ Some (place, self.new.rest.now)) }
        ensures none { IfNone result (place_in bounds self.old.rest.now ≡ None) }
    {
        let node = self.labelled(" at", u64::from(bounds.nodes))?;
        let number = self.labelled(" number", MOST)?;
        self.word(" level")?;
        let level = self.level(bounds.levels)?;
        Some(Place {
            node: node as u32,
            number,
            level,
        })
    }

    // Why a find has to be made again.
    fn why(&mut self, bounds: Bounds) -> Option<Why>
        ensures some { IfSome result (λ why. why_in bounds self.old.rest.now
            ≡ Some (why, self.new.rest.now)) }
        ensures none { IfNone result (why_in bounds self.old.rest.now ≡ None) }
    {
        if self.word(" empty").is_some() {
            let node = self.small(bounds.nodes)?;
            return Some(Why::Empty { node });
        }
        if self.word(" none").is_some() {
            return Some(Why::NoEntry);
        }
        self.word(" chased")?;
        Some(Why::Chased)
    }

    // The line of a move.
    fn moved(&mut self, actor: u32, number: u32, from: u32, to: u32) -> Option<Line>
        ensures some { IfSome result (λ line. move_in actor number from to self.old.rest.now
            ≡ Some (done_of line, self.new.rest.now)) }
        ensures none { IfNone result (move_in actor number from to self.old.rest.now ≡ None) }
    {
        self.given_behind("move", &[actor, number, from, to])?;
        let weight = self.labelled(" weight", MOST)?;
        let first = self.labelled(" first", MOST)?;
        let commit = self.labelled(" commit", MOST)?;
        let last = self.closing(" last")?;
        Some(Line::Move {
            actor,
            number,
            from,
            to,
            weight,
            first,
            commit,
            last,
        })
    }

    // The line of a switch.
    fn switched(&mut self, actor: u32, off: bool, node: u32, number: u32) -> Option<Line>
        ensures some { IfSome result (λ line. switch_in actor off node number self.old.rest.now
            ≡ Some (done_of line, self.new.rest.now)) }
        ensures none { IfNone result (switch_in actor off node number self.old.rest.now ≡ None) }
    {
        self.one_behind("switch", actor)?;
        self.one_behind(switch_word(off), node)?;
        self.one_behind(" number", number)?;
        let ticket = self.closing(" ticket")?;
        Some(Line::Switch {
            actor,
            off,
            node,
            number,
            ticket,
        })
    }

    // The line of a find that answers, behind its first word.
    fn answer(&mut self, bounds: Bounds, off: bool, actor: u32, from: u32, sub: u32) -> Option<Line>
        ensures some { IfSome result (λ line. answer_in bounds off actor from sub self.old.rest.now
            ≡ Some (done_of line, self.new.rest.now)) }
        ensures none { IfNone result (answer_in bounds off actor from sub self.old.rest.now
            ≡ None) }
    {
        self.all_given(&[actor, from, sub])?;
        let place = self.place(bounds)?;
        let visits = self.visits()?;
        Some(Line::Answer {
            actor,
            from,
            sub,
            off,
            place,
            visits,
        })
    }

    // The line of a find that is to be made again, behind its first word.
    fn again(&mut self, bounds: Bounds, actor: u32, from: u32, sub: u32) -> Option<Line>
        ensures some { IfSome result (λ line. again_in bounds actor from sub self.old.rest.now
            ≡ Some (done_of line, self.new.rest.now)) }
        ensures none { IfNone result (again_in bounds actor from sub self.old.rest.now ≡ None) }
    {
        self.all_given(&[actor, from, sub])?;
        let why = self.why(bounds)?;
        let visits = self.visits()?;
        Some(Line::Again {
            actor,
            from,
            sub,
            why,
            visits,
        })
    }

    // The line of a find.
    fn find(&mut self, bounds: Bounds, actor: u32, from: u32, sub: u32) -> Option<Line>
        ensures some { IfSome result (λ line. find_in bounds actor from sub self.old.rest.now
            ≡ Some (done_of line, self.new.rest.now)) }
        ensures none { IfNone result (find_in bounds actor from sub self.old.rest.now ≡ None) }
    {
        if self.word("find").is_some() {
            return self.answer(bounds, false, actor, from, sub);
        }
        if self.word("off").is_some() {
            return self.answer(bounds, true, actor, from, sub);
        }
        self.word("again")?;
        self.again(bounds, actor, from, sub)
    }

    // The line of a call.
    pub(crate) fn call(&mut self, bounds: Bounds, slot: Slot) -> Option<Line>
        ensures some { IfSome result (λ line. call_in bounds slot self.old.rest.now
            ≡ Some (done_of line, self.new.rest.now)) }
        ensures none { IfNone result (call_in bounds slot self.old.rest.now ≡ None) }
    {
        match slot {
            Slot::Move {
                actor,
                number,
                from,
                to,
            } => self.moved(actor, number, from, to),
            Slot::Switch {
                actor,
                off,
                node,
                number,
            } => self.switched(actor, off, node, number),
            Slot::Find { actor, from, sub } => self.find(bounds, actor, from, sub),
        }
    }
}
