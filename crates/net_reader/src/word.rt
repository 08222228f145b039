//! The words that begin a line, and where their lines may stand.
ghost use Rattle.std.specs.Prelude.{◌≡◌};
ghost use Rattle.net_reader.specs.Table.{may_stand};
ghost use Rattle.net_reader.specs.Rows.{place_of_word};
ghost use Rattle.net_reader.specs.Steps.{number_of_place, word_in};

/// The word that begins a line.
#[derive(Clone, Copy)]
pub(crate) enum Word {
    Track,
    Nodes,
    K,
    Edge,
    Sub,
    Callers,
    Move,
    Find,
    Off,
    On,
    Order,
}

/// The place of the last line that wasn't skipped.
#[derive(Clone, Copy)]
pub(crate) enum Place {
    Start,
    Track,
    Nodes,
    K,
    Edges,
    Subs,
    Callers,
    Calls,
    Orders,
}

// Whether a line with this word may stand after the last one.
pub(crate) fn may_follow(last: Place, word: Word) -> bool
    ensures { result ≡ may_stand (number_of_place last) (place_of_word word) }
{
    match last {
        Place::Start => matches!(word, Word::Track),
        Place::Track => matches!(word, Word::Nodes),
        Place::Nodes => matches!(word, Word::K),
        Place::K | Place::Edges => matches!(word, Word::Edge | Word::Sub),
        Place::Subs => matches!(word, Word::Sub | Word::Callers),
        Place::Callers | Place::Calls => matches!(
            word,
            Word::Move | Word::Find | Word::Off | Word::On | Word::Order
        ),
        Place::Orders => matches!(word, Word::Order),
    }
}

// The word whose bytes were packed into this number.
#[tactic(auto, unfolding(crate::specs::Steps::word_in))]
pub(crate) fn word_in(packed: u64) -> Option<Word>
    ensures { result ≡ word_in packed }
{
    match packed {
        0x1_7472_6163_6b => Some(Word::Track),
        0x1_6e6f_6465_73 => Some(Word::Nodes),
        0x1_6b => Some(Word::K),
        0x1_6564_6765 => Some(Word::Edge),
        0x1_7375_62 => Some(Word::Sub),
        0x1_6361_6c6c_6572_73 => Some(Word::Callers),
        0x1_6d6f_7665 => Some(Word::Move),
        0x1_6669_6e64 => Some(Word::Find),
        0x1_6f66_66 => Some(Word::Off),
        0x1_6f6e => Some(Word::On),
        0x1_6f72_6465_72 => Some(Word::Order),
        _ => None,
    }
}
