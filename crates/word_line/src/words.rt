//! The command that words are.
ghost use Rattle.std.specs.Prelude.{◌≡◌};
ghost use Rattle.std.specs.Option.{ok_or};
ghost use Rattle.word_line.specs.declared.command.WordsFault.TheVariants.{Refused};
ghost use Rattle.word_line.specs.Forms.{actor_numbers, alone, bytes_of, command_of, is_sound, load_from, load_of, network_numbers, plain_command};

use crate::number::{number_in, number_of};
use crate::{Command, Load, WordsFault};

const MAX_NODES: u32 = 1_024;

const MAX_K: u32 = 8;

const MAX_SUBS: u32 = 64;

const MAX_CALLERS: u32 = 64;

const MAX_CALLS: u32 = 16_384;

// Where more than this many nodes are, a trade-off of 1 isn't taken.
const MOST_NODES_OF_ONE: u32 = 256;

// Whether the measures go together.
fn is_sound(load: &Load) -> bool
    ensures { result ≡ is_sound load.now }
{
    (load.nodes <= MOST_NODES_OF_ONE || load.k >= 2)
        && (load.nodes >= 2 || load.callers >= 1 || load.calls == 0)
}

// The network of a load: where its draws start, its nodes and its trade-off.
fn network_numbers(start: &str, nodes: &str, k: &str) -> Option<(u64, u32, u32)>
    ensures { result ≡ network_numbers start.now nodes.now k.now }
{
    let start = number_of(start)?;
    let nodes = number_in(1, MAX_NODES, nodes)?;
    let k = number_in(1, MAX_K, k)?;
    Some((start, nodes, k))
}

// The actors of a load and how many calls they make.
fn actor_numbers(subs: &str, callers: &str, calls: &str) -> Option<(u32, u32, u32)>
    ensures { result ≡ actor_numbers subs.now callers.now calls.now }
{
    let subs = number_in(1, MAX_SUBS, subs)?;
    let callers = number_in(0, MAX_CALLERS, callers)?;
    let calls = number_in(0, MAX_CALLS, calls)?;
    Some((subs, callers, calls))
}

// The load that these words are.
fn load_from(network: Option<(u64, u32, u32)>, actors: Option<(u32, u32, u32)>) -> Option<Load>
    ensures { result ≡ load_from network actors }
{
    let (start, nodes, k) = network?;
    let (subs, callers, calls) = actors?;
    let load = Load {
        start,
        nodes,
        k,
        subs,
        callers,
        calls,
    };
    is_sound(&load).then_some(load)
}

// The load that six numbers are.
fn load_of(words: &[String]) -> Option<Load>
    ensures { result ≡ load_of (bytes_of words.now) }
{
    let [start, nodes, k, subs, callers, calls] = words else {
        return None;
    };
    load_from(
        network_numbers(start, nodes, k),
        actor_numbers(subs, callers, calls),
    )
}

// The command, if there is one, where no word comes after its name.
fn alone(command: Option<Command>, words: &[String]) -> Option<Command>
    ensures { result ≡ alone command (bytes_of words.now) }
{
    if words.is_empty() { command } else { None }
}

// The command that is a name alone.
fn plain_command(name: &str) -> Option<Command>
    ensures { result ≡ plain_command name.now }
{
    match name {
        "cover" => Some(Command::Cover),
        "replay" => Some(Command::Replay),
        "census" => Some(Command::Census),
        "costs" => Some(Command::Costs),
        "stretch" => Some(Command::Stretch),
        "check" => Some(Command::Check),
        "run" => Some(Command::Run),
        "tojson" => Some(Command::ToJson),
        "fromjson" => Some(Command::FromJson),
        "replayjson" => Some(Command::ReplayJson),
        "meancover" => Some(Command::MeanCover),
        "meanreplay" => Some(Command::MeanReplay),
        "meanstretch" => Some(Command::MeanStretch),
        _ => None,
    }
}

fn command_of(words: &[String]) -> Option<Command>
    ensures { result ≡ command_of (bytes_of words.now) }
{
    let [name, rest @ ..] = words else {
        return None;
    };
    match name.as_str() {
        "make" => Some(Command::Make(load_of(rest)?)),
        "trial" => Some(Command::Trial(load_of(rest)?)),
        plain => alone(plain_command(plain), rest),
    }
}

/// The command that the words after the program's name are. It takes no memory.
pub fn read_words(words: &[String]) -> Result<Command, WordsFault>
    ensures { result ≡ ok_or (command_of (bytes_of words.now)) Refused }
{
    command_of(words).ok_or(WordsFault::Refused)
}
