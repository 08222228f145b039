//! What the program is told to do.
use crate::Load;

/// What the program is told to do.
#[derive(Clone, Copy, Debug, PartialEq, Eq)]
pub enum Command {
    /// Write the plan of a network.
    Cover,
    /// Write the report of the calls under the order of the input.
    Replay,
    /// Write who is where at the end of the replay.
    Census,
    /// Write what the moves of each subscriber cost.
    Costs,
    /// Write how many times its distance a find over the plan of a network may weigh.
    Stretch,
    /// Judge the report that comes after the input.
    Check,
    /// Write the input as JSON.
    ToJson,
    /// Write the input that JSON says.
    FromJson,
    /// Write the report of the calls under the order of the input, as JSON.
    ReplayJson,
    /// Write the plan of a network over covers that are small in the sum.
    MeanCover,
    /// Write the report over that plan.
    MeanReplay,
    /// Write how many times its distance a find over that plan may weigh.
    MeanStretch,
    /// Write the report of the calls that threads make.
    Run,
    /// Write the input that this load makes.
    Make(Load),
    /// Write the summary of the replay of the input that this load makes.
    Trial(Load),
}

/// Why words aren't a command.
#[derive(Clone, Copy, Debug, PartialEq, Eq)]
pub enum WordsFault {
    /// They are none of the forms.
    Refused,
}
