//! The measures of a made workload.

/// The measures of a made workload, within the limits of an input.
#[derive(Clone, Copy, Debug, PartialEq, Eq)]
pub struct Load {
    /// Where the draws start, below 10^18.
    pub start: u64,
    /// How many nodes, 1 to 1,024.
    pub nodes: u32,
    /// The trade-off of the covers, 1 to 8; at least 2 where there are more than 256 nodes.
    pub k: u32,
    /// How many subscribers, 1 to 64.
    pub subs: u32,
    /// How many callers, at most 64.
    pub callers: u32,
    /// How many calls, at most 16,384; none where one node and no caller leave none to make.
    pub calls: u32,
}
