// The calls of a list, each by its number (oracle/README.md, "grid").
ghost use Rattle.replay_grid.specs.Call.{Decodes};

use std::fmt;

// A call on a grid, with its number. A plan is laid by 0, which stands before no call of the list.
#[derive(Clone, Copy, Debug, PartialEq, Eq)]
pub enum Call {
    Fresh = 0,
    Draw = 1,
    Probe = 2,
    Summary = 3,
    LiveEstimate = 4,
    LiveEstimateOfBin = 5,
    Train = 6,
    Update = 7,
    CloneWithoutSamples = 8,
    IsMergeable = 9,
    Merge = 10,
    SetCell = 11,
    DrawAndTrain = 12,
}

// All calls, in the order of their numbers.
pub const CALLS: [Call; 13] = [
    Call::Fresh,
    Call::Draw,
    Call::Probe,
    Call::Summary,
    Call::LiveEstimate,
    Call::LiveEstimateOfBin,
    Call::Train,
    Call::Update,
    Call::CloneWithoutSamples,
    Call::IsMergeable,
    Call::Merge,
    Call::SetCell,
    Call::DrawAndTrain,
];

// A number that is no call's.
#[derive(Clone, Copy, Debug, PartialEq, Eq)]
pub struct UnknownCall(pub u64);

impl TryFrom<u64> for Call {
    type Error = UnknownCall;

    ghost try_from_gives = { Decodes };

    fn try_from(number: u64) -> Result<Self, UnknownCall> {
        match number {
            0 => Ok(Call::Fresh),
            1 => Ok(Call::Draw),
            2 => Ok(Call::Probe),
            3 => Ok(Call::Summary),
            4 => Ok(Call::LiveEstimate),
            5 => Ok(Call::LiveEstimateOfBin),
            6 => Ok(Call::Train),
            7 => Ok(Call::Update),
            8 => Ok(Call::CloneWithoutSamples),
            9 => Ok(Call::IsMergeable),
            10 => Ok(Call::Merge),
            11 => Ok(Call::SetCell),
            12 => Ok(Call::DrawAndTrain),
            _ => Err(UnknownCall(number)),
        }
    }
}

impl fmt::Display for Call {
    fn fmt<W: fmt::Write>(&self, f: &mut fmt::Formatter<W>) -> fmt::Result {
        f.write_str(match self {
            Call::Fresh => "fresh",
            Call::Draw => "draw",
            Call::Probe => "probe",
            Call::Summary => "summary",
            Call::LiveEstimate => "live_estimate",
            Call::LiveEstimateOfBin => "live_estimate_of_bin",
            Call::Train => "train",
            Call::Update => "update",
            Call::CloneWithoutSamples => "clone_without_samples",
            Call::IsMergeable => "is_mergeable",
            Call::Merge => "merge",
            Call::SetCell => "cells set",
            Call::DrawAndTrain => "draw and train",
        })
    }
}
