// The calls of a list, each by its number (oracle/README.md, "accumulator").
ghost use Rattle.std.specs.Prelude.{◌<◌};
ghost use Rattle.replay_accumulator.specs.Call.{Decodes};

use std::fmt;

// A call on a record, with its number.
#[derive(Clone, Copy, Debug, PartialEq, Eq)]
pub enum Call {
    AddSample = 1,
    MergeSamplesNoReset = 2,
    UpdatePlain = 3,
    UpdateWeighted = 4,
    GetLiveEstimate = 5,
    ShallowCopy = 6,
    ClearSamples = 7,
    MergeSamples = 8,
    Summary = 9,
}

// All calls, in the order of their numbers.
pub const CALLS: [Call; 9] = [
    Call::AddSample,
    Call::MergeSamplesNoReset,
    Call::UpdatePlain,
    Call::UpdateWeighted,
    Call::GetLiveEstimate,
    Call::ShallowCopy,
    Call::ClearSamples,
    Call::MergeSamples,
    Call::Summary,
];

// A number that is no call's.
#[derive(Clone, Copy, Debug, PartialEq, Eq)]
pub struct UnknownCall(pub u64);

impl TryFrom<u64> for Call {
    type Error = UnknownCall;

    ghost try_from_gives = { Decodes };

    fn try_from(number: u64) -> Result<Self, UnknownCall> {
        match number {
            1 => Ok(Call::AddSample),
            2 => Ok(Call::MergeSamplesNoReset),
            3 => Ok(Call::UpdatePlain),
            4 => Ok(Call::UpdateWeighted),
            5 => Ok(Call::GetLiveEstimate),
            6 => Ok(Call::ShallowCopy),
            7 => Ok(Call::ClearSamples),
            8 => Ok(Call::MergeSamples),
            9 => Ok(Call::Summary),
            _ => Err(UnknownCall(number)),
        }
    }
}

impl fmt::Display for Call {
    fn fmt<W: fmt::Write>(&self, f: &mut fmt::Formatter<W>) -> fmt::Result {
        f.write_str(match self {
            Call::AddSample => "add_sample",
            Call::MergeSamplesNoReset => "merge_samples_no_reset",
            Call::UpdatePlain => "update_iter(false)",
            Call::UpdateWeighted => "update_iter(true)",
            Call::GetLiveEstimate => "get_live_estimate",
            Call::ShallowCopy => "shallow_copy",
            Call::ClearSamples => "clear_samples",
            Call::MergeSamples => "merge_samples",
            Call::Summary => "summary",
        })
    }
}

impl Call {
    // How many words stand before the refusal's number: the call's number, a record, arguments.
    pub fn before(self) -> usize
        ensures { result < 64 }
    {
        match self {
            Call::AddSample => 24,
            Call::MergeSamplesNoReset | Call::MergeSamples => 43,
            _ => 22,
        }
    }

    // How many words the call answers with behind a 0.
    pub fn behind(self) -> usize
        ensures { result < 64 }
    {
        match self {
            Call::UpdatePlain | Call::UpdateWeighted => 22,
            Call::GetLiveEstimate => 3,
            Call::MergeSamples => 42,
            Call::Summary => 6,
            _ => 21,
        }
    }
}
