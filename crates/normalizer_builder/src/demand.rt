//! What is required of data that pack records, and how data that don't meet a requirement are reported.
ghost use Rattle.std.specs.Prelude.{◌≡◌};
ghost use Rattle.normalizer_builder.specs.Demands.{error_of, marker_of_kind, reported_marker, reported_number};
ghost use Rattle.normalizer_builder.specs.inner.Earlier.{earlier};

use normalizer_check::refusal::marker_of;
use normalizer_records::BuildError;
use normalizer_tables::DataMarkerInfo;
use normalizer_tables::condition::Condition;
use normalizer_tables::entry::Kind;

/// A requirement on data that pack records.
#[derive(Clone, Copy, Debug, PartialEq, Eq)]
pub enum Demand {
    /// The data of a kind meet a condition that constructors require.
    Asks(Condition, Kind),
    /// One decomposition step of each character is the canonical mapping that is recorded of it.
    KeepsMappings,
}

impl Demand {
    /// The marker that is reported.
    fn reported_marker(self) -> DataMarkerInfo
        ensures { result ≡ reported_marker self }
    {
        match self {
            Demand::Asks(condition, kind) => marker_of(marker_of_kind(kind), condition),
            Demand::KeepsMappings => DataMarkerInfo::NormalizerNfdSupplementV1,
        }
    }

    /// The number of the condition that is reported.
    fn reported_number(self) -> u8
        ensures { result ≡ reported_number self }
    {
        match self {
            Demand::Asks(condition, _) => condition.number(),
            Demand::KeepsMappings => Condition::Steps.number(),
        }
    }

    /// The error for data that don't meet it.
    pub(crate) fn error(self) -> BuildError
        ensures { result ≡ error_of self }
    {
        BuildError::Unfit {
            marker: self.reported_marker(),
            condition: self.reported_number(),
        }
    }
}

/// The marker of the decomposition data of one kind.
fn marker_of_kind(kind: Kind) -> DataMarkerInfo
    ensures { result ≡ marker_of_kind kind }
{
    match kind {
        Kind::Canonical => DataMarkerInfo::NormalizerNfdDataV1,
        Kind::Compatibility => DataMarkerInfo::NormalizerNfkdDataV1,
        Kind::Mapper => DataMarkerInfo::NormalizerUts46DataV1,
    }
}

/// The one that is reported under the smaller number; of one number, the first.
pub(crate) fn earlier(first: Option<Demand>, second: Option<Demand>) -> Option<Demand>
    ensures { result ≡ earlier first second }
{
    match (first, second) {
        (None, other) => other,
        (Some(a), Some(b)) if b.reported_number() < a.reported_number() => Some(b),
        (demand, _) => demand,
    }
}
