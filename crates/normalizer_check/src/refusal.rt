//! The errors for data that break a written condition.
ghost use Rattle.std.specs.Prelude.{◌≡◌};
ghost use Rattle.normalizer_check.specs.Refusals.{marker_of, refusal_of};

use normalizer_tables::condition::Condition;
use normalizer_tables::{DataError, DataMarkerInfo};

/// Returns the marker that is reported if a condition fails and the decomposition data have this one.
pub fn marker_of(data_marker: DataMarkerInfo, condition: Condition) -> DataMarkerInfo
    ensures { result ≡ marker_of data_marker condition }
{
    match condition {
        Condition::ItemLimit => DataMarkerInfo::NormalizerNfdTablesV1,
        Condition::Pairs | Condition::PairOrder | Condition::Results => {
            DataMarkerInfo::NormalizerNfcV1
        }
        Condition::FdfaForms => DataMarkerInfo::NormalizerNfdDataV1,
        Condition::Steps => DataMarkerInfo::NormalizerNfdSupplementV1,
        _ => data_marker,
    }
}

/// Returns the error for a condition that fails, if the decomposition data have this marker.
pub fn refusal_of(data_marker: DataMarkerInfo, condition: Condition) -> DataError
    ensures { result ≡ refusal_of data_marker condition }
{
    let marker = marker_of(data_marker, condition);
    if condition == Condition::ItemLimit {
        return DataError::FutureExtension(marker);
    }
    DataError::Invalid {
        marker,
        condition: condition.number(),
    }
}
