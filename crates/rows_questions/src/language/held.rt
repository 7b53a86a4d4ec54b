//! A provider that may lack each of its parts: it holds what rows make by hand, or what records build.
ghost use Rattle.std.specs.Prelude.{◌≡◌, ◌↔◌, ◌⊎◌, IfOk, IfErr, IsErrOf, IsNone, Some};
ghost use Rattle.icu_normalizer.specs.DataError.TheVariants.{Memory, Provider};

use crate::language::by_hand::ByHand;
use crate::language::fault::Fault;
use icu_normalizer::{
    Built, CanonicalCompositions, DataError, DataMarkerInfo, DataProvider, DecompositionData,
    DecompositionTables, NonRecursiveDecompositionSupplement, NormalizerNfcV1, NormalizerNfdDataV1,
    NormalizerNfdSupplementV1, NormalizerNfdTablesV1, NormalizerNfkdDataV1, NormalizerNfkdTablesV1,
    NormalizerUts46DataV1,
};

/// What a provider holds, each part of which may be lacking.
#[derive(Drop)]
pub struct Held {
    pub canonical: Option<DecompositionData>,
    pub compatibility: Option<DecompositionData>,
    pub mapper: Option<DecompositionData>,
    pub tables: Option<DecompositionTables>,
    pub supplementary: Option<DecompositionTables>,
    pub pairs: Option<CanonicalCompositions>,
    pub supplement: Option<NonRecursiveDecompositionSupplement>,
}

impl Held {
    /// No part.
    pub fn nothing() -> Held {
        Held {
            canonical: None,
            compatibility: None,
            mapper: None,
            tables: None,
            supplementary: None,
            pairs: None,
            supplement: None,
        }
    }

    /// Takes what rows make by hand.
    pub fn take_by_hand(&mut self, by_hand: &ByHand) -> Result<(), Fault> {
        self.canonical = by_hand.canonical.data()?;
        self.tables = by_hand.canonical.tables()?;
        self.compatibility = by_hand.compatibility.data()?;
        self.supplementary = by_hand.compatibility.tables()?;
        self.mapper = by_hand.mapper.data()?;
        self.supplement = by_hand.supplement.supplement()?;
        self.pairs = by_hand.compositions()?;
        Ok(())
    }

    /// Takes all that was built.
    pub fn take_built(&mut self, built: &Built) -> Result<(), Fault> {
        self.canonical = Some(<Built as DataProvider<NormalizerNfdDataV1>>::load(built)?);
        self.compatibility = Some(<Built as DataProvider<NormalizerNfkdDataV1>>::load(built)?);
        self.mapper = Some(<Built as DataProvider<NormalizerUts46DataV1>>::load(built)?);
        self.tables = Some(<Built as DataProvider<NormalizerNfdTablesV1>>::load(built)?);
        self.supplementary = Some(<Built as DataProvider<NormalizerNfkdTablesV1>>::load(built)?);
        self.pairs = Some(<Built as DataProvider<NormalizerNfcV1>>::load(built)?);
        self.supplement = Some(<Built as DataProvider<NormalizerNfdSupplementV1>>::load(built)?);
        Ok(())
    }
}

/// A copy of a part, if it is held.
fn loaded<T: Clone>(part: &Option<T>, marker: DataMarkerInfo) -> Result<T, DataError>
    ensures ok { ((x : T) (c : T) → T.is_clone x c → c ≡ x) → IfOk result (λ d. part.now ≡ Some d) }
    ensures missing { IsErrOf result (Provider marker) ↔ IsNone part.now }
    ensures refused { IfErr result (λ e. (e ≡ Provider marker) ⊎ (e ≡ Memory)) }
{
    match part {
        Some(data) => data.clone().map_err(|_| DataError::Memory),
        None => Err(DataError::Provider(marker)),
    }
}

impl DataProvider<NormalizerNfdDataV1> for Held {
    ghost payload = { λ p. p.canonical };

    fn load(&self) -> Result<DecompositionData, DataError> {
        loaded(&self.canonical, DataMarkerInfo::NormalizerNfdDataV1)
    }
}

impl DataProvider<NormalizerNfkdDataV1> for Held {
    ghost payload = { λ p. p.compatibility };

    fn load(&self) -> Result<DecompositionData, DataError> {
        loaded(&self.compatibility, DataMarkerInfo::NormalizerNfkdDataV1)
    }
}

impl DataProvider<NormalizerUts46DataV1> for Held {
    ghost payload = { λ p. p.mapper };

    fn load(&self) -> Result<DecompositionData, DataError> {
        loaded(&self.mapper, DataMarkerInfo::NormalizerUts46DataV1)
    }
}

impl DataProvider<NormalizerNfdTablesV1> for Held {
    ghost payload = { λ p. p.tables };

    fn load(&self) -> Result<DecompositionTables, DataError> {
        loaded(&self.tables, DataMarkerInfo::NormalizerNfdTablesV1)
    }
}

impl DataProvider<NormalizerNfkdTablesV1> for Held {
    ghost payload = { λ p. p.supplementary };

    fn load(&self) -> Result<DecompositionTables, DataError> {
        loaded(&self.supplementary, DataMarkerInfo::NormalizerNfkdTablesV1)
    }
}

impl DataProvider<NormalizerNfcV1> for Held {
    ghost payload = { λ p. p.pairs };

    fn load(&self) -> Result<CanonicalCompositions, DataError> {
        loaded(&self.pairs, DataMarkerInfo::NormalizerNfcV1)
    }
}

impl DataProvider<NormalizerNfdSupplementV1> for Held {
    ghost payload = { λ p. p.supplement };

    fn load(&self) -> Result<NonRecursiveDecompositionSupplement, DataError> {
        loaded(&self.supplement, DataMarkerInfo::NormalizerNfdSupplementV1)
    }
}
