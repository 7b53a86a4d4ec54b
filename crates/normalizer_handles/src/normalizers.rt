//! Normalizers to the four forms, a mapper and properties of characters, over the same data.
ghost use Rattle.std.specs.Prelude.{◌≡◌, ◌≢◌, ◌⊎◌, ◌<◌, IfErr, IfOk, IsOkUnless, List, MatchResult, Ok};
ghost use Rattle.std.specs.List.{flat_map};
ghost use Rattle.icu_normalizer.specs.AnyNormalizers.{made_by_borrowed};
ghost use Rattle.icu_normalizer.specs.Building.{Builds};
ghost use Rattle.icu_normalizer.specs.Built.{AreBuilt, data_in};
ghost use Rattle.icu_normalizer.specs.HeldForms.{RefusesMapper};
ghost use Rattle.icu_normalizer.specs.Kind.TheVariants.{Mapper};
ghost use Rattle.icu_normalizer.specs.MapperRanges.{entries_of};
ghost use Rattle.icu_normalizer.specs.ReadBack.{characters_of};
ghost use Rattle.icu_normalizer.specs.RecordValue.{RecordValue};
ghost use Rattle.normalizer_prepared.specs.Prepared.{prepared_in};
ghost use Rattle.normalizer_handles.specs.FormNumbers.{last_form};
ghost use Rattle.normalizer_handles.specs.declared.fault.Fault.TheVariants.{UnknownForm};
ghost use Rattle.normalizer_handles.specs.Made.{IsNumbered, MakeOver, MapBy, MapOver};
ghost use Rattle.normalizer_handles.specs.Opening.{AreBy};
ghost use Rattle.normalizer_handles.specs.Prepared.{Refuses, SuitsMapper};
ghost use Rattle.normalizer_handles.specs.Properties.{AreOver};

use crate::fault::Fault;
use crate::form::form_numbered;
use crate::mapper_ranges::list_nothing;
use crate::properties::Properties;
use icu_normalizer::uts46::Uts46Mapper;
use icu_normalizer::{
    AnyNormalizerBorrowed, Built, DataError, FormData, MappingData, NormalizeError, Uts46Range,
    built_mapper, normalizers_over,
};
use normalizer_prepared::PreparedData;

/// A version of Unicode, or 0.0.0.
pub type Version = (u32, u32, u32);

/// Normalizers to the four forms, over the same data, a mapper if the data have one, and properties of characters.
pub struct Normalizers {
    /// Classes, pairs and steps, with the normalizers whose data tell them.
    pub properties: Properties,
    /// The mapper, if the data have one.
    pub mapper: Option<Uts46Mapper>,
    /// The version of Unicode that the data state, or 0.0.0.
    pub version: Version,
}

// Written out, so that each place that drops one makes one call.
impl Drop for Normalizers {
    fn drop(self) {
        let Normalizers {
            properties: _properties,
            mapper: _mapper,
            version: _version,
        } = self;
    }
}

impl Normalizers {
    /// Returns the normalizers over built data, and their mapper if it has the records that these ranges list.
    pub(crate) fn over(
        built: &Built,
        mapper: &[Uts46Range],
        version: Version,
    ) -> Result<Normalizers, NormalizeError>
        requires { AreBuilt (data_in built.now) }
        ensures by { (records : List RecordValue) →
            Builds records (flat_map entries_of mapper.now) (data_in built.now) →
            IfOk result (AreBy records (flat_map entries_of mapper.now) version) }
        ensures refused { IsOkUnless result NormalizeError.Memory }
    {
        let forms = normalizers_over(built)?;
        let mapper = mapper_over(built, mapper)?;
        let Ok(properties) = Properties::over(forms, built) else {
            return Err(NormalizeError::Memory);
        };
        Ok(Normalizers {
            properties,
            mapper,
            version,
        })
    }

    /// Returns the normalizers over the data of a file, and their mapper if its data aren't the canonical ones.
    pub(crate) fn over_prepared(prepared: &PreparedData) -> Result<Normalizers, DataError>
        ensures makes { IfOk result (λ n. MakeOver n (prepared_in prepared.now)) }
        ensures maps { IfOk result (λ n. MapOver n.mapper (prepared_in prepared.now)) }
        ensures tell { IfOk result (λ n. AreOver n.properties (prepared_in prepared.now)) }
        ensures version { IfOk result (λ n. n.version ≡ prepared.now.version) }
        ensures refused { IfErr result (λ e. (e ≡ DataError.Memory) ⊎ Refuses (prepared_in prepared.now) e) }
    {
        let forms = prepared.built.normalizers()?;
        let mapper = prepared_mapper(prepared)?;
        Ok(Normalizers {
            properties: Properties::over(forms, &prepared.built)?,
            mapper,
            version: prepared.version,
        })
    }

    /// Returns the normalizer to the form of a number.
    ///
    /// # Errors
    /// `UnknownForm` if no form has the number.
    pub fn numbered(&self, number: u32) -> Result<AnyNormalizerBorrowed<'_>, Fault>
        ensures { MatchResult result (λ n. IsNumbered self.now number (made_by_borrowed n))
            (λ fault. (last_form < number) × (fault ≡ UnknownForm)) }
    {
        match form_numbered(number) {
            Some(form) => Ok(self.properties.forms.to(form)),
            None => Err(Fault::UnknownForm),
        }
    }
}

/// Returns the mapper over built data, if it has the records that these ranges list.
fn mapper_over(built: &Built, mapper: &[Uts46Range]) -> Result<Option<Uts46Mapper>, NormalizeError>
    requires { AreBuilt (data_in built.now) }
    ensures maps { (records : List RecordValue) →
        Builds records (flat_map entries_of mapper.now) (data_in built.now) →
        IfOk result (λ m. MapBy m records (flat_map entries_of mapper.now)) }
    ensures refused { IsOkUnless result NormalizeError.Memory }
{
    if list_nothing(mapper) {
        return Ok(None);
    }
    match built_mapper(built) {
        Ok(mapper) => Ok(Some(mapper)),
        Err(_) => Err(NormalizeError::Memory),
    }
}

/// Returns the mapper over the data of a file, if its data aren't the canonical ones.
fn prepared_mapper(prepared: &PreparedData) -> Result<Option<Uts46Mapper>, DataError>
    ensures maps { IfOk result (λ m. MapOver m (prepared_in prepared.now)) }
    ensures suits { IfOk result (λ m. SuitsMapper (prepared_in prepared.now)) }
    ensures refused { let p = prepared_in prepared.now in IfErr result (λ e. (e ≡ DataError.Memory)
        ⊎ ((p.mapper ≢ p.canonical) × RefusesMapper (Ok (characters_of p Mapper, p.compositions)) e)) }
{
    if prepared.has_canonical_mapper() {
        return Ok(None);
    }
    Ok(Some(prepared.built.mapper()?))
}
