//! The examples of doc comments, word for word, over the record set `rows`.
use crate::over_rows::{built, nfc, nfd};
use icu_normalizer::properties::{
    CanonicalCombiningClassMap, CanonicalComposition, CanonicalDecomposition, Decomposed,
};
use icu_normalizer::uts46::Uts46Mapper;
use icu_normalizer::{
    Built, ComposingNormalizer, ComposingNormalizerBorrowed, DataError,
    DecomposingNormalizerBorrowed, NormalForm, NormalizeError, Records, collected, normalizer_to,
};
use normalizer_ucd::records_of_unicode_data;
use std::alloc::Global;
use std::process::Abort;
use std::test::Fail;

fn checks(
    rt: &impl Abort,
    normalizer: &ComposingNormalizerBorrowed<'_>,
) -> Result<(), NormalizeError> {
    assert!(rt; normalizer.is_normalized("\u{E4}b")?);
    assert!(rt; !normalizer.is_normalized("a\u{308}b")?);

    let mismatch = normalizer.first_offence("ba\u{308}")?;
    assert!(rt; mismatch.is_some_and(|it| (it.place, it.found, it.wanted) == (1, 'a', '\u{E4}')));
    assert!(rt; normalizer.first_offence("b\u{E4}")?.is_none());

    let (prefix, rest) = normalizer.split_normalized("ba\u{308}")?;
    assert_eq!(rt; prefix, "b");
    assert_eq!(rt; rest, "a\u{308}");
    Ok(())
}

fn forms(
    rt: &impl Abort,
    alloc: Global,
    normalizer: &ComposingNormalizerBorrowed<'_>,
) -> Result<(), NormalizeError> {
    let form = normalizer.normalize("a\u{308}b")?;
    assert!(rt; *form == *"\u{E4}b");

    let mut form = String::new(alloc);
    normalizer.normalize_to("a\u{308}b", &mut form)?;
    assert_eq!(rt; form.as_str(), "\u{E4}b");

    let mut form = String::new(alloc);
    normalizer.normalize_utf8_to(b"a\xCC\x88\xFF", &mut form)?;
    assert_eq!(rt; form.as_str(), "\u{E4}\u{FFFD}");

    let mut form = Vec::new(alloc);
    normalizer.normalize_utf16_to(&[0x61, 0x308, 0x62], &mut form)?;
    assert_eq!(rt; form.as_slice(), [0xE4, 0x62].as_slice());

    let form = collected(alloc, normalizer.normalize_iter("a\u{308}b".chars())?)?;
    assert_eq!(rt; form.as_slice(), ['\u{E4}', 'b'].as_slice());
    Ok(())
}

fn decomposed(
    rt: &impl Abort,
    alloc: Global,
    normalizer: &DecomposingNormalizerBorrowed<'_>,
) -> Result<(), NormalizeError> {
    let form = collected(alloc, normalizer.normalize_iter("\u{E4}b".chars())?)?;
    assert_eq!(rt; form.as_slice(), ['a', '\u{308}', 'b'].as_slice());
    Ok(())
}

#[test]
fn calls_of_normalizers(rt: HostRuntime) -> Result<(), Fail> {
    let composing = nfc(rt.alloc()).expect(&rt, "the rows are accepted");
    checks(&rt, &composing.as_borrowed())?;
    forms(&rt, rt.alloc(), &composing.as_borrowed())?;
    let decomposing = nfd(rt.alloc()).expect(&rt, "the rows are accepted");
    decomposed(&rt, rt.alloc(), &decomposing.as_borrowed())?;
    Ok(())
}

fn properties(rt: &impl Abort, data: &Built) -> Result<(), DataError> {
    let classes = CanonicalCombiningClassMap::try_new_unstable(data)?;
    assert_eq!(rt; classes.as_borrowed().get_u8('\u{308}'), 230);

    let composition = CanonicalComposition::try_new_unstable(data)?;
    assert_eq!(rt;
        composition.as_borrowed().compose('a', '\u{308}'),
        Some('\u{E4}')
    );

    let decomposition = CanonicalDecomposition::try_new_unstable(data)?;
    let step = decomposition.as_borrowed().decompose('\u{E4}');
    assert!(rt; step == Decomposed::Expansion('a', '\u{308}'));
    Ok(())
}

fn mapped(rt: &impl Abort, alloc: Global, data: &Built) -> Result<(), Fail> {
    let mapper = Uts46Mapper::try_new(data)?;
    let mapped = collected(
        alloc,
        mapper.as_borrowed().map_normalize("\u{C4}b".chars())?,
    )?;
    assert_eq!(rt; mapped.as_slice(), ['\u{E4}', 'b'].as_slice());
    Ok(())
}

#[test]
fn calls_of_properties_and_the_mapper(rt: HostRuntime) -> Result<(), Fail> {
    let data = built(rt.alloc()).expect(&rt, "the rows can be built");
    properties(&rt, &data)?;
    mapped(&rt, rt.alloc(), &data)
}

fn read(rt: &impl Abort, alloc: Global) -> Result<(), Fail> {
    let unicode_data = b"00E4;;Ll;0;L;0061 0308;;;;N;;;;;\n0308;;Mn;230;NSM;;;;;N;;;;;\n# EOF\n";
    let records = records_of_unicode_data(alloc, unicode_data, b"# EOF\n")?;
    assert_eq!(rt; records.len(), 2);

    let data = Records::build(alloc, &records, &[])?;
    let normalizer = ComposingNormalizer::try_new_nfc_unstable(&data)?;
    assert!(rt; *normalizer.as_borrowed().normalize("a\u{308}")? == *"\u{E4}");
    Ok(())
}

fn any_form(rt: &impl Abort, alloc: Global) -> Result<(), Fail> {
    let built = Records::build(alloc, &[], &[])?;
    let normalizer = normalizer_to(&built, NormalForm::Nfc)?;
    let form = normalizer.as_borrowed().normalize("\u{1100}\u{1161}")?;
    assert!(rt; *form == *"\u{AC00}");
    Ok(())
}

#[test]
fn calls_that_read_and_build(rt: HostRuntime) -> Result<(), Fail> {
    read(&rt, rt.alloc())?;
    any_form(&rt, rt.alloc())
}
