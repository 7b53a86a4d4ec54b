//! Questions about characters: the class of a number, a step of decomposition, what a shaper gets for it, what two
//! characters compose to, whether one is a virama. Each is checked by every call, of owned and of borrowed properties,
//! and by the shaper traits.
use crate::language::fault::{Answer, Fault, agreed};
use crate::language::held::Held;
use crate::language::printing::spelled_bool;
use crate::language::setting::Setting;
use crate::language::words::{Spelled, character, hexadecimal, only, spelled_all};
use icu_normalizer::harfbuzz::{CombiningClassFunc, ComposeFunc, DecomposeFunc};
use icu_normalizer::properties::{
    CanonicalCombiningClass, CanonicalCombiningClassMap, CanonicalComposition,
    CanonicalDecomposition, Decomposed,
};
use icu_normalizer::{AnyNormalizer, MappingData};
use std::alloc::Global;

/// Whether a character is a virama.
pub fn virama(alloc: Global, held: &Held, question: &[&str]) -> Answer {
    let character = character(only(question)?)?;
    spelled_bool(alloc, held.mapper()?.as_borrowed().is_virama(character))
}

/// The class of a number.
pub fn class(alloc: Global, held: &Held, question: &[&str]) -> Answer {
    let number = hexadecimal(only(question)?)?;
    let classes = CanonicalCombiningClassMap::try_new_unstable(held)?;
    let class = classes.as_borrowed().get32_u8(number);
    agreed(
        classes.as_borrowed().get32(number) == CanonicalCombiningClass(class)
            && char::from_u32(number).is_none_or(|character| is_class(&classes, character, class)),
    )?;
    Ok(format!(in alloc; "{class}")?)
}

fn is_class(classes: &CanonicalCombiningClassMap, character: char, class: u8) -> bool {
    let borrowed = classes.as_borrowed();
    borrowed.get(character) == CanonicalCombiningClass(class)
        && borrowed.get_u8(character) == class
        && told_class(classes, character) == class
        && told_class(&classes, character) == class
        && told_class(&borrowed, character) == class
}

fn told_class<C: CombiningClassFunc>(classes: &C, character: char) -> u8 {
    classes.combining_class(character)
}

/// One step of the canonical decomposition of a character.
pub fn step(alloc: Global, held: &Held, question: &[&str]) -> Answer {
    let character = character(only(question)?)?;
    let steps = CanonicalDecomposition::try_new_unstable(held)?;
    match steps.as_borrowed().decompose(character) {
        Decomposed::Default => Ok(String::from_str(alloc, "default")?),
        Decomposed::Singleton(a) => {
            let a = a.spelled(alloc)?;
            Ok(format!(in alloc; "singleton {a}")?)
        }
        Decomposed::Expansion(a, b) => {
            let both = spelled_all(alloc, &[a, b])?;
            Ok(format!(in alloc; "expansion {both}")?)
        }
    }
}

/// What a shaper gets for the step of a character.
pub fn shaped(alloc: Global, held: &Held, question: &[&str]) -> Answer {
    let character = character(only(question)?)?;
    let steps = CanonicalDecomposition::try_new_unstable(held)?;
    let step = told_step(&steps, character);
    agreed(
        told_step(&&steps, character) == step && told_step(&steps.as_borrowed(), character) == step,
    )?;
    match step {
        Some((first, second)) => spelled_all(alloc, &[first, second]),
        None => Ok(String::from_str(alloc, "none")?),
    }
}

fn told_step<D: DecomposeFunc>(steps: &D, character: char) -> Option<(char, char)> {
    steps.decompose(character)
}

/// What two characters compose to, or `none`.
pub fn composite(alloc: Global, setting: &mut Setting, pair: &[&str]) -> Answer {
    let [first, second] = pair else {
        return Err(Fault::Unreadable);
    };
    let (first, second) = (character(first)?, character(second)?);
    let composite = composite_by(setting.normalizer("nfc")?, first, second)?;
    let pairs = CanonicalComposition::try_new_unstable(setting.held()?)?;
    agreed(is_composite(&pairs, first, second, composite))?;
    match composite {
        Some(composite) => composite.spelled(alloc),
        None => Ok(String::from_str(alloc, "none")?),
    }
}

/// What two characters compose to, of a normalizer that composes.
fn composite_by(
    normalizer: &AnyNormalizer,
    first: char,
    second: char,
) -> Result<Option<char>, Fault> {
    match normalizer {
        AnyNormalizer::Composing(normalizer) => {
            let composition = normalizer.as_borrowed().normalize_iter("".chars())?;
            Ok(composition.compose(first, second))
        }
        AnyNormalizer::Decomposing(_) => Err(Fault::Unreadable),
    }
}

fn is_composite(
    pairs: &CanonicalComposition,
    first: char,
    second: char,
    composite: Option<char>,
) -> bool {
    let borrowed = pairs.as_borrowed();
    borrowed.compose(first, second) == composite
        && told_composite(pairs, first, second) == composite
        && told_composite(&pairs, first, second) == composite
        && told_composite(&borrowed, first, second) == composite
}

fn told_composite<C: ComposeFunc>(pairs: &C, first: char, second: char) -> Option<char> {
    pairs.compose(first, second)
}
