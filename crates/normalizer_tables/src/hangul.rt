//! Hangul syllables, which compose by arithmetic (The Unicode Standard, section 3.12).
ghost use Rattle.std.specs.Prelude.{◌≡◌, ◌↔◌, ℕ, IsTrue, true};
ghost use Rattle.normalizer_tables.specs.Hangul.{hangul_decomposition, is_hangul_syllable};
ghost use Rattle.normalizer_tables.specs.ShortLists.{text_of};
ghost use Rattle.normalizer_tables.specs.HangulComposition.{
  compose_hangul,
  is_leading_consonant,
  is_lv_syllable,
  is_trailing_consonant,
  is_vowel,
};

use crate::short_list::ShortList;

/// SBase, the first syllable.
pub const S_BASE: u32 = 0xAC00;

pub(crate) const L_BASE: u32 = 0x1100;

pub(crate) const V_BASE: u32 = 0x1161;

pub(crate) const T_BASE: u32 = 0x11A7;

pub(crate) const T_COUNT: u32 = 28;

/// How many syllables have the same leading consonant.
pub const N_COUNT: u32 = 588;

/// Returns whether a number is that of a Hangul syllable.
#[tactic(auto, unfolding(crate::specs::Hangul::is_hangul_syllable))]
#[inline(always)]
pub fn is_hangul_syllable(number: u32) -> bool
    ensures { result ≡ is_hangul_syllable number }
{
    0xAC00 <= number && number <= 0xD7A3
}

/// Returns the jamo of a Hangul syllable: the leading consonant, the vowel, and the trailing consonant if there is one.
#[tactic(auto, unfolding(crate::specs::Hangul::is_hangul_syllable, crate::specs::Hangul::hangul_decomposition))]
#[inline(always)]
pub fn decompose_hangul(syllable: char) -> ShortList
    requires { is_hangul_syllable syllable ≡ true }
    ensures { text_of result ≡ hangul_decomposition syllable }
{
    let index = syllable as u32 - S_BASE;
    let leading = L_BASE + index / N_COUNT;
    let vowel = V_BASE + index % N_COUNT / T_COUNT;
    let trailing = index % T_COUNT;
    if trailing == 0 {
        ShortList::of_two(leading, vowel)
    } else {
        ShortList::of_three(leading, vowel, T_BASE + trailing)
    }
}

/// Returns the syllable of a leading consonant and a vowel, or of such a syllable and a trailing consonant.
#[tactic(auto, using(crate::proofs::syllables::HangulLemmas::compositions), unfolding(crate::specs::HangulComposition::compose_hangul, crate::specs::HangulComposition::is_lv_syllable))]
pub fn compose_hangul(first: char, second: char) -> Option<char>
    ensures { result ≡ compose_hangul first second }
{
    if is_leading_consonant(first) && is_vowel(second) {
        let leading = first as u32 - L_BASE;
        let vowel = second as u32 - V_BASE;
        char::from_u32(S_BASE + (leading * N_COUNT + vowel * T_COUNT))
    } else if is_hangul_syllable(first as u32)
        && (first as u32 - S_BASE) % T_COUNT == 0
        && is_trailing_consonant(second)
    {
        char::from_u32(first as u32 + (second as u32 - T_BASE))
    } else {
        None
    }
}

/// Returns whether a character makes a syllable with none before it.
#[tactic(auto, using(crate::proofs::syllables::HangulLemmas::never_hangul_second))]
pub fn is_never_hangul_second(second: char) -> bool
    ensures { IsTrue result ↔ ((first : ℕ) → compose_hangul first second ≡ None) }
{
    // `&`: both are two comparisons, which need no branch.
    !is_vowel(second) & !is_trailing_consonant(second)
}

#[tactic(auto, unfolding(crate::specs::HangulComposition::is_leading_consonant))]
#[inline(always)]
fn is_leading_consonant(c: char) -> bool
    ensures { result ≡ is_leading_consonant c }
{
    '\u{1100}' <= c && c <= '\u{1112}'
}

#[tactic(auto, unfolding(crate::specs::HangulComposition::is_vowel))]
#[inline(always)]
fn is_vowel(c: char) -> bool
    ensures { result ≡ is_vowel c }
{
    '\u{1161}' <= c && c <= '\u{1175}'
}

#[tactic(auto, unfolding(crate::specs::HangulComposition::is_trailing_consonant))]
#[inline(always)]
fn is_trailing_consonant(c: char) -> bool
    ensures { result ≡ is_trailing_consonant c }
{
    '\u{11A8}' <= c && c <= '\u{11C2}'
}
