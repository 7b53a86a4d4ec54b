//! Words that point to a list in a table.
#![tactic(auto, using(crate::proofs::lists::StoreLemmas::narrow_length), unfolding(crate::specs::Stored::pointing_word, crate::specs::Stored::low_length, crate::specs::Stored::HasLengthOfWord, crate::specs::Stored::has_marks_after_first))]

ghost use Rattle.std.specs.Prelude.{◌≡◌, ◌<◌, ◌^◌, nat_lt};
ghost use Rattle.std.specs.List.{list_all};
ghost use Rattle.normalizer_tables.specs.conditions.Conditions.{item_limit};
ghost use Rattle.normalizer_tables.specs.Entries.{class_in};
ghost use Rattle.normalizer_packing.specs.Stored.{HasLengthOfWord, has_marks_after_first, low_length, pointing_word};

use crate::entries::{Entries, class_of};
use crate::store::is_narrow;

/// The word, without its flags, that points to a list at an item.
pub fn pointing_word(entries: &Entries<'_>, list: &[char], item: u32) -> u32
    requires within { item < item_limit }
    requires length { HasLengthOfWord list.now }
    ensures word { result ≡ pointing_word (class_in entries.now) list.now item }
    ensures room { result < 2 ^ 30 }
{
    let length = low_length(list);
    if has_marks_after_first(entries, list) {
        (item + 1) * 0x10000 + (0x10 + length)
    } else {
        (item + 1) * 0x10000 + length
    }
}

/// The low bits of a list's length: beyond the least that its table has.
fn low_length(list: &[char]) -> u32
    requires { HasLengthOfWord list.now }
    ensures length { result ≡ low_length list.now }
    ensures bound { result < 16 }
{
    if is_narrow(list) {
        (list.len() - 2) as u32
    } else {
        (list.len() - 1) as u32
    }
}

/// Whether all members after the first are marks, and there are some.
fn has_marks_after_first(entries: &Entries<'_>, list: &[char]) -> bool
    ensures { result ≡ has_marks_after_first (class_in entries.now) list.now }
{
    2 <= list.len() && are_marks(entries, &list[1..])
}

fn are_marks(entries: &Entries<'_>, list: &[char]) -> bool
    ensures { result ≡ list_all (λ c. nat_lt 0 (class_in entries.now c)) list.now }
{
    list.iter().all(|member| 0 < class_of(entries, *member))
}
