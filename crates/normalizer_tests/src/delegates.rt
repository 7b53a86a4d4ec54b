//! How often a delegate is called, and ended iterators, over the record set `rows`.
use crate::over_rows::{nfc, nfd};
use std::alloc::Global;
use std::cell::Cell;

/// It counts how often it is called, and may go on after `None`.
#[derive(Drop)]
struct Asked<'a> {
    answers: &'a [Option<char>],
    next: usize,
    count: &'a Cell<usize>,
}

impl<'a> Iterator for Asked<'a> {
    ghost use Rattle.std.specs.Prelude.{length, ◌-◌};
    ghost use Rattle.std.specs.Iterator.{at_most};

    type Item = char;

    ghost remaining = { λ s. at_most (length s.answers.now - s.next) };

    fn next(&mut self) -> Option<char> {
        self.count.set(self.count.get().wrapping_add(1));
        if self.next < self.answers.len() {
            let answer = self.answers[self.next];
            self.next += 1;
            answer
        } else {
            None
        }
    }
}

/// An item, U+0000 for a fault, and how often the delegate was called up to it.
type Step = (Option<char>, usize);

/// Whether an iterator takes these steps: how often the delegate was called when it was made, and each item.
macro_rules! takes_steps {
    ($normalizer:expr, $answers:expr, $steps:expr) => {{
        let count = Cell::new(0);
        let asked = Asked {
            answers: $answers,
            next: 0,
            count: &count,
        };
        match $normalizer.normalize_iter(asked) {
            Ok(mut items) => {
                let mut are_right = true;
                for place in 0..$steps.len() {
                    let item = if place == 0 { None } else { items.next() };
                    let step = (item.map(|item| item.unwrap_or('\0')), count.get());
                    are_right = are_right && step == $steps[place];
                }
                are_right
            }
            Err(_) => false,
        }
    }};
}

fn is_decomposed_by(alloc: Global, answers: &[Option<char>], steps: &[Step]) -> bool {
    match nfd(alloc) {
        Some(normalizer) => takes_steps!(normalizer.as_borrowed(), answers, steps),
        None => false,
    }
}

fn is_composed_by(alloc: Global, answers: &[Option<char>], steps: &[Step]) -> bool {
    match nfc(alloc) {
        Some(normalizer) => takes_steps!(normalizer.as_borrowed(), answers, steps),
        None => false,
    }
}

const TWO_MARKS: [Option<char>; 5] = [
    Some('a'),
    Some('\u{308}'),
    Some('\u{323}'),
    Some('b'),
    Some('c'),
];

/// Up to the first starter at first, then up to the next one, and not again after the end.
const TWO_MARKS_DECOMPOSED: [Step; 8] = [
    (None, 1),
    (Some('a'), 4),
    (Some('\u{323}'), 4),
    (Some('\u{308}'), 4),
    (Some('b'), 5),
    (Some('c'), 6),
    (None, 6),
    (None, 6),
];

#[test]
fn a_starter_waits_for_its_marks(rt: HostRuntime) {
    assert!(rt; is_decomposed_by(rt.alloc(), &TWO_MARKS, &TWO_MARKS_DECOMPOSED));
}

const BROKEN_OFF: [Option<char>; 3] = [Some('a'), None, Some('b')];

const UP_TO_THE_END: [Step; 4] = [(None, 1), (Some('a'), 2), (None, 2), (None, 2)];

#[test]
fn a_delegate_is_not_asked_after_its_end(rt: HostRuntime) {
    assert!(rt; is_decomposed_by(rt.alloc(), &BROKEN_OFF, &UP_TO_THE_END));
    assert!(rt; is_composed_by(rt.alloc(), &BROKEN_OFF, &UP_TO_THE_END));
}

const JOINED: [Option<char>; 2] = [Some('a'), Some('\u{308}')];

const AFTER_JOINED: [Step; 4] = [(None, 1), (Some('\u{E4}'), 3), (None, 3), (None, 3)];

#[test]
fn an_ended_composition_stays_ended(rt: HostRuntime) {
    assert!(rt; is_composed_by(rt.alloc(), &JOINED, &AFTER_JOINED));
}
