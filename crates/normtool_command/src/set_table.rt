//! The table of the set, by characters.
use crate::row::Kind::{Canonical, Compatibility, Excluded, Unmapped};
use crate::row::Treatment::{Disallowed, Ignored, Mapped};
use crate::row::{MapperRow, Row};

/// Characters with their classes and mappings.
pub const ROWS: [Row; 45] = [
    ('\u{00C4}', 0, &['\u{0041}', '\u{0308}'], Canonical),
    ('\u{00C5}', 0, &['\u{0041}', '\u{030A}'], Canonical),
    ('\u{00E4}', 0, &['\u{0061}', '\u{0308}'], Canonical),
    ('\u{00E5}', 0, &['\u{0061}', '\u{030A}'], Canonical),
    ('\u{00EA}', 0, &['\u{0065}', '\u{0302}'], Canonical),
    ('\u{0300}', 230, &[], Unmapped),
    ('\u{0301}', 230, &[], Unmapped),
    ('\u{0302}', 230, &[], Unmapped),
    ('\u{0304}', 230, &[], Unmapped),
    ('\u{0308}', 230, &[], Unmapped),
    ('\u{030A}', 230, &[], Unmapped),
    ('\u{0313}', 230, &[], Unmapped),
    ('\u{0323}', 220, &[], Unmapped),
    ('\u{0327}', 202, &[], Unmapped),
    ('\u{0340}', 230, &['\u{0300}'], Canonical),
    ('\u{0341}', 230, &['\u{0301}'], Canonical),
    ('\u{0343}', 230, &['\u{0313}'], Canonical),
    ('\u{0344}', 230, &['\u{0308}', '\u{0301}'], Canonical),
    ('\u{03AC}', 0, &['\u{03B1}', '\u{0301}'], Canonical),
    ('\u{094D}', 9, &[], Unmapped),
    ('\u{09CB}', 0, &['\u{09C7}', '\u{09BE}'], Canonical),
    ('\u{0F71}', 129, &[], Unmapped),
    ('\u{0F72}', 130, &[], Unmapped),
    ('\u{0F73}', 0, &['\u{0F71}', '\u{0F72}'], Canonical),
    ('\u{0F74}', 132, &[], Unmapped),
    ('\u{0F75}', 0, &['\u{0F71}', '\u{0F74}'], Canonical),
    ('\u{0F80}', 130, &[], Unmapped),
    ('\u{0F81}', 0, &['\u{0F71}', '\u{0F80}'], Canonical),
    ('\u{1EB9}', 0, &['\u{0065}', '\u{0323}'], Canonical),
    ('\u{1EC7}', 0, &['\u{1EB9}', '\u{0302}'], Canonical),
    ('\u{1F71}', 0, &['\u{03AC}'], Canonical),
    ('\u{2126}', 0, &['\u{03A9}'], Canonical),
    ('\u{212B}', 0, &['\u{00C5}'], Canonical),
    ('\u{3099}', 8, &[], Unmapped),
    ('\u{309A}', 8, &[], Unmapped),
    ('\u{30D9}', 0, &['\u{30D8}', '\u{3099}'], Canonical),
    ('\u{30DA}', 0, &['\u{30D8}', '\u{309A}'], Canonical),
    (
        '\u{320E}',
        0,
        &['\u{0028}', '\u{1100}', '\u{1161}', '\u{0029}'],
        Compatibility,
    ),
    ('\u{FB01}', 0, &['\u{0066}', '\u{0069}'], Compatibility),
    ('\u{FDFA}', 0, &FDFA, Compatibility),
    ('\u{FF8D}', 0, &['\u{30D8}'], Compatibility),
    ('\u{FF9E}', 0, &['\u{3099}'], Compatibility),
    ('\u{FF9F}', 0, &['\u{309A}'], Compatibility),
    ('\u{1D15E}', 0, &['\u{1D157}', '\u{1D165}'], Excluded),
    ('\u{1D165}', 216, &[], Unmapped),
];

/// The compatibility mapping of U+FDFA.
const FDFA: [char; 18] = [
    '\u{0635}', '\u{0644}', '\u{0649}', '\u{0020}', '\u{0627}', '\u{0644}', '\u{0644}', '\u{0647}',
    '\u{0020}', '\u{0639}', '\u{0644}', '\u{064A}', '\u{0647}', '\u{0020}', '\u{0648}', '\u{0633}',
    '\u{0644}', '\u{0645}',
];

/// Characters with what the mapper maps them to, or does with them.
pub const MAPPER_ROWS: [MapperRow; 8] = [
    ('\u{0041}', &['\u{0061}'], Mapped),
    ('\u{00C4}', &['\u{00E4}'], Mapped),
    ('\u{00C5}', &['\u{00E5}'], Mapped),
    ('\u{0345}', &['\u{03B9}'], Mapped),
    ('\u{061C}', &[], Disallowed),
    ('\u{180B}', &[], Ignored),
    ('\u{212B}', &['\u{00E5}'], Mapped),
    ('\u{FB01}', &['\u{0066}', '\u{0069}'], Mapped),
];
