//! What is printed of the program and of its commands.

/// What the program does, its commands and its options, on one screen.
pub(crate) const HELP: &str = "\
Writes, checks and compares normal forms of text in UTF-8 (Unicode Standard\n\
Annex #15).\n\
\n  \
uninorm nfc|nfd|nfkc|nfkd [FILE]...  write that form\n  \
uninorm check FORM [FILE]...         list the files that aren't in the form\n  \
uninorm where FORM [FILE]...         list the first mismatch of each file\n  \
uninorm map [FILE]...                write the lines, mapped by UTS #46\n  \
uninorm validate [FILE]...           list the lines that aren't valid by it\n  \
uninorm prepare                      write the data as one file\n\
\n      \
--strict      a file fails at its first ill-formed sequence\n  \
-i, --in-place    replace each file by its form (nfc, nfd, nfkc, nfkd)\n  \
-l, --name-only   list names (where, validate)\n  \
-q, --quiet       list nothing (check, where, validate): the status says it\n  \
-0, --null        end names with NUL, for xargs -0 (check, and with -l)\n      \
--data PATH   the data: a file, or a directory of Unicode's files\n  \
-V, --version     print the versions of the program and of the data\n  \
-h, --help        print this; after a command, what there is to say of it\n\
\n\
A form may be named in any case. - is standard input, as is no FILE. The status\n\
is 1 if something is listed or was replaced, and 2 if something failed.\n";

const FORM: &str = "\
uninorm nfc|nfd|nfkc|nfkd [--strict] [--data PATH] [FILE]...\n\
uninorm nfc|nfd|nfkc|nfkd -i [--strict] [--data PATH] FILE...\n\
\n\
Writes that form of each file, one after another, while it is read. Each\n\
ill-formed sequence is written as U+FFFD, and a line on standard error says how\n\
many a file had: then the status is 1. With --strict a file ends before the\n\
first one, which is reported as FILE:LINE:BYTE, and the status is 2.\n\
\n\
With -i a new file takes the place of each one that isn't in the form, with its\n\
mode, once it is whole. A file that is in the form, or fails, stays as it is.\n\
\n\
Examples:\n  \
uninorm nfc old.txt >new.txt\n  \
git ls-files -z '*.txt' | xargs -0r uninorm nfc -i --strict\n";

const CHECK: &str = "\
uninorm check FORM [-q] [-0] [--strict] [--data PATH] [FILE]...\n\
\n\
Lists the names of the files that aren't in the form, or aren't well-formed. A\n\
file is read up to its first mismatch. With --strict an ill-formed sequence\n\
before that fails, as FILE:LINE:BYTE.\n\
\n\
Examples:\n  \
git ls-files -z | xargs -0r uninorm check nfc\n  \
find . -name '*.txt' -exec uninorm check -0 NFC {} + | xargs -0r ls -l\n";

const WHERE: &str = "\
uninorm where FORM [-l] [-q] [-0] [--strict] [--data PATH] [FILE]...\n\
\n\
Lists the first mismatch of each file that isn't in the form:\n\
\n  \
FILE:LINE:BYTE: found U+0061, wanted U+00E4\n  \
FILE:LINE:BYTE: ill-formed UTF-8\n\
\n\
Lines, and bytes in a line, count from 1. With --strict an ill-formed sequence\n\
that comes first fails.\n";

const MAP: &str = "\
uninorm map [--strict] [--data PATH] [FILE]...\n\
\n\
Writes the lines, each mapped by Unicode Technical Standard #46 and in NFC:\n\
ignored characters are dropped, and disallowed ones become U+FFFD. Ill-formed\n\
sequences are treated as by nfc. A line feed isn't mapped.\n";

const VALIDATE: &str = "\
uninorm validate [-l] [-q] [-0] [--strict] [--data PATH] [FILE]...\n\
\n\
Lists FILE:LINE: invalid for each line that mapping changes, or that has an\n\
ignored or disallowed character or U+FFFD. With -l or -q a file is read up to\n\
its first one. Punycode, STD3 rules, hyphens, joiners and bidi aren't checked.\n";

const PREPARE: &str = "\
uninorm prepare [--data DIRECTORY] >FILE\n\
\n\
Writes the data of Unicode's files in a directory as one file, for --data and\n\
for C: UnicodeData.txt, CompositionExclusions.txt and, if it is there,\n\
IdnaMappingTable.txt, which map and validate need.\n";

/// What there is to say of a command.
pub(crate) fn help_of(word: &str) -> Option<&'static str> {
    match word {
        "check" => Some(CHECK),
        "where" => Some(WHERE),
        "map" => Some(MAP),
        "validate" => Some(VALIDATE),
        "prepare" => Some(PREPARE),
        _
            if ["nfc", "nfd", "nfkc", "nfkd"]
                .iter()
                .any(|form| word.eq_ignore_ascii_case(form)) => { Some(FORM) }
        _ => None,
    }
}
