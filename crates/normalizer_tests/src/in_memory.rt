//! The program over files in memory.
use icu_normalizer::NormalForm;
use normalizer_command::command::{Command, Task};
use normalizer_command::memory::{NamedFile, run_in_memory};
use normalizer_streams::ErrorMode;
use std::alloc::Global;

/// Two lines of Unicode's files, and a text.
const FILES: [NamedFile<'static>; 3] = [
    NamedFile {
        name: "d/UnicodeData.txt",
        bytes: b"00E4;;;0;;0061 0308;;;;;;;;;\n0308;;;230;;;;;;;;;;;\n# EOF\n",
    },
    NamedFile {
        name: "d/CompositionExclusions.txt",
        bytes: b"# EOF\n",
    },
    NamedFile {
        name: "a",
        bytes: b"a\xCC\x88",
    },
];

fn is_composed(alloc: Global) -> bool {
    let nfc = Command::OfForm(Task::Write, ErrorMode::Replacement, NormalForm::Nfc);
    match run_in_memory(alloc, nfc, "d", &["a"], &FILES) {
        Ok(outcome) => outcome.output.as_slice() == b"\xC3\xA4".as_slice()
            && outcome.reports.is_empty()
            && outcome.status == 0,
        Err(_) => false,
    }
}

#[test]
fn a_file_in_memory_is_composed(rt: HostRuntime) {
    assert!(rt; is_composed(rt.alloc()));
}
