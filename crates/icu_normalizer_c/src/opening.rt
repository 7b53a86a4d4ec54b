//! Opening and closing.
ghost use Rattle.std.specs.Prelude.{◌≡◌, List, None};
ghost use Rattle.icu_normalizer.specs.Building.{Builds};
ghost use Rattle.icu_normalizer.specs.Packed.{Packed};
ghost use Rattle.icu_normalizer.specs.RecordValue.{RecordValue, Uts46RecordValue};
ghost use Rattle.normalizer_handles.specs.Defects.{IsStatusReporting};
ghost use Rattle.normalizer_handles.specs.Handles.{held_normalizers, Shares};
ghost use Rattle.normalizer_handles.specs.Made.{AreReadBy};
ghost use Rattle.normalizer_handles.specs.Opening.{Holds, Opens};
ghost use Rattle.normalizer_handles.specs.Prepared.{AreOfFile, IsFaultOfFile};
ghost use Rattle.normalizer_prepared.specs.Prepared.{IsFileOf};
ghost use Rattle.normalizer_handles.specs.Status.{IsStatus};
ghost use Rattle.normalizer_handles.specs.declared.fault.Fault.TheVariants.{Memory};

use normalizer_handles::{Defect, Handle, open_files, open_prepared, status, status_reporting};
use std::alloc::Global;

/// Opens normalizers by the bytes of `UnicodeData.txt` and `CompositionExclusions.txt`, and their mapper by those of
/// `IdnaMappingTable.txt`, without its disallowed ranges of more than `disallowed_limit` code points. If nothing is
/// mapped, or there are no bytes, the handle has no mapper. What the handle had is closed.
///
/// # Errors
/// `Line`, `Records` or `Memory`. The handle then has what it had. `defect` says where a file is wrong, or
/// which line states the first record at fault.
#[unsafe(no_mangle)]
pub extern "C" fn icu_normalizer_open_files_nonnull(
    alloc: Global,
    handle: &mut Handle,
    unicode_data: &[u8],
    exclusions: &[u8],
    idna_table: &[u8],
    disallowed_limit: u32,
    defect: &mut Defect,
) -> u32
    ensures { IsStatusReporting result defect.old defect.new
        (Opens unicode_data.now exclusions.now idna_table.now disallowed_limit
        (held_normalizers handle.old) (held_normalizers handle.new)) }
{
    let outcome = open_files(
        alloc,
        handle,
        unicode_data,
        exclusions,
        idna_table,
        disallowed_limit,
    );
    status_reporting(outcome, defect)
}

/// Opens normalizers by the bytes of a file of prepared data, and their mapper if its data aren't the canonical ones.
/// What the handle had is closed.
///
/// # Errors
/// `Prepared`, `Unfit` or `Memory`. The handle then has what it had. `defect` says where the file is wrong, or
/// which condition its data break.
#[unsafe(no_mangle)]
pub extern "C" fn icu_normalizer_open_prepared_nonnull(
    alloc: Global,
    handle: &mut Handle,
    prepared: &[u8],
    defect: &mut Defect,
) -> u32
    ensures file { IsStatusReporting result defect.old defect.new
        (Holds (AreOfFile prepared.now) (IsFaultOfFile prepared.now)
        (held_normalizers handle.old) (held_normalizers handle.new)) }
    ensures records { (records : List RecordValue) (mapper : List Uts46RecordValue) (p : Packed) →
        Builds records mapper p → IsFileOf prepared.now p →
        IsStatus result (Holds (AreReadBy records mapper) (λ fault. fault ≡ Memory)
        (held_normalizers handle.old) (held_normalizers handle.new)) }
{
    status_reporting(open_prepared(alloc, handle, prepared), defect)
}

/// Opens `to` by the data of `from`, which both then share: nothing is read or copied. What `to` had is closed.
///
/// # Errors
/// `NotOpen` or `Memory`. `to` then has what it had.
#[unsafe(no_mangle)]
pub extern "C" fn icu_normalizer_share_nonnull(
    alloc: Global,
    from: &mut Handle,
    to: &mut Handle,
) -> u32
    ensures status { IsStatus result
        (Shares (held_normalizers from.old) (held_normalizers to.old) (held_normalizers to.new)) }
    ensures kept { held_normalizers from.new ≡ held_normalizers from.old }
{
    status(from.share(alloc, to))
}

/// Closes the handle, which then has no normalizers. The last handle over the same data frees them.
#[unsafe(no_mangle)]
pub extern "C" fn icu_normalizer_close_nonnull(alloc: Global, handle: &mut Handle)
    ensures { held_normalizers handle.new ≡ None }
{
    handle.close(alloc);
}
