//! Handles opened, shared and closed: `.ci/frees` counts what each test allocates and frees.

use crate::handle::Handle;
use crate::opening::open_files;
use std::alloc::Global;

const UNICODE_DATA: &[u8] = b"00E4;;;0;;0061 0308;;;;;;;;;\n0308;;;230;;;;;;;;;;;\n# EOF\n";

const EXCLUSIONS: &[u8] = b"# EOF\n";

/// Opens a handle, if the data aren't cut off.
fn is_opened(alloc: Global, handle: &mut Handle, unicode_data: &[u8]) -> bool {
    open_files(alloc, handle, unicode_data, EXCLUSIONS, &[], 0).is_ok()
}

/// Opens a handle twice, then fails to, and closes it twice.
fn is_opened_twice(alloc: Global) -> bool {
    let mut handle = Handle::closed(alloc);
    handle.close(alloc);
    let done = is_opened(alloc, &mut handle, UNICODE_DATA)
        && is_opened(alloc, &mut handle, UNICODE_DATA)
        && !is_opened(alloc, &mut handle, &[]);
    handle.close(alloc);
    handle.close(alloc);
    done && !is_opened(alloc, &mut handle, &[])
}

/// Shares the data of a handle with one that is closed, one that is open, and one that has them, and opens one again.
fn is_shared(alloc: Global) -> bool {
    let mut first = Handle::closed(alloc);
    let mut second = Handle::closed(alloc);
    let mut third = Handle::closed(alloc);
    let done = first.share(alloc, &mut second).is_err()
        && is_opened(alloc, &mut first, UNICODE_DATA)
        && is_opened(alloc, &mut third, UNICODE_DATA)
        && first.share(alloc, &mut second).is_ok()
        && second.share(alloc, &mut third).is_ok()
        && third.share(alloc, &mut second).is_ok()
        && is_opened(alloc, &mut second, UNICODE_DATA);
    first.close(alloc);
    third.close(alloc);
    second.close(alloc);
    done
}

/// Takes what a handle has, and puts it back in place of what was opened meanwhile.
fn is_taken_and_put_back(alloc: Global) -> bool {
    let mut handle = Handle::closed(alloc);
    let mut other = Handle::closed(alloc);
    let opened = is_opened(alloc, &mut handle, UNICODE_DATA);
    let Ok(owner) = handle.take(alloc) else {
        return false;
    };
    let is_closed = handle.share(alloc, &mut other).is_err();
    let again = is_opened(alloc, &mut handle, UNICODE_DATA);
    handle.put(owner);
    handle.close(alloc);
    opened && is_closed && again
}

#[test]
fn a_handle_opened_twice_frees_all(rt: HostRuntime) {
    assert!(rt; is_opened_twice(rt.alloc()));
}

#[test]
fn shared_handles_free_all(rt: HostRuntime) {
    assert!(rt; is_shared(rt.alloc()));
}

#[test]
fn what_is_put_back_frees_what_was_there(rt: HostRuntime) {
    assert!(rt; is_taken_and_put_back(rt.alloc()));
}
