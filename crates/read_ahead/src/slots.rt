//! The windows of a disk, one for each file.
ghost use Rattle.std.specs.Prelude.{◌≡◌, ◌^◌, ◌≤◌, Contains, length, All, IfSome, OnOk, OnErr};
ghost use Rattle.sf_disk.specs.Moments.{Moment};
ghost use Rattle.read_ahead.specs.Windows.{Covers, Shows};

use crate::window::Window;
use crate::within::{LEAST, covers, width_behind};
use proto_wire::Mem;

/// A window that has so many bytes of a file from `at` on.
pub(crate) fn covering(windows: &[Window], file: u32, at: u64, len: u64) -> Option<&Window>
    ensures one { IfSome result (λ window. Contains windows.now window.now) }
    ensures covers { IfSome result (λ window. Covers window.now file at len) }
{
    for window in windows {
        if covers(window, file, at, len) {
            return Some(window);
        }
    }
    None
}

/// The place of a file's window, or behind the last one where it has none.
pub(crate) fn slot_of(windows: &[Window], file: u32) -> usize
    ensures { result ≤ length windows.now }
{
    let mut slot = 0;
    for window in windows {
        if window.file == file {
            return slot;
        }
        slot += 1;
    }
    slot
}

/// How many bytes of a file to read at once where `len` of them are wanted from `at` on.
pub(crate) fn width_from(windows: &[Window], file: u32, at: u64, len: u64) -> u64
    ensures { result ≤ 2 ^ 20 }
{
    match windows.get(slot_of(windows, file)) {
        Some(window) => width_behind(window, at, len),
        None => LEAST,
    }
}

/// Keeps a window in place of that of the same file.
pub(crate) fn keep(windows: &mut Vec<Window>, window: Window) -> Mem<()>
    ensures ok { OnOk result ((now : Moment) → Shows now window → All (Shows now) windows.old.items → All (Shows now) windows.new.items) }
    ensures err { OnErr result (windows.new.items ≡ windows.old.items) }
{
    let slot = slot_of(windows.as_slice(), window.file);
    if slot < windows.len() {
        windows[slot] = window;
    } else {
        windows.push(window)?;
    }
    Ok(())
}
