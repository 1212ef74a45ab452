//! What a window has, and what is read behind it.
ghost use Rattle.std.specs.Prelude.{◌≡◌, ◌+◌, ◌^◌, ◌≤◌, length, take, drop, true};
ghost use Rattle.read_ahead.specs.Windows.{Covers};

use crate::window::Window;

/// How many bytes are read at once at first.
pub(crate) const LEAST: u64 = 1 << 12;

/// And at most.
const MOST: u64 = 1 << 20;

/// Reads of more bytes are not made through windows, and a window is not widened over a greater gap.
const NEAR: u64 = 1 << 16;

/// How many bytes to read at once where `len` of them are wanted from `at` on: twice as many as the window has, or as
/// are wanted, where they begin in it or close behind.
pub(crate) fn width_behind(window: &Window, at: u64, len: u64) -> u64
    ensures { result ≤ 2 ^ 20 }
{
    let held = window.bytes.len() as u64;
    if len > NEAR || at < window.at || at - window.at > held + NEAR {
        return LEAST;
    }
    (2 * held.max(len)).max(LEAST).min(MOST)
}

/// Whether so many bytes of a file from `at` on are among those of a window.
pub(crate) fn covers(window: &Window, file: u32, at: u64, len: u64) -> bool
    ensures { result ≡ true → Covers window.now file at len }
{
    if window.file != file || at < window.at {
        return false;
    }
    let skipped = at - window.at;
    let held = window.bytes.len() as u64;
    skipped <= held && len <= held - skipped
}

/// Copies the bytes from an offset on, as many as `into` has room for.
pub(crate) fn copy_from(bytes: &[u8], skipped: usize, into: &mut [u8])
    requires { skipped + length into.old ≤ length bytes.now }
    ensures { into.new ≡ take (length into.old) (drop skipped bytes.now) }
{
    let (_, behind) = bytes.split_at(skipped);
    let (front, _) = behind.split_at(into.len());
    into.copy_from_slice(front);
}
