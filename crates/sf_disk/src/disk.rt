//! Disks.
ghost use Rattle.std.specs.Prelude.{◌≡◌, ◌+◌, ◌^◌, ◌≤◌, ℕ, List, length, take, drop, IfOk, OnOk};
ghost use Rattle.sf_outside.specs.Told.{HasCause};
ghost use Rattle.sf_disk.specs.Images.{Torn, Shortened, Same, Follows, Done, Synced, patched};
ghost use Rattle.sf_disk.specs.Moments.{WhereTold, Since, Becomes, InFile};

use sf_outside::Fault;

/// No file is longer.
pub(crate) const LONGEST: u64 = 1 << 62;

/// Numbered files, of which a file that was never written is empty.
///
/// A call that answers a fault may have done any part of its work. What a disk tells is a list of moments, each with
/// what a read gives of each file and with what a crash may leave of it; a disk that tells nothing has none. The
/// premises on lengths are asked where lengths are told.
pub trait Disk {
    ghost use Rattle.sf_disk.specs.Moments.{Moment};

    /// The moments so far, the newest of them first.
    ghost moments: { Self → List Moment };

    /// How often a call has failed. It never falls.
    ghost faults: { Self → ℕ };

    /// The length of a file in bytes, which is at most 2^62.
    fn len(&mut self, file: u32) -> Result<u64, Fault>
        ensures len { IfOk result (λ n. WhereTold (moments self.old) (λ now. n ≡ length (now file).seen)) }
        ensures bound { IfOk result (λ n. n ≤ 2 ^ 62) }
        ensures same { moments self.new ≡ moments self.old }
        ensures cause { HasCause (faults self.old) (faults self.new) result };

    /// Reads the bytes of a file from `at` on, as many as `into` has room for.
    fn read(&mut self, file: u32, at: u64, into: &mut [u8]) -> Result<(), Fault>
        requires { WhereTold (moments self.old) (λ now. at + length into.old ≤ length (now file).seen) }
        ensures read { OnOk result (WhereTold (moments self.old) (λ now. into.new ≡ take (length into.old) (drop at (now file).seen))) }
        ensures same { moments self.new ≡ moments self.old }
        ensures cause { HasCause (faults self.old) (faults self.new) result };

    /// Writes bytes into a file from `at` on. Until the next sync a crash may keep any part of them. A write that
    /// would make the file longer than 2^62 bytes fails.
    fn write_at(&mut self, file: u32, at: u64, bytes: &[u8]) -> Result<(), Fault>
        requires { WhereTold (moments self.old) (λ now. at ≤ length (now file).seen) }
        ensures wrote { OnOk result (Becomes (moments self.old) (moments self.new) (InFile file (Done (Torn at (length bytes.now)) (λ old. patched old at bytes.now)))) }
        ensures bound { OnOk result (at + length bytes.now ≤ 2 ^ 62) }
        ensures meanwhile { Since (moments self.old) (moments self.new) (InFile file (Follows (Torn at (length bytes.now)))) }
        ensures cause { HasCause (faults self.old) (faults self.new) result };

    /// Cuts a file to a length in bytes. Until the next sync a crash may leave any length between.
    fn cut(&mut self, file: u32, len: u64) -> Result<(), Fault>
        requires { WhereTold (moments self.old) (λ now. len ≤ length (now file).seen) }
        ensures shortened { OnOk result (Becomes (moments self.old) (moments self.new) (InFile file (Done (Shortened len) (take len)))) }
        ensures meanwhile { Since (moments self.old) (moments self.new) (InFile file (Follows (Shortened len))) }
        ensures cause { HasCause (faults self.old) (faults self.new) result };

    /// Syncs a file: from then on a crash leaves what a read gives.
    fn sync(&mut self, file: u32) -> Result<(), Fault>
        ensures synced { OnOk result (Becomes (moments self.old) (moments self.new) (InFile file Synced)) }
        ensures meanwhile { Since (moments self.old) (moments self.new) (InFile file (Follows Same)) }
        ensures cause { HasCause (faults self.old) (faults self.new) result };
}
