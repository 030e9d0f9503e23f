//! Files that are read one after another, by their names.

ghost use Rattle.std.specs.Prelude.{◌≡◌, ℕ, ◌<◌, ◌≤◌, ◌⊎◌, Bool, false, IsTrue, List, length, Option, None, IsSome, IfSome, IsSomeAnd, OnOk, OnErr};
ghost use Rattle.std.specs.Io.{ReadsAtMost};
ghost use Rattle.std.specs.Io.KnownBytes.{ReadConsumes};
ghost use Rattle.edge_io.specs.Causes.{HasCause, Rose, counted};
ghost use Rattle.edge_io.specs.Folder.{Folder, bytes_named};

use crate::faults::Failed;

/// A source of files, of which one at a time is read.
///
/// It counts its faults: `read` fails only where this count rose in the call, and `begin` only
/// there or where the folder, so far as it is told, has no file of that name.
pub trait Files {
    // The name and the bytes of each file, where the source tells them.
    ghost told: { Self → Option Folder };

    // Whether a file is being read.
    ghost is_ready: { Self → Bool };

    // What is left of that file, where its bytes are told.
    ghost left: { Self → Option (List ℕ) };

    // How many faults there were.
    ghost faults: { Self → ℕ };

    // How many calls of `begin` there were.
    ghost begun: { Self → ℕ };

    // The count of faults as the last of them was made.
    ghost mark: { Self → ℕ };

    /// Makes the named file the one that is read, from its first byte. After a failure no file is
    /// being read.
    fn begin(&mut self, name: &[u8]) -> Result<(), Failed>
        ensures same_folder { told self.new ≡ told self.old }
        ensures next_begun { begun self.new ≡ counted (begun self.old) }
        ensures new_mark { mark self.new ≡ faults self.old }

        ensures later { faults self.old ≤ faults self.new }
        ensures kept { OnOk result (faults self.new ≡ faults self.old) }

        ensures ready { OnOk result (IsTrue (is_ready self.new)) }
        ensures found { OnOk result (IfSome (told self.old) (λ folder. IsSome (bytes_named folder name.now))) }
        ensures whole { OnOk result (IfSome (told self.old) (λ folder. left self.new ≡ bytes_named folder name.now)) }

        ensures failed { OnErr result (Rose (faults self.old) (faults self.new)
            ⊎ IsSomeAnd (told self.old) (λ folder. bytes_named folder name.now ≡ None)) }
        ensures not_ready { OnErr result (is_ready self.new ≡ false) };

    /// Puts the next bytes of the file at the front of `piece` and answers their number. 0 is the
    /// end of the file.
    fn read(&mut self, piece: &mut [u8]) -> Result<usize, Failed>
        requires room { 0 < length piece.old }
        requires is_begun { IsTrue (is_ready self.old) }
        ensures bound { ReadsAtMost result piece.new }
        ensures bytes { ReadConsumes (left self.old) (left self.new) result piece.new }
        ensures cause { HasCause (faults self.old) (faults self.new) result }

        ensures ready { IsTrue (is_ready self.new) }
        ensures same_folder { told self.new ≡ told self.old }
        ensures same_begun { begun self.new ≡ begun self.old }
        ensures same_mark { mark self.new ≡ mark self.old };
}
