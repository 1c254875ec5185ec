//! Files by name.

ghost use Rattle.std.specs.Prelude.{ℕ, Option, Some, None, ◌≡◌, IfOk, OnOk, OnErr, IfSome, MatchOption, is_some};
ghost use Rattle.std.specs.FinMap as map;
ghost use Rattle.voice_outside.specs.Files.{Files, SameElsewhere};
ghost use Rattle.voice_outside.specs.Causes.{HasCause};

use crate::errors::OutsideError;
use voice_units::Name;

/// A shelf of files. What it does not tell of them no clause speaks of.
pub trait Shelf {
    /// The files, where it tells them.
    ghost files: { Self → Option Files };

    /// How often it has failed.
    ghost faults: { Self → ℕ };

    /// The bytes of the file of that name, `None` where there is none. Refused or not, it leaves the files as they are.
    fn get(&mut self, name: &Name) -> Result<Option<Vec<u8>>, OutsideError>
        ensures told { IfSome (files self.old) (λ m. IfOk result (λ found.
            MatchOption found (map.get m name.now ≡ None) (λ v. map.get m name.now ≡ Some v.items))) }
        ensures kept { files self.new ≡ files self.old }
        ensures cause { HasCause (faults self.old) (faults self.new) result };

    /// Sets the file of that name and no other. After an error what the file of that name holds is open, and no other file changed.
    fn put(&mut self, name: &Name, bytes: &[u8]) -> Result<(), OutsideError>
        ensures told { IfSome (files self.old) (λ m. OnOk result (files self.new ≡ Some (map.insert m name.now bytes.now))) }
        ensures err { IfSome (files self.old) (λ m. OnErr result (IfSome (files self.new) (SameElsewhere name.now m))) }
        ensures tells { is_some (files self.new) ≡ is_some (files self.old) }
        ensures cause { HasCause (faults self.old) (faults self.new) result };
}
