ghost use Rattle.std.specs.Prelude.{◌≡◌, ◌<◌, ◌≤◌, ◌^◌, length, take, IfOk, OnOk, OnErr};
ghost use Rattle.pg_files.specs.Faults.{CountsAskFailure, CountsReadFailure, CountsSayFailure, CountsWriteFailure};
ghost use Rattle.pg_files.specs.Files.{Appends, AppendsFront, Empties, IsThere, MayEmpty, Reads, Says, SaysFront};
ghost use Rattle.pg_files.specs.Outside.{OnlyAsks, OnlyReads, OnlySays, OnlyWrites, Outside};

/// A call to the outside failed. Which kind of call it was, and of which file, the counts tell.
#[derive(Clone, Copy, Debug, PartialEq, Eq)]
pub struct Failed;

/// Files by their names, and standard output.
pub trait Files {
    /// All that the object shows: its files and what was said, where it tells them, and how often
    /// each kind of call failed.
    ghost outside: { Self → Outside };

    /// Reads a file's bytes from a place on into a buffer, and answers how many came. None at all
    /// means the file's end, where the buffer isn't empty. An absent file is a failure.
    fn read(&mut self, name: &str, at: u64, into: &mut [u8]) -> Result<usize, Failed>
        requires { at ≤ 2 ^ 33 }
        ensures within { IfOk result (λ count. count ≤ length into.old) }
        ensures bytes { Reads name.now at result into.new (outside self.old) }
        ensures faults { CountsReadFailure name.now result (outside self.old) (outside self.new) }
        ensures only { OnlyReads (outside self.old) (outside self.new) };

    /// Makes a file empty, whether it was there or not. After a failure it is as before or empty.
    fn create(&mut self, name: &str) -> Result<(), Failed>
        ensures ok { OnOk result (Empties name.now (outside self.old) (outside self.new)) }
        ensures err { OnErr result (MayEmpty name.now (outside self.old) (outside self.new)) }
        ensures faults { CountsWriteFailure name.now result (outside self.old) (outside self.new) }
        ensures only { OnlyWrites name.now (outside self.old) (outside self.new) };

    /// Adds the first bytes of a piece at a file's end, and answers how many: at least one, unless
    /// the piece is empty. An absent file counts as empty, and an empty piece changes no file.
    /// After a failure the file may have a front of the piece more.
    fn append(&mut self, name: &str, piece: &[u8]) -> Result<usize, Failed>
        ensures within { IfOk result (λ count. count ≤ length piece.now) }
        ensures some { IfOk result (λ count. 0 < length piece.now → 0 < count) }
        ensures ok { IfOk result (λ count.
            0 < length piece.now
            → Appends name.now (take count piece.now) (outside self.old) (outside self.new)) }
        ensures err { OnErr result
            (AppendsFront name.now piece.now (outside self.old) (outside self.new)) }
        ensures empty { length piece.now ≡ 0
            → (outside self.new).files ≡ (outside self.old).files }
        ensures faults { CountsWriteFailure name.now result (outside self.old) (outside self.new) }
        ensures only { OnlyWrites name.now (outside self.old) (outside self.new) };

    /// Whether a file of this name is there.
    fn there(&mut self, name: &str) -> Result<bool, Failed>
        ensures found { IsThere name.now result (outside self.old) }
        ensures faults { CountsAskFailure name.now result (outside self.old) (outside self.new) }
        ensures only { OnlyAsks (outside self.old) (outside self.new) };

    /// Says a whole text on standard output. After a failure a front of it was said.
    fn say(&mut self, text: &[u8]) -> Result<(), Failed>
        ensures ok { OnOk result (Says text.now (outside self.old) (outside self.new)) }
        ensures err { OnErr result (SaysFront text.now (outside self.old) (outside self.new)) }
        ensures faults { CountsSayFailure result (outside self.old) (outside self.new) }
        ensures only { OnlySays (outside self.old) (outside self.new) };
}
