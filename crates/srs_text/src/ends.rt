// The ends of a program: where its bytes come from and where they go.
ghost use Rattle.std.specs.Prelude.{◌≡◌, ◌<◌, ◌≤◌, List, ℕ, length, IfOk};
ghost use Rattle.std.specs.declared.option.Option.{Option};
ghost use Rattle.std.specs.Io.{ReadsAtMost};
ghost use Rattle.std.specs.Io.KnownBytes.{ReadConsumes, WriteAppends};
ghost use Rattle.srs_text.specs.Ends.{HasCause, IsSomeOf};

/// A read or a write failed.
#[derive(Clone, Copy, Debug, PartialEq, Eq)]
pub struct Failed;

/// Where bytes come from.
pub trait Source {
    /// The bytes still to come, where they are known.
    ghost left: { Self → Option (List ℕ) };

    /// How often this source has failed.
    ghost faults: { Self → ℕ };

    /// Takes some of the bytes that are left: none only at the end.
    fn read(&mut self, into: &mut [u8]) -> Result<usize, Failed>
        requires { 0 < length into.old }
        ensures bound { ReadsAtMost result into.new }
        ensures bytes { ReadConsumes (left self.old) (left self.new) result into.new }
        ensures cause { HasCause (faults self.old) (faults self.new) result };
}

/// Where bytes go.
pub trait Sink {
    /// The bytes taken so far, where they are known.
    ghost got: { Self → Option (List ℕ) };

    /// How often this sink has failed.
    ghost faults: { Self → ℕ };

    /// Takes some bytes of the piece, from its front: at least one.
    fn write(&mut self, piece: &[u8]) -> Result<usize, Failed>
        requires { 0 < length piece.now }
        ensures count { IfOk result (IsSomeOf piece.now) }
        ensures bytes { WriteAppends (got self.old) (got self.new) result piece.now }
        ensures cause { HasCause (faults self.old) (faults self.new) result };
}
