//! Where bytes go.

ghost use Rattle.std.specs.Prelude.{◌≡◌, ℕ, ◌+◌, ◌<◌, ◌≤◌, [], List, Option, Ok, IfOk, OnOk, OnErr, IsOk, length, take};
ghost use Rattle.jv_model.specs.Outside.{followed_by, most_counted_calls};
ghost use Rattle.jv_outer.specs.Outside.{HasCause, GotPartOf};

use thiserror::Error;

/// Why a sink took nothing.
#[derive(Debug, Drop, Error)]
pub enum WriteError {
    /// The sink doesn't take any bytes.
    #[error("bytes could not be written")]
    Failed,
    /// There was no memory to take them.
    #[error("out of memory")]
    NoMemory,
}

/// Where bytes go, in order.
pub trait Sink {
    /// The bytes so far, where they are told.
    ghost bytes: { Self → Option (List ℕ) };

    /// How many pieces that aren't empty it was given.
    ghost writes: { Self → ℕ };

    /// How many writes have failed. It never falls, and stands still at 2^64 - 1.
    ghost faults: { Self → ℕ };

    /// Takes a first part of the piece, and answers how many bytes that is. Of a piece with bytes
    /// it takes one at least; taking nothing of it is `Failed`. An empty piece touches nothing, and
    /// can't fail.
    fn write(&mut self, piece: &[u8]) -> Result<usize, WriteError>
        ensures part { IfOk result (λ taken. taken ≤ length piece.now) }
        ensures some { IfOk result (λ taken. 0 < length piece.now → 0 < taken) }
        ensures taken { IfOk result (λ taken.
            bytes self.new ≡ followed_by (bytes self.old) (take taken piece.now)) }
        ensures none { OnErr result (bytes self.new ≡ bytes self.old) }
        ensures writes { 0 < length piece.now → writes self.new ≡ writes self.old + 1 }
        ensures empty { piece.now ≡ [] → (result ≡ Ok 0) × (writes self.new ≡ writes self.old) }
        ensures cause { HasCause WriteError.Failed WriteError.NoMemory
            (faults self.old) (faults self.new) result }
        ensures bound { faults self.new ≤ most_counted_calls };
}

/// Writes a whole text, a piece after the other. After an `Err` the sink got a part of it.
pub fn write_all<S: Sink>(sink: &mut S, text: &[u8]) -> Result<(), WriteError>
    ensures whole { OnOk result (S.bytes sink.new ≡ followed_by (S.bytes sink.old) text.now) }
    ensures part { OnErr result (GotPartOf text.now (S.bytes sink.old) (S.bytes sink.new)) }
    ensures empty { text.now ≡ [] → IsOk result × (S.writes sink.new ≡ S.writes sink.old) }
    ensures given { OnOk result (0 < length text.now → S.writes sink.old < S.writes sink.new) }
    ensures cause { HasCause WriteError.Failed WriteError.NoMemory
        (S.faults sink.old) (S.faults sink.new) result }
{
    let mut written = 0;
    while written < text.len() {
        let (_, rest) = text.split_at(written);
        written += sink.write(rest)?;
    }
    Ok(())
}
