//! How the bytes of a file are taken, some at a time, and a piece of it that is fed.
ghost use Rattle.std.specs.Prelude.{◌≤◌, ◌<◌, length, take, [], false, Ok};
ghost use Rattle.jpg_base.specs.Intake.{IntakeKind, ChecksRoom, IsOpen, TakesSome, FeedsPiece, IsWithinLimit};

use crate::{Fed, Stop};

/// How a state takes the bytes of a file, some at a time, up to a limit. Results go to `out`. After a stop, and once
/// the file is complete, nothing more is given to it.
pub trait Intake<S, O> {
    /// What the states mean.
    ghost kind: { Self → IntakeKind S O };

    /// InputTooLong, if as many bytes were taken as may be.
    fn check_room(&self, state: &S) -> Result<(), Stop>
        ensures { ChecksRoom (kind self.now) state.now result };

    /// Takes bytes from the start of these, at least one, and none after one that completes the file or reveals a
    /// fault. Returns how many they were, and whether the file is complete with the last one, or why it stops there.
    fn take_some(&self, bytes: &[u8], state: &mut S, out: &mut O) -> (usize, Result<bool, Stop>)
        requires open { IsOpen (kind self.now) (state.old, out.old) }
        requires room { (kind self.now).taken state.old < (kind self.now).most state.old }
        requires some { 1 ≤ length bytes.now }
        ensures some { (1 ≤ result.0) × (result.0 ≤ length bytes.now) }
        ensures takes { TakesSome (kind self.now) (state.old, out.old) (take result.0 bytes.now) result.1 (state.new, out.new) };
}

/// InputTooLong, if as many bytes were taken as may be.
#[inline]
pub fn check_limit(taken: u64, most: u64) -> Result<(), Stop>
    ensures { IsWithinLimit taken most result }
{
    if taken >= most {
        return Err(Stop::too_long(most));
    }
    Ok(())
}

/// Gives the bytes of a piece to a state, up to the one that completes the file. Returns Done with that one, and how
/// many bytes were used; otherwise the stop of these bytes; otherwise More, and a further byte may be taken then.
pub fn feed_piece<S, O, I: Intake<S, O>>(
    intake: &I,
    piece: &[u8],
    state: &mut S,
    out: &mut O,
) -> Result<Fed, Stop>
    requires { (I.kind intake.now).after (state.old, out.old) [] (Ok false) (state.old, out.old) }
    ensures { FeedsPiece (I.kind intake.now) (state.old, out.old) piece.now result (state.new, out.new) }
{
    let mut used = 0usize;
    while used < piece.len() {
        intake.check_room(state)?;
        let (n, whole) = intake.take_some(&piece[used..], state, out);
        used += n;
        if whole? {
            return Ok(Fed::Done { used: used as u64 });
        }
    }
    intake.check_room(state)?;
    Ok(Fed::More)
}
