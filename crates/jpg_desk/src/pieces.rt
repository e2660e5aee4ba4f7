//! An input that is read to its end, piece by piece, and fed to what takes it.
ghost use Rattle.std.specs.Prelude.{◌≡◌, ◌<◌, true, length};
ghost use Rattle.jpg_desk.specs.Pump.{CanEnd, CanFeed, CanPump, Ends, FedKind, Feeds, Pumps, ended_as, why_stopped};

use crate::file::read_within;
use crate::picture::done_as;
use jpg_base::{Desk, Got, Stop};
use jpg_spec_words::{Which, Why};

/// What takes an input piece by piece; it may write to the desk meanwhile, and doesn't read from it. Once it has ended
/// nothing more is given to it.
pub trait PieceSink<D: Desk> {
    /// What its states mean.
    ghost kind: { FedKind Self };

    /// How many bytes may be fed to it in all.
    fn most(&self) -> u64
        ensures { result ≡ kind.most self.now };

    /// Takes a piece of at most 16,384 bytes. Returns whether no more is taken, or why the reading ends.
    fn feed(&mut self, piece: &[u8], desk: &mut D) -> Result<bool, Why>
        requires { CanFeed kind piece.now (self.old, D.state desk.old) }
        ensures fed { Feeds kind piece.now (self.old, D.state desk.old) result (self.new, D.state desk.new) }
        ensures most { kind.most self.new ≡ kind.most self.old };

    /// The input ends here. If it ended early, returns after how many bytes.
    fn end(&mut self, desk: &mut D) -> Result<Option<u64>, Why>
        requires { CanEnd kind (self.old, D.state desk.old) }
        ensures { Ends kind (self.old, D.state desk.old) result (self.new, D.state desk.new) };
}

/// Feeds the open input, from its first byte, to a sink, in pieces of at most 16,384 bytes: up to the one after which no
/// more is taken, or the input's end. If it ended early, returns after how many bytes.
pub fn pump<D: Desk, S: PieceSink<D>>(desk: &mut D, sink: &mut S) -> Result<Option<u64>, Why>
    requires open { (D.state desk.old).input_open ≡ true }
    requires can { CanPump S.kind 0 (sink.old, D.state desk.old) }
    ensures { Pumps S.kind 0 (sink.old, D.state desk.old) result (sink.new, D.state desk.new) }
{
    pump_on(desk, 0, sink)
}

/// The same of an input after this many bytes, which were fed before. It remains a call, so that its buffer takes no stack
/// once the input is read.
#[inline(never)]
pub fn pump_on<D: Desk, S: PieceSink<D>>(
    desk: &mut D,
    taken: u64,
    sink: &mut S,
) -> Result<Option<u64>, Why>
    requires open { (D.state desk.old).input_open ≡ true }
    requires can { CanPump S.kind taken (sink.old, D.state desk.old) }
    ensures { Pumps S.kind taken (sink.old, D.state desk.old) result (sink.new, D.state desk.new) }
{
    let most = sink.most();
    let mut buffer = [0u8; 16384];
    let mut taken = taken;
    loop {
        match read_within(desk, most - taken, &mut buffer) {
            Got::Failed => return Err(Why::ReadFault(Which::Input)),
            Got::End => return sink.end(desk),
            Got::Bytes(count) => {
                taken += u64::from(count);
                match sink.feed(&buffer[..count as usize], desk) {
                    Err(why) => return Err(why),
                    Ok(whole) => {
                        if whole {
                            return Ok(None);
                        }
                    }
                }
            }
        }
    }
}

/// Why the reading ends where a reader stops.
pub fn why_stopped(stop: Stop) -> Why
    ensures { result ≡ why_stopped stop }
{
    match stop {
        Stop::Fault(fault) => Why::Refused(fault),
        Stop::NoMemory => Why::NoMemory,
    }
}

/// How a command ends whose work is done where its input is read.
pub fn ended_as(answer: Result<Option<u64>, Why>) -> Why
    ensures { result ≡ ended_as answer }
{
    match answer {
        Ok(early) => done_as(early),
        Err(why) => why,
    }
}
