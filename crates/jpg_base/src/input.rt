//! An input whose bytes are in memory.
ghost use Rattle.std.specs.Prelude.{◌≡◌, ◌≤◌, ◌<◌, length, min, vec_len};

use crate::Got;

// Bytes, and how many of them were read.
#[derive(Drop)]
pub struct Input {
    pub bytes: Vec<u8>,
    pub at: usize,
    ghost at_in: { at ≤ vec_len bytes },
}

impl Input {
    ghost use Rattle.jpg_base.specs.Desk.{Gives};
    ghost use Rattle.jpg_base.specs.Input.{input_rest, given};

    // Reads the next bytes, at most `piece`.
    #[tactic(auto, using(crate::proofs::Pieces::given_some, crate::proofs::Pieces::given_end))]
    pub fn give(&mut self, piece: u32, buf: &mut [u8]) -> Got
        requires piece { 1 ≤ piece }
        requires room { 0 < length buf.old }
        ensures gives { Gives (input_rest self.old) result buf.new (input_rest self.new) }
        ensures exact { result ≡ given (min piece (length buf.old)) (input_rest self.old) }
        ensures same { self.new.bytes ≡ self.old.bytes }
    {
        let rest = &self.bytes[self.at..];
        let most = rest.len().min(buf.len()).min(piece as usize);
        if most == 0 {
            return Got::End;
        }
        buf[..most].copy_from_slice(&rest[..most]);
        self.at += most;
        Got::Bytes(most as u32)
    }
}
