//! A desk in memory, for tests: the calls that a test chooses fail.
ghost use Rattle.std.specs.Prelude.{◌≡◌, ◌≤◌, ◌<◌, ◌+◌, ◌^◌, ◌-◌, min, [], ◌∷◌, ◌++◌, length, take, vec_len, true, OnOk, OnErr, Some, None, slice_get};
ghost use Rattle.std.specs.Option.{option_map};

mod parts;

use crate::desk::raise;
use crate::input::Input;
use crate::{Counts, Desk, Got, Name, NoMemory, Put};
use parts::{add_output, append, choose, failure_of, input_of, is_failing, with_name, write_last};
use std::alloc::Global;

#[derive(Drop)]
pub struct Stored {
    pub name: Name,
    pub bytes: Vec<u8>,
}

#[derive(Drop)]
pub struct Asked {
    pub name: Name,
    pub answer: Put,
}

/// What a write or a message that fails appends before: half of its piece, or so many of its first bytes, where it has
/// them.
#[derive(Clone, Copy)]
pub enum Part {
    Half,
    First(u32),
}

#[derive(Drop)]
pub struct Failure {
    pub call: u64,
    pub part: Part,
}

/// A desk whose files, outputs and messages are in memory, for tests. A call fails if a test chose it, if it opens an
/// absent name, or if there is no memory; each such call raises the count of its kind by one and no other count.
/// Contracts see all of its state, except the names asked for once there was no memory to record one.
#[derive(Drop)]
pub struct MemoryDesk {
    // Where memory comes from.
    alloc: Global,
    // The most bytes that a read gives.
    piece: u32,
    // The files that can be opened, the newest first.
    files: Vec<Stored>,
    // The open input, if any.
    input: Option<Input>,
    // What was created, with what was written to each.
    outputs: Vec<Stored>,
    // The messages.
    said: Vec<u8>,
    // The names that were asked for; None once there was no memory for one.
    asked: Option<Vec<Asked>>,
    // The calls that are to fail, the newest first.
    failing: Vec<Failure>,
    // How many calls there were.
    calls: u64,
    // How many of each kind failed.
    counts: Counts,
    ghost piece_is_some: { 1 ≤ piece },
}

impl MemoryDesk {
    ghost use Rattle.jpg_base.specs.Memory.{memory_state, memory_said, memory_outputs, memory_calls, SameNumbers, Chosen, IsNew, with_file};

    /// A desk with no files and no failures, which gives at most `piece` bytes per read. `piece` is at least 1.
    pub fn new(alloc: Global, piece: u32) -> MemoryDesk
        requires { 1 ≤ piece }
        ensures { IsNew result piece }
    {
        MemoryDesk {
            alloc,
            piece,
            files: Vec::new(alloc),
            input: None,
            outputs: Vec::new(alloc),
            said: Vec::new(alloc),
            asked: Some(Vec::new(alloc)),
            failing: Vec::new(alloc),
            calls: 0,
            counts: Counts {
                opens: 0,
                reads: 0,
                writes: 0,
                says: 0,
            },
        }
    }

    /// Adds a file with this name, or replaces the one of this name. An open input keeps the bytes that it had. At
    /// `NoMemory` nothing has changed.
    pub fn add_file(&mut self, name: &Name, bytes: &[u8]) -> Result<(), NoMemory>
        ensures ok { OnOk result (memory_state self.new ≡ with_file name.now bytes.now (memory_state self.old)) }
        ensures err { OnErr result (memory_state self.new ≡ memory_state self.old) }
        ensures numbers { SameNumbers self.old self.new }
    {
        let name = name.try_clone(self.alloc)?;
        let Ok(bytes) = bytes.to_vec(self.alloc) else {
            return Err(NoMemory);
        };
        match self.files.insert(0, Stored { name, bytes }) {
            Ok(()) => Ok(()),
            Err(_) => Err(NoMemory),
        }
    }

    /// Makes the call of this number fail; all calls of `open`, `read`, `create`, `write` and `say` are counted
    /// together, from 1. The number 0 and those of earlier calls change nothing. A `write` or `say` that fails in this
    /// way appends the first half of its bytes before. Of two choices for one call the later one counts. At `NoMemory`
    /// nothing has changed.
    pub fn fail(&mut self, call: u64) -> Result<(), NoMemory>
        ensures ok { OnOk result (Chosen self.old call Part.Half self.new) }
        ensures err { OnErr result (SameNumbers self.old self.new) }
        ensures state { memory_state self.new ≡ memory_state self.old }
    {
        choose(&mut self.failing, call, Part::Half)
    }

    /// Makes the call of this number fail as `fail` does, but a `write` or `say` appends the first `bytes` of its bytes
    /// before, or all of them where they are fewer. At `NoMemory` nothing has changed.
    pub fn fail_after(&mut self, call: u64, bytes: u32) -> Result<(), NoMemory>
        ensures ok { OnOk result (Chosen self.old call (Part.First bytes) self.new) }
        ensures err { OnErr result (SameNumbers self.old self.new) }
        ensures state { memory_state self.new ≡ memory_state self.old }
    {
        choose(&mut self.failing, call, Part::First(bytes))
    }

    /// How many calls of `open`, `read`, `create`, `write` and `say` were made so far, or `u64::MAX` if there are more.
    pub fn calls(&self) -> u64
        ensures { result ≡ memory_calls self.now }
    {
        self.calls
    }

    /// How many outputs were created, or `u32::MAX` if there are more.
    pub fn outputs(&self) -> u32
        ensures { result ≡ min (length (memory_outputs self.now)) (2 ^ 32 - 1) }
    {
        u32::try_from(self.outputs.len()).unwrap_or(u32::MAX)
    }

    /// The bytes of the output with index `i`, from 0, which must be less than `outputs`.
    pub fn output(&self, i: u32) -> &[u8]
        requires { i < length (memory_outputs self.now) }
        ensures { option_map (λ p. p.1) (slice_get (memory_outputs self.now) i) ≡ Some result.now }
    {
        self.outputs[i as usize].bytes.as_slice()
    }

    /// The bytes of all messages, the first one first.
    pub fn said(&self) -> &[u8]
        ensures { result.now ≡ memory_said self.now }
    {
        self.said.as_slice()
    }
}

impl Desk for MemoryDesk {
    ghost use Rattle.jpg_base.specs.Desk.{append_last, Opens, Reads, Creates, Writes, Says, counted_open, counted_read, counted_write, counted_say};
    ghost use Rattle.jpg_base.specs.Memory.{memory_state, memory_outputs, memory_said, part_of_next, fails_next, read_answer, FailsWith, Called};

    ghost state = { memory_state };

    fn open(&mut self, name: &Name) -> Put
        ensures desk { Opens (memory_state self.old) name.now result (memory_state self.new) }
        ensures called { Called self.old (counted_open result (memory_state self.old).counts) self.new }
        ensures fails { fails_next self.old ≡ true → result ≡ Put.Failed }
    {
        let fails = is_failing(&mut self.calls, &self.failing);
        self.input = input_of(self.alloc, fails, &self.files, name);
        let answer = match &self.input {
            Some(_) => Put::Done,
            None => {
                raise(&mut self.counts.opens);
                Put::Failed
            }
        };
        self.asked = with_name(self.alloc, self.asked.take(), name, answer);
        answer
    }

    fn read(&mut self, buf: &mut [u8]) -> Got
        requires open { (memory_state self.old).input_open ≡ true }
        requires room { 0 < length buf.old }
        ensures desk { Reads (memory_state self.old) result buf.new (memory_state self.new) }
        ensures called { Called self.old (counted_read result (memory_state self.old).counts) self.new }
        ensures open { (memory_state self.new).input_open ≡ true }
        ensures exact { result ≡ read_answer self.old (length buf.old) }
    {
        let fails = is_failing(&mut self.calls, &self.failing);
        match &mut self.input {
            Some(input) if !fails => input.give(self.piece, buf),
            _ => {
                raise(&mut self.counts.reads);
                Got::Failed
            }
        }
    }

    fn create(&mut self, name: &Name) -> Put
        ensures desk { Creates (memory_state self.old) name.now result (memory_state self.new) }
        ensures called { Called self.old (counted_open result (memory_state self.old).counts) self.new }
        ensures fails { fails_next self.old ≡ true → result ≡ Put.Failed }
    {
        let fails = is_failing(&mut self.calls, &self.failing);
        let answer = add_output(self.alloc, fails, &mut self.outputs, name);
        if let Put::Failed = answer {
            raise(&mut self.counts.opens);
        }
        self.asked = with_name(self.alloc, self.asked.take(), name, answer);
        answer
    }

    fn write(&mut self, piece: &[u8]) -> Put
        requires { (memory_state self.old).output_created ≡ true }
        ensures desk { Writes (memory_state self.old) piece.now result (memory_state self.new) }
        ensures called { Called self.old (counted_write result (memory_state self.old).counts) self.new }
        ensures fails { FailsWith (part_of_next self.old) piece.now result (λ part. memory_outputs self.new ≡ append_last (memory_outputs self.old) part) }
    {
        let failure = failure_of(&mut self.calls, &self.failing);
        let answer = write_last(failure, &mut self.outputs, piece);
        if let Put::Failed = answer {
            raise(&mut self.counts.writes);
        }
        answer
    }

    fn say(&mut self, text: &[u8]) -> Put
        ensures desk { Says (memory_state self.old) text.now result (memory_state self.new) }
        ensures called { Called self.old (counted_say result (memory_state self.old).counts) self.new }
        ensures fails { FailsWith (part_of_next self.old) text.now result (λ part. memory_said self.new ≡ memory_said self.old ++ part) }
    {
        let failure = failure_of(&mut self.calls, &self.failing);
        let answer = append(failure, &mut self.said, text);
        if let Put::Failed = answer {
            raise(&mut self.counts.says);
        }
        answer
    }

    fn counts(&self) -> Counts
        ensures { result ≡ (memory_state self.now).counts }
    {
        self.counts
    }
}
