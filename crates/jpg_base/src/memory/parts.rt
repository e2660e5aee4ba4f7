//! The steps of the desk in memory, each over the parts that it changes.
ghost use Rattle.std.specs.Prelude.{◌≡◌, ◌≤◌, ◌<◌, ◌∷◌, ◌++◌, length, map, take, true, is_some, IfSome, OnOk, OnErr, Some, None};
ghost use Rattle.std.specs.Option.{option_copied};
ghost use Rattle.jpg_base.specs.Desk.{raised, NotesName, AfterAddOutput, AfterAppendLast, AfterAppend, append_last};
ghost use Rattle.jpg_base.specs.Name.{file_of};
ghost use Rattle.jpg_base.specs.Memory.{named, chosen, names_view, part_of, next_part, part_length, appended_length, FailsWith};
ghost use Rattle.jpg_base.specs.Input.{input_rest};

use super::{Asked, Failure, Part, Stored};
use crate::input::Input;
use crate::{Name, NoMemory, Put};
use std::alloc::Global;

/// Makes the call of this number fail with this part. At `NoMemory` nothing has changed.
pub fn choose(failing: &mut Vec<Failure>, call: u64, part: Part) -> Result<(), NoMemory>
    ensures ok { OnOk result (map chosen failing.new.items ≡ (call, part) ∷ map chosen failing.old.items) }
    ensures err { OnErr result (failing.new.items ≡ failing.old.items) }
{
    match failing.insert(0, Failure { call, part }) {
        Ok(()) => Ok(()),
        Err(_) => Err(NoMemory),
    }
}

/// Counts a call, and gives its part where it is one that fails. Calls after the last number don't fail.
pub fn failure_of(calls: &mut u64, failing: &[Failure]) -> Option<Part>
    ensures part { result ≡ next_part calls.old (map chosen failing.now) }
    ensures counted { calls.new ≡ raised calls.old }
{
    let Some(call) = calls.checked_add(1) else {
        return None;
    };
    *calls = call;
    find_part(failing, call)
}

fn find_part(failing: &[Failure], call: u64) -> Option<Part>
    ensures { result ≡ part_of (map chosen failing.now) call }
{
    for failure in failing {
        if failure.call == call {
            return Some(failure.part);
        }
    }
    None
}

/// Counts a call. Returns whether it is one that fails.
pub fn is_failing(calls: &mut u64, failing: &[Failure]) -> bool
    ensures fails { result ≡ is_some (next_part calls.old (map chosen failing.now)) }
    ensures counted { calls.new ≡ raised calls.old }
{
    failure_of(calls, failing).is_some()
}

fn find<'a>(files: &'a [Stored], name: &Name) -> Option<&'a [u8]>
    ensures { option_copied result ≡ file_of (map named files.now) name.now }
{
    for file in files {
        if file.name.is_same(name) {
            return Some(file.bytes.as_slice());
        }
    }
    None
}

/// The input with this name, unless the call fails, there is no such file or no memory.
pub fn input_of(alloc: Global, fails: bool, files: &[Stored], name: &Name) -> Option<Input>
    ensures found { IfSome result (λ input. file_of (map named files.now) name.now ≡ Some (input_rest input)) }
    ensures fails { fails ≡ true → result ≡ None }
{
    if fails {
        return None;
    }
    let bytes = find(files, name)?;
    let bytes = bytes.to_vec(alloc).ok()?;
    Some(Input { bytes, at: 0 })
}

pub fn with_name(
    alloc: Global,
    asked: Option<Vec<Asked>>,
    name: &Name,
    answer: Put,
) -> Option<Vec<Asked>>
    ensures { NotesName (names_view asked) (name.now, answer) (names_view result) }
{
    let mut list = asked?;
    let name = name.try_clone(alloc).ok()?;
    list.push(Asked { name, answer }).ok()?;
    Some(list)
}

pub fn add_output(alloc: Global, fails: bool, outputs: &mut Vec<Stored>, name: &Name) -> Put
    ensures after { AfterAddOutput (map named outputs.old.items) name.now result (map named outputs.new.items) }
    ensures fails { fails ≡ true → result ≡ Put.Failed }
{
    if fails {
        return Put::Failed;
    }
    let Ok(name) = name.try_clone(alloc) else {
        return Put::Failed;
    };
    let bytes = Vec::new(alloc);
    match outputs.push(Stored { name, bytes }) {
        Ok(()) => Put::Done,
        Err(_) => Put::Failed,
    }
}

// How many bytes of a piece of this length a call with this part appends.
fn part_bytes(part: Part, length: usize) -> usize
    ensures value { result ≡ part_length part length }
    ensures within { result ≤ length }
{
    match part {
        Part::Half => length / 2,
        Part::First(count) => length.min(count as usize),
    }
}

// Appends the part of a piece. Returns whether there was memory for it.
fn append_part(part: Part, bytes: &mut Vec<u8>, piece: &[u8]) -> bool
    ensures { bytes.new.items ≡ bytes.old.items ++ take (appended_length result part (length piece.now)) piece.now }
{
    let count = part_bytes(part, piece.len());
    match bytes.extend_from_slice(&piece[..count]) {
        Ok(()) => true,
        Err(_) => false,
    }
}

/// Appends the bytes, or a part of them where the call fails.
pub fn append(failure: Option<Part>, bytes: &mut Vec<u8>, piece: &[u8]) -> Put
    ensures after { AfterAppend bytes.old.items piece.now result bytes.new.items }
    ensures fails { FailsWith failure piece.now result (λ part. bytes.new.items ≡ bytes.old.items ++ part) }
{
    if let Some(part) = failure {
        let _ = append_part(part, bytes, piece);
        return Put::Failed;
    }
    match bytes.extend_from_slice(piece) {
        Ok(()) => Put::Done,
        Err(_) => Put::Failed,
    }
}

pub fn write_last(failure: Option<Part>, outputs: &mut Vec<Stored>, piece: &[u8]) -> Put
    requires { 0 < length outputs.old.items }
    ensures after { AfterAppendLast (map named outputs.old.items) piece.now result (map named outputs.new.items) }
    ensures count { length outputs.new.items ≡ length outputs.old.items }
    ensures fails { FailsWith failure piece.now result (λ part. map named outputs.new.items ≡ append_last (map named outputs.old.items) part) }
{
    let last = outputs.len() - 1;
    let stored = &mut outputs[last];
    append(failure, &mut stored.bytes, piece)
}
