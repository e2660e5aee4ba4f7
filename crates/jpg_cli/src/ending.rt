//! What becomes of an output over real files when a run has ended.
ghost use Rattle.std.specs.Prelude.{◌≡◌, ◌≤◌, length};
ghost use Rattle.jpg_base.specs.declared.standard.Output.{Output};
ghost use Rattle.jpg_spec_words.specs.declared.answers.Which.{Which};
ghost use Rattle.jpg_spec_words.specs.declared.answers.Why.TheVariants as why;
ghost use Rattle.jpg_cli.specs.OutputEnding.{ending_of, status_after};
ghost use Rattle.jpg_cli.specs.declared.ending.Ending.TheVariants as ends;

use crate::top::{Ended, tell};
use jpg_base::{Desk, Output, Put, RealFiles, StdDesk};
use jpg_spec_words::Why;

// After the name of a command whose input ended early and is its own output.
const STAYS: &str = ": the input stays as it is: write to another name\n";

// After the name of a command, before the name of a file beside its output that can't be removed.
const LEFT: &str = ": left beside the output: ";

/// What becomes of an output: it takes its place, or is removed, or is removed and that is said, where the run would have
/// ended well.
#[derive(Clone, Copy, Debug, PartialEq, Eq)]
pub enum Ending {
    TakesPlace,
    IsRemoved,
    IsRemovedAloud,
}

// After a run that ended so. An output that isn't complete has no place; the rows of a file that was refused replace no
// file, and what an input that ended early has doesn't replace this input.
fn ending_after(output: Output, why: Why) -> Ending
    ensures { result ≡ ending_of output why }
{
    match why {
        Why::WriteFault => Ending::IsRemoved,
        Why::ReadFault(_) => Ending::IsRemoved,
        Why::NoMemory => Ending::IsRemoved,
        Why::Refused(_) => {
            if output.is_there {
                Ending::IsRemoved
            } else {
                Ending::TakesPlace
            }
        }
        Why::Warned(_) => {
            if output.is_input {
                Ending::IsRemovedAloud
            } else {
                Ending::TakesPlace
            }
        }
        _ => Ending::TakesPlace,
    }
}

/// An output that isn't complete never takes its place.
pub fn incomplete_outputs_are_removed()
    ensures write { (output : Output) → ending_of output why.WriteFault ≡ ends.IsRemoved }
    ensures read { (output : Output) (which : Which) → ending_of output (why.ReadFault which) ≡ ends.IsRemoved }
    ensures memory { (output : Output) → ending_of output why.NoMemory ≡ ends.IsRemoved }
{}

// Says a text after the name of a command; if that fails, nothing comes of it.
fn say_after<D: Desk>(tool: &str, text: &str, desk: &mut D) {
    for part in [tool, text] {
        match desk.say(part.as_bytes()) {
            Put::Done => {}
            Put::Failed => {}
        }
    }
}

// The exit status of a run that ended with this code, after its output was put into its place, or couldn't be.
fn status_after(code: u8, put: Put) -> u8
    ensures { result ≡ status_after code put }
{
    match put {
        Put::Done => code,
        Put::Failed => Why::WriteFault.code(),
    }
}

// Puts a complete output into its place. The exit status; if it can't take its place, that of a failed write, whose message
// is said.
fn keep<R: RealFiles>(tool: &str, ended: Ended, desk: &mut StdDesk<R>) -> u8
    requires { length tool.now ≤ 8 }
{
    let put = desk.keep();
    if let Put::Failed = put {
        tell(tool, Why::WriteFault, desk);
    }
    status_after(ended.code, put)
}

/// Puts the output of a run into its place, or removes it, and says what of it is left; the exit status.
pub fn end_output<R: RealFiles>(tool: &str, ended: Ended, desk: &mut StdDesk<R>) -> u8
    requires { length tool.now ≤ 8 }
{
    let code = match ending_after(desk.output(), ended.why) {
        Ending::TakesPlace => keep(tool, ended, desk),
        Ending::IsRemoved => {
            desk.discard();
            ended.code
        }
        Ending::IsRemovedAloud => {
            desk.discard();
            say_after(tool, STAYS, desk);
            ended.code
        }
    };
    desk.say_left(tool, LEFT);
    code
}
