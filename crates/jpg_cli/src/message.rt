//! Messages, built without memory of their own.
ghost use Rattle.std.specs.Prelude.{◌≡◌, ◌≤◌, ◌<◌, ◌+◌, ◌++◌, length, drop};
ghost use Rattle.std.specs.Fmt.{decimal};
ghost use Rattle.arrayvec.specs.ArrayVec.{array_vec_len};
ghost use Rattle.jpg_spec_words.specs.Messages.{message, picture_numbers, text_of, then_bit, then_number};
ghost use Rattle.jpg_spec_words.specs.declared.answers.Why.TheVariants as why;

use arrayvec::ArrayVec;
use jpg_spec::FaultAt;
use jpg_spec_words::{Usage, Why};
use jpg_spec_write::PictureFault;

/// A message that is being built; each has fewer than 128 bytes.
pub type Message = ArrayVec<u8, 128>;

/// Appends a text.
pub fn add(message: &mut Message, text: &str)
    requires room { array_vec_len message.old + length text.now ≤ 128 }
    ensures text { message.new.items ≡ message.old.items ++ text.now }
    ensures more { array_vec_len message.new ≡ array_vec_len message.old + length text.now }
{
    match message.try_extend_from_slice(text.as_bytes()) {
        Ok(()) => {}
        Err(_) => {}
    }
}

// The digits of a number, in the last places of an array, and how many places are free before them.
#[derive(Drop)]
struct Digits {
    places: [u8; 20],
    free: u8,
    ghost free_fits: { free ≤ 20 },
}

fn decimal_digits(number: u64) -> Digits
    ensures { drop result.free result.places ≡ decimal number }
{
    let mut places = [0u8; 20];
    let mut free: u8 = 20;
    let mut rest = number;
    while rest >= 10 {
        free -= 1;
        places[free as usize] = 48 + (rest % 10) as u8;
        rest /= 10;
    }
    free -= 1;
    places[free as usize] = 48 + rest as u8;
    Digits { places, free }
}

/// Appends a number in decimal digits.
pub fn add_number(message: &mut Message, number: u64)
    requires room { array_vec_len message.old + 20 ≤ 128 }
    ensures text { message.new.items ≡ message.old.items ++ decimal number }
    ensures most { array_vec_len message.new ≤ array_vec_len message.old + 20 }
{
    let digits = decimal_digits(number);
    match message.try_extend_from_slice(&digits.places[digits.free as usize..]) {
        Ok(()) => {}
        Err(_) => {}
    }
}

#[tactic(auto, using(crate::proofs::Messages::Names::usage_short))]
fn add_usage(message: &mut Message, usage: Usage)
    requires room { array_vec_len message.old ≤ 10 }
    ensures text { message.new.items ≡ message.old.items ++ text_of (why.Usage usage) }
    ensures room { array_vec_len message.new ≤ 100 }
{
    add(message, "usage: ");
    add(message, usage.fault.name());
    add(message, " at word ");
    add_number(message, usage.word);
}

fn add_warning(message: &mut Message, at: u64)
    requires room { array_vec_len message.old ≤ 10 }
    ensures text { message.new.items ≡ message.old.items ++ text_of (why.Warned at) }
    ensures room { array_vec_len message.new ≤ 100 }
{
    add(message, "warning: ends early at byte ");
    add_number(message, at);
}

#[tactic(auto, using(crate::proofs::Messages::Names::fault_short))]
fn add_refusal(message: &mut Message, fault: FaultAt)
    requires room { array_vec_len message.old ≤ 10 }
    ensures text { message.new.items ≡ message.old.items ++ text_of (why.Refused fault) }
    ensures room { array_vec_len message.new ≤ 100 }
{
    add(message, "refused: ");
    add(message, fault.fault.name());
    add(message, " at byte ");
    add_number(message, fault.at);
}

// Appends a space and a number.
fn then_number(message: &mut Message, number: u8)
    requires room { array_vec_len message.old + 24 ≤ 128 }
    ensures text { message.new.items ≡ message.old.items ++ then_number number }
    ensures most { array_vec_len message.new ≤ array_vec_len message.old + 24 }
{
    add(message, " ");
    add_number(message, u64::from(number));
}

// Appends the bit down to which a coefficient is known.
fn then_bit(message: &mut Message, bit: Option<u8>)
    requires room { array_vec_len message.old + 24 ≤ 128 }
    ensures text { message.new.items ≡ message.old.items ++ then_bit bit }
    ensures most { array_vec_len message.new ≤ array_vec_len message.old + 24 }
{
    match bit {
        Some(bit) => then_number(message, bit),
        None => add(message, " never"),
    }
}

// Appends the numbers of a fault of a picture.
fn add_numbers(message: &mut Message, fault: PictureFault)
    requires room { array_vec_len message.old ≤ 50 }
    ensures text { message.new.items ≡ message.old.items ++ picture_numbers fault }
    ensures room { array_vec_len message.new ≤ 122 }
{
    match fault {
        PictureFault::GrayColour
        | PictureFault::GrayFactors
        | PictureFault::TooManyBlocks
        | PictureFault::CropOutside => {}
        PictureFault::FractionalFactors { component } => then_number(message, component),
        PictureFault::ScriptComponent { entry }
        | PictureFault::ScriptMcu { entry }
        | PictureFault::ScriptBand { entry } => then_number(message, entry),
        PictureFault::ScriptIncomplete {
            component,
            coefficient,
            bit,
        } => {
            then_number(message, component);
            then_number(message, coefficient);
            then_bit(message, bit);
        }
    }
}

#[tactic(auto, using(crate::proofs::Messages::Names::picture_short))]
fn add_picture(message: &mut Message, fault: PictureFault)
    requires room { array_vec_len message.old ≤ 10 }
    ensures text { message.new.items ≡ message.old.items ++ text_of (why.Picture fault) }
    ensures room { array_vec_len message.new ≤ 122 }
{
    add(message, "picture: ");
    add(message, fault.name());
    add_numbers(message, fault);
}

#[tactic(auto, using(crate::proofs::Messages::Names::which_short))]
fn add_text(message: &mut Message, why: Why)
    requires room { array_vec_len message.old ≤ 10 }
    ensures text { message.new.items ≡ message.old.items ++ text_of why }
    ensures room { array_vec_len message.new ≤ 122 }
{
    match why {
        Why::Done => {}
        Why::Warned(at) => add_warning(message, at),
        Why::Usage(usage) => add_usage(message, usage),
        Why::Refused(fault) => add_refusal(message, fault),
        Why::Picture(fault) => add_picture(message, fault),
        Why::OpenFault(which) => {
            add(message, "can't open ");
            add(message, which.name());
        }
        Why::ReadFault(which) => {
            add(message, "can't read ");
            add(message, which.name());
        }
        Why::WriteFault => add(message, "can't write output"),
        Why::NoMemory => add(message, "out of memory"),
    }
}

/// The line that names a command and why it ended; nothing for Done.
pub fn message_of(tool: &str, why: Why) -> Message
    requires { length tool.now ≤ 8 }
    ensures { result.items ≡ message tool.now why }
{
    let mut message = Message::new();
    if let Why::Done = why {
        return message;
    }
    add(&mut message, tool);
    add(&mut message, ": ");
    add_text(&mut message, why);
    add(&mut message, "\n");
    message
}
