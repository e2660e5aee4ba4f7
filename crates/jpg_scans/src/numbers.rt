//! The numbers of a script's text, byte by byte (the manual's wizard.txt).
ghost use Rattle.std.specs.Prelude.{◌≡◌, ◌<◌, ◌≤◌, length, true, false};
ghost use Rattle.jpg_spec_write.specs.ScriptGrammar.{is_joint};
ghost use Rattle.jpg_spec.specs.TextReaders.{taken};
ghost use Rattle.jpg_scans.specs.TextState.{digit_by, ended, first_digit, further_digit, joint_by, no_numbers, number_step, is_before, is_after};
ghost use Rattle.jpg_scans.specs.declared.standing.Standing.TheVariants.{InNumber};

use crate::standing::Standing;
use arrayvec::ArrayVec;
use jpg_texts::{is_digit, is_space};
use std::marker::Model;

// Up to four complete numbers, and the position among them.
#[derive(Drop)]
pub struct Numbers {
    whole: ArrayVec<u8, 4>,
    standing: Standing,
}

impl Model for Numbers {
    ghost use Rattle.jpg_scans.specs.TextState.{NumbersState as State, HasRoom};

    ghost Value = { State };

    ghost view = { λ n. record { numbers = n.whole.items; standing = n.standing } };

    ghost invariant = { λ n. HasRoom n.whole.items n.standing };
}

impl Numbers {
    pub fn new() -> Numbers
        ensures { result ≡ no_numbers }
    {
        Numbers {
            whole: ArrayVec::new(),
            standing: Standing::Before,
        }
    }

    pub fn is_before(&self) -> bool
        ensures { result ≡ is_before self.now.standing }
    {
        match self.standing {
            Standing::Before => true,
            _ => false,
        }
    }

    pub fn is_after(&self) -> bool
        ensures { result ≡ is_after self.now.standing }
    {
        match self.standing {
            Standing::Behind => true,
            _ => false,
        }
    }

    // The complete numbers.
    pub fn copy(&self) -> ArrayVec<u8, 4>
        ensures { result.items ≡ self.now.numbers }
    {
        let mut numbers = ArrayVec::new();
        let _ = numbers.try_extend_from_slice(self.whole.as_slice());
        numbers
    }

    // Takes a byte. Returns whether it may occur there.
    pub fn byte(&mut self, byte: u8) -> bool
        ensures { taken result self.new ≡ number_step self.old byte }
    {
        if is_digit(byte) {
            return self.digit(byte - b'0');
        }
        self.end();
        if is_space(byte) {
            return true;
        }
        is_joint(byte) && self.join()
    }

    // Completes the current number, if any.
    pub fn end(&mut self)
        ensures { self.new ≡ ended self.old }
    {
        if let Standing::InNumber { value, .. } = self.standing {
            self.standing = Standing::Behind;
            self.whole.push(value);
        }
    }

    fn digit(&mut self, digit: u8) -> bool
        requires { digit < 10 }
        ensures { taken result self.new ≡ digit_by self.old.numbers self.old.standing digit }
    {
        match self.standing {
            Standing::InNumber { digits, value } => self.further_digit(digits, value, digit),
            _ => self.first_digit(digit),
        }
    }

    fn first_digit(&mut self, digit: u8) -> bool
        requires { digit < 10 }
        ensures { taken result self.new ≡ first_digit self.old.numbers digit }
    {
        if self.whole.len() >= 4 {
            return false;
        }
        self.standing = Standing::InNumber {
            digits: 1,
            value: digit,
        };
        true
    }

    fn further_digit(&mut self, digits: u8, value: u8, digit: u8) -> bool
        requires standing { self.old.standing ≡ InNumber digits value }
        requires digit { digit < 10 }
        ensures { taken result self.new ≡ further_digit self.old.numbers digits value digit }
    {
        let next = 10 * u16::from(value) + u16::from(digit);
        if digits >= 3 || next > 255 {
            return false;
        }
        self.standing = Standing::InNumber {
            digits: digits + 1,
            value: next as u8,
        };
        true
    }

    // Takes a comma or hyphen.
    fn join(&mut self) -> bool
        ensures { taken result self.new ≡ joint_by self.old.numbers self.old.standing }
    {
        match self.standing {
            Standing::Behind | Standing::Joined => {
                if self.whole.len() >= 4 {
                    return false;
                }
                self.standing = Standing::Joined;
                true
            }
            _ => false,
        }
    }
}

fn is_joint(byte: u8) -> bool
    ensures { result ≡ is_joint byte }
{
    byte == b',' || byte == b'-'
}
