// A desk that reports nothing but its bytes.
ghost use Rattle.std.specs.Prelude.{◌≡◌, true};
ghost use Rattle.jpg_base.specs.Quiet.{quiet_state};

use crate::answer::Answer;
use crate::base::desks::room;
use crate::row::Row;
use jpg_base::{Desk, Got, Name, Put, QuietDesk};

/// What a desk of these bytes gives for each name, which is opened, then read by buffers of these lengths; and its failures.
pub fn quiet_reads(row: &Row, answer: &mut Answer) {
    let bytes = row.bytes(0, answer);
    match QuietDesk::new(row.alloc, bytes.as_slice()) {
        Ok(mut desk) => read_names(row, &mut desk, answer),
        Err(_) => answer.fall_short(),
    }
}

fn read_names(row: &Row, desk: &mut QuietDesk, answer: &mut Answer) {
    for word in row.field(1).split_whitespace() {
        match word {
            "in" => read_name(&Name::In, row.field(2), desk, answer),
            "out" => read_name(&Name::Out, row.field(2), desk, answer),
            _ => answer.unread(word),
        }
    }
    say_failures(desk, answer);
}

fn read_name(name: &Name, lengths: &str, desk: &mut QuietDesk, answer: &mut Answer) {
    let Put::Done = desk.open(name) else {
        return answer.say("no open");
    };
    let mut buf = [0; 16];
    for word in lengths.split_whitespace() {
        read(word, &mut buf, desk, answer);
    }
}

// A read, whose input stays open whatever it answers.
fn read(length: &str, buf: &mut [u8; 16], desk: &mut QuietDesk, answer: &mut Answer)
    requires { (quiet_state desk.old).input_open ≡ true }
    ensures { (quiet_state desk.new).input_open ≡ true }
{
    let length = room(length, answer);
    match desk.read(&mut buf[..length]) {
        Got::Bytes(count) => {
            answer.say_number(count as u64);
            answer.add(": ");
            answer.add_bytes(&buf[..length]);
        }
        got => answer.say_shown(&got),
    }
}

fn say_failures(desk: &QuietDesk, answer: &mut Answer) {
    let counts = desk.counts();
    answer.say("failures");
    for count in [counts.opens, counts.reads, counts.writes, counts.says] {
        answer.add(" ");
        answer.add_number(count);
    }
}

/// What a desk without bytes answers to a create, a write, a message, an open and a read.
pub fn quiet_writes(row: &Row, answer: &mut Answer) {
    let piece = row.bytes(0, answer);
    let said = row.bytes(1, answer);
    match QuietDesk::new(row.alloc, &[]) {
        Ok(mut desk) => use_all(piece.as_slice(), said.as_slice(), &mut desk, answer),
        Err(_) => answer.fall_short(),
    }
}

fn use_all(piece: &[u8], said: &[u8], desk: &mut QuietDesk, answer: &mut Answer) {
    let Put::Done = desk.create(&Name::In) else {
        return answer.say("no create");
    };
    answer.say_shown(&desk.write(piece));
    answer.say_shown(&desk.say(said));
    let Put::Done = desk.open(&Name::Out) else {
        return answer.say("no open");
    };
    answer.say_shown(&desk.read(&mut [0; 1]));
    say_failures(desk, answer);
}
