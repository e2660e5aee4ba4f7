//! Texts of one form that are read byte by byte (release 6b's wizard.txt): comments count as space.
ghost use Rattle.std.specs.Prelude.{◌≡◌, option_map, if◌then◌else◌};
ghost use Rattle.jpg_spec.specs.NumberTexts.{in_comment, is_digit, is_space};
ghost use Rattle.jpg_spec.specs.TextReaders.{taken};
ghost use Rattle.jpg_texts.specs.TextKinds.{ReadsTexts, TellsText, TextKind};

use jpg_spec::{Fault, FaultAt};

/// What reads the texts of one form: its state after the bytes so far, with space in place of comments.
pub trait TextBytes<T>: Drop {
    /// What its states mean.
    ghost kind: { TextKind Self T };

    /// Takes a byte. Returns whether it may occur there.
    fn byte(&mut self, byte: u8) -> bool
        ensures { taken result self.new ≡ kind.reader.step self.old byte };

    /// What the text encodes, if it ends here.
    fn end(self) -> Option<T>
        ensures { option_map kind.value result ≡ kind.reader.told self };
}

// The greatest length of a text in bytes.
const LONGEST: u64 = 65536;

/// What a text encodes. Otherwise this fault at the first byte that no text of the form has there, at the text's end if
/// it ends too early, or at 65537 if it is longer than 65536 bytes.
pub fn read_text<T: Drop, S: TextBytes<T>>(
    text: &[u8],
    start: S,
    fault: Fault,
) -> Result<T, FaultAt>
    requires start { start ≡ S.kind.reader.start }
    requires fault { fault ≡ S.kind.form.fault }
    requires reads { ReadsTexts S.kind }
    ensures { TellsText S.kind text.now result }
{
    let mut state = start;
    let mut behind = false;
    let mut before = 0;
    for byte in text {
        if before == LONGEST {
            return Err(FaultAt {
                fault,
                at: before + 1,
            });
        }
        behind = in_comment(behind, *byte);
        if !state.byte(seen(behind, *byte)) {
            return Err(FaultAt {
                fault,
                at: before + 1,
            });
        }
        before += 1;
    }
    match state.end() {
        None => Err(FaultAt {
            fault,
            at: text.len() as u64,
        }),
        Some(told) => Ok(told),
    }
}

// A byte outside a comment, or a space in place of one inside.
fn seen(behind: bool, byte: u8) -> u8
    ensures { result ≡ (if behind then 32 else byte) }
{
    if behind { b' ' } else { byte }
}

// Whether a byte is in a comment, which begins with # and goes on up to LF.
fn in_comment(behind: bool, byte: u8) -> bool
    ensures { result ≡ in_comment behind byte }
{
    if behind { byte != b'\n' } else { byte == b'#' }
}

/// Whether a byte is a decimal digit.
pub fn is_digit(byte: u8) -> bool
    ensures { result ≡ is_digit byte }
{
    b'0' <= byte && byte <= b'9'
}

/// Whether a byte is a space, TAB, LF, FF or CR.
pub fn is_space(byte: u8) -> bool
    ensures { result ≡ is_space byte }
{
    byte == b' ' || (byte == b'\t' || (byte == b'\n' || (byte == b'\x0c' || byte == b'\r')))
}
