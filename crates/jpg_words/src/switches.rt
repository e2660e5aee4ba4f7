//! Switches of a call: how a word matches one (the manuals of release 6b; any prefix of a name that has at least its
//! shortest form matches).
ghost use Rattle.std.specs.Prelude.{◌≡◌, map};
ghost use Rattle.jpg_spec.specs.Lists.{begins_with};
ghost use Rattle.jpg_spec_words.specs.Switches.{is_match, is_switch, lower, purpose_of, abbreviates};
ghost use Rattle.jpg_words.specs.Switches.{switch_view};

use jpg_spec_words::Purpose;

/// A switch: its name in lower case, how many letters of it a word needs, and its purpose.
pub type Switch<'s> = (&'s str, usize, Purpose);

/// Whether a word begins with a hyphen.
pub fn is_switch(word: &str) -> bool
    ensures { result ≡ is_switch word.now }
{
    matches!(word.as_bytes(), [b'-', ..])
}

/// The purpose of a word that begins with a hyphen, in a command with these switches.
pub fn purpose_of(switches: &[Switch<'_>], word: &str) -> Option<Purpose>
    ensures { result ≡ purpose_of (map switch_view switches.now) word.now }
{
    let letters = match word.as_bytes() {
        [] => &[],
        [_, letters @ ..] => letters,
    };
    for switch in switches {
        if is_match(letters, switch) {
            return Some(switch.2);
        }
    }
    None
}

// Whether the letters are a prefix of the switch's name, in any case, and no fewer than its shortest form.
fn is_match(letters: &[u8], switch: &Switch<'_>) -> bool
    ensures { result ≡ is_match letters.now (switch_view switch.now) }
{
    abbreviates(switch.1, switch.0.as_bytes(), letters)
}

/// Whether the letters are a prefix of a name, in any case, and no fewer than its shortest form has.
pub fn abbreviates(shortest: usize, name: &[u8], letters: &[u8]) -> bool
    ensures { result ≡ abbreviates shortest name.now letters.now }
{
    shortest <= letters.len() && begins(letters, name)
}

// Whether the letters, in lower case, are a prefix of the name.
fn begins(letters: &[u8], name: &[u8]) -> bool
    ensures { result ≡ begins_with (map lower letters.now) name.now }
{
    let mut rest = name;
    for letter in letters {
        let [first, behind @ ..] = rest else {
            return false;
        };
        if lower(*letter) != *first {
            return false;
        }
        rest = behind;
    }
    true
}

/// An ASCII letter in lower case, any other byte as it is.
pub fn lower(byte: u8) -> u8
    ensures { result ≡ lower byte }
{
    byte.to_ascii_lowercase()
}
