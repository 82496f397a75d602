// Names, and the names that entries mark.
ghost use Rattle.std.specs.Prelude.{◌≡◌};
ghost use Rattle.std.specs.Option.{option_map};
ghost use Rattle.names.specs.Names.{is_name_byte, all_name_bytes, is_name};
ghost use Rattle.names.specs.Entries.{name_of};

use crate::entries::Entry;

// The most bytes that a name has.
const LONGEST_NAME: usize = 32;

fn is_name_byte(byte: u8) -> bool
    ensures { result ≡ is_name_byte byte }
{
    byte.is_ascii_alphanumeric() || byte == b'_'
}

fn all_name_bytes(bytes: &[u8]) -> bool
    ensures { result ≡ all_name_bytes bytes.now }
{
    bytes.iter().all(|byte| is_name_byte(*byte))
}

// Whether the bytes are a name.
pub fn is_name(bytes: &[u8]) -> bool
    ensures { result ≡ is_name bytes.now }
{
    (1..=LONGEST_NAME).contains(&bytes.len()) && all_name_bytes(bytes)
}

// The name that an entry marks in a text; none if the bytes do not lie in it or are no name.
pub fn name_of(text: &[u8], entry: Entry) -> Option<&[u8]>
    ensures { option_map (λ name. name.now) result ≡ name_of text.now entry }
{
    let start = entry.start as usize;
    let end = start + entry.len as usize;
    text.get(start..end).filter(|bytes| is_name(bytes))
}
