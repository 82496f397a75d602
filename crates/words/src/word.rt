// What one word says.
ghost use Rattle.std.specs.Prelude.{◌≡◌, ◌≤◌, length};
ghost use Rattle.std.specs.Str.{bytes_eq};
ghost use Rattle.words.specs.Numbers.{spelt_after, number_of, number_up_to};

// Whether a word is this one.
pub fn is(word: &[u8], name: &[u8]) -> bool
    ensures { result ≡ bytes_eq word.now name.now }
{
    word == name
}

// The number that decimal digits spell.
#[tactic(auto, using(crate::proofs::Spelt::no_digit, crate::proofs::Spelt::no_more_digits))]
fn spelt(word: &[u8]) -> Option<u32>
    requires { length word.now ≤ 9 }
    ensures { result ≡ spelt_after 0 word.now }
{
    let mut n = 0;
    for b in word {
        n = n * 10 + char::from(*b).to_digit(10)?;
    }
    Some(n)
}

// The number that a word of 1 to 9 decimal digits spells.
pub fn number_of(word: &[u8]) -> Option<u32>
    ensures { result ≡ number_of word.now }
{
    if !(1..=9).contains(&word.len()) {
        return None;
    }
    spelt(word)
}

// The number that a word spells, if it is at most so large.
pub fn number_up_to(word: &[u8], most: u32) -> Option<u32>
    ensures { result ≡ number_up_to most word.now }
{
    let n = number_of(word)?;
    (n <= most).then_some(n)
}
