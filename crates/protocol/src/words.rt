// The words of a line, which one blank parts, and what they say.
ghost use Rattle.std.specs.Prelude.{◌≡◌, ◌<◌, ◌≤◌, ◌↔◌, ℕ, List, [], ◌∷◌, length, drop, position, IfOk, IfSome, IsOk, OnOk};
ghost use Rattle.std.specs.Bool.{OnTrue};
ghost use Rattle.std.specs.List.{position_or_len};
ghost use Rattle.protocol.specs.Blank.{is_blank, words_of, FirstIs, Taken};

use crate::bits::{f32_of, f64_of};
use crate::fault::Fault;

// What stands behind a word of a line: nothing, or a blank and further words.
#[derive(Clone, Copy)]
pub struct Words<'a> {
    rest: &'a [u8],
}

// Where the first blank is.
fn first_blank(text: &[u8]) -> Option<usize>
    ensures { result ≡ position is_blank text.now }
{
    text.iter().position(|b| *b == b' ')
}

// How long the word is that a text begins with.
fn word_len(text: &[u8]) -> usize
    ensures { result ≡ position_or_len is_blank text.now }
{
    first_blank(text).unwrap_or(text.len())
}

impl<'a> Iterator for Words<'a> {
    ghost use Rattle.std.specs.Iterator.{item_count, YieldsFirstRef};
    ghost use Rattle.protocol.specs.Words.{words_left};

    type Item = &'a [u8];

    ghost next_gives = { YieldsFirstRef words_left };

    ghost remaining = { item_count words_left };

    fn next(&mut self) -> Option<&'a [u8]> {
        let (_, text) = self.rest.split_first()?;
        let (word, rest) = text.split_at(word_len(text));
        self.rest = rest;
        Some(word)
    }
}

impl<'a> Words<'a> {
    ghost use Rattle.protocol.specs.Words.{words_left};

    // A line's first word, and those behind it.
    pub fn of(line: &'a [u8]) -> (&'a [u8], Words<'a>)
        ensures { words_of line.now ≡ result.0.now ∷ words_left result.1 }
    {
        let (first, rest) = line.split_at(word_len(line));
        (first, Words { rest })
    }

    // The number of the next word, which is taken in any case.
    pub fn read<T: FromWord>(&mut self) -> Result<T, Fault>
        ensures taken { words_left self.new ≡ drop 1 (words_left self.old) }
        ensures word { IfOk result (λ _. FirstIs T.IsWord (words_left self.old)) }
    {
        let word = self.next().ok_or(Fault::BadNumbers)?;
        T::from_word(word).ok_or(Fault::BadNumbers)
    }

    // The whole number of the next word, if it is at most so many.
    pub fn size(&mut self, most: usize) -> Result<usize, Fault>
        ensures most { IfOk result (λ n. n ≤ most) }
        ensures taken { words_left self.new ≡ drop 1 (words_left self.old) }
        ensures word { OnOk result (0 < length (words_left self.old)) }
    {
        let n: u32 = self.read()?;
        let n = n as usize;
        if n <= most {
            Ok(n)
        } else {
            Err(Fault::BadNumbers)
        }
    }

    // How many numbers all words are. Those for which there is no room are counted and left out.
    pub fn fill<T: FromWord>(self, into: &mut [T]) -> Result<usize, Fault>
        ensures { IfOk result (λ n. n ≡ length (words_left self.entry)) }
    {
        let mut n = 0usize;
        for word in self {
            let x = T::from_word(word).ok_or(Fault::BadNumbers)?;
            if let Some(cell) = into.get_mut(n) {
                *cell = x;
            }
            n = n.saturating_add(1);
        }
        Ok(n)
    }

    // The numbers of the next N words.
    pub fn numbers<const N: usize>(&mut self) -> Result<[f32; N], Fault>
        ensures { OnOk result (Taken N (words_left self.old) (words_left self.new)) }
    {
        let mut numbers = [0.0f32; N];
        for x in numbers.iter_mut() {
            *x = self.read()?;
        }
        Ok(numbers)
    }

    // The numbers of all words, if they are N.
    pub fn all<const N: usize>(mut self) -> Result<[f32; N], Fault>
        ensures { IfOk result (λ _. length (words_left self.entry) ≡ N) }
    {
        let numbers = self.numbers()?;
        self.end()?;
        Ok(numbers)
    }

    // Whether this word is all that is left.
    pub fn is_only(self, word: &[u8]) -> bool
        ensures { OnTrue result (words_left self.entry ≡ words_of word.now) }
    {
        self.rest.strip_prefix(b" ") == Some(word)
    }

    // Nothing may be left.
    pub fn end(self) -> Result<(), Fault>
        ensures { IsOk result ↔ words_left self.entry ≡ [] }
    {
        if self.rest.is_empty() {
            Ok(())
        } else {
            Err(Fault::BadNumbers)
        }
    }
}

// A number as a word says it.
pub trait FromWord: Copy {
    // How each word is that says one.
    ghost IsWord: { List ℕ → Type 0 };

    fn from_word(word: &[u8]) -> Option<Self>
        ensures { IfSome result (λ _. IsWord word.now) };
}

// By its bit pattern.
impl FromWord for f32 {
    ghost IsWord = { λ w. length w ≡ 8 };

    fn from_word(word: &[u8]) -> Option<f32> {
        let bits = u32::try_from(whole_words::hex(word, 8)?).ok()?;
        Some(f32_of(bits))
    }
}

// By its bit pattern.
impl FromWord for f64 {
    ghost IsWord = { λ w. length w ≡ 16 };

    fn from_word(word: &[u8]) -> Option<f64> {
        whole_words::hex(word, 16).map(f64_of)
    }
}

impl FromWord for u32 {
    ghost IsWord = { λ w. (0 < length w) × (length w ≤ 11) };

    fn from_word(word: &[u8]) -> Option<u32> {
        whole_words::whole(word)
    }
}

impl FromWord for i64 {
    ghost IsWord = { λ w. (0 < length w) × (length w ≤ 20) };

    fn from_word(word: &[u8]) -> Option<i64> {
        whole_words::signed(word)
    }
}
