// Words at a place, character by character.
ghost use Rattle.text.specs.Stands.{Expected, Stepped, WordAt};

use crate::Text;
use code::TextCode;
use medium::Medium;

// Places are numbers beside the text. With the place inside, each function would have to promise that its result is of the same text.
impl<'m, C: TextCode, M: Medium> Text<'m, C, M> {
    // The character at a place, and the place behind it.
    pub fn step(&self, at: usize) -> Option<(char, usize)>
        ensures { Stepped C.TextCode.enc self.now at result }
    {
        let (c, count) = self.char_at(at).ok()?;
        Some((c, at + count))
    }

    // The place behind a character, if it stands at `at`.
    pub fn expect(&self, at: usize, wanted: char) -> Option<usize>
        ensures { Expected C.TextCode.enc self.now at wanted result }
    {
        let (c, behind) = self.step(at)?;
        (c == wanted).then_some(behind)
    }

    // The place behind a word, if it stands at `at`. Each byte of the word is a character.
    pub fn word_at(&self, at: usize, word: &[u8]) -> Option<usize>
        ensures { WordAt C.TextCode.enc self.now at word.now result }
    {
        let mut behind = at;
        for c in word {
            behind = self.expect(behind, char::from(*c))?;
        }
        Some(behind)
    }
}
