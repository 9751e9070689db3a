// Words in one text, each ended by a bar: a text that is lent once costs the prover less than many that are lent.
#![tactic(auto)]

ghost use Rattle.std.specs.Prelude.{◌≡◌};
ghost use Rattle.text.specs.Pages.{Puts};
ghost use Rattle.words.specs.Words.{words_in, word_at};

use text::Page;

// The n-th of them, from 0; none past the last.
pub fn nth<'a>(words: &'a [u8], n: usize) -> &'a [u8]
    ensures { result.now ≡ word_at words.now n }
{
    let mut at = 0;
    let mut left = n;
    while at < words.len() {
        let rest = &words[at..];
        let len = text::find(rest, b'|');
        if left == 0 {
            return &rest[..len];
        }
        at += len + 1;
        left -= 1;
    }
    &words[..0]
}

// All of them, one after the other.
pub fn put_words(page: &mut Page, words: &[u8])
    ensures { Puts page.old page.new (words_in words.now) }
{
    let mut at = 0;
    while at < words.len() {
        let rest = &words[at..];
        let len = text::find(rest, b'|');
        page.put(&rest[..len]);
        at += len + 1;
    }
}
