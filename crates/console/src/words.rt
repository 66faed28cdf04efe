// The words of a line: what stands between blanks, up to a comment.
ghost use Rattle.console.specs.Words.{after_word, blank, first_word, spoken, words_of};
ghost use Rattle.std.specs.Prelude.{◌≡◌, ◌+◌, ◌≤◌, ℕ, Bool, [], ◌∷◌, length, MatchOption};
ghost use Rattle.std.specs.List.{position_or_len};
ghost use Rattle.std.specs.Iterator.{at_most};

// The words that are still to come. No chain of `split` and `filter`: its type has no name for a field.
#[derive(Clone, Copy)]
pub struct Words<'a> {
    rest: &'a [u8],
}

impl<'a> Words<'a> {
    // The words of a line up to its comment.
    pub fn new(line: &'a [u8]) -> Words<'a>
        ensures { result.rest.now ≡ spoken line.now }
    {
        let (spoken, _) = line.split_at(run_length(line, |byte| *byte == b'#'));
        Words { rest: spoken }
    }
}

impl<'a> Iterator for Words<'a> {
    type Item = &'a [u8];

    ghost remaining = { λ w. at_most (length w.rest.now) };

    // the words to come before a call are its word and those to come after it; with none to come, none comes after
    ghost next_gives = { λ w r v. MatchOption r ((words_of w.rest.now ≡ []) × (v.rest.now ≡ [])) (λ x. words_of w.rest.now ≡ x.now ∷ words_of v.rest.now) };

    fn next(&mut self) -> Option<&'a [u8]> {
        let (word, rest) = cut_word(self.rest);
        self.rest = rest;
        if word.is_empty() { None } else { Some(word) }
    }
}

// The first word of a text, empty if there is none, and what follows it.
fn cut_word(text: &[u8]) -> (&[u8], &[u8])
    ensures word { result.0.now ≡ first_word text.now }
    ensures rest { result.1.now ≡ after_word text.now }
    ensures within { length result.0.now + length result.1.now ≤ length text.now }
{
    let (_, text) = text.split_at(run_length(text, |byte| !is_blank(byte)));
    text.split_at(run_length(text, is_blank))
}

fn is_blank(byte: &u8) -> bool
    ensures { result ≡ blank byte.now }
{
    *byte == b' ' || *byte == b'\t'
}

// How many bytes stand before the first that passes the test.
fn run_length<P: Fn(&u8) -> bool>(text: &[u8], ends: P) -> usize
    requires { P.IsAlwaysCallable ends }
    ensures count { (test : ℕ → Bool) → ((byte : _) (answer : Bool) → P.post ends byte answer → answer ≡ test byte.now) → result ≡ position_or_len test text.now }
    ensures within { result ≤ length text.now }
{
    text.iter().position(ends).unwrap_or(text.len())
}
