ghost use Rattle.std.specs.Prelude.{◌≡◌, not, [], ◌∷◌, position, MatchOption};
ghost use Rattle.text.specs.Words.{is_space, words, none, NoneEmpty};

// Words are separated by spaces, tabs and carriage returns.
fn is_space(c: u8) -> bool
    ensures { result ≡ is_space c }
{
    matches!(c, b' ' | b'\t' | b'\r')
}

fn word_start(text: &[u8]) -> Option<usize>
    ensures { result ≡ position (λ c. not (is_space c)) text.now }
{
    text.iter().position(|c| !is_space(*c))
}

fn word_end(text: &[u8]) -> Option<usize>
    ensures { result ≡ position is_space text.now }
{
    text.iter().position(|c| is_space(*c))
}

// The first word of a text, and what follows it; none where there is no word.
pub fn first_word(text: &[u8]) -> Option<(&[u8], &[u8])>
    ensures first { MatchOption result (words text.now ≡ []) (λ x. words text.now ≡ x.0.now ∷ words x.1.now) }
    ensures full { NoneEmpty }
{
    let start = word_start(text)?;
    let rest = &text[start..];
    let end = word_end(rest).unwrap_or(rest.len());
    Some(rest.split_at(end))
}

// Whether there is no word.
pub fn is_blank(text: &[u8]) -> bool
    ensures { result ≡ none (words text.now) }
{
    first_word(text).is_none()
}
