//! Splits a text into words, braces and quoted texts.

ghost use Rattle.std.specs.Prelude.{◌≡◌, ◌≢◌, ◌+◌, ◌<◌, ◌≤◌, ◌^◌, ◌∷◌, [], false, IfSome, MatchOption, length, slice_index};
ghost use Rattle.std.specs.List.{position_or_len};
ghost use Rattle.info_rules.specs.Words as words;
ghost use Rattle.info_rules.specs.Words.{tokens_from, quoted_len, from_line_end};
ghost use Rattle.info_rules.specs.Shown.{token_of};

/// A word, a brace that stands alone, or a quoted text.
#[derive(Clone, Copy)]
pub enum Token<'a> {
    /// A word, or the text between two quotes. Backslashes are not removed.
    Word(&'a str),
    Open,
    Close,
    /// A quoted text that is not closed on its line.
    Broken,
}

/// A token, the line of the token, and the text after the token. The text after the token begins on
/// the line of the token.
#[derive(Clone, Copy)]
pub struct NextToken<'a> {
    pub token: Token<'a>,
    pub line: u32,
    pub rest: &'a str,
}

/// Returns whether the octet separates unquoted words.
#[tactic(auto, unfolding(crate::specs::Words::is_separator))]
fn is_separator(octet: u8) -> bool
    ensures { result ≡ words.is_separator octet }
{
    matches!(octet, b' ' | b'\t' | b'\r' | b'\n' | b';')
}

/// Returns the token of an unquoted word: `Open` or `Close` if the word is a single brace,
/// otherwise `Word`.
#[tactic(auto, unfolding(crate::specs::Words::word_token))]
fn word_token(word: &str) -> Token<'_>
    ensures { token_of result ≡ words.word_token word.now }
{
    match word.as_bytes() {
        b"{" => Token::Open,
        b"}" => Token::Close,
        _ => Token::Word(word),
    }
}

/// Returns the length in octets of the word at the start of the text.
fn word_len(text: &[u8]) -> usize
    ensures { result ≡ position_or_len words.is_separator text.now }
{
    for (place, octet) in text.iter().enumerate() {
        if is_separator(*octet) {
            return place;
        }
    }
    text.len()
}

/// Returns whether `octet`, in a quoted text, is a quote that closes the quoted text. `is_escaped`
/// is true if a backslash is directly before `octet`: such a quote does not close the text.
#[tactic(auto, unfolding(crate::specs::Words::is_closing))]
fn is_closing(is_escaped: bool, octet: u8) -> bool
    ensures { result ≡ words.is_closing is_escaped octet }
{
    octet == b'"' && !is_escaped
}

/// Returns the number of octets before the closing quote, or `None` if the quoted text is not
/// closed on its line. `text` begins after the opening quote.
fn quoted_len(text: &[u8]) -> Option<usize>
    ensures { result ≡ quoted_len false text.now }
{
    let mut is_escaped = false;
    for (place, octet) in text.iter().enumerate() {
        if *octet == b'\n' {
            return None;
        }
        if is_closing(is_escaped, *octet) {
            return Some(place);
        }
        is_escaped = *octet == b'\\';
    }
    None
}

/// Returns the text from its first LF on, or an empty text if there is no LF.
fn from_line_end(text: &str) -> &str
    ensures read { result.now ≡ from_line_end text.now }
    ensures shorter { length result.now ≤ length text.now }
{
    match text.find('\n') {
        Some(place) => text.split_at(place).1,
        None => "",
    }
}

/// Returns the text without its first octet.
fn past_first(text: &str) -> &str
    requires some { 0 < length text.now }
    requires ascii { slice_index text.now 0 < 128 }
    ensures { text.now ≡ slice_index text.now 0 ∷ result.now }
{
    text.split_at(1).1
}

/// Returns the first token of a text that begins, on `line`, with an unquoted word.
#[tactic(auto, using(crate::proofs::Scanning::word_boundary, crate::proofs::Scanning::word_at_front, crate::proofs::Scanning::word_some))]
fn first_word(line: u32, text: &str) -> NextToken<'_>
    requires some { 0 < length text.now }
    requires plain { words.is_separator (slice_index text.now 0) ≡ false }
    requires bare { slice_index text.now 0 ≢ 34 }
    ensures read { tokens_from words.Between line text.now
        ≡ (result.line, token_of result.token) ∷ tokens_from words.Between line result.rest.now }
    ensures same { result.line ≡ line }
    ensures shorter { length result.rest.now < length text.now }
{
    let (word, rest) = text.split_at(word_len(text.as_bytes()));
    let token = word_token(word);
    NextToken { token, line, rest }
}

/// Returns the token of the quoted text, or `Broken` if the quoted text is not closed on its line.
/// `text` begins after the opening quote.
fn first_quoted(line: u32, text: &str) -> NextToken<'_>
    ensures read { tokens_from (words.InQuotes false []) line text.now
        ≡ (result.line, token_of result.token) ∷ tokens_from words.Between line result.rest.now }
    ensures same { result.line ≡ line }
    ensures shorter { length result.rest.now ≤ length text.now }
{
    match quoted_len(text.as_bytes()) {
        Some(len) => {
            let (inner, following) = text.split_at(len);
            NextToken {
                token: Token::Word(inner),
                line,
                rest: past_first(following),
            }
        }
        None => NextToken {
            token: Token::Broken,
            line,
            rest: from_line_end(text),
        },
    }
}

/// Returns the line on which the text after `octet` begins, where `octet` is on `line`.
fn line_after(line: u32, octet: u8) -> u32
    requires { line + 1 < 2 ^ 32 }
    ensures { result ≡ words.line_after line octet }
{
    if octet == b'\n' { line + 1 } else { line }
}

/// Returns the first token of a text that begins on `first_line`, or `None` if the text has only
/// separators and comments.
pub fn first_token(first_line: u32, text: &str) -> Option<NextToken<'_>>
    requires { first_line + length text.now < 2 ^ 32 }
    ensures read { MatchOption result (tokens_from words.Between first_line text.now ≡ [])
        (λ found. tokens_from words.Between first_line text.now
        ≡ (found.line, token_of found.token)
        ∷ tokens_from words.Between found.line found.rest.now) }
    ensures shorter { IfSome result (λ found. length found.rest.now < length text.now) }
    ensures fits { IfSome result
        (λ found. found.line + length found.rest.now ≤ first_line + length text.now) }
{
    let mut line = first_line;
    let mut rest = text;
    while !rest.is_empty() {
        let octet = rest.as_bytes()[0];
        if octet == b'"' {
            return Some(first_quoted(line, past_first(rest)));
        }
        if !is_separator(octet) {
            return Some(first_word(line, rest));
        }
        if octet == b';' {
            rest = from_line_end(past_first(rest));
        } else {
            line = line_after(line, octet);
            rest = past_first(rest);
        }
    }
    None
}

/// Returns the line where the text ends. The first line is 1.
pub fn end_line(text: &str) -> u32
    requires { length text.now < 2 ^ 31 }
    ensures { result ≡ words.end_line text.now }
{
    let mut line = 1;
    for octet in text.as_bytes() {
        if *octet == b'\n' {
            line += 1;
        }
    }
    line
}
