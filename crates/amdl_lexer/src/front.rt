ghost use Rattle.std.specs.Prelude.{◌≡◌, ◌≢◌, ◌≤◌, ◌<◌, ◌==◌, length, not, MatchOption, List, [], ◌∷◌, slice_index};
ghost use Rattle.std.specs.Prelude.{true};
ghost use Rattle.std.specs.List.{prefix_len, list_all};
ghost use Rattle.amdl_tree.specs.Word.{IsWord, starts_word, goes_on_with_word};
ghost use Rattle.amdl_tree.specs.Token.{is_digit, IsNumber, value_of_digits, spelling_of_sign, SpellsToken};
ghost use Rattle.amdl_tree.specs.Lexical.{is_blank};
ghost use Rattle.amdl_tree.specs.declared.token.Sign.{Sign};
ghost use Rattle.amdl_lexer.specs.Answer.{IsOverlong};
ghost use Rattle.amdl_lexer.specs.Sign.{StartsNoSign, IsLongestSign};
ghost use Rattle.amdl_lexer.specs.Front.{IsFront};

use amdl_tree::{Name, Reserved, Sign, Token, goes_on_with_a_word, starts_a_word};

const MOST_DIGITS: usize = 9;

/// What stands at the front of a text.
#[derive(Clone, Copy)]
pub enum Front {
    /// A blank or a comment of this many bytes.
    Gap(usize),
    /// A token that is spelled in this many bytes.
    Good(Token, usize),
    /// A word or a number that is too long.
    Overlong,
    /// A byte that starts nothing.
    Nothing,
}

/// What stands at the front of a text that is not empty. Time is linear in the bytes of the front.
pub fn front_of(bytes: &[u8]) -> Front
    requires { 0 < length bytes.now }
    ensures { IsFront bytes.now result }
{
    let first = bytes[0];
    if is_blank(first) {
        Front::Gap(1)
    } else if first == b'#' {
        Front::Gap(line_len(bytes))
    } else if starts_a_word(first) {
        word_front(bytes)
    } else if first.is_ascii_digit() {
        number_front(bytes)
    } else {
        match sign_at(bytes) {
            Some(sign) => Front::Good(Token::Sign(sign), sign.spelling().len()),
            None => Front::Nothing,
        }
    }
}

// The whole word at the front.
fn word_front(bytes: &[u8]) -> Front
    requires some { 0 < length bytes.now }
    requires starts { starts_word (slice_index bytes.now 0) ≡ true }
    ensures { IsFront bytes.now result }
{
    let size = word_len(bytes);
    match word_token(&bytes[..size]) {
        Some(token) => Front::Good(token, size),
        None => Front::Overlong,
    }
}

// The whole number at the front.
fn number_front(bytes: &[u8]) -> Front
    requires some { 0 < length bytes.now }
    requires starts { is_digit (slice_index bytes.now 0) ≡ true }
    ensures { IsFront bytes.now result }
{
    let size = digits_len(bytes);
    match number_token(&bytes[..size]) {
        Some(token) => Front::Good(token, size),
        None => Front::Overlong,
    }
}

// The token that is this word, unless the word is too long.
fn word_token(word: &[u8]) -> Option<Token>
    requires { IsWord word.now }
    ensures { MatchOption result (IsOverlong word.now) (λ token. SpellsToken token word.now) }
{
    match Reserved::of(word) {
        Some(key) => Some(Token::Key(key)),
        None => Name::new(word).map(Token::Word),
    }
}

// The token that is this number, unless it has too many digits.
fn number_token(digits: &[u8]) -> Option<Token>
    requires { IsNumber digits.now }
    ensures { MatchOption result (IsOverlong digits.now) (λ token. SpellsToken token digits.now) }
{
    if digits.len() > MOST_DIGITS {
        return None;
    }
    Some(Token::Number(value_of(digits)))
}

// The sign at the front, the longer one where two signs start there.
fn sign_at(bytes: &[u8]) -> Option<Sign>
    ensures { MatchOption result (StartsNoSign bytes.now) (IsLongestSign bytes.now) }
{
    match bytes {
        [] => None,
        [first] => sign_of_one(*first),
        [first, second, ..] => match sign_of_two(*first, *second) {
            Some(sign) => Some(sign),
            None => sign_of_one(*first),
        },
    }
}

fn is_blank(byte: u8) -> bool
    ensures { result ≡ is_blank byte }
{
    byte == b' ' || byte == b'\t' || byte == b'\r' || byte == b'\n'
}

// How many bytes stand before the end of the line.
fn line_len(bytes: &[u8]) -> usize
    ensures { result ≡ prefix_len (λ byte. not (byte == 10)) bytes.now }
{
    bytes.iter().take_while(|byte| **byte != b'\n').count()
}

// How many bytes at the front go on with a word.
fn word_len(bytes: &[u8]) -> usize
    ensures { result ≡ prefix_len goes_on_with_word bytes.now }
{
    bytes
        .iter()
        .take_while(|byte| goes_on_with_a_word(**byte))
        .count()
}

// How many digits stand at the front.
fn digits_len(bytes: &[u8]) -> usize
    ensures { result ≡ prefix_len is_digit bytes.now }
{
    bytes
        .iter()
        .take_while(|byte| byte.is_ascii_digit())
        .count()
}

// The value of at most 9 digits.
fn value_of(digits: &[u8]) -> u32
    requires digits { list_all is_digit digits.now ≡ true }
    requires few { length digits.now ≤ 9 }
    ensures { result ≡ value_of_digits digits.now }
{
    let mut value = 0;
    for digit in digits {
        value = 10 * value + u32::from(*digit - b'0');
    }
    value
}

// The sign that is these two bytes.
fn sign_of_two(first: u8, second: u8) -> Option<Sign>
    ensures { MatchOption result ((sign : Sign) → spelling_of_sign sign ≢ first ∷ second ∷ [])
        (λ sign. spelling_of_sign sign ≡ first ∷ second ∷ []) }
{
    match (first, second) {
        (b':', b'=') => Some(Sign::Becomes),
        (b'!', b'=') => Some(Sign::Differs),
        (b'-', b'>') => Some(Sign::Arrow),
        (b'-', b'-') => Some(Sign::Dashes),
        _ => None,
    }
}

// The sign that is this one byte.
fn sign_of_one(byte: u8) -> Option<Sign>
    ensures { MatchOption result ((sign : Sign) → spelling_of_sign sign ≢ byte ∷ [])
        (λ sign. spelling_of_sign sign ≡ byte ∷ []) }
{
    match byte {
        b';' => Some(Sign::Semicolon),
        b':' => Some(Sign::Colon),
        b',' => Some(Sign::Comma),
        b'.' => Some(Sign::Point),
        b'{' => Some(Sign::OpenBrace),
        b'}' => Some(Sign::CloseBrace),
        b'(' => Some(Sign::OpenParen),
        b')' => Some(Sign::CloseParen),
        b'[' => Some(Sign::OpenBracket),
        b']' => Some(Sign::CloseBracket),
        b'=' => Some(Sign::Equals),
        b'|' => Some(Sign::Bar),
        _ => None,
    }
}
