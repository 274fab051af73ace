//! What tokens mean.
ghost use Rattle.std.specs.Prelude.{◌≡◌, ◌≤◌, IsTrue, drop, get_or, length, min};
ghost use Rattle.std.specs.Char.{is_ascii_digit};
ghost use Rattle.std.specs.List.{list_all};
ghost use Rattle.std.specs.Str.{bytes_eq};
ghost use Rattle.std.specs.Str.Parse.{digits_value};
ghost use Rattle.lisp_reader.specs.Meanings;

/// What a token means.
#[derive(Clone, Copy)]
pub enum Meaning {
    /// An integer, from -2^62 to 2^62 - 1.
    Integer(i64),
    /// A time in microseconds, up to 4,000,000,000 seconds.
    Time(u64),
    /// A symbol, whose name begins at this letter of the token.
    Symbol(usize),
    /// A keyword; the whole token is its name.
    Keyword,
    /// A number that is out of range.
    TooLarge,
    /// Nothing: such a token is refused.
    Bad,
}

/// The least size that no integer has, below zero or not.
const TOO_LARGE: u64 = (1 << 62) + 1;

/// The size that only integers below zero may have.
const LARGEST: u64 = 1 << 62;

/// The most whole seconds that a time has.
const MOST_SECONDS: u64 = 4_000_000_000;

/// The microseconds of a second.
const SECOND: u64 = 1_000_000;

/// How many digits a time may have after its dot.
const MOST_DECIMALS: usize = 6;

/// The letter at a place, or 0 after the last one.
fn letter_at(letters: &[u8], place: usize) -> u8
    ensures { result ≡ get_or letters.now place 0 }
{
    letters.get(place).copied().unwrap_or(0)
}

/// The letters from a place on.
pub(crate) fn letters_from(letters: &[u8], place: usize) -> &[u8]
    ensures { result.now ≡ drop place letters.now }
{
    &letters[place.min(letters.len())..]
}

/// Whether each of these letters is a digit.
fn has_only_digits(letters: &[u8]) -> bool
    ensures { result ≡ list_all is_ascii_digit letters.now }
{
    letters.iter().all(|letter| letter.is_ascii_digit())
}

/// Whether these letters are one or more digits.
fn are_digits(letters: &[u8]) -> bool
    ensures { result ≡ Meanings.are_digits letters.now }
{
    !letters.is_empty() && has_only_digits(letters)
}

/// Whether this letter is a plus or a minus.
fn is_sign(letter: u8) -> bool
    ensures { result ≡ Meanings.is_sign letter }
{
    letter == b'+' || letter == b'-'
}

/// The letters after the sign, where there is a sign; else all letters.
fn unsigned(letters: &[u8]) -> &[u8]
    ensures { result.now ≡ Meanings.unsigned letters.now }
{
    if is_sign(letter_at(letters, 0)) {
        letters_from(letters, 1)
    } else {
        letters
    }
}

/// The number with these digits, or `TOO_LARGE` where it is not below that.
fn size(digits: &[u8]) -> u64
    requires { IsTrue (list_all is_ascii_digit digits.now) }
    ensures { result ≡ min TOO_LARGE (digits_value 10 digits.now) }
{
    let mut size: u64 = 0;
    for digit in digits {
        size = size
            .saturating_mul(10)
            .saturating_add(u64::from(*digit - b'0'))
            .min(TOO_LARGE);
    }
    size
}

/// The integer of a size, below zero or not.
fn integer(below: bool, size: u64) -> Meaning
    ensures { result ≡ Meanings.integer_of below size }
{
    if below && size <= LARGEST {
        return Meaning::Integer(-(size as i64));
    }
    if !below && size < LARGEST {
        return Meaning::Integer(size as i64);
    }
    Meaning::TooLarge
}

/// How many digits these letters begin with.
fn digits_before(letters: &[u8]) -> usize
    ensures digits { result ≡ Meanings.digits_before letters.now }
    ensures within { result ≤ length letters.now }
{
    letters
        .iter()
        .take_while(|letter| letter.is_ascii_digit())
        .count()
}

/// The letters after the first digits and the dot.
fn behind_dot(letters: &[u8]) -> &[u8]
    ensures { result.now ≡ Meanings.behind_dot letters.now }
{
    letters_from(letters, digits_before(letters) + 1)
}

/// Whether these letters are digits, a dot and one to six digits.
fn is_time(letters: &[u8]) -> bool
    ensures { result ≡ Meanings.is_time letters.now }
{
    let whole = digits_before(letters);
    let decimals = behind_dot(letters);
    whole > 0
        && letter_at(letters, whole) == b'.'
        && are_digits(decimals)
        && decimals.len() <= MOST_DECIMALS
}

/// The time with these letters.
fn time(letters: &[u8]) -> Meaning
    requires { IsTrue (Meanings.is_time letters.now) }
    ensures { result ≡ Meanings.time_of (Meanings.micros_in letters.now) }
{
    let seconds = size(&letters[..digits_before(letters)]);
    if seconds > MOST_SECONDS {
        return Meaning::TooLarge;
    }
    let decimals = behind_dot(letters);
    let scale = 10_u64.pow((MOST_DECIMALS - decimals.len()) as u32);
    let micros = seconds * SECOND + size(decimals) * scale;
    if micros <= MOST_SECONDS * SECOND {
        Meaning::Time(micros)
    } else {
        Meaning::TooLarge
    }
}

/// Whether a token begins as a number does.
fn begins_as_number(letters: &[u8]) -> bool
    ensures { result ≡ Meanings.begins_as_number letters.now }
{
    let first = letter_at(letters, 0);
    first.is_ascii_digit()
        || first == b'.'
        || (is_sign(first) && letter_at(letters, 1).is_ascii_digit())
}

/// Whether names may have this letter.
fn is_name_letter(letter: u8) -> bool
    ensures { result ≡ Meanings.is_name_letter letter }
{
    letter.is_ascii_alphanumeric() || b"+-*/<>=!?$%&_^~@.".contains(&letter)
}

/// Whether names may have each of these letters.
fn has_only_name_letters(letters: &[u8]) -> bool
    ensures { result ≡ list_all Meanings.is_name_letter letters.now }
{
    letters.iter().all(|letter| is_name_letter(*letter))
}

/// Whether these letters are one or more letters of names.
fn is_symbol_name(letters: &[u8]) -> bool
    ensures { result ≡ Meanings.is_symbol_name letters.now }
{
    !letters.is_empty() && has_only_name_letters(letters)
}

/// Whether two rows of letters are the same in upper case.
fn are_same_folded(letters: &[u8], others: &[u8]) -> bool
    ensures { result ≡ bytes_eq (Meanings.upper letters.now) (Meanings.upper others.now) }
{
    letters.eq_ignore_ascii_case(others)
}

/// Whether these letters, in upper case, name a package that may be the prefix of a symbol.
fn is_package(prefix: &[u8]) -> bool
    ensures { result ≡ Meanings.is_package (Meanings.upper prefix.now) }
{
    are_same_folded(prefix, b"CL")
        || are_same_folded(prefix, b"COMMON-LISP")
        || are_same_folded(prefix, b"SB-THREAD")
        || are_same_folded(prefix, b"SB-SYS")
        || are_same_folded(prefix, b"SB-EXT")
        || are_same_folded(prefix, b"SB-CONCURRENCY")
}

/// How many letters are before the first colon.
fn before_colon(letters: &[u8]) -> usize
    ensures letters { result ≡ Meanings.before_colon letters.now }
    ensures within { result ≤ length letters.now }
{
    letters.iter().take_while(|letter| **letter != b':').count()
}

/// Where the name begins after a prefix and one or two colons.
fn behind_colons(letters: &[u8]) -> usize
    ensures { result ≡ Meanings.behind_colons letters.now }
{
    let behind_one = before_colon(letters) + 1;
    if letter_at(letters, behind_one) == b':' {
        behind_one + 1
    } else {
        behind_one
    }
}

/// The symbol whose name begins at a place, where that is a name.
fn symbol_at(start: usize, letters: &[u8]) -> Meaning
    ensures { result ≡ Meanings.symbol_at start letters.now }
{
    if is_symbol_name(letters_from(letters, start)) {
        Meaning::Symbol(start)
    } else {
        Meaning::Bad
    }
}

/// What a token means that is a name, or a prefix and a name, or anything else.
fn named(letters: &[u8]) -> Meaning
    ensures { result ≡ Meanings.named letters.now }
{
    let prefix = before_colon(letters);
    if prefix == letters.len() {
        return symbol_at(0, letters);
    }
    if is_package(&letters[..prefix]) {
        return symbol_at(behind_colons(letters), letters);
    }
    Meaning::Bad
}

/// What a token means that begins with a colon.
fn keyword(letters: &[u8]) -> Meaning
    ensures { result ≡ Meanings.keyword_in letters.now }
{
    if is_symbol_name(letters_from(letters, 1)) {
        Meaning::Keyword
    } else {
        Meaning::Bad
    }
}

/// What the token with these letters means.
pub fn meaning_of(letters: &[u8]) -> Meaning
    ensures { result ≡ Meanings.meaning_in letters.now }
{
    let digits = unsigned(letters);
    if are_digits(digits) {
        return integer(letter_at(letters, 0) == b'-', size(digits));
    }
    if is_time(letters) {
        return time(letters);
    }
    if letters == b"1+".as_slice() || letters == b"1-".as_slice() {
        return Meaning::Symbol(0);
    }
    if begins_as_number(letters) {
        return Meaning::Bad;
    }
    if letter_at(letters, 0) == b':' {
        return keyword(letters);
    }
    named(letters)
}
