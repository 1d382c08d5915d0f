// Numbers as most programs write them: a few digits after spaces, and coordinates with four places or more after
// their point. What is written in another way has no number here, and is read in the general way.
ghost use Rattle.std.specs.Prelude.{◌≡◌, ◌≤◌, ◌+◌, ◌-◌, ◌*◌, ◌∷◌, [], pos, true, length, unsigned_abs, if◌then◌else◌, take, IfSome, Ok, Some};
ghost use Rattle.std.specs.List.{list_all};
ghost use Rattle.cip_text.specs.Columns.{without_spaces_before};
ghost use Rattle.cip_text.specs.Lines.{starts_with_byte};
ghost use Rattle.cip_text.specs.Numbers.{is_digit, signed, integer_of, decimal4_of};
ghost use Rattle.cip_ctfile.specs.Usual.{trimmed, unsigned, Spells, ArePlaces, IsWholePart, IsSizeBegun, IsDecimalBegun};

use cip_text::starts_with_byte;

/// The number in three columns, digits after spaces.
pub fn usual_number(first: u8, second: u8, third: u8) -> Option<u32>
    ensures { IfSome result (λ number. integer_of (trimmed (first ∷ second ∷ third ∷ [])) ≡ Ok (pos number)) }
{
    let Some(ones) = digit_of(third) else {
        return None;
    };
    if first == b' ' && second == b' ' {
        return Some(ones);
    }
    let Some(tens) = digit_of(second) else {
        return None;
    };
    if first == b' ' {
        return Some(10 * tens + ones);
    }
    match digit_of(first) {
        Some(hundreds) => Some(100 * hundreds + (10 * tens + ones)),
        None => None,
    }
}

/// The number in three columns, one digit after two spaces.
#[tactic(auto, using(crate::proofs::lemmas::UsualNumbers::one_digit))]
pub fn usual_digit(first: u8, second: u8, third: u8) -> Option<u32>
    ensures { IfSome result (λ number. integer_of (trimmed (first ∷ second ∷ third ∷ [])) ≡ Ok (pos number)) }
{
    if first == b' ' && second == b' ' {
        digit_of(third)
    } else {
        None
    }
}

/// The decimal in ten columns with its point in the sixth one, in ten-thousandths.
pub fn usual_decimal(columns: &[u8]) -> Option<i64>
    requires { length columns.now ≡ 10 }
    ensures value { IfSome result (λ number. decimal4_of (trimmed columns.now) ≡ Ok number) }
    ensures small { IfSome result (λ number. unsigned_abs number ≤ 500000000) }
{
    if columns[5] != b'.' {
        return None;
    }
    match four_digits(&columns[6..]) {
        Some(places) => {
            let front = trim_start_spaces(&columns[..5]);
            match few_digits(without_minus(front)) {
                Some(whole) => with_sign(
                    starts_with_byte(front, b'-'),
                    ten_thousandths(whole, places),
                ),
                None => None,
            }
        }
        None => None,
    }
}

// The number before the first point of a text, digits alone and one at least, and the place of that point.
fn whole_part(text: &[u8]) -> Option<(u32, usize)>
    ensures { IfSome result (IsWholePart text.now) }
{
    let mut sum: u32 = 0;
    for (place, byte) in text.iter().enumerate() {
        if *byte == b'.' && place > 0 {
            return Some((sum, place));
        }
        match digit_of(*byte) {
            Some(digit) if sum <= 99_999 => sum = 10 * sum + digit,
            _ => return None,
        }
    }
    None
}

/// The decimal of the word that begins a text, with four digits at least after its point, in ten-thousandths, and the
/// place after that word, at a space or the end.
pub fn parse_decimal_prefix(text: &[u8]) -> Option<(i64, usize)>
    ensures value { IfSome result (IsDecimalBegun text.now) }
    ensures small { IfSome result (λ found. unsigned_abs found.0 ≤ 500000000) }
{
    let bare = without_minus(text);
    match size_begun(bare) {
        Some((size, end)) => match with_sign(starts_with_byte(text, b'-'), size) {
            Some(number) => Some((number, text.len() - bare.len() + end)),
            None => None,
        },
        None => None,
    }
}

// The same without a minus.
fn size_begun(text: &[u8]) -> Option<(u64, usize)>
    ensures { IfSome result (IsSizeBegun text.now) }
{
    let Some((whole, point)) = whole_part(text) else {
        return None;
    };
    let behind = &text[point + 1..];
    if behind.len() < 4 {
        return None;
    }
    match four_digits(&behind[..4]) {
        Some(places) => {
            let end = point + 5 + digits_end(&behind[4..]);
            if end < text.len() && text[end] != b' ' {
                None
            } else {
                Some((ten_thousandths(whole, places), end))
            }
        }
        None => None,
    }
}

// How many digits begin a text.
fn digits_end(text: &[u8]) -> usize
    ensures within { result ≤ length text.now }
    ensures digits { list_all is_digit (take result text.now) ≡ true }
{
    let mut end = 0;
    while end < text.len() && text[end].is_ascii_digit() {
        end += 1;
    }
    end
}

/// The number that a text of digits alone, one at least, spells, where it is below a million.
pub fn few_digits(text: &[u8]) -> Option<u32>
    ensures { IfSome result (Spells text.now) }
{
    if text.is_empty() {
        return None;
    }
    let mut sum: u32 = 0;
    for byte in text {
        match digit_of(*byte) {
            Some(digit) if sum <= 99_999 => sum = 10 * sum + digit,
            _ => return None,
        }
    }
    Some(sum)
}

fn four_digits(text: &[u8]) -> Option<u32>
    requires { length text.now ≡ 4 }
    ensures { IfSome result (ArePlaces text.now) }
{
    match (
        digit_of(text[0]),
        digit_of(text[1]),
        digit_of(text[2]),
        digit_of(text[3]),
    ) {
        (Some(thousands), Some(hundreds), Some(tens), Some(ones)) => {
            Some(1000 * thousands + (100 * hundreds + (10 * tens + ones)))
        }
        _ => None,
    }
}

fn digit_of(byte: u8) -> Option<u32>
    ensures digit { IfSome result (λ _. is_digit byte ≡ true) }
    ensures value { IfSome result (λ digit. digit ≡ byte - 48) }
    ensures small { IfSome result (λ digit. digit ≤ 9) }
{
    if byte.is_ascii_digit() {
        Some(u32::from(byte - b'0'))
    } else {
        None
    }
}

/// A text without the spaces before it.
pub fn trim_start_spaces(text: &[u8]) -> &[u8]
    ensures { result.now ≡ without_spaces_before text.now }
{
    let mut rest = text;
    while let [b' ', behind @ ..] = rest {
        rest = behind;
    }
    rest
}

fn without_minus(text: &[u8]) -> &[u8]
    ensures { result.now ≡ unsigned text.now }
{
    if starts_with_byte(text, b'-') {
        &text[1..]
    } else {
        text
    }
}

fn ten_thousandths(whole: u32, places: u32) -> u64
    requires whole { whole ≤ 999999 }
    requires places { places ≤ 9999 }
    ensures { result ≡ 10000 * whole + places }
{
    10_000 * u64::from(whole) + u64::from(places)
}

// A number with its sign, where it isn't too large for a coordinate.
fn with_sign(negative: bool, size: u64) -> Option<i64>
    ensures value { IfSome result (λ number. signed 500000000 negative (Some size) ≡ Ok number) }
    ensures small { IfSome result (λ number. unsigned_abs number ≤ 500000000) }
{
    if size > 500_000_000 {
        None
    } else if negative {
        Some(-(size as i64))
    } else {
        Some(size as i64)
    }
}
