//! Names of tiles and of their files.
ghost use Rattle.std.specs.Prelude.{◌≡◌, ◌≢◌, ◌<◌, ◌≤◌, ◌+◌, ℤ, [], ◌∷◌, ◌++◌, All, length, IfOk, IfErr, IfSome, SomeIff, MatchOption};
ghost use Rattle.std.specs.Str.{byte};
ghost use Rattle.std.specs.Char.{IsAsciiDigit};
ghost use Rattle.lattice.specs.Corners.{Corner};
ghost use Rattle.hgt.specs.Names.{IsName, IsFileName, IsDegrees, base_name, decimal, name_bytes, letter_of, two_digits};
ghost use Rattle.arrayvec.specs.ArrayString.{array_string_len};

use arrayvec::ArrayString;
use lattice::{Corner, Refusal};

/// The corner that the text names: `N` or `S`, two digits, `E` or `W`, three digits, the letters in either case. `S00`
/// is latitude 0 and `W000` longitude 0. Any other text, and degrees without a corner, are `BadName`.
pub fn name_of(text: &[u8]) -> Result<Corner, Refusal>
    ensures ok { IfOk result (λ c. IsName text.now c) }
    ensures err { IfErr result (λ r. (r ≡ Refusal.BadName) × ((c : Corner) → ¬ IsName text.now c)) }
{
    corner_named(text).ok_or(Refusal::BadName)
}

fn corner_named(text: &[u8]) -> Option<Corner>
    ensures { MatchOption result ((c : Corner) → ¬ IsName text.now c) (λ c. IsName text.now c) }
{
    if text.len() != 7 {
        return None;
    }
    let lat = degrees(b'N', b'S', text[0], &text[1..3])?;
    let lon = degrees(b'E', b'W', text[3], &text[4..7])?;
    Corner::new(lat, lon)
}

// The degrees that a letter and digits spell.
fn degrees(up: u8, down: u8, letter: u8, digits: &[u8]) -> Option<i16>
    requires apart { up ≢ down }
    requires few { length digits.now ≤ 3 }
    ensures { MatchOption result ((v : ℤ) → ¬ IsDegrees up down letter digits.now v) (λ v. IsDegrees up down letter digits.now v) }
{
    let size = number(digits)? as i16;
    let letter = letter.to_ascii_uppercase();
    if letter == up {
        Some(size)
    } else if letter == down {
        Some(-size)
    } else {
        None
    }
}

// The number that the digits spell, if all are digits.
fn number(digits: &[u8]) -> Option<u16>
    requires { length digits.now ≤ 3 }
    ensures value { SomeIff result (All IsAsciiDigit digits.now) (decimal digits.now) }
    ensures small { IfSome result (λ n. n < 1000) }
{
    let mut value = 0;
    for digit in digits {
        if !digit.is_ascii_digit() {
            return None;
        }
        value = 10 * value + u16::from(*digit - b'0');
    }
    Some(value)
}

/// The corner whose tile is in the file at this path, from the first seven bytes of its base name (the text after the
/// last `/`). The base name has at least 11 bytes and ends in `.hgt`, in any case; any other is `BadName`.
pub fn file_name(text: &[u8]) -> Result<Corner, Refusal>
    ensures ok { IfOk result (λ c. IsFileName text.now c) }
    ensures err { IfErr result (λ r. (r ≡ Refusal.BadName)
        × ((c : Corner) → ¬ IsFileName text.now c)) }
{
    let base = after_slash(text);
    if base.len() < 11 || !base[base.len() - 4..].eq_ignore_ascii_case(b".hgt") {
        return Err(Refusal::BadName);
    }
    name_of(&base[..7])
}

fn after_slash(path: &[u8]) -> &[u8]
    ensures { result.now ≡ base_name path.now }
{
    match path.iter().rposition(|&c| c == b'/') {
        Some(i) => &path[i + 1..],
        None => path,
    }
}

/// The corner's printed name, in upper case: `N00E000` for latitude 0 and longitude 0.
pub fn name_text(corner: Corner) -> ArrayString<7>
    ensures value { result.bytes ≡ name_bytes corner }
    ensures name { IsName result.bytes corner }
    ensures only { (c : Corner) → IsName result.bytes c → c ≡ corner }
{
    let mut text = ArrayString::new();
    let lat = corner.lat.unsigned_abs();
    let lon = corner.lon.unsigned_abs();
    push_letter(&mut text, 'N', 'S', corner.lat);
    push_two_digits(&mut text, lat);
    push_letter(&mut text, 'E', 'W', corner.lon);
    push_digit(&mut text, lon / 100);
    push_two_digits(&mut text, lon % 100);
    text
}

fn push_letter(text: &mut ArrayString<7>, up: char, down: char, value: i16)
    requires room { array_string_len text.old < 7 }
    requires up { up < 128 }
    requires down { down < 128 }
    ensures { text.new.bytes ≡ text.old.bytes ++ letter_of up down value ∷ [] }
{
    text.push(if value < 0 { down } else { up });
}

fn push_two_digits(text: &mut ArrayString<7>, value: u16)
    requires room { array_string_len text.old < 6 }
    requires small { value < 100 }
    ensures { text.new.bytes ≡ text.old.bytes ++ two_digits value }
{
    push_digit(text, value / 10);
    push_digit(text, value % 10);
}

fn push_digit(text: &mut ArrayString<7>, value: u16)
    requires room { array_string_len text.old < 7 }
    requires small { value < 10 }
    ensures { text.new.bytes ≡ text.old.bytes ++ (byte "0" + value) ∷ [] }
{
    text.push(char::from(b'0' + value as u8));
}
