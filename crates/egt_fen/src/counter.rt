//! The clocks.
ghost use Rattle.std.specs.Prelude.{◌≡◌, ◌≤◌, ◌<◌, length, IfSome, Some};
ghost use Rattle.egt_fen.specs.Prelude.{option_map, is_ascii_digit, list_all, digits_value, AllDigits, counter_of};
ghost use Rattle.egt_fen.specs.Prelude.{clocks_of};

/// The halfmove clock and the fullmove number, each below a thousand million; 0 and 1 where the fields are left out.
/// `None` where one is not one to nine decimal digits.
pub fn clocks_of(fields: Option<(&[u8], &[u8])>) -> Option<(u32, u32)>
    ensures value { result ≡ clocks_of (option_map (λ pair. (pair.0.now, pair.1.now)) fields.entry) }
    ensures small { IfSome result (λ clocks. (clocks.0 < 1000000000) × (clocks.1 < 1000000000)) }
{
    let Some((halfmove, fullmove)) = fields else {
        return Some((0, 1));
    };
    let halfmove = counter_of(halfmove)?;
    let fullmove = counter_of(fullmove)?;
    Some((halfmove, fullmove))
}

/// The number of one to nine decimal digits; `None` for any other field.
fn counter_of(field: &[u8]) -> Option<u32>
    ensures value { result ≡ counter_of field.now }
    ensures small { IfSome result (λ n. n < 1000000000) }
{
    if field.is_empty() || field.len() > 9 || !are_digits(field) {
        return None;
    }
    Some(value_of(field))
}

fn are_digits(field: &[u8]) -> bool
    ensures { result ≡ list_all is_ascii_digit field.now }
{
    field.iter().all(|byte| byte.is_ascii_digit())
}

/// The number that these digits write.

fn value_of(digits: &[u8]) -> u32
    requires few { length digits.now ≤ 9 }
    requires digits { AllDigits 10 digits.now }
    ensures value { result ≡ digits_value 10 digits.now }
    ensures small { result < 1000000000 }
{
    let mut value = 0;
    for digit in digits {
        value = 10 * value + u32::from(digit - b'0');
    }
    value
}
