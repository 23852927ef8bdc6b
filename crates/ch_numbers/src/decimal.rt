ghost use Rattle.std.specs.Prelude.{◌≡◌, ◌≤◌, IfSome};
ghost use Rattle.ch_numbers.specs.Natural.{natural_of};

/// The number, at most `most`, that digits spell with no needless zero in front.
pub fn natural(most: u64, digits: &[u8]) -> Option<u64>
    requires { 9 ≤ most }
    ensures value { result ≡ natural_of most digits.now }
    ensures small { IfSome result (λ n. n ≤ most) }
{
    match digits {
        [] => return None,
        [b'0', _, ..] => return None,
        _ => {}
    }
    let mut value: u64 = 0;
    for digit in digits {
        if !digit.is_ascii_digit() {
            return None;
        }
        let unit = u64::from(*digit - b'0');
        if value > (most - unit) / 10 {
            return None;
        }
        value = value * 10 + unit;
    }
    Some(value)
}
