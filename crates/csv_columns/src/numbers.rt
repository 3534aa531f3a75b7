//! Numbers of up to 18 digits, read in 64 bits.

ghost use Rattle.std.specs.Prelude.{◌≡◌, ◌+◌, ◌^◌, ◌<◌, ◌≤◌, IfSome, None, length, if◌then◌else◌};
ghost use Rattle.dfx_value.specs.Digits.{digits};
ghost use Rattle.dfx_value.specs.Parse as spec;

/// How many digits 64 bits hold, whatever they are.
pub const SHORT: usize = 18;

/// The number that digits write after those of a number of so many digits.
#[tactic(auto, using(crate::proofs::NumberSteps::digit_steps))]
pub fn short_digits(before: u64, count: usize, bytes: &[u8]) -> Option<u64>
    requires before { before < 10 ^ count }
    requires short { count + length bytes.now ≤ 18 }
    ensures value { result ≡ digits before bytes.now }
    ensures below { IfSome result (λ n. n < 10 ^ (count + length bytes.now)) }
{
    let _ = count;
    let mut number = before;
    for byte in bytes {
        if !byte.is_ascii_digit() {
            return None;
        }
        number = number * 10 + u64::from(*byte - b'0');
    }
    Some(number)
}

/// Whether a minus stands first, and what follows an optional sign.
pub fn sign(bytes: &[u8]) -> (bool, &[u8])
    ensures negative { result.0 ≡ spec.negative bytes.now }
    ensures rest { result.1.now ≡ spec.unsigned bytes.now }
{
    match bytes {
        [b'-', rest @ ..] => (true, rest),
        [b'+', rest @ ..] => (false, rest),
        _ => (false, bytes),
    }
}

/// A number below 10^18 with a sign.
pub fn signed(negative: bool, magnitude: u64) -> i64
    requires { magnitude < 10 ^ 18 }
    ensures { result ≡ spec.signed negative magnitude }
{
    if negative {
        -(magnitude as i64)
    } else {
        magnitude as i64
    }
}

/// The whole number that a sign and up to 18 digits write.
#[tactic(auto, using(crate::proofs::NumberSteps::whole_steps))]
pub fn short_whole(negative: bool, bytes: &[u8]) -> Option<i64>
    requires { length bytes.now ≤ 18 }
    ensures { result ≡ (if spec.is_empty bytes.now then None
        else spec.int_from negative (digits 0 bytes.now)) }
{
    if bytes.is_empty() {
        return None;
    }
    match short_digits(0, 0, bytes) {
        None => None,
        Some(magnitude) => Some(signed(negative, magnitude)),
    }
}
