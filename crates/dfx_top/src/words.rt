//! The words of a command.

ghost use Rattle.std.specs.Prelude.{◌≡◌, ◌<◌, IfSome, option_map};
ghost use Rattle.dfx_top.specs.Requests.{partitions_for};
ghost use Rattle.dfx_top.specs.CommandWords as spec;

use dfx_value::Text;

/// What a command does with its script.
#[derive(Clone, Copy, Debug, PartialEq, Eq)]
pub enum Request {
    /// It writes the answer of the query.
    Query,
    /// It writes the text of the plan for so many partitions, from 1 to 64.
    Explain { partitions: u32 },
}

/// A request, and the path of its script.
#[derive(Clone, Copy, Drop)]
pub struct Requested<'a> {
    pub request: Request,
    pub script: &'a Text,
}

/// The number of partitions where nothing is said.
pub const DEFAULT_PARTITIONS: u32 = 4;

/// Whether a word may name a file: it isn't empty and doesn't begin with `-`.
fn is_plain(word: &[u8]) -> bool
    ensures { result ≡ spec.is_plain word.now }
{
    match word {
        [] => false,
        [first, ..] => *first != b'-',
    }
}

/// The number that digits write, as far as it is a number of partitions.
#[tactic(auto, using(crate::proofs::WordSteps::too_great))]
fn number_of(digits: &[u8]) -> Option<u32>
    ensures number { result ≡ spec.in_range (spec.number_after 0 digits.now) }
    ensures some { IfSome result (λ n. 0 < n) }
{
    let mut number: u32 = 0;
    for byte in digits {
        if number > 64 {
            return None;
        }
        if !byte.is_ascii_digit() {
            return None;
        }
        number = number * 10 + u32::from(*byte - b'0');
    }
    if number >= 1 && number <= 64 {
        Some(number)
    } else {
        None
    }
}

/// The number of partitions that a word writes: 1 to 20 digits, from 1 to 64.
fn partitions_of(word: &[u8]) -> Option<u32>
    ensures number { result ≡ spec.partitions_of word.now }
    ensures some { IfSome result (λ n. 0 < n) }
{
    if word.len() >= 1 && word.len() <= 20 {
        number_of(word)
    } else {
        None
    }
}

/// The request of a command's name and its file.
fn plain_request<'a>(name: &Text, script: &'a Text) -> Option<Requested<'a>>
    ensures request { option_map spec.viewed result ≡ spec.plain_request name.now script.now }
    ensures some { IfSome result (λ r. 0 < partitions_for r.request) }
{
    if name.as_str() == "query" {
        Some(Requested {
            request: Request::Query,
            script,
        })
    } else if name.as_str() == "explain" {
        Some(Requested {
            request: Request::Explain {
                partitions: DEFAULT_PARTITIONS,
            },
            script,
        })
    } else {
        None
    }
}

/// The request to explain a file with a number of partitions.
fn explained<'a>(script: &'a Text, number: &Text) -> Option<Requested<'a>>
    ensures request { option_map spec.viewed result
        ≡ spec.explained script.now (spec.partitions_of number.now) }
    ensures some { IfSome result (λ r. 0 < partitions_for r.request) }
{
    match partitions_of(number.bytes()) {
        Some(partitions) => Some(Requested {
            request: Request::Explain { partitions },
            script,
        }),
        None => None,
    }
}

/// What the words `query FILE`, `explain FILE` or `explain FILE --partitions N` ask for, over at least one partition; none where
/// they are refused.
pub fn request_of(words: &[Text]) -> Option<Requested<'_>>
    ensures request { option_map spec.viewed result ≡ spec.request_of words.now }
    ensures some { IfSome result (λ r. 0 < partitions_for r.request) }
{
    match words {
        [name, script] => {
            if is_plain(script.bytes()) {
                plain_request(name, script)
            } else {
                None
            }
        }
        [name, script, option, number] => {
            if name.as_str() == "explain"
                && is_plain(script.bytes())
                && option.as_str() == "--partitions"
            {
                explained(script, number)
            } else {
                None
            }
        }
        _ => None,
    }
}
