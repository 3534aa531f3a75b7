//! Sources that are read by place, as a trait, and how all of one is read.

ghost use Rattle.std.specs.Prelude.{◌≡◌, ◌≤◌, ◌<◌, ◌+◌, take, ℕ, List, length, Option, Some, Err, IfOk};
ghost use Rattle.dfx_outside.specs.Causes.{HasCause, Rose};
ghost use Rattle.dfx_outside.specs.Bytes.{IsFilled};
ghost use Rattle.dfx_outside.specs.declared.source.OutsideRefused.TheVariants as refused;

use std::alloc::Global;

/// The device failed.
#[derive(Clone, Copy, Debug, PartialEq, Eq)]
pub struct Failed;

/// Why a call on the outside has no answer.
#[derive(Clone, Copy, Debug, PartialEq, Eq)]
pub enum OutsideRefused {
    /// The device failed.
    Failed,
    /// There was no memory.
    NoMemory,
}

/// A file that is read by place.
pub trait Source: Send {
    /// The bytes, where the source tells them. No call changes them.
    ghost told: { Self → Option (List ℕ) };

    /// How many bytes there are. No call changes it.
    ghost size: { Self → ℕ };

    /// How often a read has failed. It never falls.
    ghost faults: { Self → ℕ };

    /// How many bytes there are.
    fn size(&self) -> u64
        ensures size { result ≡ size self.now }
        ensures told { (bytes : List ℕ) → told self.now ≡ Some bytes → result ≡ length bytes };

    /// Fills a beginning of the buffer with the bytes from `at`, and answers how many. For a buffer that isn't
    /// empty this is 0 only at or past the end, where the bytes are told.
    fn read_at(&mut self, at: u64, buffer: &mut [u8]) -> Result<usize, Failed>
        ensures within { IfOk result (λ n. n ≤ length buffer.old) }
        ensures bytes { IsFilled (told self.old) at buffer.old buffer.new result }
        ensures same { (told self.new ≡ told self.old) × (size self.new ≡ size self.old) }
        ensures cause { HasCause (faults self.old) (faults self.new) result };
}

// Reads bytes from `at` into the buffer from `at`, and answers how many. Where the bytes are told, the buffer then
// begins with that many more of them than it did.
fn read_more<S: Source>(source: &mut S, buffer: &mut [u8], at: usize) -> Result<usize, Failed>
    requires { at ≤ length buffer.old }
    ensures within { IfOk result (λ n. at + n ≤ length buffer.old) }
    ensures front { (v : List ℕ) → S.told source.old ≡ Some v → take at buffer.old ≡ take at v
        → IfOk result (λ n. take (at + n) buffer.new ≡ take (at + n) v) }
    ensures some { (v : List ℕ) → S.told source.old ≡ Some v → at < length buffer.old
        → at < length v → IfOk result (λ n. 0 < n) }
    ensures same { (S.told source.new ≡ S.told source.old)
        × (S.size source.new ≡ S.size source.old) }
    ensures cause { HasCause (S.faults source.old) (S.faults source.new) result }
{
    source.read_at(at as u64, &mut buffer[at..])
}

// Fills the buffer from its start, up to the first read that gives none, and answers how far.
fn fill<S: Source>(source: &mut S, buffer: &mut [u8]) -> Result<usize, Failed>
    ensures within { IfOk result (λ n. n ≤ length buffer.old) }
    ensures front { (v : List ℕ) → S.told source.old ≡ Some v → length buffer.old ≡ length v
        → IfOk result (λ n. take n buffer.new ≡ v) }
    ensures same { (S.told source.new ≡ S.told source.old)
        × (S.size source.new ≡ S.size source.old) }
    ensures cause { HasCause (S.faults source.old) (S.faults source.new) result }
{
    let mut at = 0;
    while at < buffer.len() {
        let count = read_more(source, buffer, at)?;
        if count == 0 {
            break;
        }
        at += count;
    }
    Ok(at)
}

/// All the bytes of a source, read below its size and up to the first read that gives none.
pub fn read_all<S: Source>(alloc: Global, source: &mut S) -> Result<Vec<u8>, OutsideRefused>
    ensures bytes { (v : List ℕ) → S.told source.old ≡ Some v → IfOk result (λ all. all.items ≡ v) }
    ensures within { IfOk result (λ all. length all.items ≤ S.size source.old) }
    ensures same { (S.told source.new ≡ S.told source.old)
        × (S.size source.new ≡ S.size source.old) }
    ensures later { S.faults source.old ≤ S.faults source.new }
    ensures failed { result ≡ Err refused.Failed
        → Rose (S.faults source.old) (S.faults source.new) }
{
    let size = source.size() as usize;
    let Ok(mut all) = vec![in alloc; 0u8; size] else {
        return Err(OutsideRefused::NoMemory);
    };
    match fill(source, &mut all) {
        Err(_) => Err(OutsideRefused::Failed),
        Ok(count) => {
            all.truncate(count);
            Ok(all)
        }
    }
}
