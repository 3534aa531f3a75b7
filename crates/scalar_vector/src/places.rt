//! Which rows of a batch are meant.

ghost use Rattle.std.specs.Prelude.{◌≡◌, ◌<◌, ◌≤◌, length, take, slice_index_or, IfOk, Some, None};
ghost use Rattle.scalar_vector.specs.Vectors.{places_of, open_places};
ghost use Rattle.scalar_vector.specs.Woven.{marked, unmarked};

use dfx_value::NoMemory;
use std::alloc::Global;

/// Which rows of a batch are meant.
#[derive(Clone, Copy)]
pub enum Places<'a> {
    /// So many from the start.
    First(u32),
    /// Those at these places.
    Chosen(&'a [u32]),
}

#[tactic(auto, using(crate::proofs::Loops::range_steps))]
impl<'a> Places<'a> {
    /// How many they are.
    pub fn len(self) -> usize
        ensures { result ≡ length (places_of self.entry) }
    {
        match self {
            Places::First(count) => count as usize,
            Places::Chosen(places) => places.len(),
        }
    }

    #[inline]
    pub fn get(self, at: usize) -> u32
        requires { at < length (places_of self) }
        ensures { result ≡ slice_index_or (places_of self.entry) at 0 }
    {
        match self {
            Places::First(_) => at as u32,
            Places::Chosen(places) => places[at],
        }
    }

    /// The first of them, so many or all.
    pub fn front(self, count: usize) -> Places<'a>
        ensures { places_of result ≡ take count (places_of self.entry) }
    {
        match self {
            Places::First(all) => Places::First(count.min(all as usize) as u32),
            Places::Chosen(places) => Places::Chosen(&places[..count.min(places.len())]),
        }
    }

    /// These, or of them those that are still open.
    pub fn among(self, left: &'a Option<Vec<u32>>) -> Places<'a>
        ensures { places_of result ≡ open_places (places_of self.entry) left.now }
    {
        match left {
            None => self,
            Some(left) => Places::Chosen(left.as_slice()),
        }
    }
}

/// The places that have a mark, and the others.
#[tactic(auto, using(crate::proofs::Loops::mark_steps))]
pub fn split(
    alloc: Global,
    places: Places<'_>,
    marks: &[bool],
) -> Result<(Vec<u32>, Vec<u32>), NoMemory>
    ensures yes { IfOk result (λ r. r.0.items ≡ marked marks.now (places_of places.entry)) }
    ensures no { IfOk result (λ r. r.1.items ≡ unmarked marks.now (places_of places.entry)) }
{
    let mut yes = Vec::new(alloc);
    let mut no = Vec::new(alloc);
    for at in 0..places.len().min(marks.len()) {
        if marks[at] {
            yes.push(places.get(at))?;
        } else {
            no.push(places.get(at))?;
        }
    }
    Ok((yes, no))
}
