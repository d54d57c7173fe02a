// Lists of addresses, oldest first: how one is parted by a section of the map, and how one joins another.
ghost use Rattle.std.specs.Prelude.{◌≡◌, ◌+◌, ◌≤◌, ◌++◌, length, ◌==◌};
ghost use Rattle.arrayvec.specs.ArrayVec.{array_vec_len};
ghost use Rattle.model.specs.Stock.{cover, given, staying};

use arrayvec::ArrayVec;
use record::region::COVERED;

// A list as a section parts it: the addresses that are given back to the section, and those that stay.
#[derive(Drop)]
pub struct Parted<const N: usize> {
    pub given: ArrayVec<u16, N>,
    pub staying: ArrayVec<u16, N>,
}

// Of the numbers that section `k` covers, the oldest are given, at most `most` of them; the others stay.
pub fn part<const N: usize>(numbers: &[u16], k: u8, most: usize) -> Parted<N>
    requires { length numbers.now ≤ N }
    ensures given { result.given.items ≡ given k most numbers.now }
    ensures staying { result.staying.items ≡ staying k most numbers.now }
    ensures len { array_vec_len result.given + array_vec_len result.staying ≡ length numbers.now }
{
    let mut given = ArrayVec::new();
    let mut staying = ArrayVec::new();
    // A loop: partition makes no lists of a fixed capacity, and how many are given so far is asked on the way.
    for a in numbers {
        if given.len() < most && is_covered(*a, k) {
            given.push(*a);
        } else {
            staying.push(*a);
        }
    }
    Parted { given, staying }
}

// Adds these numbers at the end, in their order.
pub(crate) fn append<const N: usize>(numbers: &mut ArrayVec<u16, N>, more: &[u16])
    requires { array_vec_len numbers.old + length more.now ≤ N }
    ensures after { numbers.new.items ≡ numbers.old.items ++ more.now }
    ensures len { array_vec_len numbers.new ≡ array_vec_len numbers.old + length more.now }
{
    let Ok(()) = numbers.try_extend_from_slice(more) else {
        unreachable!();
    };
}

// Section `k` covers the number.
fn is_covered(a: u16, k: u8) -> bool
    ensures { result ≡ (cover a == k) }
{
    u32::from(a) / COVERED == u32::from(k)
}
