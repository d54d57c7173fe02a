// Edits of a map section: numbers are taken out of it, and given back to it.
ghost use Rattle.std.specs.Prelude.{◌≡◌, ◌-◌, ◌<◌, ◌≤◌, length};
ghost use Rattle.arrayvec.specs.ArrayVec.{array_vec_len};
ghost use Rattle.record.specs.Regions.{first_of};
ghost use Rattle.model.specs.Stock.{lowest, all_marked};

use arrayvec::ArrayVec;
use record::region::COVERED;
use record::section::Section;

// Takes the lowest free numbers of section `k`, at most `most` of them.
pub fn take_lowest<const N: usize>(section: &mut Section, k: u8, most: usize) -> ArrayVec<u16, N>
    requires few { most ≤ N }
    requires fits { k < 16 }
    ensures taken { result.items ≡ lowest section.old.bits k most }
    ensures left { section.new.bits ≡ all_marked k 0 (lowest section.old.bits k most) section.old.bits }
    ensures len { array_vec_len result ≤ most }
{
    let first = COVERED as usize * usize::from(k);
    let mut taken = ArrayVec::new();
    let mut from = 0;
    // A loop: each take changes the section that the next search goes over.
    while taken.len() < most {
        let Some(r) = section.lowest_free(from) else {
            break;
        };
        section.take(r);
        taken.push((first + r) as u16);
        from = r + 1;
    }
    taken
}

// Frees all of these numbers of section `k`.
pub fn give_back(section: &mut Section, k: u8, given: &[u16])
    ensures { section.new.bits ≡ all_marked k 1 given.now section.old.bits }
{
    for a in given {
        section.give(place(*a, k));
    }
}

// The place of a number among those that section `k` covers.
fn place(a: u16, k: u8) -> usize
    ensures { result ≡ a - first_of k }
{
    usize::from(a).saturating_sub(COVERED as usize * usize::from(k))
}
