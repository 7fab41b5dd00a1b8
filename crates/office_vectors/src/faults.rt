//! Faults that no program meets.

use device_core::hand::{HandFault, Stamp};
use page_core::fault::PageFault;
use page_core::open::OpenFault;
use page_core::page_list::PageList;
use page_core::save::SaveFault;
use page_core::uncalled::is_cut;

// The longest page.
const LONGEST: Stamp = Stamp {
    number: 1,
    len: 262_144,
};

// No case can show it: a list is made of the files that a part was cut into, and of no others. The longest pages, eight
// of them, are the longest list.
#[test]
fn lists_that_are_no_cut_are_refused(rt: HostRuntime) {
    assert!(rt; is_cut(&[LONGEST; 8]));
    assert!(rt; PageList::new(&[]).err() == Some(PageFault::Empty));
    assert!(rt; PageList::new(&[LONGEST; 9]).err() == Some(PageFault::BadLength));
}

// No case can show it: the numbers and names of faults that programs tell in words of their own.
#[test]
fn faults_have_numbers_and_names(rt: HostRuntime) {
    assert!(rt; HandFault::Device.number() == 1 && HandFault::Device.name() == "Device");
    assert!(rt; PageFault::BadLength.number() == 2 && PageFault::BadLength.name() == "BadLength");
    assert!(rt; OpenFault::Damaged(0).number() == 1 && OpenFault::Damaged(0).name() == "Damaged");
    assert!(rt; SaveFault::Memory.number() == 3 && SaveFault::Memory.name() == "Memory");
}
