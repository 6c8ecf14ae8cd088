//! Laws of where the data area begins, of lending and of copying.
ghost use Rattle.shm_region.specs.AreaStart.{AreaBeginsAtPage, OpensAtArea};
ghost use Rattle.shm_region.specs.Copies.{CopiesBack, CopiesBeside};
ghost use Rattle.shm_region.specs.Returns.{BackLeavesHome, BackLeavesOthers};
ghost use Rattle.region_model.specs.Regions.{LendsAndTakesBack, LendsFew};

/// Whatever iovecs name, no more blocks can be lent than the area has.
pub fn lends_few()
    ensures { LendsFew }
{}

/// What was lent and is given back stands where it stood.
pub fn lends_and_takes_back()
    ensures { LendsAndTakesBack }
{}

/// What is given back overwrites no block that is at home, and changes no place that its iovecs don't name. So where the area was shrunk
/// and grown under a job, the job's block is dropped, and the new one stays.
pub fn gives_back()
    ensures home { BackLeavesHome }
    ensures others { BackLeavesOthers }
{}

/// Along iovecs that lie in the region and name no byte of a lent block, what was copied in is copied out again where they share no
/// byte, and every byte that they don't name stays.
pub fn copies_back()
    ensures back { CopiesBack }
    ensures beside { CopiesBeside }
{}

/// For each size of a ring the data area begins at the least multiple of 4096 that is not below the ring's end, and the front of a new
/// region ends there.
pub fn area_begins_at_page()
    ensures begins { AreaBeginsAtPage }
    ensures opens { OpensAtArea }
{}
