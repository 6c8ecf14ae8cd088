//! What the user side keeps, and what it changes of the region, over any bytes that the target left there.
ghost use Rattle.std.specs.Prelude.{◌≡◌, ◌*◌, ◌+◌, ℕ, length, true, Err, Ok};
ghost use Rattle.std.specs.List.{count_by, list_any};
ghost use Rattle.region_model.specs.declared.entry.EntryFault.{EntryFault};
ghost use Rattle.region_model.specs.declared.mailbox.Mailbox.{Mailbox};
ghost use Rattle.region_model.specs.declared.mailbox.MailboxFault.{MailboxFault};
ghost use Rattle.region_model.specs.EntryReading.{entry_read};
ghost use Rattle.region_model.specs.UserNext.{BadEntry, BadMailbox, Job, Nothing, nexted};
ghost use Rattle.region_model.specs.Regions.{RegionState, size_of};
ghost use Rattle.region_model.specs.Sides.{JobState, Parked, UserState};
ghost use Rattle.region_model.specs.UserSteps.{is_open_job, is_unanswered, lie_in_area, region_published, region_reattached, user_abandoned, user_attached, user_mailbox, user_published, user_responded};
ghost use Rattle.ring_laws.specs.CalledOn.{SameSizes};
ghost use Rattle.ring_laws.specs.Sizes.{IsSized};
ghost use Rattle.ring_laws.specs.UserKept.{AreWholeJobs, HasPages, HasRing, IsFault, IsWholeJob, OnlyAnswers, OnlySetsBits, OnlyTail, UserCounts, UserSound, UsesEntries, blocks_behind};

/// A user side that is attached, over any bytes, is sound, and the region has the ring size that it read, and blocks of the pages that it
/// keeps. Its counts are of no entry, and it has given no job.
pub fn attach_law()
    ensures sound { (r : RegionState) (u : UserState) → user_attached r ≡ Ok u → UserSound u }
    ensures ring { (r : RegionState) (u : UserState) → user_attached r ≡ Ok u → HasRing r u }
    ensures pages { (r : RegionState) (u : UserState) → user_attached r ≡ Ok u → HasPages r u }
    ensures counts { (r : RegionState) (u : UserState) → user_attached r ≡ Ok u → UserCounts u }
    ensures jobs { (r : RegionState) (u : UserState) → user_attached r ≡ Ok u → AreWholeJobs u }
{}

/// A next keeps the user side sound, on a region of any bytes that has its ring's size, and leaves the sizes of all parts of the region.
/// Before the data area it changes nothing but the lowest bit of byte 7 of entries whose operation code is none of the three; of the blocks
/// just those of a job's iovecs are lent, as many as these name and each whole. All iovecs of a job lie in the data area. Each entry that it
/// passes is counted as an item. It finds nothing only at the head. A fault is that of the mailbox, or of the entry at the place that is
/// told, and leaves the user side as it was, so the next one passes the same entries again.
pub fn next_law()
    ensures sound { (r : RegionState) (u : UserState) → UserSound u → HasRing r u → UserSound (nexted r u).user }
    ensures ring { (r : RegionState) (u : UserState) → UserSound u → HasRing r u → HasRing (nexted r u).region (nexted r u).user }
    ensures sizes { (r : RegionState) (u : UserState) → UserSound u → HasRing r u → SameSizes r (nexted r u).region }
    ensures bits { (r : RegionState) (u : UserState) → UserSound u → HasRing r u → OnlySetsBits r.front (nexted r u).region.front }
    ensures blocks { (r : RegionState) (u : UserState) → UserSound u → HasRing r u → (nexted r u).region.blocks ≡ blocks_behind r (nexted r u).answer }
    ensures counts { (r : RegionState) (u : UserState) → UserCounts u → UserCounts (nexted r u).user }
    ensures pages { (r : RegionState) (u : UserState) → UserSound u → HasRing r u → HasPages r u → HasPages (nexted r u).region (nexted r u).user }
    ensures whole { (r : RegionState) (u : UserState) (job : JobState) → UserSound u → HasRing r u → HasPages r u → IsSized r → AreWholeJobs u →
        (nexted r u).answer ≡ Job job → IsWholeJob (nexted r u).user job }
    ensures jobs { (r : RegionState) (u : UserState) → UserSound u → HasRing r u → HasPages r u → IsSized r → AreWholeJobs u → AreWholeJobs (nexted r u).user }
    ensures nothing { (r : RegionState) (u : UserState) (m : Mailbox) → UserSound u → HasRing r u → user_mailbox r ≡ Ok m → (nexted r u).answer ≡ Nothing → (nexted r u).user.place ≡ m.head }
    ensures inside { (r : RegionState) (u : UserState) (job : JobState) → IsSized r → (nexted r u).answer ≡ Job job → lie_in_area r job.iovs ≡ true }
    ensures faults { (r : RegionState) (u : UserState) → IsFault (nexted r u).answer → (nexted r u).user ≡ u }
    ensures mailbox { (r : RegionState) (u : UserState) (fault : MailboxFault) → user_mailbox r ≡ Err fault →
        nexted r u ≡ record { answer = BadMailbox fault; region = r; user = u } }
    ensures entry { (r : RegionState) (u : UserState) (m : Mailbox) (at : ℕ) (fault : EntryFault) → user_mailbox r ≡ Ok m → (nexted r u).answer ≡ BadEntry at fault →
        entry_read (nexted r u).region.front (size_of r * length r.blocks) m at ≡ Err fault }
{}

/// So does a respond. Before the data area it changes nothing but the id and bytes 7 to 111 of entries at offsets that were kept, and where
/// its job is whole the blocks keep their size. Where a job of that id was given and has no reply, one such job less is without it, and as
/// many entries are used, from the first that was kept on, as jobs leave the user side.
pub fn any_respond_law()
    ensures sound { (r : RegionState) (u : UserState) (p : Parked) → UserSound u → HasRing r u → UserSound (user_responded r u p).user }
    ensures ring { (r : RegionState) (u : UserState) (p : Parked) → UserSound u → HasRing r u → HasRing (user_responded r u p).region (user_responded r u p).user }
    ensures sizes { (r : RegionState) (u : UserState) (p : Parked) → UserSound u → HasRing r u → SameSizes r (user_responded r u p).region }
    ensures only { (r : RegionState) (u : UserState) (p : Parked) → UserSound u → HasRing r u → OnlyAnswers u.offsets r.front (user_responded r u p).region.front }
    ensures counts { (r : RegionState) (u : UserState) (p : Parked) → UserCounts u → list_any (is_open_job p.job.id) u.jobs ≡ true → UserCounts (user_responded r u p).user }
    ensures pages { (r : RegionState) (u : UserState) (p : Parked) → UserSound u → HasRing r u → HasPages r u → HasPages (user_responded r u p).region (user_responded r u p).user }
    ensures jobs { (r : RegionState) (u : UserState) (p : Parked) → UserSound u → HasRing r u → AreWholeJobs u → IsWholeJob u p.job → AreWholeJobs (user_responded r u p).user }
    ensures sized { (r : RegionState) (u : UserState) (p : Parked) → HasPages r u → AreWholeJobs u → IsWholeJob u p.job → IsSized r → IsSized (user_responded r u p).region }
    ensures once { (r : RegionState) (u : UserState) (p : Parked) → UserCounts u → list_any (is_open_job p.job.id) u.jobs ≡ true →
        count_by is_unanswered (user_responded r u p).user.jobs + 1 ≡ count_by is_unanswered u.jobs }
    ensures uses { (r : RegionState) (u : UserState) (p : Parked) → UserCounts u → list_any (is_open_job p.job.id) u.jobs ≡ true → (k : ℕ) × UsesEntries u (user_responded r u p).user k }
{}

/// So does a publish, which changes just the mailbox's tail.
pub fn any_publish_law()
    ensures sound { (u : UserState) → UserSound u → UserSound (user_published u) }
    ensures counts { (u : UserState) → UserCounts u → UserCounts (user_published u) }
    ensures pages { (r : RegionState) (u : UserState) → HasPages r u → HasPages (region_published r u) (user_published u) }
    ensures jobs { (u : UserState) → AreWholeJobs u → AreWholeJobs (user_published u) }
    ensures sizes { (r : RegionState) (u : UserState) → HasRing r u → SameSizes r (region_published r u) }
    ensures only { (r : RegionState) (u : UserState) → HasRing r u → OnlyTail r.front (region_published r u).front }
    ensures blocks { (r : RegionState) (u : UserState) → (region_published r u).blocks ≡ r.blocks }
{}

/// And so do the giving up of jobs and a new attach, which change nothing before the data area.
pub fn reattach_law()
    ensures sound { (u : UserState) → UserSound u → UserSound (user_abandoned u) }
    ensures counts { (u : UserState) → UserCounts u → UserCounts (user_abandoned u) }
    ensures sizes { (r : RegionState) (u : UserState) → SameSizes r (region_reattached r u) }
    ensures sized { (r : RegionState) (u : UserState) → HasPages r u → AreWholeJobs u → IsSized r → IsSized (region_reattached r u) }
    ensures front { (r : RegionState) (u : UserState) → (region_reattached r u).front ≡ r.front }
{}
