//! Worked examples: what the definitions give for bytes that the other side has no right to write, for dumps, and for a command on its way.
ghost use Rattle.region_model.specs.Shown.{ShowsMailbox, ShowsPadding, ShowsTwoPages, Clears, Serves};
ghost use Rattle.region_model.specs.SideExamples.{WaitsFive, ExpireOnce, CleansOne, Answers};
ghost use Rattle.region_model.specs.Hostile.{IdOfNone, TailInside, IdTwice, LengthPastData, SaidUnknown, NoLength, HeadUnaligned, OpUnknown, IovecBefore, OtherSize, AreaGone, AreaThere, CopiesOut, NotesAgain};

/// The target over bytes that a user side wrote: a wrong id, a wrong tail, an id twice, a length past the data, an unknown entry.
pub fn target_examples()
    ensures id_of_none { IdOfNone }
    ensures tail_inside { TailInside }
    ensures id_twice { IdTwice }
    ensures length_past_data { LengthPastData }
    ensures said_unknown { SaidUnknown }
{}

/// The user side over bytes that a target wrote: a length of 0, heads and sizes that break the mailbox's rules, an unknown opcode,
/// an iovec outside the data area, iovecs inside a block, whose data area goes away under a job or stays, and a task management entry
/// that names a command more than once.
pub fn user_examples()
    ensures no_length { NoLength }
    ensures head_unaligned { HeadUnaligned }
    ensures op_unknown { OpUnknown }
    ensures iovec_before { IovecBefore }
    ensures other_size { OtherSize }
    ensures area_gone { AreaGone }
    ensures area_there { AreaThere }
    ensures copies_out { CopiesOut }
    ensures notes_again { NotesAgain }
{}

/// The picture of a device as it opens, of one whose entry stands behind padding, and of one whose data blocks have two pages.
pub fn picture_examples()
    ensures mailbox { ShowsMailbox }
    ensures padding { ShowsPadding }
    ensures pages { ShowsTwoPages }
{}

/// A command on its way through a region whose block an earlier one left full: the block is cleared, and what the reply does not fill
/// stays zeros.
pub fn way_examples()
    ensures clears { Clears }
    ensures serves { Serves }
{}

/// What the two sides' own steps give: a command that waits, commands that expire, a clean of one of two, a job before and behind its
/// answer.
pub fn side_examples()
    ensures waits { WaitsFive }
    ensures expire { ExpireOnce }
    ensures cleans { CleansOne }
    ensures answers { Answers }
{}
