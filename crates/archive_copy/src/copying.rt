ghost use Rattle.std.specs.Prelude.{ℕ, ◌≡◌};
ghost use Rattle.causes.specs.Told.{WhereTold};
ghost use Rattle.disk_model.specs.Disk.{BeginsChanges, Faults, MayBegin, Stays};
ghost use Rattle.batch_adding.specs.Adding.{changes_to_fill};
ghost use Rattle.archive_copy.specs.Adding.{CopyMoves};
ghost use Rattle.archive_copy.specs.Answers.{CopyAnswers, IsCopied, OnFromDamaged, OnFromRefused};
ghost use Rattle.archive_copy.specs.Calls.{OnlyReads, is_from_fault};
ghost use Rattle.archive_copy.specs.Copies.{AddsNext, LeavesNext};

use crate::CopyEnd;
use crate::adding::add_missing;
use crate::comparing::{Compared, compare};
use crate::opening::open_from;
use batch_adding::open_to;
use disk_model::Disk;
use std::alloc::Global;

/// Adds the rows of the archive on the one disk that the archive on the other lacks, in order, `BATCH` rows a batch and the
/// last batch with what is left. The one is only read. A copy that was stopped goes on where it is called again.
///
/// The refusals are told in this order: those of the one archive, Full, those of the other, NotPrefix. It takes the
/// memory of two books.
pub fn copy<D: Disk, E: Disk>(alloc: Global, from: &mut D, to: &mut E) -> CopyEnd
    requires { MayBegin E.medium changes_to_fill to.old }
    ensures answers { WhereTold (D.medium.seen from.old)
        (λ theirs. WhereTold (E.medium.seen to.old) (CopyAnswers result theirs)) }
    ensures from_stays { Stays D.medium from.old from.new }
    ensures from_fault { Faults D.medium from.old from.new (result ≡ CopyEnd.FromFault) }
    ensures to_fault { Faults E.medium to.old to.new (result ≡ CopyEnd.ToFault) }
    ensures begun { BeginsChanges E.medium changes_to_fill to.old to.new }
    ensures from_went { OnlyReads D.medium (is_from_fault result) from.old from.new }
    ensures to_went { AddsNext D.medium E.medium result from.old to.old to.new }
    ensures moved { WhereTold (D.medium.seen from.old) (λ _. WhereTold (E.medium.seen to.old)
        (CopyMoves result (E.medium.moment to.old) (E.medium.moment to.new))) }
    ensures untouched { OnFromRefused result (to.new ≡ to.old) }
    ensures undamaged { OnFromDamaged result
        (WhereTold (D.medium.seen from.old) (λ _. WhereTold (E.medium.seen to.old) (λ _.
        to.new ≡ to.old))) }

    // Where each image at its start has some rows, each image since then has these, and then none or more of the next rows of
    // the one archive.
    ensures images { LeavesNext D.medium E.medium result from.old to.old to.new }

    // With Done the other archive has just the rows of the one.
    ensures copied { (n : ℕ) → result ≡ CopyEnd.Done n → WhereTold (D.medium.seen from.old) (λ theirs.
        WhereTold (E.medium.seen to.old) (λ _. IsCopied E.medium n theirs to.new)) }
{
    let theirs = match open_from(alloc, from) {
        Ok(book) => book,
        Err(end) => return end,
    };
    let mut mine = match open_to(alloc, to) {
        Ok(book) => book,
        Err(why) => return CopyEnd::not_opened(why),
    };
    match compare(&theirs, from, &mine, to) {
        Compared::Front => add_missing(&theirs, from, &mut mine, to),
        Compared::UnlikeAt(n) => CopyEnd::NotPrefix(n),
        Compared::FromFault => CopyEnd::FromFault,
        Compared::ToFault => CopyEnd::ToFault,
    }
}
