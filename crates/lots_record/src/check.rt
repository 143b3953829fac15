//! The check of a record.
ghost use Rattle.std.specs.Prelude.{◌≡◌, length, Decides, IfErr, OnOk};
ghost use Rattle.lots_core.specs.declared.error.LotsError.TheVariants.{Memory};
ghost use Rattle.lots_core.specs.Lists.{lines_of};
ghost use Rattle.lots_record.specs.Announcement.{Tells};
ghost use Rattle.lots_record.specs.Check.{IsAnnounced, IsRecord, IsRefusal, NamesAnnouncement, given};
ghost use Rattle.lots_record.specs.declared.check_error.CheckError.TheVariants.{Draw};

use crate::announcement::is_announcement;
use crate::check_error::CheckError;
use crate::claims::{Claims, claims_of, names_list};
use crate::record::{Source, record};
use lots_core::arguments::Count;
use lots_core::{LotsError, count_entrants};
use sha2::{Digest, Sha256};
use std::alloc::Allocator;

/// Whether the record names this announcement, if one is given.
fn names<A: Allocator>(claims: &Claims<A>, announcement: Option<&[u8]>) -> bool
    ensures { Decides result
        (NamesAnnouncement (given announcement.entry) claims.now.announcement) }
{
    match announcement {
        Some(announcement) => claims.announcement == Some(Sha256::digest(announcement)),
        None => true,
    }
}

/// Whether the announcement, if one is given, is that of a draw of `count` entrants from the list.
pub fn is_announced<A: Allocator>(
    alloc: &A,
    announcement: Option<&[u8]>,
    list: &[u8],
    entrants: usize,
    count: usize,
) -> Result<bool, LotsError>
    requires { entrants ≡ length (lines_of list.now) }
    ensures { Tells (IsAnnounced (given announcement.entry) list.now count) result }
{
    match announcement {
        Some(text) => is_announcement(alloc, text, list, entrants, count),
        None => Ok(true),
    }
}

/// Checks that the text is, byte for byte, the record of a draw from the list: the function reads
/// from the text what a record is made from, makes the record again, and compares the two. If an
/// announcement is given, the record has to name its SHA-256, and the announcement has to be that
/// of a draw from the list of as many entrants as the record says.
///
/// Returns the reason if the text is not such a record, and the error of the draw if the draw
/// fails. A true record of a draw from this list is refused only with `OtherAnnouncement` if it
/// does not name the announcement, with `NotAnnounced` if the announcement is not that of the draw,
/// or with `Memory`.
pub fn check<A: Allocator>(
    alloc: &A,
    text: &[u8],
    announcement: Option<&[u8]>,
    list: &[u8],
) -> Result<(), CheckError>
    ensures agrees { OnOk result (IsRecord text.now list.now (given announcement.entry)) }
    ensures only { IsRecord text.now list.now (given announcement.entry) →
        IfErr result (λ error. error ≡ Draw Memory) }
    ensures refusal { IfErr result (IsRefusal text.now list.now (given announcement.entry)) }
{
    let entrants = count_entrants(list)?;
    let claims = claims_of(alloc, text)?;
    if !names_list(text, list) {
        return Err(CheckError::OtherList);
    }
    if !names(&claims, announcement) {
        return Err(CheckError::OtherAnnouncement);
    }
    if !is_announced(alloc, announcement, list, entrants, claims.count)? {
        return Err(CheckError::NotAnnounced);
    }
    let seed = str::from_utf8(&claims.seed).map_err(|_| CheckError::Unreadable)?;
    if seed.is_empty() {
        return Err(CheckError::Unreadable);
    }
    let source = Source {
        seed,
        count: Count::Of(claims.count),
        announcement: claims.announcement,
        program: claims.program,
    };
    if record(alloc, &source, list)?.as_bytes() == text {
        Ok(())
    } else {
        Err(CheckError::Differs)
    }
}
