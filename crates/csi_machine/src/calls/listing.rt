//! Answers ListVolumes (CSI specification, 'ListVolumes'). The entries of a page are written while the
//! volumes are read, and not collected in a response first.

ghost use Rattle.std.specs.Prelude.{◌≡◌, ◌++◌, [], Some, Ok, OnOk};
ghost use Rattle.pbmessage.specs.Kept.{Keeps};
ghost use Rattle.csi_codec.specs.Methods.{response_bytes};
ghost use Rattle.csi_types.specs.declared.responses.Response.TheVariants as response;
ghost use Rattle.csi_keeper.specs.declared.change.StoreFault.{StoreFault as AnyFault};
ghost use Rattle.csi_rules.specs.Finding.{Finds};
ghost use Rattle.csi_rules.specs.Size.{whole};
ghost use Rattle.csi_machine.specs.Verdicts.{Appended, IsReported, reported_of};
ghost use Rattle.csi_machine.specs.Pages.{IsPage, token_when};
ghost use Rattle.csi_machine.specs.calls.Listing.{start_of, entries_for, list_after, list_volumes};

use crate::body::{Verdict, limit_body};
use crate::page::{AnyVolume, Page};
use csi_codec::encode_response;
use csi_config::Config;
use csi_keeper::{Keeper, StoreFault};
use csi_rules::{decimal_of, number_of};
use csi_types::{Items, ListVolumes, MAX_PAGE_ENTRIES, Reason, Response, Text};
use std::alloc::{AllocError, Global};
use std::mem::replace;

fn start_of(next: u64, token: &Text) -> Option<u64>
    ensures { result ≡ start_of next token.now }
{
    if token.is_empty() {
        return Some(0);
    }
    match number_of(token.as_str()) {
        Some(number) if 1 <= number && number < next => Some(number),
        _ => None,
    }
}

fn entries_for(most: i32) -> u32
    ensures { result ≡ entries_for (whole most) }
{
    if most <= 0 {
        MAX_PAGE_ENTRIES
    } else {
        (most as u32).min(MAX_PAGE_ENTRIES)
    }
}

// Appends the token of the next page, if there is a next page.
fn put_token(alloc: Global, last: u64, is_more: bool, out: &mut Vec<u8>) -> Result<(), AllocError>
    ensures ok { OnOk result (out.new.items
        ≡ out.old.items ++ response_bytes (response.List [] (token_when last is_more))) }
    ensures kept { Keeps out.old.items out.new.items }
{
    let token = if is_more {
        decimal_of(alloc, last)?
    } else {
        Text::new(alloc)
    };
    let entries = Items::new(alloc);
    encode_response(&Response::List { entries, token }, out)
}

// Appends the entries of a page, and the token of the next page.
#[inline(always)]
fn write_page<K: Keeper>(
    alloc: Global,
    keeper: &mut K,
    most: i32,
    page: &mut Page<'_>,
) -> Result<(), StoreFault>
    ensures finds { Finds (K.model keeper.old) (K.model keeper.new) result
        (λ s _. page.old.places.items ≡ []
        → IsPage page.old.config.now s page.old.last
        (whole most) page.old.body.items page.new.body.items) }
    ensures kept { Keeps page.old.body.items page.new.body.items }
{
    keeper.fold_page(alloc, page.last, entries_for(most), page)?;
    let mut rest = AnyVolume { is_any: false };
    keeper.fold_page(alloc, page.last, 1, &mut rest)?;
    Ok(put_token(alloc, page.last, rest.is_any, &mut page.body)?)
}

// Appends the body of the page of volumes with numbers above `after`. Refuses a page that is too large for a
// reply.
#[inline(always)]
fn append_after<K: Keeper>(
    alloc: Global,
    config: &Config,
    keeper: &mut K,
    most: i32,
    after: u64,
    out: &mut Vec<u8>,
) -> Result<Verdict, StoreFault>
    ensures finds { Finds (K.model keeper.old) (K.model keeper.new) result
        (λ s v. IsReported {E = AnyFault}
        (reported_of (list_after config.now s (whole most)
        (Some after)).outcome) out.old.items out.new.items (Ok v)) }
    ensures appended { Appended out.old.items out.new.items result }
{
    let from = out.len();
    let mut page = Page {
        alloc,
        config,
        places: Vec::new(alloc),
        last: after,
        body: replace(out, Vec::new(alloc)),
    };
    let written = write_page(alloc, keeper, most, &mut page);
    *out = page.body;
    if let Err(fault) = written {
        out.truncate(from);
        return Err(fault);
    }
    Ok(limit_body(out, from))
}

/// Appends the body of a page of volumes. The page has at most `max_entries` entries and at most 100; if
/// `max_entries` is 0 or below, only the limit of 100 holds. The request is refused if its token is not valid
/// or the page is too large for a reply. If more volumes follow, the token of the next page is the number of
/// the last volume on this page. This volume may be deleted before the client asks for the next page.
///
/// # Errors
///
/// Returns the fault of the keeper, or `StoreFault::NoMemory` if memory is refused. `out` is unchanged after
/// an error and after a refusal.
#[inline(always)]
pub(crate) fn append_page<K: Keeper>(
    alloc: Global,
    config: &Config,
    keeper: &mut K,
    request: &ListVolumes,
    out: &mut Vec<u8>,
) -> Result<Verdict, StoreFault>
    ensures finds { Finds (K.model keeper.old) (K.model keeper.new) result
        (λ s v. IsReported {E = AnyFault}
        (reported_of (list_volumes config.now s request.now).outcome) out.old.items out.new.items
        (Ok v)) }
    ensures appended { Appended out.old.items out.new.items result }
{
    let next = keeper.next_number()?;
    match start_of(next, &request.token) {
        Some(after) => append_after(alloc, config, keeper, request.max_entries, after, out),
        None => Ok(Verdict::Refused(Reason::BadToken)),
    }
}
