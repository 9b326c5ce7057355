//! What is said of one image.
ghost use Rattle.std.specs.Prelude.{◌≡◌, length, is_err, Some, IfOk, IfErr};
ghost use Rattle.image_format.specs.Parsed.{parsed};
ghost use Rattle.image.specs.Held.{verdict_of};
ghost use Rattle.inspect.specs.Reports.{totals_text, is_refused, outcome_of, report_text};
ghost use Rattle.inspect.specs.Words.{totals_of, refusal_line};

use crate::listing::rows_of;
use crate::request::Outcome;
use crate::table::Table;
use image::image_store::ImageStore;
use image_format::fault::SpoiltImage;
use std::alloc::{AllocError, Global};
use std::fmt;
use store::read::ReadStore;

/// The totals of a store.
#[derive(Clone, Copy)]
pub struct Totals {
    pub count: u32,
    pub limit: u32,
    pub bytes: u32,
    pub capacity: u32,
}

impl Totals {
    fn of<S: ReadStore>(store: &S) -> Totals
        ensures { totals_text result ≡ totals_of (S.contents store.now) }
    {
        Totals {
            count: store.count(),
            limit: store.limit(),
            bytes: store.total(),
            capacity: store.capacity(),
        }
    }
}

impl fmt::Display for Totals {
    ghost output = { λ totals. Some (totals_text totals) };

    fn fmt<W: fmt::Write>(&self, f: &mut fmt::Formatter<W>) -> fmt::Result {
        let Totals {
            count,
            limit,
            bytes,
            capacity,
        } = *self;
        writeln!(
            f,
            "files {count} (limit {limit}), bytes {bytes} (capacity {capacity})"
        )
    }
}

/// The fault of an image of this size.
#[derive(Clone, Copy)]
pub struct Refusal {
    pub size: usize,
    pub fault: SpoiltImage,
}

impl fmt::Display for Refusal {
    ghost output = { λ refusal. Some (refusal_line refusal.size refusal.fault) };

    fn fmt<W: fmt::Write>(&self, f: &mut fmt::Formatter<W>) -> fmt::Result {
        let number = self.fault.number();
        let place = self.fault.place;
        if place == self.size {
            writeln!(
                f,
                "refused {number}, spoilt image: a field is missing at the end, byte {place}"
            )
        } else {
            writeln!(
                f,
                "refused {number}, spoilt image: the field at byte {place} is wrong"
            )
        }
    }
}

/// The files of an image and their totals.
#[derive(Drop)]
pub struct Listing {
    pub table: Table,
    pub totals: Totals,
}

impl Listing {
    fn of<S: ReadStore>(heap: Global, store: &S) -> Result<Listing, AllocError>
        ensures { IfOk result (λ listing. totals_text listing.totals ≡ totals_of (S.contents store.now)) }
    {
        Ok(Listing {
            table: Table::of(heap, rows_of(heap, store)?)?,
            totals: Totals::of(store),
        })
    }
}

/// What was found of an image.
#[derive(Drop)]
pub enum Report {
    Listing(Listing),
    Refusal(Refusal),
}

impl Report {
    /// What came of the image's file.
    pub fn outcome(&self) -> Outcome
        ensures { result ≡ outcome_of self.now }
    {
        match self {
            Report::Listing(_) => Outcome::Listed,
            Report::Refusal(_) => Outcome::Refused,
        }
    }
}

impl fmt::Display for Report {
    ghost output = { report_text };

    fn fmt<W: fmt::Write>(&self, f: &mut fmt::Formatter<W>) -> fmt::Result {
        match self {
            Report::Listing(listing) => write!(f, "{}{}", listing.table, listing.totals),
            Report::Refusal(refusal) => write!(f, "{refusal}"),
        }
    }
}

/// The listing of an image, or its refusal.
pub fn report_of(heap: Global, image: &[u8]) -> Result<Report, AllocError>
    ensures verdict { IfOk result (λ report. is_refused report ≡ is_err (verdict_of (parsed image.now))) }
    ensures refusal { IfOk result (λ report. IfErr (parsed image.now) (λ fault. report_text report ≡ Some (refusal_line (length image.now) fault))) }
{
    match ImageStore::try_open(image) {
        Ok(store) => Ok(Report::Listing(Listing::of(heap, &store)?)),
        Err(fault) => Ok(Report::Refusal(Refusal {
            size: image.len(),
            fault,
        })),
    }
}
