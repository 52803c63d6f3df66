//! The listing of code.
ghost use Rattle.std.specs.Prelude.{◌≡◌, ◌++◌, IfOk, OnOk};
ghost use Rattle.psm_object.specs.Listing.{first_line, listing};
ghost use Rattle.psm_object.specs.Words.{ended};

use crate::routines::put_routines;
use crate::tables::put_tables;
use crate::words::{end_line, put_count};
use psm_code::RawCode;
use std::alloc::{AllocError, Global};

/// The listing of code, which need not be well-formed. Takes the time of its text, if the FOREIGN KEY constraints stand in the order
/// of the referencing tables.
pub fn write(alloc: Global, code: &RawCode) -> Result<Vec<u8>, AllocError>
    ensures { IfOk result (λ text. text.items ≡ listing code.now) }
{
    let mut out = Vec::new(alloc);
    put_first_line(&mut out, code)?;
    put_tables(&mut out, code.tables.items(), code.keys.items())?;
    put_routines(&mut out, code.routines.items())?;
    Ok(out)
}

fn put_first_line(out: &mut Vec<u8>, code: &RawCode) -> Result<(), AllocError>
    ensures { OnOk result (out.new.items ≡ out.old.items ++ ended (first_line code.now)) }
{
    out.extend_from_slice(b"PSM 3")?;
    put_count(out, code.tables.items().len())?;
    put_count(out, code.routines.items().len())?;
    end_line(out)
}
