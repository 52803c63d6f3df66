//! The counter of row steps.
ghost use Rattle.std.specs.Prelude.{◌≡◌, ◌<◌};

use crate::fault::Fault;
use psm_value::Steps;
use std::alloc::Global;
use std::marker::Brand;
use std::sync::ledger::{Blank, Ledger};

/// How many bytes a counter takes, once one has counted two steps.
pub fn reported(alloc: Global) -> Result<String, Fault> {
    count_two::<Brand>(Blank::new(1));
    Ok(format!(in alloc; "{} bytes", size_of::<Steps<Brand>>())?)
}

// A counter of a ledger of its own.
fn count_two<L: Ledger>(blank: Blank)
    requires name { blank.name ≡ L.name }
    requires parts { blank.parts ≡ L.parts }
    requires some { 0 < blank.parts }
{
    let mut steps = Steps::open(blank);
    steps.tick();
    steps.tick();
    are_two::<L>(&steps);
}

// The contract of `tick` shows this of each call.
fn are_two<L: Ledger>(_steps: &Steps<L>)
    requires { _steps.now ≡ 2 }
{}
