//! The parts of a routine that stand before its lines.
ghost use Rattle.std.specs.Prelude.{◌≡◌, ◌++◌, [], ◌∷◌, map};
ghost use Rattle.std.specs.List.{flat_map};
ghost use Rattle.psm_code.specs.PlanRules as plans;
ghost use Rattle.psm_code.specs.Rules as rules;
ghost use Rattle.psm_code.specs.RoutineRules as routines;
ghost use Rattle.psm_verify.specs.Checked.{Finds, checked};
ghost use Rattle.psm_verify.specs.Earlier.{is_new_routine};
ghost use Rattle.psm_verify.specs.Listed.{first_faults, part_faults};

use crate::fault::Stop;
use crate::handlers::{conditions, contexts};
use crate::handling::handlers;
use crate::listing::passed;
use crate::plans::cursors;
use crate::routines::{parameters, routine_fault, variables};
use crate::verify_context::VerifyContext;
use psm_code::RawRoutine;
use std::alloc::Global;

impl<'a> VerifyContext<'a> {
    /// The line of the routine, and those of its parameters, variables, queries, cursors, plans, declared conditions, contexts and
    /// handlers.
    pub(crate) fn parts(
        &self,
        alloc: Global,
        line: u64,
        is_apart: bool,
        before: &[RawRoutine],
    ) -> Result<u64, Stop>
        requires { is_apart ≡ is_new_routine before.now self.now.routine.now }
        ensures { Finds (checked line (part_faults self.now.code.now before.now self.now.routine.now)) result }
    {
        let line = self.first_parts(alloc, line, is_apart, before)?;
        let line = self.plans(alloc, line)?;
        let line = conditions(line, self.routine)?;
        let line = contexts(line, self.routine)?;
        handlers(alloc, line, self.routine)
    }

    // Those before the plans.
    fn first_parts(
        &self,
        alloc: Global,
        line: u64,
        is_apart: bool,
        before: &[RawRoutine],
    ) -> Result<u64, Stop>
        requires { is_apart ≡ is_new_routine before.now self.now.routine.now }
        ensures { Finds (checked line (first_faults self.now.code.now before.now self.now.routine.now)) result }
    {
        let line = passed(line, routine_fault(is_apart, before, self.routine))?;
        let line = parameters(alloc, line, self.routine)?;
        let line = variables(line, self.routine)?;
        let line = self.queries(alloc, line)?;
        cursors(line, self.routine)
    }
}
