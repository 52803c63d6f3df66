//! The queries and cursors of a listing.
ghost use Rattle.psm_load.specs.Left.{Gives, GivesAs};
ghost use Rattle.psm_load.specs.Parts.{one};
ghost use Rattle.psm_load.specs.Read.{query_words};
ghost use Rattle.psm_load.specs.Stated.{query as query_part, query_by};
ghost use Rattle.psm_load_line.specs.Forms.{query_at};
ghost use Rattle.psm_load_line.specs.RoutineForms.{cursor_at};

use crate::expressions::test;
use crate::items::items;
use crate::left::LinesLeft;
use crate::listed::Listed;
use crate::stop::Stop;
use psm_code::CodeCursor;
use psm_exprcode::Query;
use psm_load_line::{QueryHead, cursor, query_head};
use std::alloc::Global;

impl Listed for Query {
    ghost part = { query_part };

    fn read(alloc: Global, lines: &mut LinesLeft<'_>) -> Result<Query, Stop> {
        let head = head(lines)?;
        query(alloc, head, lines)
    }
}

impl Listed for CodeCursor {
    ghost part = { one cursor_at };

    #[tactic(auto, using(crate::proofs::Said::said))]
    fn read(alloc: Global, lines: &mut LinesLeft<'_>) -> Result<CodeCursor, Stop> {
        let line = lines.next()?;
        line.says(cursor(alloc, line.bytes))
    }
}

#[tactic(auto, using(crate::proofs::Said::line_seen))]
fn head(lines: &mut LinesLeft<'_>) -> Result<QueryHead, Stop>
    ensures { GivesAs query_words (one query_at) lines.old lines.new result }
{
    let line = lines.next()?;
    line.says(query_head(line.bytes))
}

// The lines after that of a query.
fn query(alloc: Global, head: QueryHead, lines: &mut LinesLeft<'_>) -> Result<Query, Stop>
    ensures { Gives (query_by (query_words head)) lines.old lines.new result }
{
    let items = items(alloc, head.items, lines)?;
    let test = test(alloc, head.has_test, lines)?;
    Ok(Query {
        table: head.table,
        downward: head.downward,
        items,
        test,
    })
}
