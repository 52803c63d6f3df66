//! Laws of tables.
ghost use Rattle.std.specs.Prelude.{◌≡◌, ◌≢◌, ◌<◌, ◌≤◌, length, ◌&&◌, ◌∷◌, ◌++◌, [], ℕ, true, All, AllPairs, Bool, List, None, Ok, Option, Some, false, slice_set};
ghost use Rattle.std.specs.List.{list_all};
ghost use Rattle.psm_value.specs.declared.datum.Datum.{Datum};
ghost use Rattle.psm_table.specs.declared.definition.TableDef.{TableDef};
ghost use Rattle.psm_table.specs.Changing.{are_apart, changed_if_keyed, deleted, deleted_at, ended, ended_with, if_keyed, in_order, inserted, is_before, is_filled, keep_rules, keyless, moved_if_keyed, row_is_stored, rows_pass, updated, updated_at, Changed, IsLegal, Moved, Schema, SetItem};
ghost use Rattle.psm_table.specs.Definition.{kinds_of};
ghost use Rattle.psm_table.specs.Cursors.{Position, advanced, current, lies_past, without_row as left_row};
ghost use Rattle.psm_table.specs.Evaluator.{Evaluator};
ghost use Rattle.psm_table.specs.Queries.{Query};
ghost use Rattle.psm_table.specs.Key.{values_at};
ghost use Rattle.psm_table.specs.declared.definition.ForeignKey.{ForeignKey};
ghost use Rattle.psm_table.specs.Keyed.{is_keyed, is_referred, new_are_referred, rows_at};
ghost use Rattle.psm_table.specs.Rows.{put, row_with, without, IsAscending};
ghost use Rattle.psm_table.specs.Table.{keyed, most_rows, namesake, with_row, without_row, Contents, IsTable};
ghost use Rattle.psm_table.specs.Unique.{clashes, AreUnique};

/// What `Table::clash` answers (ISO/IEC 9075:1992, 8.9 and 11.7). Where no row of a table clashes with the others,
/// no two rows agree in a UNIQUE list, and that stays so when a row is put in that doesn't clash.
pub fn unique_laws()
    ensures none { (t : Contents) → IsTable t → All (λ row. clashes t.def row t.rows ≡ false) t.rows → AreUnique t.def t.rows }
    ensures kept { (t : Contents) (row : List Datum) → IsTable t → AreUnique t.def t.rows → clashes t.def row t.rows ≡ false → AreUnique t.def (with_row t row).rows }
{}

/// What undoes a change of one row: a row that was put in is taken out, one that was taken out is put in again,
/// and so is one in whose place another was put.
pub fn undo_laws()
    ensures inserted { (t : Contents) (row : List Datum) → IsTable t → namesake t row ≡ None → without_row (values_at t.def.key row) (with_row t row) ≡ t }
    ensures erased { (t : Contents) (key row : List Datum) → IsTable t → keyed t key ≡ Some row → with_row (without_row key t) row ≡ t }
    ensures changed { (t : Contents) (row was : List Datum) → IsTable t → namesake t row ≡ Some was → with_row (with_row t row) was ≡ t }
{}

/// What a statement has to look at on a table that is legal for its CHECKs (ISO/IEC 9075:1992, 11.7 to 11.9): the CHECKs of
/// its new rows alone, in the order of their keys, and each new row against all others. Rows that it leaves alone
/// add nothing. An expression is named by a number here, whatever it is.
pub fn legal_rows_add_nothing()
    ensures checks { (ev : Evaluator ℕ) (schema : Schema ℕ) (old new : List (List Datum)) → IsLegal ev schema old → rows_pass ev schema.checks (in_order schema.def.key (old ++ new)) ≡ rows_pass ev schema.checks (in_order schema.def.key new) }
    ensures rules { (def : TableDef) (old : List (List Datum)) (row : List Datum) → keep_rules def old ≡ true → keep_rules def (old ++ row ∷ []) ≡ (is_filled def row && list_all (λ other. are_apart def other row) old) }
{}

/// The order of rows by their keys, nulls first: each row is before each later one, and rows of a table are in order.
pub fn order_of_rows()
    ensures ordered { (key : List ℕ) (rows : List (List Datum)) → AllPairs (λ a b. is_before key a b ≡ true) (in_order key rows) }
    ensures ascending { (key : List ℕ) (rows : List (List Datum)) → IsAscending key rows → in_order key rows ≡ rows }
    ensures last { (key : List ℕ) (rows : List (List Datum)) (row : List Datum) → IsAscending key rows → row_with key (values_at key row) rows ≡ None → in_order key (rows ++ row ∷ []) ≡ put key row rows }
{}

/// A statement that ended leaves the table legal for its CHECKs (ISO/IEC 9075:1992, 11.7 to 11.9) if its values were as its columns
/// store them. CHECKs see no variables, so what evaluates them is their own. The rows of a legal table are left as they are where no
/// row is new, so a DELETE from it fails at its end by a FOREIGN KEY constraint alone.
pub fn statements_leave_legal_tables()
    ensures inserted { (ev : Evaluator ℕ) (schema : Schema ℕ) (new rows : List (List Datum)) (c : Changed) → list_all (row_is_stored (kinds_of schema.def.columns)) rows ≡ true → inserted ev schema new rows ≡ Ok c → IsLegal ev schema c.rows }
    ensures updated { (ev plain : Evaluator ℕ) (schema : Schema ℕ) (sets : List (SetItem ℕ)) (test : Option ℕ) (rows : List (List Datum)) (c : Changed) → list_all (row_is_stored (kinds_of schema.def.columns)) rows ≡ true → updated ev plain schema sets test rows ≡ Ok c → IsLegal plain schema c.rows }
    ensures deleted { (ev plain : Evaluator ℕ) (schema : Schema ℕ) (test : Option ℕ) (rows : List (List Datum)) (c : Changed) → list_all (row_is_stored (kinds_of schema.def.columns)) rows ≡ true → deleted ev plain schema test rows ≡ Ok c → IsLegal plain schema c.rows }
    ensures updated_at { (ev plain : Evaluator ℕ) (schema : Schema ℕ) (sets : List (SetItem ℕ)) (row : List Datum) (rows : List (List Datum)) (m : Moved) → row_is_stored (kinds_of schema.def.columns) row ≡ true → list_all (row_is_stored (kinds_of schema.def.columns)) rows ≡ true → updated_at ev plain schema sets row rows ≡ Ok m → IsLegal plain schema m.rows }
    ensures deleted_at { (plain : Evaluator ℕ) (schema : Schema ℕ) (row : List Datum) (rows after : List (List Datum)) → list_all (row_is_stored (kinds_of schema.def.columns)) rows ≡ true → deleted_at plain schema row rows ≡ Ok after → IsLegal plain schema after }
    ensures unchanged { (plain : Evaluator ℕ) (schema : Schema ℕ) (rows : List (List Datum)) → IsLegal plain schema rows → IsAscending schema.def.key rows → length rows ≤ most_rows → ended plain schema rows ≡ ended_with schema.def rows (schema.keyed rows) }
    ensures left { (plain : Evaluator ℕ) (schema : Schema ℕ) (row : List Datum) (rows : List (List Datum)) → IsLegal plain schema rows → IsAscending schema.def.key rows → length rows ≤ most_rows → deleted_at plain schema row rows ≡ ended_with schema.def (without schema.def.key (values_at schema.def.key row) rows) (schema.keyed (without schema.def.key (values_at schema.def.key row) rows)) }
{}

/// After a statement that ended all FOREIGN KEY constraints hold among the tables with the rows that it left (ISO/IEC 9075:1992,
/// 11.8).
pub fn statements_leave_keyed_tables()
    ensures inserted { (ev : Evaluator ℕ) (schema : Schema ℕ) (new rows : List (List Datum)) (c : Changed) → inserted ev schema new rows ≡ Ok c → schema.keyed c.rows ≡ true }
    ensures updated { (ev plain : Evaluator ℕ) (schema : Schema ℕ) (sets : List (SetItem ℕ)) (test : Option ℕ) (rows : List (List Datum)) (c : Changed) → updated ev plain schema sets test rows ≡ Ok c → schema.keyed c.rows ≡ true }
    ensures deleted { (ev plain : Evaluator ℕ) (schema : Schema ℕ) (test : Option ℕ) (rows : List (List Datum)) (c : Changed) → deleted ev plain schema test rows ≡ Ok c → schema.keyed c.rows ≡ true }
    ensures updated_at { (ev plain : Evaluator ℕ) (schema : Schema ℕ) (sets : List (SetItem ℕ)) (row : List Datum) (rows : List (List Datum)) (m : Moved) → updated_at ev plain schema sets row rows ≡ Ok m → schema.keyed m.rows ≡ true }
    ensures deleted_at { (plain : Evaluator ℕ) (schema : Schema ℕ) (row : List Datum) (rows after : List (List Datum)) → deleted_at plain schema row rows ≡ Ok after → schema.keyed after ≡ true }
{}

/// FOREIGN KEY constraints are tested last (ISO/IEC 9075:1992, 11.8): a statement ends as it does where none is asked, and where that
/// leaves rows, these are what it leaves if all constraints hold with them, and else it fails.
pub fn foreign_keys_come_last()
    ensures inserted { (plain : Evaluator ℕ) (schema : Schema ℕ) (new rows : List (List Datum)) → inserted plain schema new rows ≡ changed_if_keyed schema (inserted plain (keyless schema) new rows) }
    ensures updated { (ev plain : Evaluator ℕ) (schema : Schema ℕ) (sets : List (SetItem ℕ)) (test : Option ℕ) (rows : List (List Datum)) → updated ev plain schema sets test rows ≡ changed_if_keyed schema (updated ev plain (keyless schema) sets test rows) }
    ensures deleted { (ev plain : Evaluator ℕ) (schema : Schema ℕ) (test : Option ℕ) (rows : List (List Datum)) → deleted ev plain schema test rows ≡ changed_if_keyed schema (deleted ev plain (keyless schema) test rows) }
    ensures updated_at { (ev plain : Evaluator ℕ) (schema : Schema ℕ) (sets : List (SetItem ℕ)) (row : List Datum) (rows : List (List Datum)) → updated_at ev plain schema sets row rows ≡ moved_if_keyed schema (updated_at ev plain (keyless schema) sets row rows) }
    ensures deleted_at { (plain : Evaluator ℕ) (schema : Schema ℕ) (row : List Datum) (rows : List (List Datum)) → deleted_at plain schema row rows ≡ if_keyed schema (deleted_at plain (keyless schema) row rows) }
{}

/// What a statement on table t has to look at where all FOREIGN KEY constraints held (ISO/IEC 9075:1992, 11.8). A constraint that names
/// the table on neither side holds as before. Where rows are only added, each new row of the referencing table has to be
/// looked up, and no other. Where other rows are taken out or changed, so it is too, unless the table is referred to.
pub fn tests_of_foreign_keys()
    ensures elsewhere { (tables : List (List (List Datum))) (t : ℕ) (rows : List (List Datum)) (key : ForeignKey) → key.from ≢ t → key.to ≢ t → is_keyed (slice_set tables t rows) key ≡ is_keyed tables key }
    ensures added { (tables : List (List (List Datum))) (t : ℕ) (columns : List ℕ) (new : List (List Datum)) (key : ForeignKey) → t < length tables → is_keyed tables key ≡ true → (let after = slice_set tables t (in_order columns (rows_at tables t ++ new)) in is_keyed after key ≡ new_are_referred key t after new) }
    ensures referring { (tables : List (List (List Datum))) (t : ℕ) (columns : List ℕ) (left new : List (List Datum)) (key : ForeignKey) → t < length tables → key.from ≡ t → key.to ≢ t → is_keyed tables key ≡ true → ((p : List Datum → Bool) → list_all p (rows_at tables t) ≡ true → list_all p left ≡ true) → is_keyed (slice_set tables t (in_order columns (left ++ new))) key ≡ list_all (is_referred key.columns key.target (rows_at tables key.to)) new }
{}

/// What a cursor does (ISO/IEC 9075:1992, 13.3): a row that FETCH finds lies past the key that the cursor reached, a cursor that is
/// past the last row stays there whatever rows there are, and one that has lost its row stands on none.
pub fn cursor_laws()
    ensures onward { (ev : Evaluator ℕ) (query : Query ℕ) (key : List ℕ) (rows : List (List Datum)) (p q : Position) (row : List Datum) → advanced ev query key rows p ≡ Ok (Some row, q) → lies_past key query.downward p.bound row ≡ true }
    ensures past { (ev : Evaluator ℕ) (query : Query ℕ) (key : List ℕ) (rows : List (List Datum)) (p : Position) → p.is_past_last ≡ true → advanced ev query key rows p ≡ Ok (None, p) }
    ensures lost { (key : List ℕ) (rows : List (List Datum)) (p : Position) → current key rows (left_row p) ≡ None }
{}
