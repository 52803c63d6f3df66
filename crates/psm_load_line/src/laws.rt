//! A line that is written is read again, and a line that is read was written so.
ghost use Rattle.std.specs.Prelude.{◌≡◌, ◌∷◌, ℕ, List, length, Some};
ghost use Rattle.psm_value.specs.declared.sqltype.SqlType.{SqlType};
ghost use Rattle.psm_cond.specs.declared.handlers.Context.{Context};
ghost use Rattle.psm_table.specs.declared.definition.Column.{Column};
ghost use Rattle.psm_table.specs.declared.definition.ForeignKey.{ForeignKey};
ghost use Rattle.psm_code.specs.declared.code.CodeCursor.{CodeCursor};
ghost use Rattle.psm_code.specs.declared.code.CodeTable.{CodeTable};
ghost use Rattle.psm_code.specs.declared.code.Parameter.{Parameter};
ghost use Rattle.psm_code.specs.declared.lines.CodeLine.{CodeLine};
ghost use Rattle.psm_words.specs.Words.{FitsType};
ghost use Rattle.psm_object.specs.Handlers.{context_line};
ghost use Rattle.psm_object.specs.Instructions.{code_line};
ghost use Rattle.psm_object.specs.Queries.{cursor_line};
ghost use Rattle.psm_object.specs.Routines.{parameter_line, slot_line};
ghost use Rattle.psm_object.specs.Tables.{column_line, key_line, reference_line, table_line, unique_line};
ghost use Rattle.psm_load_line.specs.Forms.{HandlerHead, ItemHead, PlanHead, QueryHead, ReferenceWords, TableHead, column_at, condition_at, context_at, first_at, handler_at, item_at, key_at, plan_at, query_at, reference_at, table_at, unique_at};
ghost use Rattle.psm_load_line.specs.Heads.{AreColumns, AreReferenceWords, ConditionHead, IsCodeLine, IsColumn, IsConditionHead, IsContext, IsCursor, IsHandlerHead, IsIndex, IsParameter, IsPlanHead, IsQueryHead, IsRoutineHead, IsTableHead, condition_head_line, expression_head_line, first_head_line, handler_head_line, item_head_line, plan_head_line, query_head_line, routine_head_line, table_head, table_head_line};
ghost use Rattle.psm_load_line.specs.InstructionForms.{code_line_at};
ghost use Rattle.psm_load_line.specs.OperationForms.{expression_at};
ghost use Rattle.psm_load_line.specs.Said.{key_from, reference_of};
ghost use Rattle.psm_load_line.specs.RoutineForms.{RoutineHead, cursor_at, parameter_at, routine_at, slot_at};

/// The lines `TABLE`, `EXPR`, `PLAN`, `HANDLER` and those of instructions: what is written for a value that such a line can say is read
/// as that value, and a line that is read is the one that is written for a value that it can say.
pub fn lines_have_one_spelling()
    ensures table_heads { (own : List ForeignKey) (t : CodeTable) → table_line (length own) t ≡ table_head_line (table_head own t) }
    ensures table_again { (h : TableHead) → IsTableHead h → table_at (table_head_line h) ≡ Some h }
    ensures table_takes { (s : List ℕ) (h : TableHead) → table_at s ≡ Some h → (s ≡ table_head_line h) × IsTableHead h }
    ensures expression_again { (m : ℕ) → IsIndex m → expression_at (expression_head_line m) ≡ Some m }
    ensures expression_takes { (s : List ℕ) (m : ℕ) → expression_at s ≡ Some m → (s ≡ expression_head_line m) × IsIndex m }
    ensures plan_again { (p : PlanHead) → IsPlanHead p → plan_at (plan_head_line p) ≡ Some p }
    ensures plan_takes { (s : List ℕ) (p : PlanHead) → plan_at s ≡ Some p → (s ≡ plan_head_line p) × IsPlanHead p }
    ensures handler_again { (h : HandlerHead) → IsHandlerHead h → handler_at (handler_head_line h) ≡ Some h }
    ensures handler_takes { (s : List ℕ) (h : HandlerHead) → handler_at s ≡ Some h → (s ≡ handler_head_line h) × IsHandlerHead h }
    ensures line_again { (l : CodeLine) → IsCodeLine l → code_line_at (code_line l) ≡ Some l }
    ensures line_takes { (s : List ℕ) (l : CodeLine) → code_line_at s ≡ Some l → (s ≡ code_line l) × IsCodeLine l }
{}

/// The same of all other lines.
pub fn other_lines_have_one_spelling()
    ensures first_again { (h : ℕ × ℕ) → IsIndex h.0 × IsIndex h.1 → first_at (first_head_line h) ≡ Some h }
    ensures first_takes { (s : List ℕ) (h : ℕ × ℕ) → first_at s ≡ Some h → (s ≡ first_head_line h) × (IsIndex h.0 × IsIndex h.1) }
    ensures column_again { (c : Column) → IsColumn c → column_at (column_line c) ≡ Some c }
    ensures column_takes { (s : List ℕ) (c : Column) → column_at s ≡ Some c → (s ≡ column_line c) × IsColumn c }
    ensures key_again { (x : ℕ × List ℕ) → AreColumns x → key_at (key_line (x.0 ∷ x.1)) ≡ Some x }
    ensures key_takes { (s : List ℕ) (x : ℕ × List ℕ) → key_at s ≡ Some x → (s ≡ key_line (x.0 ∷ x.1)) × AreColumns x }
    ensures unique_again { (x : ℕ × List ℕ) → AreColumns x → unique_at (unique_line (x.0 ∷ x.1)) ≡ Some x }
    ensures unique_takes { (s : List ℕ) (x : ℕ × List ℕ) → unique_at s ≡ Some x → (s ≡ unique_line (x.0 ∷ x.1)) × AreColumns x }
    ensures reference_again { (x : ReferenceWords) → AreReferenceWords x → reference_at (reference_line (key_from 0 (reference_of x))) ≡ Some x }
    ensures reference_takes { (s : List ℕ) (x : ReferenceWords) → reference_at s ≡ Some x → (s ≡ reference_line (key_from 0 (reference_of x))) × AreReferenceWords x }
    ensures query_again { (h : QueryHead) → IsQueryHead h → query_at (query_head_line h) ≡ Some h }
    ensures query_takes { (s : List ℕ) (h : QueryHead) → query_at s ≡ Some h → (s ≡ query_head_line h) × IsQueryHead h }
    ensures item_again { (i : ItemHead) → item_at (item_head_line i) ≡ Some i }
    ensures item_takes { (s : List ℕ) (i : ItemHead) → item_at s ≡ Some i → s ≡ item_head_line i }
    ensures condition_again { (h : ConditionHead) → IsConditionHead h → condition_at (condition_head_line h) ≡ Some h }
    ensures condition_takes { (s : List ℕ) (h : ConditionHead) → condition_at s ≡ Some h → (s ≡ condition_head_line h) × IsConditionHead h }
    ensures context_again { (c : Context) → IsContext c → context_at (context_line c) ≡ Some c }
    ensures context_takes { (s : List ℕ) (c : Context) → context_at s ≡ Some c → (s ≡ context_line c) × IsContext c }
    ensures parameter_again { (p : Parameter) → IsParameter p → parameter_at (parameter_line p) ≡ Some p }
    ensures parameter_takes { (s : List ℕ) (p : Parameter) → parameter_at s ≡ Some p → (s ≡ parameter_line p) × IsParameter p }
    ensures slot_again { (k : SqlType) → FitsType k → slot_at (slot_line k) ≡ Some k }
    ensures slot_takes { (s : List ℕ) (k : SqlType) → slot_at s ≡ Some k → (s ≡ slot_line k) × FitsType k }
    ensures cursor_again { (c : CodeCursor) → IsCursor c → cursor_at (cursor_line c) ≡ Some c }
    ensures cursor_takes { (s : List ℕ) (c : CodeCursor) → cursor_at s ≡ Some c → (s ≡ cursor_line c) × IsCursor c }
    ensures routine_again { (h : RoutineHead) → IsRoutineHead h → routine_at (routine_head_line h) ≡ Some h }
    ensures routine_takes { (s : List ℕ) (h : RoutineHead) → routine_at s ≡ Some h → (s ≡ routine_head_line h) × IsRoutineHead h }
{}
