//! The rules that a module file or a script may break.
ghost use Rattle.std.specs.Prelude.{◌≡◌};
ghost use Rattle.psm_rules.specs.Texts.{number_of, text_of};

/// A rule of the checker, in the order of the codes.
#[derive(Clone, Copy, Debug, PartialEq, Eq)]
pub enum Rule {
    /// A table's name that stands twice.
    TableRepeated,
    /// A column's name that stands twice, in a table or in a list of columns.
    ColumnRepeated,
    /// No column of the table has this name.
    UnknownColumn,
    /// A table has to have exactly one primary key.
    NotOnePrimaryKey,
    /// A type whose length, digits or decimals are beyond what a type may have.
    TypeOutOfRange,
    /// Column 101 of a table.
    TooManyColumns,
    /// A constant of the other family, or a DEFAULT that its column can't store.
    ConstantDoesNotFit,
    /// A procedure of a name and a number of parameters that another has.
    ProcedureRepeated,
    /// A function of a name and kinds of parameters that another has.
    FunctionsNotDistinct,
    /// A parameter's name that stands twice in a routine.
    ParameterRepeated,
    /// An OUT or INOUT parameter of a function.
    ModeNotAllowed,
    /// A function in whose body no RETURN stands.
    FunctionWithoutReturn,
    /// RETURN in a procedure.
    ReturnOutsideFunction,
    /// INSERT, UPDATE, DELETE or CALL in a function.
    NotAllowedInFunction,
    /// A label that is that of a statement around it.
    LabelRepeated,
    /// A label after the end that isn't the one before the beginning.
    EndLabelDiffers,
    /// No statement around has this label, or, for ITERATE, no loop.
    UnknownLabel,
    /// A variable, condition or cursor that its block declares twice.
    DeclarationRepeated,
    /// No variable, parameter or column is meant by this name.
    UnknownName,
    /// No table has this name.
    UnknownTable,
    /// No condition of this name is declared.
    UnknownCondition,
    /// No cursor of this name is declared.
    UnknownCursor,
    /// No procedure has this name and this number of parameters.
    UnknownProcedure,
    /// No function has this name and parameters to which the arguments go.
    NoFunction,
    /// Two functions are as good for these arguments.
    AmbiguousFunction,
    /// A target, or an argument for OUT or INOUT, that can't be assigned.
    NotAssignable,
    /// A condition where a value is due, or a value where a condition is.
    Misplaced,
    /// A number where a text is due, or a text where a number is.
    FamiliesMixed,
    /// A product with more than 18 decimals.
    ScaleAboveMost,
    /// As many values as there are columns or targets are due.
    CountsDiffer,
    /// A subquery or a user function in a row expression.
    NotAllowedOnRow,
    /// A set function beside other items, or in a cursor or FOR.
    SetFunctionMisplaced,
    /// ORDER BY of other columns than those of the key, in its order.
    OrderIsNotKey,
    /// A positioned statement over a cursor that isn't for it.
    CursorNotUpdatable,
    /// OPEN, FETCH or CLOSE of the cursor of a FOR statement.
    CursorOfFor,
    /// An UNDO handler in a block that isn't ATOMIC.
    UndoNeedsAtomic,
    /// A value that two handlers of a block name, or one names twice.
    ConditionValueRepeated,
    /// A text that is no SQLSTATE, or one of success.
    BadSqlState,
    /// An item of FOR without a name, or with one that stands twice.
    ItemNeedsName,
    /// CASE or COALESCE of NULLs alone.
    NullWithoutType,
    /// `?` for an IN parameter, or a constant for another, in a script.
    ArgumentMisfitsMode,
    /// A characteristic that stands twice.
    CharacteristicRepeated,
    /// A foreign key that refers to no key, or to other columns than it has.
    KeyDoesNotMatch,
}

impl Rule {
    /// What is printed of a part that breaks the rule: its code, and what is wrong.
    pub fn text(self) -> &'static str
        ensures { result.now ≡ text_of self }
    {
        match self {
            Rule::TableRepeated => "K01 table name repeated",
            Rule::ColumnRepeated => "K02 column name repeated",
            Rule::UnknownColumn => "K03 unknown column",
            Rule::NotOnePrimaryKey => "K04 not one primary key",
            Rule::TypeOutOfRange => "K05 type out of range",
            Rule::TooManyColumns => "K06 too many columns",
            Rule::ConstantDoesNotFit => "K07 constant does not fit",
            Rule::ProcedureRepeated => "K10 procedure repeated",
            Rule::FunctionsNotDistinct => "K11 functions not distinct",
            Rule::ParameterRepeated => "K12 parameter name repeated",
            Rule::ModeNotAllowed => "K13 mode not allowed",
            Rule::FunctionWithoutReturn => "K14 function without RETURN",
            Rule::ReturnOutsideFunction => "K15 RETURN outside a function",
            Rule::NotAllowedInFunction => "K16 not allowed in a function",
            Rule::LabelRepeated => "K17 label repeated",
            Rule::EndLabelDiffers => "K18 end label differs",
            Rule::UnknownLabel => "K19 unknown label",
            Rule::DeclarationRepeated => "K20 declaration repeated",
            Rule::UnknownName => "K21 unknown name",
            Rule::UnknownTable => "K22 unknown table",
            Rule::UnknownCondition => "K23 unknown condition",
            Rule::UnknownCursor => "K24 unknown cursor",
            Rule::UnknownProcedure => "K25 unknown procedure",
            Rule::NoFunction => "K26 no function for these arguments",
            Rule::AmbiguousFunction => "K27 ambiguous function",
            Rule::NotAssignable => "K28 cannot be assigned",
            Rule::Misplaced => "K29 condition or value misplaced",
            Rule::FamiliesMixed => "K30 number and text mixed",
            Rule::ScaleAboveMost => "K31 scale above 18",
            Rule::CountsDiffer => "K32 counts differ",
            Rule::NotAllowedOnRow => "K33 not allowed in a row expression",
            Rule::SetFunctionMisplaced => "K34 set function misplaced",
            Rule::OrderIsNotKey => "K35 order is not the key",
            Rule::CursorNotUpdatable => "K36 cursor cannot be updated",
            Rule::CursorOfFor => "K37 cursor of a FOR statement",
            Rule::UndoNeedsAtomic => "K38 UNDO needs ATOMIC",
            Rule::ConditionValueRepeated => "K39 condition value repeated",
            Rule::BadSqlState => "K40 bad SQLSTATE",
            Rule::ItemNeedsName => "K41 item needs a name of its own",
            Rule::NullWithoutType => "K42 NULL without a type",
            Rule::ArgumentMisfitsMode => "K43 argument does not fit its mode",
            Rule::CharacteristicRepeated => "K44 note repeated",
            Rule::KeyDoesNotMatch => "K45 foreign key does not match",
        }
    }

    /// The number of its code, by which two faults of one place are ordered.
    pub(crate) fn number(self) -> u8
        ensures { result ≡ number_of self }
    {
        match self {
            Rule::TableRepeated => 1,
            Rule::ColumnRepeated => 2,
            Rule::UnknownColumn => 3,
            Rule::NotOnePrimaryKey => 4,
            Rule::TypeOutOfRange => 5,
            Rule::TooManyColumns => 6,
            Rule::ConstantDoesNotFit => 7,
            Rule::ProcedureRepeated => 10,
            Rule::FunctionsNotDistinct => 11,
            Rule::ParameterRepeated => 12,
            Rule::ModeNotAllowed => 13,
            Rule::FunctionWithoutReturn => 14,
            Rule::ReturnOutsideFunction => 15,
            Rule::NotAllowedInFunction => 16,
            Rule::LabelRepeated => 17,
            Rule::EndLabelDiffers => 18,
            Rule::UnknownLabel => 19,
            Rule::DeclarationRepeated => 20,
            Rule::UnknownName => 21,
            Rule::UnknownTable => 22,
            Rule::UnknownCondition => 23,
            Rule::UnknownCursor => 24,
            Rule::UnknownProcedure => 25,
            Rule::NoFunction => 26,
            Rule::AmbiguousFunction => 27,
            Rule::NotAssignable => 28,
            Rule::Misplaced => 29,
            Rule::FamiliesMixed => 30,
            Rule::ScaleAboveMost => 31,
            Rule::CountsDiffer => 32,
            Rule::NotAllowedOnRow => 33,
            Rule::SetFunctionMisplaced => 34,
            Rule::OrderIsNotKey => 35,
            Rule::CursorNotUpdatable => 36,
            Rule::CursorOfFor => 37,
            Rule::UndoNeedsAtomic => 38,
            Rule::ConditionValueRepeated => 39,
            Rule::BadSqlState => 40,
            Rule::ItemNeedsName => 41,
            Rule::NullWithoutType => 42,
            Rule::ArgumentMisfitsMode => 43,
            Rule::CharacteristicRepeated => 44,
            Rule::KeyDoesNotMatch => 45,
        }
    }
}
